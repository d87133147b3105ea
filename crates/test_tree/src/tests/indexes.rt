//! Worked indexes: what their calls answer where there is memory.
ghost use Rattle.std.specs.Prelude.{IsTrue};
ghost use Rattle.tuple_index.specs.Tuples.{HasRoom};

use std::alloc::{AllocError, Global};
use std::process::Abort;
use std::test::Fail;
use tuple_index::{Tuple, TupleIndex};

const S: Tuple = Tuple {
    relation: 1,
    entity: 7,
    attribute: 2,
    value: 50,
};

const T: Tuple = Tuple {
    relation: 1,
    entity: 7,
    attribute: 3,
    value: 60,
};

const U: Tuple = Tuple {
    relation: 1,
    entity: 8,
    attribute: 2,
    value: 50,
};

const V: Tuple = Tuple {
    relation: 2,
    entity: 7,
    attribute: 2,
    value: 50,
};

fn has_room(index: &TupleIndex) -> bool
    ensures { IsTrue result → HasRoom index.now 1 }
{
    index.version() < u64::MAX
}

fn has_room_for(index: &TupleIndex, from: &TupleIndex) -> bool
    ensures { IsTrue result → HasRoom index.now from.now.number }
{
    index.version() < u64::MAX - from.version()
}

// Adds a tuple that isn't there.
fn add(rt: &impl Abort, index: &mut TupleIndex, tuple: Tuple) -> Result<(), AllocError> {
    assert!(rt; has_room(index));
    assert!(rt; !index.add(tuple)?);
    Ok(())
}

fn assert_has(
    rt: &impl Abort,
    index: &TupleIndex,
    tuple: Tuple,
    is_there: bool,
) -> Result<(), AllocError> {
    assert!(rt; index.has(tuple)? == is_there);
    Ok(())
}

// The index with these, of which none comes twice.
fn index_of(rt: &impl Abort, alloc: Global, tuples: &[Tuple]) -> Result<TupleIndex, AllocError> {
    let mut index = TupleIndex::new(alloc);
    for tuple in tuples {
        add(rt, &mut index, *tuple)?;
    }
    Ok(index)
}

// The index with all four.
fn filled(rt: &impl Abort, alloc: Global) -> Result<TupleIndex, AllocError> {
    index_of(rt, alloc, &[V, U, T, S])
}

// A query by these columns gives these tuples, in this order.
fn assert_found(
    rt: &impl Abort,
    index: &TupleIndex,
    columns: &[u32],
    wanted: &[Tuple],
) -> Result<(), AllocError> {
    assert!(rt; columns.len() <= 4);
    let found = index.query(columns)?;
    assert!(rt; found.as_slice() == wanted);
    Ok(())
}

// Takes a tuple out, which a snapshot keeps.
fn taken(rt: &impl Abort, index: &mut TupleIndex, tuple: Tuple) -> Result<TupleIndex, AllocError> {
    assert!(rt; has_room(index));
    let older = index.snapshot()?;
    assert!(rt; index.take(tuple)?);
    assert_has(rt, index, tuple, false)?;
    assert_has(rt, &older, tuple, true)?;
    Ok(older)
}

#[test]
fn index_of_four_tuples_is_asked(rt: HostRuntime) -> Result<(), Fail> {
    let mut index = filled(&rt, rt.alloc())?;
    assert_found(&rt, &index, &[1, 7], &[S, T])?;
    let older = taken(&rt, &mut index, S)?;
    let common = index.join(&older)?;
    assert!(rt; common.as_slice() == [T, U, V].as_slice());
    Ok(())
}

#[test]
fn index_of_many_tuples_is_asked(rt: HostRuntime) -> Result<(), Fail> {
    let mut index = TupleIndex::new(rt.alloc());
    for entity in 0..300 {
        add(&rt, &mut index, Tuple { entity, ..S })?;
    }
    for entity in 0..300 {
        assert_has(&rt, &index, Tuple { entity, ..S }, true)?;
    }
    assert_eq!(rt; index.query(&[1])?.len(), 300);
    assert_eq!(rt; index.query(&[1, 299])?.len(), 1);
    Ok(())
}

// Takes out all tuples with these first columns, and answers them.
fn cut(rt: &impl Abort, index: &mut TupleIndex, columns: &[u32]) -> Result<TupleIndex, AllocError> {
    assert!(rt; columns.len() <= 4);
    assert!(rt; index.has_any(columns));
    assert!(rt; has_room(index));
    let part = index.snapshot_of(columns)?;
    assert!(rt; index.take_all(columns)?);
    assert!(rt; !index.has_any(columns));
    Ok(part)
}

#[test]
fn index_is_cut_at_first_columns(rt: HostRuntime) -> Result<(), Fail> {
    let mut index = filled(&rt, rt.alloc())?;
    let of_seven = cut(&rt, &mut index, &[1, 7])?;
    assert_found(&rt, &of_seven, &[], &[S, T])?;
    assert_found(&rt, &index, &[], &[U, V])?;
    assert!(rt; has_room(&index));
    assert!(rt; !index.take_all(&[1, 7])?);
    assert!(rt; has_room_for(&index, &of_seven));
    index.restore_all(&[1], &of_seven)?;
    assert_found(&rt, &index, &[], &[S, T, V])?;
    assert_eq!(rt; index.version(), 10);
    Ok(())
}

// The index has all these and no other, and this number.
fn assert_is(
    rt: &impl Abort,
    index: &TupleIndex,
    wanted: (&[Tuple], u64),
) -> Result<(), AllocError> {
    let (tuples, number) = wanted;
    assert_found(rt, index, &[], tuples)?;
    assert_eq!(rt; index.version(), number);
    Ok(())
}

// What two sets make together has these tuples and these numbers: their union, intersection,
// difference and symmetric difference. They themselves stay.
fn assert_together(
    rt: &impl Abort,
    alloc: Global,
    left: &[Tuple],
    right: &[Tuple],
    wanted: [(&[Tuple], u64); 4],
) -> Result<(), AllocError> {
    let (one, other) = (index_of(rt, alloc, left)?, index_of(rt, alloc, right)?);
    assert!(rt; has_room(&one));
    assert!(rt; has_room_for(&one, &other));
    let [either, both, left_alone, one_alone] = wanted;
    assert_is(rt, &one.union(&other)?, either)?;
    assert_is(rt, &one.intersection(&other)?, both)?;
    assert_is(rt, &one.difference(&other)?, left_alone)?;
    assert_is(rt, &one.symmetric_difference(&other)?, one_alone)?;
    assert_is(rt, &one, (left, left.len() as u64))?;
    assert_is(rt, &other, (right, right.len() as u64))
}

#[test]
fn indexes_are_put_together(rt: HostRuntime) -> Result<(), Fail> {
    let alloc = rt.alloc();
    assert_together(
        &rt,
        alloc,
        &[S, T, V],
        &[T, U],
        [(&[S, T, U, V], 5), (&[T], 4), (&[S, V], 4), (&[S, U, V], 5)],
    )?;
    assert_together(
        &rt,
        alloc,
        &[T, U],
        &[S, T, V],
        [(&[S, T, U, V], 5), (&[T], 3), (&[U], 3), (&[S, U, V], 5)],
    )?;
    Ok(())
}

#[test]
fn index_is_put_together_with_none_and_with_itself(rt: HostRuntime) -> Result<(), Fail> {
    let alloc = rt.alloc();
    assert_together(
        &rt,
        alloc,
        &[S, U],
        &[],
        [(&[S, U], 2), (&[], 3), (&[S, U], 3), (&[S, U], 2)],
    )?;
    assert_together(
        &rt,
        alloc,
        &[],
        &[S, U],
        [(&[S, U], 2), (&[], 1), (&[], 1), (&[S, U], 2)],
    )?;
    assert_together(
        &rt,
        alloc,
        &[S, T],
        &[S, T],
        [(&[S, T], 4), (&[S, T], 3), (&[], 3), (&[], 4)],
    )?;
    Ok(())
}

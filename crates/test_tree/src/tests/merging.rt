//! Patches and merges.
ghost use Rattle.std.specs.Prelude.{IfOk, IsTrue, length, nat_eq};
ghost use Rattle.rart_maps.specs.ChangeLists.{changes};
ghost use Rattle.rart_maps.specs.Versions.{HasRoom};

use crate::tests::trees::{Tree, chain, tree_of};
use rart_changes::Merging;
use rart_versioned::{KeyTrait, VectorKey};
use std::alloc::{AllocError, Global};
use std::test::Fail;

// Whether the number has room for as many changes as there are from one to another.
fn has_room(tree: &Tree, old: &Tree, new: &Tree) -> Result<bool, AllocError>
    ensures { IfOk result (λ room. IsTrue room → HasRoom tree.now
        (length (changes nat_eq old.now.content new.now.content))) }
{
    Ok(old.diff_count(new)? <= u128::from(u64::MAX - tree.version()))
}

#[test]
fn patch_sets_all_keys(rt: HostRuntime) -> Result<(), Fail> {
    let old = Tree::new(rt.alloc());
    let new = chain(&rt, rt.alloc())?;
    let mut mine = Tree::new(rt.alloc());
    assert!(rt; has_room(&mine, &old, &new)?);
    mine.patch(&old, &new)?;
    assert!(rt; mine.equals(&new)?);
    Ok(())
}

// Both changed "b" and "d", and to the same "c". The answer is the sum of what the three have.
#[test]
fn conflicts_are_answered(rt: HostRuntime) -> Result<(), Fail> {
    let alloc = rt.alloc();
    let base = tree_of(&rt, alloc, &[(b"a", 1), (b"b", 2), (b"c", 3), (b"d", 4)])?;
    let theirs = tree_of(
        &rt,
        alloc,
        &[(b"a", 10), (b"b", 20), (b"c", 30), (b"e", 50)],
    )?;
    let mut ours = tree_of(
        &rt,
        alloc,
        &[(b"a", 1), (b"b", 200), (b"c", 30), (b"d", 400)],
    )?;
    assert!(rt; has_room(&ours, &base, &theirs)?);
    ours.merge_with(
        &base,
        &theirs,
        &mut |_key: &VectorKey, base: Option<&u64>, ours: Option<&u64>, theirs: Option<&u64>| {
            Some(
                value_or_none(base)
                    .wrapping_add(value_or_none(ours))
                    .wrapping_add(value_or_none(theirs)),
            )
        },
    )?;
    let wanted = tree_of(
        &rt,
        alloc,
        &[(b"a", 10), (b"b", 222), (b"c", 30), (b"d", 404), (b"e", 50)],
    )?;
    assert!(rt; ours.equals(&wanted)?);
    assert_eq!(rt; ours.version(), 9);
    Ok(())
}

fn value_or_none(value: Option<&u64>) -> u64 {
    value.copied().unwrap_or(0)
}

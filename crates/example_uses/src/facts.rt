//! An index of facts: queried by its first columns, and joined with an older snapshot.
use tuple_index::{Tuple, TupleIndex};

/// The relations.
const LIKES: u32 = 1;

const KNOWS: u32 = 2;

fn fact(relation: u32, entity: u32, attribute: u32, value: u32) -> Tuple {
    Tuple {
        relation,
        entity,
        attribute,
        value,
    }
}

fn print(rt: &HostRuntime, title: &str, facts: &[Tuple]) -> anyhow::Result<()> {
    println!(rt; "{title}")?;
    for fact in facts {
        println!(rt;
            "  {} {} {} {}",
            fact.relation, fact.entity, fact.attribute, fact.value
        )?;
    }
    Ok(())
}

pub fn show(rt: &HostRuntime) -> anyhow::Result<()> {
    let mut index = TupleIndex::new(rt.alloc());
    index.add(fact(LIKES, 7, 2, 50))?;
    index.add(fact(LIKES, 7, 3, 60))?;
    index.add(fact(LIKES, 8, 2, 50))?;
    index.add(fact(KNOWS, 7, 2, 50))?;
    let older = index.snapshot()?;

    index.take(fact(LIKES, 7, 2, 50))?;
    index.add(fact(LIKES, 256, 0, 0))?;
    print(rt, "facts of relation 1", &index.query(&[LIKES])?)?;
    print(
        rt,
        "facts of relation 1 and entity 7",
        &index.query(&[LIKES, 7])?,
    )?;
    print(
        rt,
        "facts that stayed since the snapshot",
        &index.join(&older)?,
    )
}

//! How long a chain of nodes the machine's stack takes. An argument is a number of levels, and
//! after a colon how many children each node of the chain has, as `1000` or `1000:49`; none says
//! one. For each argument a tree gets that many keys, each one byte longer than the one before, and
//! further keys beside them. The keys of the chain are looked up, the tree is intersected with a
//! clone, the deepest key is changed and removed, both trees are dropped, and a line is written.
#![tactic(auto)]

use anyhow::{Context, bail};
use rart_versioned::{KeyTrait, VectorKey, VersionedAdaptiveRadixTree};
use std::alloc::{AllocError, Global};
use std::str::FromStr;
use std::{env, mem};

type Chain = VersionedAdaptiveRadixTree<VectorKey, usize>;

/// What a chain looks like.
#[derive(Clone, Copy)]
struct Shape {
    /// How many nodes it has, one below another.
    levels: usize,
    /// How many children each node has besides the next one, which the deepest lacks.
    others: u8,
}

impl FromStr for Shape {
    type Err = anyhow::Error;

    fn from_str(word: &str) -> anyhow::Result<Shape> {
        let (levels, children) = word.split_once(':').unwrap_or((word, "1"));
        let levels = levels.parse().context("a number of levels is wanted")?;
        if levels == 0 {
            bail!("a chain has 1 level or more");
        }
        let children: usize = children.parse().context("a number of children is wanted")?;
        let others = children
            .checked_sub(1)
            .and_then(|others| u8::try_from(others).ok());
        Ok(Shape {
            levels,
            others: others.context("a node of the chain has 1 to 256 children")?,
        })
    }
}

fn insert(alloc: Global, chain: &mut Chain, bytes: &[u8]) -> Result<(), AllocError> {
    let key = VectorKey::new_from_slice(alloc, bytes)?;
    if chain.version() < u64::MAX {
        chain.insert_k(&key, bytes.len())?;
    }
    Ok(())
}

fn has(alloc: Global, chain: &Chain, bytes: &[u8]) -> Result<bool, AllocError> {
    let key = VectorKey::new_from_slice(alloc, bytes)?;
    Ok(chain.get_k(&key).copied() == Some(bytes.len()))
}

// Puts in `others` keys that go on from these bytes by one byte, which is none of the chain's.
fn insert_others(
    alloc: Global,
    chain: &mut Chain,
    bytes: &mut Vec<u8>,
    others: u8,
) -> Result<(), AllocError> {
    for step in 1..=others {
        bytes.push(b'a'.wrapping_add(step))?;
        insert(alloc, chain, bytes)?;
        bytes.pop();
    }
    Ok(())
}

fn insert_all(alloc: Global, chain: &mut Chain, shape: Shape) -> Result<(), AllocError> {
    let mut bytes = Vec::new(alloc);
    for _ in 0..shape.levels {
        bytes.push(b'a')?;
        insert(alloc, chain, &bytes)?;
        insert_others(alloc, chain, &mut bytes, shape.others)?;
    }
    Ok(())
}

fn has_all(alloc: Global, chain: &Chain, levels: usize) -> Result<bool, AllocError> {
    let mut bytes = Vec::new(alloc);
    let mut all = true;
    for _ in 0..levels {
        bytes.push(b'a')?;
        all &= has(alloc, chain, &bytes)?;
    }
    Ok(all)
}

// The deepest key of the chain.
fn deepest_key(alloc: Global, levels: usize) -> Result<VectorKey, AllocError> {
    VectorKey::new_from_slice(alloc, &vec![in alloc; b'a'; levels]?)
}

// Writes a value to a key, and answers the one before, if there is one.
fn change(chain: &mut Chain, key: &VectorKey, to: usize) -> Result<Option<usize>, AllocError> {
    if chain.version() == u64::MAX {
        return Ok(None);
    }
    Ok(chain.get_mut_k(key)?.map(|value| mem::replace(value, to)))
}

fn take(chain: &mut Chain, key: &VectorKey) -> Result<Option<usize>, AllocError> {
    if chain.version() == u64::MAX {
        return Ok(None);
    }
    chain.remove_k(key)
}

// Whether the deepest key of the chain is changed and removed as it should be.
fn deepest_goes(alloc: Global, chain: &mut Chain, levels: usize) -> Result<bool, AllocError> {
    let key = deepest_key(alloc, levels)?;
    let changed = change(chain, &key, 0)? == Some(levels);
    let removed = take(chain, &key)? == Some(0);
    Ok(changed && removed && chain.get_k(&key).is_none())
}

// How many keys the chain has, by all that it has in common with a clone.
fn len(chain: &Chain) -> Result<usize, AllocError> {
    Ok(chain.intersect_count(&chain.clone()?))
}

fn holds(alloc: Global, shape: Shape) -> Result<bool, AllocError> {
    let mut chain = Chain::new(alloc);
    insert_all(alloc, &mut chain, shape)?;
    let keys = shape.levels.saturating_mul(usize::from(shape.others) + 1);
    Ok(
        has_all(alloc, &chain, shape.levels)?
            && len(&chain)? == keys
            && deepest_goes(alloc, &mut chain, shape.levels)?,
    )
}

fn main(rt: HostRuntime) -> anyhow::Result<()> {
    for word in env::args(&rt)?.skip(1) {
        let shape = word.parse().with_context(|| format_args!("{word}"))?;
        let held = holds(rt.alloc(), shape)?;
        println!(rt; "{word} {held}")?;
    }
    Ok(())
}

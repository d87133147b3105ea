//! Trees made of the sorted pairs of a map, beside the tree whose changes made that map.
use crate::draw::Key;
use crate::version::{Map, Tree, Version};
use rart_versioned::{KeyTrait, SortedError, VectorKey, VersionedAdaptiveRadixTree};
use std::alloc::{AllocError, Global};

/// Whether trees made of the pairs of a version's map have these pairs, and the number of how many
/// they are, with keys held inline and with keys on the heap, and pairs out of order make none.
pub fn sorted_agrees(alloc: Global, version: &Version) -> Result<bool, AllocError> {
    Ok(
        inline_agrees(alloc, version)?
            && heap_agrees(alloc, &version.map)?
            && disorder_is_told(alloc, &version.map)?,
    )
}

fn inline_agrees(alloc: Global, version: &Version) -> Result<bool, AllocError> {
    let pairs = inline_pairs(alloc, &version.map)?;
    let Ok(tree) = Tree::from_sorted(alloc, pairs) else {
        return Ok(false);
    };
    Ok(tree.equals(&version.tree)? && tree.version() == version.map.len() as u64)
}

fn heap_agrees(alloc: Global, map: &Map) -> Result<bool, AllocError> {
    let mut pairs = Vec::new(alloc);
    for (key, value) in map {
        pairs.push((VectorKey::new_from_slice(alloc, key)?, *value))?;
    }
    let Ok(tree) = VersionedAdaptiveRadixTree::from_sorted(alloc, pairs) else {
        return Ok(false);
    };
    for (key, value) in map {
        if tree.get_bytes(key) != Some(value) {
            return Ok(false);
        }
    }
    Ok(tree.intersect_count(&tree) == map.len() && tree.version() == map.len() as u64)
}

// The last two pairs swapped, where there are two.
fn disorder_is_told(alloc: Global, map: &Map) -> Result<bool, AllocError> {
    let mut pairs = inline_pairs(alloc, map)?;
    let count = pairs.len();
    if count < 2 {
        return Ok(true);
    }
    pairs.swap(count - 2, count - 1);
    match Tree::from_sorted(alloc, pairs) {
        Err(SortedError::NotAscending { at }) => Ok(at == count - 1),
        _ => Ok(false),
    }
}

fn inline_pairs(alloc: Global, map: &Map) -> Result<Vec<(Key, u64)>, AllocError> {
    let mut pairs = Vec::new(alloc);
    for (key, value) in map {
        let length = key.len().min(16);
        pairs.push((Key::new_from_slice(alloc, &key[..length])?, *value))?;
    }
    Ok(pairs)
}

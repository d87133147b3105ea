//! What one tree has and another lacks, and what both have, beside what their maps say.
use crate::version::{Tree, Version};
use std::alloc::AllocError;

/// Whether one tree without the keys of another has the pairs that its map has and the other one's
/// lacks, and with these keys alone the pairs whose key both maps have, and no others.
pub fn parts_agree(left: &Version, right: &Version) -> Result<bool, AllocError> {
    if left.tree.version() == u64::MAX {
        return Ok(false);
    }
    Ok(
        is_part(&left.tree.difference(&right.tree)?, left, right, false)?
            && is_part(&left.tree.intersection(&right.tree)?, left, right, true)?,
    )
}

// Whether a tree has the pairs of one map whose key another map has, or those whose key it lacks.
fn is_part(
    part: &Tree,
    left: &Version,
    right: &Version,
    is_common: bool,
) -> Result<bool, AllocError> {
    let mut many = 0_u64;
    for (key, value) in &left.map {
        let is_there = right.map.get(key).is_some() == is_common;
        let wanted = if is_there { Some(*value) } else { None };
        if part.get_bytes(key.as_slice()).copied() != wanted {
            return Ok(false);
        }
        many = many.saturating_add(u64::from(is_there));
    }
    Ok(part.count()? == many)
}

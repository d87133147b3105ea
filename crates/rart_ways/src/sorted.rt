//! A tree made of sorted pairs, each node of it once.
//!
//! Pairs are taken from the end of a list. Those from a place on begin alike for so many bytes, and
//! make one node: its prefix is what the first and the last of them have in common behind these
//! bytes, and its value the first one's, where that key ends with the prefix. The others fall into
//! runs by their next byte, of which each makes a child, the last one first.
//!
//! rart has no such calls: there pair after pair is put in.
ghost use Rattle.std.specs.Prelude.{◌≡◌, ◌≢◌, ◌⊎◌, ℕ, ◌+◌, ◌<◌, ◌≤◌, IfNone, IfOk, IfSome, IsTrue, OnOk, Some, drop, length, slice_get, take};
ghost use Rattle.std.specs.FinMap.{is_sorted};
ghost use Rattle.rart_below.specs.Bytes.{byte_order};
ghost use Rattle.rart_node.specs.Nodes.{nodes_of};
ghost use Rattle.rart_node.specs.Shape.{prefix_of};
ghost use Rattle.rart_node.specs.Trees.{BeginsWith, IsTree, pairs_of};
ghost use Rattle.rart_ways.specs.Runs.{AllBegin, AllLong, EndsBesides, run_from, runs, shared};

use rart_below::{KeyTrait, Partial};
use rart_node::{NodeRef, VersionedNode, Work, rest_of};
use std::alloc::{AllocError, Global};

/// Makes a tree of the pairs from a place on, of which each key is taken from `depth` on, and takes
/// them out of the list. No node is entered. Refused for memory, there is no tree, and some of the
/// pairs are gone.
///
/// It calls itself at most as deep as the longest key has bytes. What makes a prefix is not inlined,
/// so that a level takes little of the machine's stack.
pub fn tree_of<K: KeyTrait, V: Drop>(
    alloc: Global,
    pairs: &mut Vec<(K, V)>,
    from: usize,
    depth: usize,
    version: u64,
    work: &mut Work,
) -> Result<NodeRef<K::PartialType, V>, AllocError>
    requires some { from < length pairs.old.items }
    requires long { AllLong K.bytes depth (drop from pairs.old.items) }
    requires ascending { IsTrue (is_sorted byte_order
        (run_from K.bytes from depth pairs.old.items)) }
    ensures tree { IfOk result (λ root. IsTree root.shape) }
    ensures pairs { IfOk result (λ root. pairs_of root.shape
        ≡ run_from K.bytes from depth pairs.old.items) }
    ensures first { IfOk result (λ root. (byte : ℕ)
        → AllBegin byte (run_from K.bytes from depth pairs.old.items)
        → BeginsWith byte (prefix_of root.shape)) }
    ensures left { OnOk result (pairs.new.items ≡ take from pairs.old.items) }
    ensures made { IfOk result (λ root. work.new.made ≡ work.old.made + nodes_of root.shape) }
    ensures entered { work.new.entered ≡ work.old.entered }
{
    let (prefix, at) = prefix_for(alloc, pairs.as_slice(), from, depth)?;
    let first = first_below(pairs.as_slice(), from, at);
    let count = count_runs(pairs.as_slice(), first, at);
    let mut node = VersionedNode::with_room(alloc, prefix, None, count, version)?;
    'building: while first < pairs.len() {
        let (start, byte) = last_run(pairs.as_slice(), first, at);
        let child = tree_of(alloc, pairs, start, at, version, work)?;
        node.add_child(alloc, byte, child, work)?;
    }
    match take_own(pairs, from) {
        None => NodeRef::new(alloc, node, work),
        Some(value) => {
            node.set_value(value);
            NodeRef::new(alloc, node, work)
        }
    }
}

/// Takes out the pair at a place, which is the last one, where there is one, and gives its value.
fn take_own<K: KeyTrait, V>(pairs: &mut Vec<(K, V)>, from: usize) -> Option<V>
    requires within { from ≤ length pairs.old.items }
    requires last { length pairs.old.items ≤ from + 1 }
    ensures left { pairs.new.items ≡ take from pairs.old.items }
    ensures none { IfNone result (length pairs.old.items ≡ from) }
    ensures value { IfSome result (λ value. (length pairs.old.items ≡ from + 1)
        × ((pair : K × V) → slice_get pairs.old.items from ≡ Some pair → value ≡ pair.1)) }
{
    if pairs.len() == from {
        return None;
    }
    let (_key, value) = pairs.pop()?;
    Some(value)
}

/// What the first of the pairs and the last have in common behind the first `depth` bytes of their
/// keys, and the place behind it.
#[inline(never)]
fn prefix_for<K: KeyTrait, V>(
    alloc: Global,
    pairs: &[(K, V)],
    from: usize,
    depth: usize,
) -> Result<(K::PartialType, usize), AllocError>
    requires some { from < length pairs.now }
    requires long { AllLong K.bytes depth (drop from pairs.now) }
    ensures prefix { IfOk result (λ made. K.PartialType.bytes made.0
        ≡ shared (run_from K.bytes from depth pairs.now)) }
    ensures at { IfOk result (λ made. made.1
        ≡ depth + length (shared (run_from K.bytes from depth pairs.now))) }
{
    let first = pairs[from].0.to_partial(alloc, depth)?;
    let last = rest_of(pairs[pairs.len() - 1].0.as_ref(), depth);
    let common = first.prefix_length_slice(last);
    let at = depth + common;
    if common == first.len() {
        return Ok((first, at));
    }
    let before = first.partial_before(alloc, common)?;
    Ok((before, at))
}

/// The place of the first pair that stands below a node: behind the first one, where the node's
/// prefix ends with that key.
fn first_below<K: KeyTrait, V>(pairs: &[(K, V)], from: usize, at: usize) -> usize
    requires { from < length pairs.now }
    ensures { (pair : K × V) → slice_get pairs.now from ≡ Some pair
        → ((result ≡ from + 1) × (length (K.bytes pair.0) ≡ at))
        ⊎ ((result ≡ from) × (length (K.bytes pair.0) ≢ at)) }
{
    if pairs[from].0.as_ref().len() == at {
        from + 1
    } else {
        from
    }
}

/// How many runs of keys with the same byte at a place there are.
fn count_runs<K: KeyTrait, V>(pairs: &[(K, V)], first: usize, at: usize) -> usize
    requires within { first ≤ length pairs.now }
    requires long { AllLong K.bytes (at + 1) (drop first pairs.now) }
    ensures { result ≡ runs (run_from K.bytes first at pairs.now) }
{
    let mut count = 0;
    let mut end = pairs.len();
    'counting: while first < end {
        let (start, _byte) = last_run(&pairs[..end], first, at);
        end = start;
        count += 1;
    }
    count
}

/// Where the last run of keys with the same byte at a place begins, and that byte.
fn last_run<K: KeyTrait, V>(pairs: &[(K, V)], first: usize, at: usize) -> (usize, u8)
    requires some { first < length pairs.now }
    requires long { AllLong K.bytes (at + 1) (drop first pairs.now) }
    ensures from { first ≤ result.0 }
    ensures within { result.0 < length pairs.now }
    ensures alike { AllBegin result.1 (run_from K.bytes result.0 at pairs.now) }
    ensures apart { EndsBesides result.1 (run_from K.bytes first at (take result.0 pairs.now)) }
{
    let last = pairs.len() - 1;
    let byte = pairs[last].0.at(at);
    let mut start = last;
    'going_back: while first < start {
        if pairs[start - 1].0.at(at) != byte {
            return (start, byte);
        }
        start -= 1;
    }
    (start, byte)
}

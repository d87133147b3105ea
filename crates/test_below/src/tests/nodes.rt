//! Nodes as the tests make them: inner ones over leaves whose values tell them apart.
ghost use Rattle.rart_node.specs.Shape.{IsAscending};

use rart_below::{ArrPartial, Partial};
use rart_node::{GrowError, NodeRef, VersionedNode, Work};
use std::alloc::{AllocError, Global};
use std::process::Abort;

/// A prefix of four bytes.
pub fn prefix(alloc: Global, bytes: &[u8; 4]) -> Result<ArrPartial<16>, AllocError> {
    ArrPartial::new_from_slice(alloc, bytes)
}

/// A pointer to a leaf with this value.
pub fn leaf<P: Partial, V: Drop>(
    alloc: Global,
    prefix: &P,
    value: V,
) -> Result<NodeRef<P, V>, AllocError> {
    let node = VersionedNode::new_leaf(alloc, prefix.copy(alloc)?, value, 0);
    NodeRef::new(alloc, node, &mut Work::new())
}

/// The value of the node that the pointer shows.
pub fn value_of<P: Partial>(pointer: &NodeRef<P, u64>) -> Option<u64> {
    pointer.open(&mut Work::new()).value().copied()
}

// Adds a leaf with this value under a byte that has no child.
#[tactic(auto, using(rart_node::proofs::ChildOrderLemmas::keeps_order))]
fn add_leaf<P: Partial, V: Drop>(
    rt: &impl Abort,
    alloc: Global,
    node: &mut VersionedNode<P, V>,
    byte: u8,
    value: V,
) -> Result<(), AllocError>
    requires { IsAscending node.old.shape }
    ensures { IsAscending node.new.shape }
{
    let child = leaf(alloc, node.prefix(), value)?;
    assert!(rt; node.seek_child(byte).is_none());
    node.add_child(alloc, byte, child, &mut Work::new())?;
    Ok(())
}

/// A node whose children stand in the order of their bytes, which is what its calls ask. So a test
/// makes each of them as it likes, and its proof carries no node.
#[derive(Drop)]
pub struct TestNode<P: Partial, V> {
    node: VersionedNode<P, V>,
    ghost order: { IsAscending node.shape },
}

#[tactic(auto, using(rart_node::proofs::ChildOrderLemmas::keeps_order))]
impl<P: Partial, V: Drop> TestNode<P, V> {
    pub fn inner(alloc: Global, prefix: P) -> Result<TestNode<P, V>, AllocError> {
        Ok(TestNode {
            node: VersionedNode::new_inner(alloc, prefix, 0)?,
        })
    }

    pub fn is_full(&self) -> bool {
        self.node.is_full()
    }

    pub fn num_children(&self) -> usize {
        self.node.num_children()
    }

    /// Adds a leaf with this value under a byte that has no child.
    pub fn add_leaf(
        &mut self,
        rt: &impl Abort,
        alloc: Global,
        byte: u8,
        value: V,
    ) -> Result<(), AllocError> {
        add_leaf(rt, alloc, &mut self.node, byte, value)
    }
}

#[tactic(auto, using(rart_node::proofs::ChildOrderLemmas::keeps_order))]
impl<P: Partial> TestNode<P, u64> {
    pub fn grow(&self, alloc: Global) -> Result<TestNode<P, u64>, GrowError> {
        Ok(TestNode {
            node: self.node.grow(alloc, 1)?,
        })
    }

    pub fn cow_clone_inner(&self, alloc: Global) -> Result<TestNode<P, u64>, AllocError> {
        Ok(TestNode {
            node: self.node.cow_clone_inner(alloc, 1)?,
        })
    }

    pub fn cloned(&self) -> Result<TestNode<P, u64>, AllocError> {
        Ok(TestNode {
            node: self.node.clone()?,
        })
    }
}

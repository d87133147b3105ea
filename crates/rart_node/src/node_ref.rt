// Ported from rart 0.11.0 (Apache-2.0), and rewritten.
//! The counted pointer to a node, through which each reading and each change is counted.
ghost use Rattle.std.specs.Prelude.{◌≡◌, ◌+◌, IfOk};
ghost use Rattle.rart_below.specs.Clones.{ClonesEqual};

use crate::node::VersionedNode;
use crate::work::Work;
use rart_below::Partial;
use std::alloc::{AllocError, Global};
use std::marker::Model;
use std::rc::Rc;

/// A counted pointer to a node: rart's `Arc<VersionedNode>`, for one thread.
///
/// Contracts see a pointer by the shape of the node that it shows. Copies of a pointer show the
/// same node, and a write through one of them changes what that one shows and no other. Nothing can
/// be read through a pointer without a count in a `Work`.
#[cycle(node)]
pub struct NodeRef<P: Partial, V> {
    shared: Rc<VersionedNode<P, V>, Global>,
}

impl<P: Partial, V> Model for NodeRef<P, V> {
    ghost use Rattle.rart_node.specs.Seen.{Seen, seen_code};

    ghost Value = { Seen V };

    ghost coded = { seen_code V.code };

    ghost use Rattle.rart_node.specs.NodeShapes.{seen_pointer};

    ghost view = { λ pointer. seen_pointer pointer.shared.value };

    ghost size = { λ seen. seen.depth };

    ghost use Rattle.std.proofs.Common.{arith};

    ghost size_decreases = { λ pointer h. omega arith };
}

/// Written out, so that a crate that drops a pointer proves nothing of what nodes are made of.
impl<P: Partial, V: Drop> Drop for NodeRef<P, V> {
    #[cycle(drop_node)]
    #[inline]
    fn drop(self) {
        let NodeRef { shared } = self;
        if Rc::strong_count(&shared) == 1 {
            drop_last(shared);
        } else {
            drop(shared);
        }
    }
}

// Drops a node with its last pointer. The drop of an `Rc` would have the node in its frame while
// the children go, and so the stack a copy of each node on the way down.
#[cycle(drop_node)]
#[inline(never)]
fn drop_last<P: Partial, V: Drop>(shared: Rc<VersionedNode<P, V>, Global>) {
    if let Some(node) = Rc::into_inner(shared) {
        drop(node);
    }
}

impl<P: Partial, V: Drop> NodeRef<P, V> {
    /// A pointer to this node: one node made. Refused for memory, the node is given up.
    pub fn new(
        alloc: Global,
        node: VersionedNode<P, V>,
        work: &mut Work,
    ) -> Result<NodeRef<P, V>, AllocError>
        ensures shown { IfOk result (λ pointer. pointer.shape ≡ node.shape) }
        ensures work { work.new ≡ record work.old { made = work.old.made + 1 } }
    {
        work.make();
        Ok(NodeRef {
            shared: Rc::new(alloc, node)?,
        })
    }

    /// The node: one node entered.
    pub fn open(&self, work: &mut Work) -> &VersionedNode<P, V>
        ensures shown { result.now.shape ≡ self.now.shape }
        ensures work { work.new ≡ record work.old { entered = work.old.entered + 1 } }
    {
        work.enter();
        &self.shared
    }

    /// Another pointer to the same node. Refused where the count of pointers to it is at its
    /// greatest, and nothing has changed then. In Rust this is `Arc::clone`.
    pub fn copy(&self) -> Result<NodeRef<P, V>, AllocError>
        ensures { IfOk result (λ it. it.shape ≡ self.now.shape) }
    {
        Ok(NodeRef {
            shared: self.shared.clone()?,
        })
    }
}

/// As `copy`.
impl<P: Partial, V: Drop> Clone for NodeRef<P, V> {
    ghost is_clone = { λ pointer copy. copy.shape ≡ pointer.shape };

    fn clone(&self) -> Result<NodeRef<P, V>, AllocError> {
        self.copy()
    }
}

impl<P: Partial, V: Clone + Drop> NodeRef<P, V> {
    ghost use Rattle.rart_node.specs.Lent.{LendsNode};
    ghost use Rattle.std.specs.Borrow.{sem};

    /// The node for writing, copied first where another pointer shows it: one node entered and one
    /// made are counted either way.
    ///
    /// The pointer then shows the node as it was left. Refused for memory, it shows what it showed.
    pub fn open_mut(&mut self, work: &mut Work) -> Result<&mut VersionedNode<P, V>, AllocError>
        requires clones { ClonesEqual V.is_clone }
        ensures* writes_back { sem 𝓛 (LendsNode P.row V.row P.Partial self.entry result) }
        ensures shown { IfOk result (λ node. node.now.shape ≡ self.old.shape) }
        ensures work { work.new ≡ record {
          entered = work.old.entered + 1;
          made = work.old.made + 1;
        } }
    {
        work.enter();
        work.make();
        Rc::make_mut(&mut self.shared)
    }
}

// Ported from rart 0.11.0 (Apache-2.0), and rewritten.
//! Why a node was not widened.
ghost use Rattle.std.specs.Prelude.{◌≡◌};

use std::alloc::AllocError;
use thiserror::Error;

/// Why a node was not widened.
#[derive(Debug, Drop, Error)]
pub enum GrowError {
    /// The node is a leaf.
    #[error("a leaf is not widened")]
    Leaf,
    /// The node has the greatest width, 256.
    #[error("the node has the greatest width, 256")]
    Widest,
    /// Memory was refused.
    #[error(transparent)]
    Memory(AllocError),
}

impl From<AllocError> for GrowError {
    ghost use Rattle.rart_node.specs.declared.grow_error.GrowError.TheVariants.{Memory};

    ghost from_gives = { λ refused error. error ≡ Memory refused };

    fn from(refused: AllocError) -> GrowError {
        GrowError::Memory(refused)
    }
}

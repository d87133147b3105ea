//! A checkpoint: a family as bytes, behind which a log begins anew.
ghost use Rattle.std.specs.Prelude.{◌≡◌, Some, IfErr, IfOk};
ghost use Rattle.rart_saved.specs.FamilyForms.{IsFamilyOf};
ghost use Rattle.rart_saved.specs.Refusals.{PointsInto};
ghost use Rattle.example_store.specs.Checkpoints.{GivesBack, checkpoint, first_sum, no_checkpoint};

use crate::answer::LineFamily;
use crate::log::{Sum, next_sum, origin};
use rart_saved::laws::families_are_of_trees;
use rart_saved::{LoadError, load_family_slice, save_family_slice};
use std::alloc::{AllocError, Global};

/// What a log stands behind: a family, and the sum before its first line.
#[derive(Drop)]
pub struct Base {
    /// The family.
    pub family: LineFamily,
    /// The sum.
    pub sum: Sum,
}

impl Base {
    /// No checkpoint: a family without a place, and the sum that names the format.
    pub fn first(alloc: Global) -> Base
        ensures { result ≡ no_checkpoint }
    {
        Base {
            family: LineFamily::new(alloc),
            sum: origin(),
        }
    }

    /// The checkpoint that has these bytes.
    ///
    /// `Memory` comes where memory was refused, and any other error where they are no checkpoint.
    pub fn load(alloc: Global, bytes: &[u8]) -> Result<Base, LoadError>
        ensures family { IfOk result (λ base. bytes.now ≡ checkpoint base.family) }
        ensures sum { IfOk result (λ base. base.sum ≡ first_sum bytes.now) }
        ensures gives_back { GivesBack bytes.now result }
        ensures place { IfErr result (PointsInto bytes.now) }
    {
        let family = load_family_slice(alloc, bytes)?;
        Ok(Base {
            family,
            sum: sum_behind(bytes),
        })
    }
}

/// The bytes of the checkpoint of a family, which `Base::load` gives back.
pub fn checkpoint_of(alloc: Global, family: &LineFamily) -> Result<Vec<u8>, AllocError>
    ensures bytes { IfOk result (λ bytes. bytes.items ≡ checkpoint family.now) }
    ensures loadable { IsFamilyOf (Some 16) family.now }
{
    families_are_of_trees(family);
    save_family_slice(alloc, family)
}

/// The sum before the first line behind a checkpoint, of which these are the bytes.
pub fn sum_behind(checkpoint: &[u8]) -> Sum
    ensures { result ≡ first_sum checkpoint.now }
{
    next_sum(&origin(), checkpoint)
}

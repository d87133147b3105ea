//! Compares what changed between versions with std's maps: random diffs, differences,
//! intersections, patches and merges, what stands under random prefixes, and trees of sorted pairs.
//! What differs first ends the program.
#![tactic(auto)]

mod draw;
mod parts;
mod prefixes;
mod sorted;
mod trials;
mod version;

use anyhow::bail;
use draw::below;
use parts::parts_agree;
use prefixes::{prefixes_agree, restored_agree};
use rand_pcg::Pcg32;
use sorted::sorted_agrees;
use std::alloc::{AllocError, Global};
use trials::{diff_agrees, take_over_agrees};
use version::Version;

/// How many there are of each.
const SEEDS: u64 = 2_000;

fn main(rt: HostRuntime) -> anyhow::Result<()> {
    for seed in 0..SEEDS {
        if !is_met(rt.alloc(), seed)? {
            bail!("a tree differs from its map at seed {seed}");
        }
    }
    println!(rt;
        "{SEEDS} diffs, patches, merges, prefixes and sorted pairs: all is as in the maps"
    )?;
    Ok(())
}

// Whether a diff, a difference, an intersection, a patch and a merge of versions drawn from a seed,
// what stands under a prefix of one, and trees of the sorted pairs of two are as those of their
// maps.
fn is_met(alloc: Global, seed: u64) -> Result<bool, AllocError> {
    let mut words = Pcg32::new(seed, 35);
    let mut base = Version::new(alloc);
    base.change(&mut words, 60)?;
    let mut ours = base.copy()?;
    ours.change(&mut words, 30)?;
    let mut theirs = if below(&mut words, 8) == 0 {
        Version::new(alloc)
    } else {
        base.copy()?
    };
    theirs.change(&mut words, 30)?;
    Ok(
        diff_agrees(&base, &theirs)?
            && parts_agree(&ours, &theirs)?
            && parts_agree(&base, &ours)?
            && take_over_agrees(&base, &ours, &theirs, false)?
            && take_over_agrees(&base, &ours, &theirs, true)?
            && prefixes_agree(&mut words, alloc, &ours)?
            && restored_agree(&mut words, alloc, &ours, &theirs)?
            && sorted_agrees(alloc, &base)?
            && sorted_agrees(alloc, &ours)?,
    )
}

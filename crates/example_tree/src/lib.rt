//! What a caller writes and proves, from the public contracts of `rart_versioned` alone, and in
//! `snapshots` from that of `Family::run`.
//! `docs/USING.md` tells what each page is on.
#![tactic(auto)]

pub mod clients;
pub mod in_common;
pub mod listing;
pub mod prices;
pub mod snapshots;
pub mod stock;
pub mod values;
pub mod visiting;

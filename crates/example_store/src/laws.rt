//! What the definitions of logs and checkpoints mean: laws, each the contract of a function that
//! does nothing.
ghost use Rattle.example_store.specs.Laws.{KeptLinesAreServed, LogsAreOne, FrontsAreLogs, DamageIsNoLog, CrashesLoseNothing, EmptyLogsAreOfNoLine, CheckpointsLoseNothing, CheckpointsAreOfOne, LogsAreOfOneCheckpoint};

#[tactic(auto, using(crate::proofs::KeptLemmas::laws))]
/// A log has one meaning, and damage is no log's; each front of a log is that of some first lines;
/// a crash loses no line whose entry was written, and shows at most the one that was on its way.
pub fn logs_lose_nothing()
    ensures served { KeptLinesAreServed }
    ensures one { LogsAreOne }
    ensures fronts { FrontsAreLogs }
    ensures damage { DamageIsNoLog }
    ensures crashes { CrashesLoseNothing }
{}

#[tactic(auto, using(crate::proofs::CheckpointLemmas::laws))]
/// A checkpoint is of one family, from which the lines behind it go on; a log belongs to one
/// checkpoint.
pub fn checkpoints_lose_nothing()
    ensures empty { EmptyLogsAreOfNoLine }
    ensures more { CheckpointsLoseNothing }
    ensures one { CheckpointsAreOfOne }
    ensures logs { LogsAreOfOneCheckpoint }
{}

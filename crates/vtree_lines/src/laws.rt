//! What the definitions of lines, replies and transcripts mean: laws, each the contract of a
//! function that does nothing.
ghost use Rattle.vtree_lines.specs.ServingLaws.{InputIsRead, RefusalsChangeNothing, RefusalsAreOfMemory, WritingIsBehind, WholeLinesAreWritten, FailedReadsLeaveAPrefix, FailedWritesLeaveAPrefix, ReadingTakesNoMemory};
ghost use Rattle.vtree_lines.specs.WorkedLines.{WorkedNumbers, WorkedSplits, WorkedBadLines, WorkedTexts, WorkedReplies};
ghost use Rattle.vtree_lines.specs.WorkedCommandLines.{WorkedChangeLines, WorkedReadLines, WorkedWalkLines, WorkedIntersectionLines};
ghost use Rattle.vtree_lines.specs.WorkedRuns.{FirstRun, WorkedRuns};
ghost use Rattle.vtree_lines.specs.Laws.{WordsAreRead, WordsAreOneCommand, OwnLinesAreRead, GoodWordsAreOwn, OwnWordsAreGood, TranscriptsAgree, BadLinesChangeNothing, OwnRepliesAreTranscripts, EachLineGives, LinesAreRead, TextsAreLines, BadTextIsNoReply, TextsTell, TellingFixesText};

/// What a word is read as.
pub fn words_are_read()
    ensures { WordsAreRead }
{}

#[tactic(auto, using(crate::proofs::OwnLineLemmas::lines))]
/// No words are two commands, and a command's own line is that command and no other.
pub fn lines_are_one_command()
    ensures words { WordsAreOneCommand }
    ensures own { OwnLinesAreRead }
{}

/// Words are read as a command exactly where it can stand in a line and they are its own, but that
/// zeros may stand before numbers.
pub fn good_words_are_own()
    ensures own { GoodWordsAreOwn }
    ensures good { OwnWordsAreGood }
{}

#[tactic(auto, using(crate::proofs::LineSplitLemmas::lines_are_read))]
/// The lines of a text are those that it was made of: each ends by a line feed, which the last may
/// lack.
pub fn lines_are_read()
    ensures { LinesAreRead }
{}

#[tactic(auto, using(crate::proofs::TranscriptLemmas::each_line_gives))]
/// Each line gives a text and a family: it is a command's, or a bad one.
pub fn each_line_gives()
    ensures { EachLineGives }
{}

#[tactic(auto, using(crate::proofs::TranscriptLemmas::transcripts))]
/// Two transcripts of the same lines are one where none says that memory was refused; a bad line
/// changes nothing; and commands' own lines are replied their own replies.
pub fn transcripts_are_fixed()
    ensures agree { TranscriptsAgree }
    ensures bad { BadLinesChangeNothing }
    ensures own { OwnRepliesAreTranscripts }
{}

#[tactic(auto, using(crate::proofs::WorkedCommandLemmas::worked_commands))]
/// Worked lines of each command, found by hand.
pub fn worked_command_lines()
    ensures changes { WorkedChangeLines }
    ensures reads { WorkedReadLines }
    ensures walks { WorkedWalkLines }
    ensures intersections { WorkedIntersectionLines }
{}

#[tactic(auto, using(crate::proofs::WorkedLineLemmas::worked_lines))]
/// Worked numbers, splits, bad lines, texts, and replies that can stand in a line, found by hand.
pub fn worked_lines()
    ensures numbers { WorkedNumbers }
    ensures splits { WorkedSplits }
    ensures bad { WorkedBadLines }
    ensures texts { WorkedTexts }
    ensures replies { WorkedReplies }
{}

#[tactic(auto, using(crate::proofs::WorkedTranscriptLemmas::runs))]
/// The first run, and others with bad lines: an input is served so, and in no other way where
/// memory isn't refused.
pub fn worked_runs()
    ensures first { FirstRun }
    ensures others { WorkedRuns }
{}

#[tactic(auto, using(crate::proofs::ReplyTextLemmas::texts))]
/// A reply's text has one line feed, at its end, and isn't that of a bad line. Two replies of one
/// text tell the same: only a visit that stopped is written as the list of its values, and a
/// failure as a visit that failed at none.
pub fn texts_tell_replies()
    ensures lines { TextsAreLines }
    ensures bad { BadTextIsNoReply }
    ensures tell { TextsTell }
    ensures fixed { TellingFixesText }
{}

/// Only a command that takes memory, and lacks neither a version nor room, is replied `no memory`.
pub fn refusals_are_of_memory()
    ensures { RefusalsAreOfMemory }
{}

#[tactic(auto, using(crate::proofs::ServingLawLemmas::ends))]
/// What is left where an input ends, and where its serving ends early: a prefix of what the
/// whole one writes, unless memory is refused; and whole lines, unless writing failed.
pub fn early_ends_leave_a_prefix()
    ensures input { InputIsRead }
    ensures refusals { RefusalsChangeNothing }
    ensures writing { WritingIsBehind }
    ensures whole { WholeLinesAreWritten }
    ensures reads { FailedReadsLeaveAPrefix }
    ensures writes { FailedWritesLeaveAPrefix }
    ensures memory { ReadingTakesNoMemory }
{}

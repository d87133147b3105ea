//! What a line does to a family, and whether it is to be kept.
ghost use Rattle.std.specs.Prelude.{◌≡◌, ◌↔◌, ◌⊎◌, true, false, IsTrue, None, Some};
ghost use Rattle.rart_family.specs.Families.{call_of};
ghost use Rattle.rart_family.specs.Keys.{by_bytes};
ghost use Rattle.rart_family.specs.Laws.{OnlyReads};
ghost use Rattle.rart_family.specs.Replies.{reply_value, NoMemory};
ghost use Rattle.vtree_lines.specs.Grammar.{IsBad};
ghost use Rattle.vtree_lines.specs.Laws.{HasNoFeed};
ghost use Rattle.vtree_lines.specs.ServingLaws.{IsRefusal};
ghost use Rattle.vtree_lines.specs.Sessions.{Commands};
ghost use Rattle.vtree_lines.specs.Transcript.{LineGives};
ghost use Rattle.vtree_lines.specs.Writing.{Writes};
ghost use Rattle.example_store.specs.Kept.{IsKept, IsNeverKept, LeavesFamily, answer_text};

use rart_family::{Command, Family, Reply, Work};
use std::alloc::Global;
use std::io::Write;
use std::marker::Model;
use vtree_lines::{LineCommand, LineKey, WriteFailed, parse, write_bytes, write_reply};

/// The greatest length of a good line.
const LONGEST: usize = 200;

/// A family as lines have it.
pub type LineFamily = Family<LineKey, u64>;

/// A reply as lines have it.
pub type LineReply = Reply<LineKey, u64>;

/// What a line is answered.
#[derive(Drop)]
pub struct Answer {
    /// The reply to its command, or `None` where it is a bad line.
    pub reply: Option<LineReply>,
    /// Whether its command may change a family, and was not refused.
    pub is_kept: bool,
}

impl Model for Answer {
    ghost use Rattle.std.specs.Option.{option_map};
    ghost use Rattle.rart_family.specs.Replies.{reply_value};
    ghost use Rattle.example_store.specs.Kept.{Answered};

    ghost Value = { Answered };

    ghost view = { λ answer. record {
      reply = option_map (reply_value (λ key. key.bytes.items)) answer.reply;
      is_kept = answer.is_kept;
    } };
}

/// Does what a line says, given without its line feed.
pub fn answer_to(alloc: Global, family: &mut LineFamily, line: &[u8]) -> Answer
    requires { HasNoFeed line.now }
    ensures gives { LineGives family.old line.now (answer_text result.reply) family.new }
    ensures bad { (result.reply ≡ None) ↔ IsBad line.now }
    ensures kept { result.is_kept ≡ true → IsKept family.old line.now family.new }
    ensures left { result.is_kept ≡ false → family.new ≡ family.old }
    ensures never { result.is_kept ≡ false
        → (result.reply ≡ Some NoMemory) ⊎ IsNeverKept family.old line.now }
{
    let Some(command) = command_of(alloc, line) else {
        return Answer {
            reply: None,
            is_kept: false,
        };
    };
    let reply = family.reply(&command, &mut Work::new(), &mut Work::new());
    Answer {
        is_kept: is_kept(&command, &reply),
        reply: Some(reply),
    }
}

/// Writes the line of an answer. Where writing fails, a prefix of it is written.
pub fn write_answer<W: Write>(answer: &Answer, writer: &mut W) -> Result<(), WriteFailed>
    ensures { Writes result (W.contents writer.old) (W.contents writer.new)
        (answer_text answer.now.reply) }
{
    match &answer.reply {
        Some(reply) => write_reply(reply, writer),
        None => write_bytes(writer, b"bad line\n"),
    }
}

fn command_of(alloc: Global, line: &[u8]) -> Option<LineCommand>
    ensures { Commands (by_bytes (λ key. key.bytes.items)) line.now result }
{
    if line.len() > LONGEST {
        return None;
    }
    parse(alloc, line)
}

/// Whether a command that was replied so is to be kept.
fn is_kept(command: &LineCommand, reply: &LineReply) -> bool
    ensures yes { result ≡ true
        → ¬ LeavesFamily (by_bytes (λ key. key.bytes.items) command.now)
        (reply_value (λ key. key.bytes.items) reply.now) }
    ensures no { result ≡ false
        → LeavesFamily (by_bytes (λ key. key.bytes.items) command.now)
        (reply_value (λ key. key.bytes.items) reply.now) }
{
    !only_reads(command) && !is_refusal(reply)
}

fn only_reads(command: &LineCommand) -> bool
    ensures { IsTrue result
        ↔ OnlyReads (call_of (λ key. key) (by_bytes (λ key. key.bytes.items) command.now)) }
{
    !matches!(
        command,
        Command::New
            | Command::NewAt { .. }
            | Command::Snapshot { .. }
            | Command::Duplicate { .. }
            | Command::Discard { .. }
            | Command::GetMut { .. }
            | Command::Insert { .. }
            | Command::Replace { .. }
            | Command::Remove { .. }
            | Command::Delete { .. }
            | Command::Update { .. }
            | Command::TryUpdate { .. }
    )
}

fn is_refusal(reply: &LineReply) -> bool
    ensures { IsTrue result ↔ IsRefusal (reply_value (λ key. key.bytes.items) reply.now) }
{
    matches!(reply, Reply::NoVersion | Reply::NoRoom | Reply::NoMemory)
}

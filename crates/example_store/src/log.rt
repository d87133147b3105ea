//! The log: a line for each change, under a sum over all lines so far.
ghost use Rattle.std.specs.Prelude.{◌≡◌, ◌≢◌, ◌↔◌, [], ◌∷◌, ◌++◌, ℕ, List, IfSome, IfNone, IsTrue, codes};
ghost use Rattle.vtree_lines.specs.Writing.{Writes, Puts};
ghost use Rattle.example_store.specs.Log.{origin, next_sum, entry};

use sha2::{Digest, Sha256};
use std::io::Write;
use vtree_lines::{Page, WriteFailed};

/// A sum over the lines so far: 16 hexadecimal digits. Before the first line it names the format.
pub type Sum = [u8; 16];

/// The sum before the first line.
pub fn origin() -> Sum
    ensures { result ≡ origin }
{
    *b"example_store 1\n"
}

/// The sum behind a line: the first 8 bytes of the SHA-256 of the sum before and the line.
pub fn next_sum(sum: &Sum, line: &[u8]) -> Sum
    ensures { result ≡ next_sum sum.now line.now }
{
    let mut hasher = Sha256::new();
    hasher.update(sum.as_slice());
    hasher.update(line);
    let digest = hasher.finalize();
    let mut next = [0; 16];
    let _ = hex::encode_to_slice(&digest[..8], &mut next);
    next
}

/// Writes the entry of a line, given the sum behind it, in one piece where the system takes it so.
/// Where writing fails, a part of it is written.
#[tactic(auto, using(vtree_lines::proofs::PutLemmas::puts))]
pub fn write_entry<L: Write>(log: &mut L, sum: &Sum, line: &[u8]) -> Result<(), WriteFailed>
    ensures { Writes result (L.contents log.old) (L.contents log.new)
        (sum.now ++ (codes " " ++ (line.now ++ codes "\n"))) }
{
    let mut page = Page::new();
    put_entry(&mut page, log, sum, line)?;
    page.send(log)
}

#[tactic(auto, using(vtree_lines::proofs::PutLemmas::puts))]
fn put_entry<L: Write>(
    page: &mut Page,
    log: &mut L,
    sum: &[u8],
    line: &[u8],
) -> Result<(), WriteFailed>
    ensures { Puts result (L.contents log.old) (L.contents log.new) page.old.bytes.items
        page.new.bytes.items (sum.now ++ (codes " " ++ (line.now ++ codes "\n"))) }
{
    page.put(log, sum)?;
    page.put(log, b" ")?;
    put_line(page, log, line)
}

#[tactic(auto, using(vtree_lines::proofs::PutLemmas::puts))]
fn put_line<L: Write>(page: &mut Page, log: &mut L, line: &[u8]) -> Result<(), WriteFailed>
    ensures { Puts result (L.contents log.old) (L.contents log.new) page.old.bytes.items
        page.new.bytes.items (line.now ++ codes "\n") }
{
    page.put(log, line)?;
    page.put(log, b"\n")
}

/// The line of an entry, given without its line feed, and the sum behind it; or `None` where it is
/// no entry behind this sum.
pub fn line_of<'a>(sum: &Sum, text: &'a [u8]) -> Option<(&'a [u8], Sum)>
    ensures some { IfSome result (λ found. (text.now ≡ found.1 ++ 32 ∷ found.0.now)
        × (found.1 ≡ next_sum sum.now found.0.now)) }
    ensures none { IfNone result ((line : List ℕ) → text.now ≢ next_sum sum.now line ++ 32 ∷ line) }
{
    if text.len() < 16 {
        return None;
    }
    let (stated, rest) = text.split_at(16);
    let (space, line) = rest.split_first()?;
    if *space != b' ' {
        return None;
    }
    let next = next_sum(sum, line);
    if !is_same(stated, &next) {
        return None;
    }
    Some((line, next))
}

fn is_same(stated: &[u8], sum: &Sum) -> bool
    ensures { IsTrue result ↔ (stated.now ≡ sum.now) }
{
    stated == sum.as_slice()
}

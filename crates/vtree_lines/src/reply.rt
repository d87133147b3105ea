//! The line of a reply.
#![tactic(auto, using(crate::proofs::PutLemmas::puts))]

ghost use Rattle.std.specs.Prelude.{ℕ, List};
ghost use Rattle.std.specs.List.{flat_map};
ghost use Rattle.rart_family.specs.Replies.{reply_value};
ghost use Rattle.vtree_lines.specs.ReplyTexts.{line, number_text, key_text, entry_text, pair_text, value_pair_text, reply_line};
ghost use Rattle.vtree_lines.specs.Writing.{Writes, Puts};

use crate::output::{Page, WriteFailed};
use rart_family::{KeyTrait, Reply};
use std::io::Write;

/// Writes the line of a reply: a word or two, and what the reply has, each behind a space. Where
/// writing fails, a prefix of the line is written. No memory is taken.
pub fn write_reply<K: KeyTrait, W: Write>(
    reply: &Reply<K, u64>,
    writer: &mut W,
) -> Result<(), WriteFailed>
    ensures { Writes result (W.contents writer.old) (W.contents writer.new)
        (reply_line (reply_value K.bytes reply.now)) }
{
    let mut page = Page::new();
    put_reply(&mut page, writer, reply)?;
    page.send(writer)
}

fn put_reply<K: KeyTrait, W: Write>(
    page: &mut Page,
    writer: &mut W,
    reply: &Reply<K, u64>,
) -> Result<(), WriteFailed>
    ensures { Puts result (W.contents writer.old) (W.contents writer.new)
        page.old.bytes.items page.new.bytes.items (reply_line (reply_value K.bytes reply.now)) }
{
    match reply {
        Reply::Place(place) => put_word_and_number(page, writer, "at", *place as u64),
        Reply::Discarded => page.put(writer, b"discarded\n"),
        Reply::Number(number) => put_word_and_number(page, writer, "version", *number),
        Reply::Flag(true) => page.put(writer, b"true\n"),
        Reply::Flag(false) => page.put(writer, b"false\n"),
        Reply::Value(Some(value)) => put_word_and_number(page, writer, "some", *value),
        Reply::Value(None) => page.put(writer, b"none\n"),
        Reply::Entries(entries) => put_list::<Entries, _, _>(page, writer, "entries", entries),
        Reply::Values(values) => put_list::<Values, _, _>(page, writer, "values", values),
        Reply::Stopped {
            values,
            failed: false,
        } => put_list::<Values, _, _>(page, writer, "values", values),
        Reply::Stopped {
            values,
            failed: true,
        } => put_list::<Values, _, _>(page, writer, "failed", values),
        Reply::Pairs(entries) => put_list::<Pairs, _, _>(page, writer, "pairs", entries),
        Reply::ValuePairs(pairs) => put_list::<ValuePairs, _, _>(
            page,
            writer,
            "value-pairs",
            pairs,
        ),
        Reply::Count(count) => put_word_and_number(page, writer, "count", *count as u64),
        Reply::Failed => page.put(writer, b"failed\n"),
        Reply::NoVersion => page.put(writer, b"no version\n"),
        Reply::NoRoom => page.put(writer, b"no room\n"),
        Reply::NoMemory => page.put(writer, b"no memory\n"),
    }
}

fn put_word_and_number<W: Write>(
    page: &mut Page,
    writer: &mut W,
    word: &str,
    number: u64,
) -> Result<(), WriteFailed>
    ensures { Puts result (W.contents writer.old) (W.contents writer.new)
        page.old.bytes.items page.new.bytes.items (line word.now (number_text number)) }
{
    page.put(writer, word.as_bytes())?;
    page.put_number(writer, number)?;
    page.put(writer, b"\n")
}

/// A kind of list in a reply: what is put for each member.
trait ReplyList<T> {
    ghost text: { T → List ℕ };

    fn put<W: Write>(page: &mut Page, writer: &mut W, member: &T) -> Result<(), WriteFailed>
        ensures { Puts result (W.contents writer.old) (W.contents writer.new)
            page.old.bytes.items page.new.bytes.items (text member.now) };
}

/// Values alone.
struct Values;

impl ReplyList<u64> for Values {
    ghost text = { number_text };

    fn put<W: Write>(page: &mut Page, writer: &mut W, value: &u64) -> Result<(), WriteFailed> {
        page.put_number(writer, *value)
    }
}

/// Two values each.
struct ValuePairs;

impl ReplyList<(u64, u64)> for ValuePairs {
    ghost text = { value_pair_text };

    fn put<W: Write>(
        page: &mut Page,
        writer: &mut W,
        pair: &(u64, u64),
    ) -> Result<(), WriteFailed> {
        let (left, right) = *pair;
        page.put_number(writer, left)?;
        page.put_number(writer, right)
    }
}

/// Keys with a value each.
struct Entries;

impl<K: KeyTrait> ReplyList<(K, u64)> for Entries {
    ghost text = { λ entry. entry_text (K.bytes entry.0, entry.1) };

    fn put<W: Write>(page: &mut Page, writer: &mut W, entry: &(K, u64)) -> Result<(), WriteFailed> {
        let (key, value) = entry;
        put_key(page, writer, key)?;
        page.put_number(writer, *value)
    }
}

/// Keys with two values each.
struct Pairs;

impl<K: KeyTrait> ReplyList<(K, u64, u64)> for Pairs {
    ghost text = { λ entry. pair_text (K.bytes entry.0, entry.1, entry.2) };

    fn put<W: Write>(
        page: &mut Page,
        writer: &mut W,
        entry: &(K, u64, u64),
    ) -> Result<(), WriteFailed> {
        let (key, left, right) = entry;
        put_key(page, writer, key)?;
        page.put_number(writer, *left)?;
        page.put_number(writer, *right)
    }
}

fn put_key<K: KeyTrait, W: Write>(
    page: &mut Page,
    writer: &mut W,
    key: &K,
) -> Result<(), WriteFailed>
    ensures { Puts result (W.contents writer.old) (W.contents writer.new)
        page.old.bytes.items page.new.bytes.items (key_text (K.bytes key.now)) }
{
    page.put(writer, b" '")?;
    page.put(writer, key.as_ref())
}

fn put_list<L: ReplyList<T>, T, W: Write>(
    page: &mut Page,
    writer: &mut W,
    word: &str,
    members: &[T],
) -> Result<(), WriteFailed>
    ensures { Puts result (W.contents writer.old) (W.contents writer.new)
        page.old.bytes.items page.new.bytes.items (line word.now (flat_map L.text members.now)) }
{
    page.put(writer, word.as_bytes())?;
    for member in members {
        L::put(page, writer, member)?;
    }
    page.put(writer, b"\n")
}

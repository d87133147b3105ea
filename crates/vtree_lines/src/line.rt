//! Lines of commands, as the program reads them.
ghost use Rattle.std.specs.Prelude.{◌≡◌, ◌≤◌, [], ◌∷◌, codes, length, map};
ghost use Rattle.std.specs.Range.Bound.{bound_map};
ghost use Rattle.rart_family.specs.Keys.{by_bytes};
ghost use Rattle.vtree_lines.specs.Lines.{words};
ghost use Rattle.vtree_lines.specs.Grammar.{Says, Text, Number, Key, form_of, bound_form, write_form, answer_form, tried_form, end_form};
ghost use Rattle.vtree_lines.specs.Reading.{Reads};
ghost use Rattle.vtree_lines.specs.Words.{word_value, IsShort, AreShort};

use crate::words::{Word, words_of};
use rart_family::{ArrayKey, Command, KeyTrait, SlotUpdate};
use std::alloc::Global;
use std::ops::Bound;

/// A command as the program has it: keys of at most 16 bytes, and numbers for values.
pub type LineCommand = Command<LineKey, u64>;

/// A key as the program has it, held inline.
pub type LineKey = ArrayKey<16>;

/// The command of a line, without its line feed, or `None` where the line is a bad one.
///
/// A line is words parted by exactly one space. `word_of` of `specs/Grammar.antt` says what a word
/// is, and `form_of` which words a command has. No memory is taken.
pub fn parse(alloc: Global, line: &[u8]) -> Option<LineCommand>
    ensures { Reads (by_bytes (λ key. key.bytes.items)) result
        (λ command. Says command (words line.now)) }
{
    let words = words_of(line)?;
    parse_words(alloc, words.as_slice())
}

/// The command of words, or `None` where they are none's.
fn parse_words(alloc: Global, words: &[Word<'_>]) -> Option<LineCommand>
    requires short { AreShort (map word_value words.now) }
    ensures { Reads (by_bytes (λ key. key.bytes.items)) result
        (λ command. form_of command ≡ map word_value words.now) }
{
    match words {
        [Word::Text("new")] => Some(Command::New),
        [Word::Text(name), Word::Number(number), rest @ ..] => {
            numbered_command(alloc, name, *number, rest)
        }
        _ => None,
    }
}

/// The command of a name, a number, and the words behind them.
fn numbered_command(
    alloc: Global,
    name: &str,
    number: u64,
    rest: &[Word<'_>],
) -> Option<LineCommand>
    requires short { AreShort (map word_value rest.now) }
    ensures { Reads (by_bytes (λ key. key.bytes.items)) result
        (λ command. form_of command ≡ Text name.now ∷ Number number ∷ map word_value rest.now) }
{
    let place = number as usize;
    match rest {
        [] => number_command(name, number),
        [Word::Number(right)] => pair_command(name, place, *right as usize),
        [Word::Key(key), rest @ ..] => keyed_command(name, place, to_key(alloc, key), rest),
        [lo, hi] => range_command(name, place, bound_of(alloc, lo)?, bound_of(alloc, hi)?),
        _ => None,
    }
}

/// The command of a name and a number, most often a place.
fn number_command(name: &str, number: u64) -> Option<LineCommand>
    ensures { Reads (by_bytes (λ key. key.bytes.items)) result
        (λ command. form_of command ≡ Text name.now ∷ Number number ∷ []) }
{
    let place = number as usize;
    match name {
        "new-at" => Some(Command::NewAt { number }),
        "snapshot" => Some(Command::Snapshot { place }),
        "clone" => Some(Command::Duplicate { place }),
        "discard" => Some(Command::Discard { place }),
        "version" => Some(Command::Version { place }),
        "empty" => Some(Command::IsEmpty { place }),
        "iter" => Some(Command::Iter { place }),
        "values" => Some(Command::Values { place }),
        "views" => Some(Command::Views { place }),
        "flatten" => Some(Command::Flatten { place }),
        _ => None,
    }
}

/// The command of a name and two places.
fn pair_command(name: &str, left: usize, right: usize) -> Option<LineCommand>
    ensures { Reads (by_bytes (λ key. key.bytes.items)) result
        (λ command. form_of command ≡ Text name.now ∷ Number left ∷ Number right ∷ []) }
{
    match name {
        "intersect" => Some(Command::Intersect { left, right }),
        "intersect-views" => Some(Command::IntersectViews { left, right }),
        "intersect-values" => Some(Command::IntersectValues { left, right }),
        "intersect-count" => Some(Command::IntersectCount { left, right }),
        _ => None,
    }
}

/// The command of a name, a place, and bounds, the lower one first.
fn range_command(
    name: &str,
    place: usize,
    lo: Bound<LineKey>,
    hi: Bound<LineKey>,
) -> Option<LineCommand>
    ensures { Reads (by_bytes (λ key. key.bytes.items)) result
        (λ command. form_of command ≡ Text name.now ∷ Number place
        ∷ bound_form (bound_map (λ key. key.bytes.items) lo)
        ∷ bound_form (bound_map (λ key. key.bytes.items) hi) ∷ []) }
{
    match name {
        "range" => Some(Command::Range { place, lo, hi }),
        "range-views" => Some(Command::RangeViews { place, lo, hi }),
        _ => None,
    }
}

/// The command of a name, a place, a key, and the words behind them.
fn keyed_command(name: &str, place: usize, key: LineKey, rest: &[Word<'_>]) -> Option<LineCommand>
    ensures { Reads (by_bytes (λ key. key.bytes.items)) result
        (λ command. form_of command
        ≡ Text name.now ∷ Number place ∷ Key key.bytes.items ∷ map word_value rest.now) }
{
    match name {
        "update" => update_command(place, key, rest),
        "try-update" => try_update_command(place, key, rest),
        "until" => until_command(place, key, rest),
        _ => match rest {
            [] => key_command(name, place, key),
            [Word::Number(value)] => value_command(name, place, key, *value),
            _ => None,
        },
    }
}

/// The command of a name, a place and a key.
fn key_command(name: &str, place: usize, key: LineKey) -> Option<LineCommand>
    ensures { Reads (by_bytes (λ key. key.bytes.items)) result
        (λ command. form_of command ≡ Text name.now ∷ Number place ∷ Key key.bytes.items ∷ []) }
{
    match name {
        "get" => Some(Command::Get { place, key }),
        "remove" => Some(Command::Remove { place, key }),
        "delete" => Some(Command::Delete { place, key }),
        "prefix" => Some(Command::Prefix { place, prefix: key }),
        "prefix-views" => Some(Command::PrefixViews { place, prefix: key }),
        "prefix-values" => Some(Command::PrefixValues { place, prefix: key }),
        "matches" => Some(Command::Matches { place, key }),
        "matches-each" => Some(Command::MatchesEach { place, key }),
        "longest" => Some(Command::Longest { place, key }),
        _ => None,
    }
}

/// The command of a name, a place, a key and a value.
fn value_command(name: &str, place: usize, key: LineKey, value: u64) -> Option<LineCommand>
    ensures { Reads (by_bytes (λ key. key.bytes.items)) result
        (λ command. form_of command
        ≡ Text name.now ∷ Number place ∷ Key key.bytes.items ∷ Number value ∷ []) }
{
    match name {
        "get-mut" => Some(Command::GetMut { place, key, value }),
        "insert" => Some(Command::Insert { place, key, value }),
        "replace" => Some(Command::Replace { place, key, value }),
        _ => None,
    }
}

/// The update of a place, a key, and the words behind them.
fn update_command(place: usize, key: LineKey, rest: &[Word<'_>]) -> Option<LineCommand>
    ensures { Reads (by_bytes (λ key. key.bytes.items)) result
        (λ command. form_of command ≡ Text (codes "update") ∷ Number place
        ∷ Key key.bytes.items ∷ map word_value rest.now) }
{
    match rest {
        [write, answer @ ..] => Some(Command::Update {
            place,
            key,
            write: write_of(write)?,
            answer: answer_of(answer)?,
        }),
        _ => None,
    }
}

/// The update that may fail.
fn try_update_command(place: usize, key: LineKey, rest: &[Word<'_>]) -> Option<LineCommand>
    ensures { Reads (by_bytes (λ key. key.bytes.items)) result
        (λ command. form_of command ≡ Text (codes "try-update") ∷ Number place
        ∷ Key key.bytes.items ∷ map word_value rest.now) }
{
    match rest {
        [write, answer @ ..] => Some(Command::TryUpdate {
            place,
            key,
            write: write_of(write)?,
            answer: tried_of(answer)?,
        }),
        _ => None,
    }
}

/// The visit of a place, a prefix, and the words behind them.
fn until_command(place: usize, key: LineKey, rest: &[Word<'_>]) -> Option<LineCommand>
    ensures { Reads (by_bytes (λ key. key.bytes.items)) result
        (λ command. form_of command ≡ Text (codes "until") ∷ Number place
        ∷ Key key.bytes.items ∷ map word_value rest.now) }
{
    match rest {
        [Word::Number(visits), Word::Text(end)] => Some(Command::Until {
            place,
            prefix: key,
            visits: *visits,
            fails: end_of(end)?,
        }),
        _ => None,
    }
}

/// The bound that a word is.
fn bound_of(alloc: Global, word: &Word<'_>) -> Option<Bound<LineKey>>
    requires short { IsShort (word_value word.now) }
    ensures { Reads (bound_map (λ key. key.bytes.items)) result
        (λ bound. bound_form bound ≡ word_value word.now) }
{
    match word {
        Word::Text("-") => Some(Bound::Unbounded),
        Word::Included(key) => Some(Bound::Included(to_key(alloc, key))),
        Word::Excluded(key) => Some(Bound::Excluded(to_key(alloc, key))),
        _ => None,
    }
}

/// What is written into a slot.
fn write_of(word: &Word<'_>) -> Option<Option<u64>>
    ensures { Reads (λ write. write) result (λ write. write_form write ≡ word_value word.now) }
{
    match word {
        Word::Text("-") => Some(None),
        Word::Number(number) => Some(Some(*number)),
        _ => None,
    }
}

/// The answer of a callback.
fn answer_of(words: &[Word<'_>]) -> Option<SlotUpdate<u64>>
    ensures { Reads (λ answer. answer) result
        (λ answer. answer_form answer ≡ map word_value words.now) }
{
    match words {
        [Word::Text("keep")] => Some(SlotUpdate::Keep),
        [Word::Text("remove")] => Some(SlotUpdate::Remove),
        [Word::Text("insert"), Word::Number(value)] => Some(SlotUpdate::Insert(*value)),
        _ => None,
    }
}

/// The answer of a callback that may fail, which is none where it does.
fn tried_of(words: &[Word<'_>]) -> Option<Option<SlotUpdate<u64>>>
    ensures { Reads (λ answer. answer) result
        (λ answer. tried_form answer ≡ map word_value words.now) }
{
    match words {
        [Word::Text("fail")] => Some(None),
        _ => Some(Some(answer_of(words)?)),
    }
}

/// Whether a visit ends by an error.
fn end_of(word: &str) -> Option<bool>
    ensures { Reads (λ fails. fails) result (λ fails. end_form fails ≡ Text word.now) }
{
    match word {
        "stop" => Some(false),
        "fail" => Some(true),
        _ => None,
    }
}

/// The key, held inline.
fn to_key(alloc: Global, bytes: &[u8]) -> LineKey
    requires { length bytes.now ≤ 16 }
    ensures { result.bytes.items ≡ bytes.now }
{
    match ArrayKey::new_from_slice(alloc, bytes) {
        Ok(key) => key,
        Err(_) => unreachable!(), // an inline key takes no memory
    }
}

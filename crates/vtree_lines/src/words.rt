//! The words of a line, and what each may be.
ghost use Rattle.std.specs.Prelude.{◌≡◌, ◌<◌, length, map, if◌then◌else◌, None, Some, IfSome, IfNone};
ghost use Rattle.std.specs.Option.{option_map};
ghost use Rattle.std.specs.List.{list_all};
ghost use Rattle.std.specs.Char.{is_ascii_graphic};
ghost use Rattle.vtree_lines.specs.Lines.{words, number_of};
ghost use Rattle.vtree_lines.specs.Grammar.{word_of, key_behind};
ghost use Rattle.vtree_lines.specs.Words.{word_value};

use arrayvec::ArrayVec;

/// The most words that a good line has: `try-update P K W insert V`.
const MOST_WORDS: usize = 6;

/// What a word of a line can be.
#[derive(Clone, Copy, Default)]
pub enum Word<'a> {
    /// 1 to 20 decimal digits, below `2^64`.
    Number(u64),
    /// An apostrophe, and then the key.
    Key(&'a [u8]),
    /// `i`, and then a key behind its apostrophe: a bound that is included.
    Included(&'a [u8]),
    /// `x`, and then a key behind its apostrophe: a bound that is excluded.
    Excluded(&'a [u8]),
    /// Any other word of bytes from `!` to `~`.
    Text(&'a str),
    /// Any other word.
    #[default]
    Bytes,
}

/// What a word is.
fn word_of<'a>(word: &'a [u8]) -> Word<'a>
    ensures { word_value result ≡ word_of word.now }
{
    if let Some(number) = number_of(word) {
        Word::Number(number)
    } else if let Some(key) = key_behind(b"'", word) {
        Word::Key(key)
    } else if let Some(key) = key_behind(b"i'", word) {
        Word::Included(key)
    } else if let Some(key) = key_behind(b"x'", word) {
        Word::Excluded(key)
    } else if let Some(text) = text_of(word) {
        Word::Text(text)
    } else {
        Word::Bytes
    }
}

/// The number that a word is: 1 to 20 decimal digits, below `2^64`.
fn number_of(word: &[u8]) -> Option<u64>
    ensures { result ≡ number_of word.now }
{
    if word.is_empty() || word.len() > 20 {
        return None;
    }
    let mut number: u64 = 0;
    for byte in word {
        if !byte.is_ascii_digit() {
            return None;
        }
        number = number
            .checked_mul(10)?
            .checked_add(u64::from(*byte - b'0'))?;
    }
    Some(number)
}

/// The key that stands behind a mark.
fn key_behind<'a>(mark: &[u8], word: &'a [u8]) -> Option<&'a [u8]>
    ensures { option_map (λ key. key.now) result ≡ key_behind mark.now word.now }
{
    let key = word.strip_prefix(mark)?;
    if key.len() <= 16 && is_graphic(key) {
        Some(key)
    } else {
        None
    }
}

/// Whether all bytes are from `!` to `~`.
fn is_graphic(bytes: &[u8]) -> bool
    ensures { result ≡ list_all is_ascii_graphic bytes.now }
{
    bytes.iter().all(|byte| byte.is_ascii_graphic())
}

/// The word as a text, where all its bytes are from `!` to `~`.
fn text_of<'a>(word: &'a [u8]) -> Option<&'a str>
    ensures { option_map (λ text. text.now) result
        ≡ (if list_all is_ascii_graphic word.now then Some word.now else None) }
{
    if is_graphic(word) {
        str::from_utf8(word).ok()
    } else {
        None
    }
}

/// The words of a line, or `None` where there are more than any command has.
pub fn words_of<'a>(line: &'a [u8]) -> Option<ArrayVec<Word<'a>, MOST_WORDS>>
    ensures some { IfSome result (λ found.
        map word_value found.items ≡ map word_of (words line.now)) }
    ensures none { IfNone result (6 < length (words line.now)) }
{
    let mut words = ArrayVec::new();
    for word in line.split(|byte| *byte == b' ') {
        if words.try_push(word_of(word)).is_err() {
            return None;
        }
    }
    Some(words)
}

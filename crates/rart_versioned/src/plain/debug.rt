// Ported from rart 0.11.0 (Apache-2.0), and rewritten.
//! A tree as text, for `{:?}`.
use crate::counted::VersionedAdaptiveRadixTree;
use rart_below::KeyTrait;
use std::fmt::{self, Debug, Formatter, Write};
use std::ops::Bound;
use std::str;

impl<K: KeyTrait, V: Clone + Debug + Drop> Debug for VersionedAdaptiveRadixTree<K, V> {
    /// Its pairs as a `BTreeMap` writes them, `{"tea": 300}`: a key that is UTF-8 as text, any
    /// other as a byte string, `b"\xff"`. Where memory is refused on the way, the answer is an
    /// error, and the text ends there.
    fn fmt<W: Write>(&self, f: &mut Formatter<W>) -> fmt::Result {
        let Ok(mut cursor) = self.cursor_from(Bound::Unbounded) else {
            return Err(fmt::Error);
        };
        let mut map = f.debug_map();
        'writing: loop {
            match cursor.next_value() {
                Ok(Some(value)) => {
                    let key = KeyText {
                        bytes: cursor.key(),
                    };
                    map.entry(&key, value);
                }
                Ok(None) => return map.finish(),
                Err(_refused) => return Err(fmt::Error),
            }
        }
    }
}

/// A key's bytes, written as text where they are UTF-8.
#[derive(Drop)]
struct KeyText<'a> {
    bytes: &'a [u8],
}

impl<'a> Debug for KeyText<'a> {
    fn fmt<W: Write>(&self, f: &mut Formatter<W>) -> fmt::Result {
        if let Ok(text) = str::from_utf8(self.bytes) {
            return Debug::fmt(text, f);
        }
        f.write_str("b\"")?;
        for byte in self.bytes.escape_ascii() {
            f.write_char(char::from(byte))?;
        }
        f.write_str("\"")
    }
}

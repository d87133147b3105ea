//! Values that own memory.
ghost use Rattle.std.specs.Prelude.{◌≡◌, Some, IfOk, OnOk, OnErr};
ghost use Rattle.rart_maps.specs.Versions.{HasRoom, value_at};

use rart_versioned::{KeyTrait, VectorKey, VersionedAdaptiveRadixTree};
use std::alloc::{AllocError, Global};
use std::marker::Model;

/// A text as a value. Contracts see its bytes.
#[derive(Drop)]
pub struct Text {
    text: String,
}

impl Model for Text {
    ghost use Rattle.std.specs.Prelude.{List, ℕ, string_bytes};

    ghost Value = { List ℕ };

    ghost view = { λ value. string_bytes value.text };
}

impl Clone for Text {
    ghost is_clone = { λ value copy. copy ≡ value };

    fn clone(&self) -> Result<Text, AllocError> {
        Ok(Text {
            text: self.text.clone()?,
        })
    }
}

impl Text {
    /// A copy of a text.
    pub fn new(alloc: Global, text: &str) -> Result<Text, AllocError>
        ensures { IfOk result (λ value. value ≡ text.now) }
    {
        Ok(Text {
            text: String::from_str(alloc, text)?,
        })
    }

    pub fn as_str(&self) -> &str
        ensures { result.now ≡ self.now }
    {
        self.text.as_str()
    }
}

/// Numbers as a value. Contracts see the list.
#[derive(Drop)]
pub struct Numbers {
    numbers: Vec<u64>,
}

impl Model for Numbers {
    ghost use Rattle.std.specs.Prelude.{List, ℕ};

    ghost Value = { List ℕ };

    ghost view = { λ value. value.numbers.items };
}

impl Clone for Numbers {
    ghost is_clone = { λ value copy. copy ≡ value };

    fn clone(&self) -> Result<Numbers, AllocError> {
        Ok(Numbers {
            numbers: self.numbers.clone()?,
        })
    }
}

impl Numbers {
    /// These numbers.
    pub fn new(numbers: Vec<u64>) -> Numbers
        ensures { result ≡ numbers.items }
    {
        Numbers { numbers }
    }

    pub fn as_slice(&self) -> &[u64]
        ensures { result.now ≡ self.now }
    {
        self.numbers.as_slice()
    }
}

pub type Titles = VersionedAdaptiveRadixTree<VectorKey, Text>;

/// Gives a name a title, and answers the one that it had.
pub fn retitle(
    alloc: Global,
    titles: &mut Titles,
    name: &str,
    title: Text,
) -> Result<Option<Text>, AllocError>
    requires room { HasRoom titles.old 1 }
    ensures old { IfOk result (λ old. old ≡ value_at titles.old name.now) }
    ensures new { OnOk result (value_at titles.new name.now ≡ Some title) }
    ensures refused { OnErr result (titles.new ≡ titles.old) }
{
    let key = VectorKey::new_from_slice(alloc, name.as_bytes())?;
    let old = titles.insert_and_replace_k(&key, title)?;
    Ok(old)
}

pub type Readings = VersionedAdaptiveRadixTree<VectorKey, Numbers>;

/// Keeps numbers under a name, in place of those that were there.
pub fn keep(
    alloc: Global,
    readings: &mut Readings,
    name: &str,
    numbers: Numbers,
) -> Result<bool, AllocError>
    requires room { HasRoom readings.old 1 }
    ensures kept { OnOk result (value_at readings.new name.now ≡ Some numbers) }
    ensures refused { OnErr result (readings.new ≡ readings.old) }
{
    let key = VectorKey::new_from_slice(alloc, name.as_bytes())?;
    let had = readings.insert_k(&key, numbers)?;
    Ok(had)
}

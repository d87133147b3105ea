//! A list of titles: its values own memory.
use crate::prices::text::Text;
use rart_versioned::{KeyTrait, VectorKey, VersionedAdaptiveRadixTree};
use std::alloc::{AllocError, Global};

type Titles = VersionedAdaptiveRadixTree<VectorKey, Text>;

fn text_of(alloc: Global, text: &str) -> Result<Text, AllocError> {
    Ok(Text {
        text: String::from_str(alloc, text)?,
    })
}

/// Prints a title that was changed, before and after.
pub fn print_titles(rt: &HostRuntime) -> anyhow::Result<()> {
    let alloc = rt.alloc();
    let tea = VectorKey::new_from_slice(alloc, "tea".as_bytes())?;
    let mut titles = Titles::new(alloc);
    titles.insert_k(&tea, text_of(alloc, "Tea")?)?;
    let before = titles.snapshot()?;
    titles.insert_k(&tea, text_of(alloc, "Green tea")?)?;
    for version in [&before, &titles] {
        if let Some(title) = version.get_k(&tea) {
            println!(rt; "tea is called {}", title.text)?;
        }
    }
    Ok(())
}

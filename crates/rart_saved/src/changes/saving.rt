//! A list of changes is written as bytes.
ghost use Rattle.std.specs.Prelude.{◌≡◌, map, IfOk};
ghost use Rattle.rart_changes.specs.Shown.{shown_change};
ghost use Rattle.rart_saved.specs.ChangeForms.{saved_changes};

use crate::entries::put_entry;
use crate::head::changes_head_of;
use crate::numbers::put_number;
use crate::sink::Sink;
use crate::value::SavedValue;
use rart_changes::KeyChange;
use rart_versioned::KeyTrait;
use std::alloc::{AllocError, Global};

/// A list of changes as bytes, as `TrackedTree::changes` gives one. They are of the list alone.
///
/// ```
/// let bytes = save_changes_slice(alloc, draft.changes()?.as_slice())?;
/// ```
///
/// Changes whose keys do not ascend have bytes too, but `load_changes_slice` refuses these.
pub fn save_changes_slice<K: KeyTrait, V: SavedValue>(
    alloc: Global,
    list: &[KeyChange<K, V>],
) -> Result<Vec<u8>, AllocError>
    ensures { IfOk result (λ bytes. bytes.items
        ≡ saved_changes V.written V.KIND (map (shown_change K.bytes) list.now)) }
{
    let mut bytes = Vec::new(alloc);
    let mut before = Vec::new(alloc);
    bytes.extend_from_slice(&changes_head_of(V::KIND))?;
    put_number(&mut bytes, list.len() as u64)?;
    'listing: for change in list {
        let values = (&change.before, &change.after);
        put_entry(&mut bytes, &mut before, change.key.as_ref(), values)?;
    }
    bytes.put_sum()?;
    Ok(bytes)
}

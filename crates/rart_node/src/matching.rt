// Ported from rart 0.11.0 (Apache-2.0), and rewritten.
//! What a node's prefix leaves of a key.
ghost use Rattle.std.specs.Prelude.{◌≡◌, ◌≤◌, length, drop};
ghost use Rattle.std.specs.Option.{option_map};
ghost use Rattle.rart_node.specs.Trees.{strip_prefix};

use rart_below::{Partial, does_begin};

/// What is left of a key behind a node's prefix, or `None` where the key does not begin with it.
pub fn strip_prefix<'k, P: Partial>(key: &'k [u8], prefix: &P) -> Option<&'k [u8]>
    ensures { option_map (λ rest. rest.now) result ≡ strip_prefix (P.bytes prefix.now) key.now }
{
    let bytes = prefix.as_ref();
    if !does_begin(bytes, key) {
        return None;
    }
    Some(rest_of(key, bytes.len()))
}

/// What is left of a string behind its first `count` bytes.
pub fn rest_of(key: &[u8], count: usize) -> &[u8]
    requires { count ≤ length key.now }
    ensures { result.now ≡ drop count key.now }
{
    &key[count..]
}

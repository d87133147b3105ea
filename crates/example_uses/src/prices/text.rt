//! A value that owns memory: a `String`, in a struct whose meaning is its text.
ghost use Rattle.std.specs.Prelude.{◌≡◌};

use std::alloc::AllocError;
use std::marker::Model;

/// A text as a value. Contracts see its bytes, so a clone equals it.
#[derive(Drop)]
pub struct Text {
    pub text: String,
}

impl Model for Text {
    ghost use Rattle.std.specs.Prelude.{List, ℕ, string_bytes};

    ghost Value = { List ℕ };

    ghost view = { λ value. string_bytes value.text };
}

impl Clone for Text {
    ghost is_clone = { λ value copy. copy ≡ value };

    fn clone(&self) -> Result<Text, AllocError> {
        Ok(Text {
            text: self.text.clone()?,
        })
    }
}

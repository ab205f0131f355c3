//! Texts and bytes, which contracts see as lists of bytes.

ghost use Rattle.std.specs.Prelude.{◌≡◌, ℕ, List, IfOk, length, string_bytes};
ghost use Rattle.std.specs.Ordering.{nat_cmp, is_lt};
ghost use Rattle.std.specs.Cmp.Lexicographic.{slice_cmp};
ghost use Rattle.std.specs.Str.{bytes_eq};
ghost use Rattle.ci_values.specs.Names.{is_name, has_no_control};

use crate::items::Items;
use crate::limits::MAX_NAME_BYTES;
use std::alloc::{AllocError, Global};
use std::marker::Model;

/// A text, seen as its bytes.
#[derive(Drop)]
pub struct Text {
    text: String,
}

impl Model for Text {
    ghost use Rattle.std.specs.Prelude.{ℕ, List, string_bytes};

    ghost Value = { List ℕ };

    ghost view = { λ t. string_bytes t.text };
}

impl Text {
    /// The text that a `String` holds.
    pub fn new(text: String) -> Text
        ensures { result ≡ string_bytes text }
    {
        Text { text }
    }

    /// A copy of a text. Errors: memory was refused.
    pub fn copy_of(alloc: Global, text: &str) -> Result<Text, AllocError>
        ensures { IfOk result (λ copy. copy ≡ text.now) }
    {
        let text = String::from_str(alloc, text)?;
        Ok(Text { text })
    }

    /// The text, lent.
    pub fn as_str(&self) -> &str
        ensures { result.now ≡ self.now }
    {
        self.text.as_str()
    }

    /// Are the two texts the same?
    pub fn is_same(&self, other: &Text) -> bool
        ensures { result ≡ bytes_eq self.now other.now }
    {
        self.text.as_str() == other.text.as_str()
    }

    /// Does this text come before the other, by its bytes?
    pub fn is_before(&self, other: &Text) -> bool
        ensures { result ≡ is_lt (slice_cmp nat_cmp self.now other.now) }
    {
        self.text.as_str() < other.text.as_str()
    }

    /// Is it a name: 1 to 255 bytes of UTF-8 with no control character (U+0000 to U+001F and U+007F)?
    pub fn is_name(&self) -> bool
        ensures { result ≡ is_name self.now }
    {
        is_name(self.text.as_str())
    }
}

/// Is the text a name: 1 to 255 bytes of UTF-8 with no control character (U+0000 to U+001F and U+007F)?
pub fn is_name(text: &str) -> bool
    ensures { result ≡ is_name text.now }
{
    let bytes = text.as_bytes();
    !bytes.is_empty() && bytes.len() <= MAX_NAME_BYTES && has_no_control(bytes)
}

fn has_no_control(bytes: &[u8]) -> bool
    ensures { result ≡ has_no_control bytes.now }
{
    bytes.iter().all(|b| *b >= 32 && *b != 127)
}

impl Clone for Text {
    ghost is_clone = { λ old new. new ≡ old };

    fn clone(&self) -> Result<Text, AllocError> {
        let text = self.text.clone()?;
        Ok(Text { text })
    }
}

/// Bytes, seen as a list.
pub type Bytes = Items<u8>;

/// A list of texts.
pub type Texts = Items<Text>;

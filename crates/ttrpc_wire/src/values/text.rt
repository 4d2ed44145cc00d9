ghost use Rattle.std.specs.Iterator.Runs.{EveryRun, ItemsAreChars};
ghost use Rattle.std.specs.Str.Iter.{chars_rest, chars_steps};
ghost use Rattle.std.specs.Prelude.{◌≡◌, ◌≢◌, ◌^◌, ◌<◌, ℕ, List, [], length, string_bytes, IfOk, IfErr, IsTrue, ◌↔◌};
ghost use Rattle.std.specs.Result.{IsErrOf};
ghost use Rattle.std.specs.Str.{IsUtf8};

use crate::values::clones::TryClone;
use crate::values::codec_error::CodecError;
use std::alloc::{AllocError, Global};
use std::cmp::Ordering;
use std::fmt;
use std::marker::Model;
use std::ops::Deref;
use std::str::Chars;

/// A text, which contracts see as the list of its bytes in UTF-8.
#[derive(Debug, Drop)]
pub struct Text {
    text: String,
}

impl Model for Text {
    ghost Value = { List ℕ };

    ghost view = { λ text. string_bytes text.text };
}

impl Text {
    /// Returns the empty text. Takes no memory.
    pub fn new(alloc: Global) -> Text
        ensures { result ≡ [] }
    {
        Text {
            text: String::new(alloc),
        }
    }

    /// Returns a copy of the text.
    pub fn from_str(alloc: Global, text: &str) -> Result<Text, AllocError>
        ensures { IfOk result (λ copy. copy ≡ text.now) }
    {
        Ok(Text {
            text: String::from_str(alloc, text)?,
        })
    }

    /// Returns a copy of the bytes as a text. The error is `BadUtf8` exactly if they aren't UTF-8.
    pub fn from_utf8(alloc: Global, bytes: &[u8]) -> Result<Text, CodecError>
        ensures ok { IfOk result (λ text. (text ≡ bytes.now) × IsUtf8 bytes.now) }
        ensures not_text { IsErrOf result CodecError.BadUtf8 ↔ ¬ (IsUtf8 bytes.now) }
        ensures else_memory { IfErr result (λ e. e ≢ CodecError.BadUtf8 → e ≡ CodecError.NoMemory) }
    {
        match std::str::from_utf8(bytes) {
            Ok(text) => Ok(Text::from_str(alloc, text)?),
            Err(_) => Err(CodecError::BadUtf8),
        }
    }

    /// Converts a string into a text. Takes no memory.
    pub fn from_string(text: String) -> Text
        ensures { result ≡ string_bytes text }
    {
        Text { text }
    }

    /// Converts the text into a string. Takes no memory.
    pub fn into_string(self) -> String
        ensures { string_bytes result ≡ self }
    {
        let Text { text } = self;
        text
    }

    /// Returns the number of the text's bytes in UTF-8.
    pub fn len(&self) -> usize
        ensures { result ≡ length self.now }
    {
        self.as_bytes().len()
    }

    /// Returns true if the text is empty.
    pub fn is_empty(&self) -> bool
        ensures { IsTrue result ↔ (self.now ≡ []) }
    {
        self.as_bytes().is_empty()
    }

    /// Returns true if the texts are equal. std's `==` compares values of one type alone.
    pub fn is_equal(&self, text: &str) -> bool
        ensures { IsTrue result ↔ (self.now ≡ text.now) }
    {
        self.as_str() == text
    }

    /// Returns an iterator over the text's characters, in order, as `chars` of std's text does.
    pub fn iter(&self) -> Chars<'_>
        ensures rest { chars_rest result ≡ self.now }
        ensures bound { length (chars_rest result) < 2 ^ 64 }
        ensures runs { EveryRun chars_steps (λ p. ItemsAreChars p (chars_rest p.from)) }
    {
        self.as_str().chars()
    }

    /// Returns the text.
    pub fn as_str(&self) -> &str
        ensures { result.now ≡ self.now }
    {
        self.text.as_str()
    }

    /// Returns the text's bytes, which are UTF-8.
    pub fn as_bytes(&self) -> &[u8]
        ensures value { result.now ≡ self.now }
        ensures utf8 { IsUtf8 self.now }
    {
        self.as_str().as_bytes()
    }
}

impl fmt::Display for Text {
    ghost use Rattle.std.specs.Prelude.{Some};

    ghost output = { λ text. Some text };

    fn fmt<W: fmt::Write>(&self, f: &mut fmt::Formatter<W>) -> fmt::Result {
        fmt::Display::fmt(&self.text, f)
    }
}

/// A text reads as std's text does.
impl Deref for Text {
    type Target = String;

    ghost deref_gives = { λ text s. string_bytes s ≡ text };

    fn deref(&self) -> &String {
        &self.text
    }
}

impl TryClone for Text {
    fn try_clone(&self) -> Result<Text, AllocError> {
        Text::from_str(*self.text.allocator(), self.as_str())
    }
}

impl PartialEq for Text {
    ghost use Rattle.std.specs.Prelude.{nat_eq};
    ghost use Rattle.std.specs.Cmp.Lexicographic.{pointwise};
    ghost use Rattle.std.proofs.lemmas.Cmp.{nat_list_eq_equiv};
    ghost use Rattle.std.specs.Cmp.{partial_equiv_from_equiv};

    ghost eq = { pointwise nat_eq };

    ghost laws = { partial_equiv_from_equiv nat_list_eq_equiv };

    fn eq(&self, other: &Text) -> bool {
        self.as_bytes() == other.as_bytes()
    }
}

impl Eq for Text {
    ghost use Rattle.std.proofs.lemmas.Cmp.{nat_list_eq_equiv};

    ghost laws = { nat_list_eq_equiv };
}

/// Texts are in the order of their bytes.
impl PartialOrd for Text {
    ghost use Rattle.std.specs.Prelude.{Some};
    ghost use Rattle.std.specs.Ordering.{nat_cmp};
    ghost use Rattle.std.specs.Cmp.Lexicographic.{slice_cmp, texts_po};

    ghost partial_cmp = { λ x y. Some (slice_cmp nat_cmp x y) };

    ghost laws = { texts_po };

    fn partial_cmp(&self, other: &Text) -> Option<Ordering> {
        Some(self.cmp(other))
    }
}

impl Ord for Text {
    ghost use Rattle.std.specs.Prelude.{refl};
    ghost use Rattle.std.specs.Ordering.{nat_cmp};
    ghost use Rattle.std.specs.Cmp.Lexicographic.{slice_cmp, nat_list_cmp_total, texts_ties};

    ghost cmp = { slice_cmp nat_cmp };

    ghost total = { nat_list_cmp_total };

    ghost matches_partial_cmp = { λ x y. refl };

    ghost matches_eq = { texts_ties };

    fn cmp(&self, other: &Text) -> Ordering {
        self.as_bytes().cmp(other.as_bytes())
    }
}

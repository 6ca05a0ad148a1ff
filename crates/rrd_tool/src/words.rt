//! Words, and lists of them.
ghost use Rattle.std.specs.Prelude.{◌≡◌, ◌++◌, ◌∷◌, [], drop, length, map, is_ok, if◌then◌else◌, not, slice_get, option_map};
ghost use Rattle.rrd_tool.specs.Names.{list_all};
ghost use Rattle.rrd_tool.specs.Words.{begins_with_minus};

use std::alloc::{AllocError, Global};
use std::marker::Model;

/// The words of one command, in the order in which they were pushed. The words are borrowed from the line or the
/// arguments. Contracts see the words as the list of their texts.
#[derive(Drop)]
pub struct Words<'a> {
    items: Vec<&'a str>,
}

impl<'a> Model for Words<'a> {
    ghost use Rattle.std.specs.Prelude.{List, ℕ, map};

    ghost Value = { List (List ℕ) };

    ghost view = { λ w. map (λ word. word.now) w.items.items };
}

impl<'a> Words<'a> {
    /// Creates an empty list. Does not allocate.
    pub fn new(alloc: Global) -> Words<'a>
        ensures { result ≡ [] }
    {
        Words {
            items: Vec::new(alloc),
        }
    }

    /// Adds a word at the end. Allocates only for the list, not for the word.
    ///
    /// # Errors
    /// `AllocError` if memory runs out. On error, the list is unchanged.
    pub fn push(&mut self, text: &'a str) -> Result<(), AllocError>
        ensures { self.new ≡ (if is_ok result then self.old ++ text.entry.now ∷ [] else self.old) }
    {
        self.items.push(text)?;
        Ok(())
    }

    /// Returns the number of words.
    pub fn len(&self) -> usize
        ensures { result ≡ length self.now }
    {
        self.items.len()
    }

    /// Returns the first word, or `None` if there are no words.
    pub fn first(&self) -> Option<&str>
        ensures { option_map (λ s. s.now) result ≡ slice_get self.now 0 }
    {
        if self.items.is_empty() {
            return None;
        }
        Some(self.items[0])
    }

    /// Returns the words after the first.
    pub(crate) fn behind_first(&self) -> &[&'a str]
        ensures { map (λ word. word.now) result.now ≡ drop 1 self.now }
    {
        match self.items.as_slice() {
            [] => &[],
            [_, rest @ ..] => rest,
        }
    }

    /// Returns the words as a slice.
    pub fn as_slice(&self) -> &[&'a str]
        ensures { map (λ word. word.now) result.now ≡ self.now }
    {
        self.items.as_slice()
    }
}

/// Checks whether a word begins with a minus, so that it is an option and neither a command nor a file.
pub fn begins_with_minus(word: &str) -> bool
    ensures { result ≡ begins_with_minus word.now }
{
    let bytes = word.as_bytes();
    if bytes.is_empty() {
        return false;
    }
    bytes[0] == b'-'
}

/// Checks whether no word is an option.
pub(crate) fn are_values(words: &[&str]) -> bool
    ensures { result ≡ list_all (λ word. not (begins_with_minus word.now)) words.now }
{
    words.iter().all(|word| !begins_with_minus(word))
}

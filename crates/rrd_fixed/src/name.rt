//! The names of data sources.
ghost use Rattle.std.specs.Prelude.{◌≡◌, ◌≤◌, [], length, Some, None, if◌then◌else◌};
ghost use Rattle.std.specs.List.{list_all};
ghost use Rattle.rrd_fixed.specs.Names.{fits, is_good, is_letter, same_name};

use arrayvec::ArrayString;
use std::marker::Model;

/// The name of a data source: at most 19 ASCII characters.
///
/// Contracts see the list of its bytes.
#[derive(Debug, Drop)]
pub struct Name {
    text: ArrayString<19>,
}

impl Model for Name {
    ghost use Rattle.std.specs.Prelude.{List, ℕ};

    ghost Value = { List ℕ };

    ghost view = { λ n. n.text.bytes };
}

impl Name {
    /// Returns the name with these bytes.
    ///
    /// Returns `None` if there are more than 19 bytes, or a byte is not ASCII.
    pub fn fit(bytes: &[u8]) -> Option<Name>
        ensures { result ≡ (if fits bytes.now then Some bytes.now else None) }
    {
        if !bytes.is_ascii() {
            return None;
        }
        let Ok(text) = str::from_utf8(bytes) else {
            return None;
        };
        let Ok(text) = ArrayString::from(text) else {
            return None;
        };
        Some(Name { text })
    }

    /// Returns whether a data source may have the name.
    ///
    /// A data source's name has 1 to 19 characters out of `a-z A-Z 0-9 _` (rrdcreate, "DS").
    pub fn good(&self) -> bool
        ensures { result ≡ is_good self.now }
    {
        let bytes = self.as_str().as_bytes();
        !bytes.is_empty() && all_letters(bytes)
    }

    /// Returns the characters, at most 19.
    pub fn as_str(&self) -> &str
        ensures value { result.now ≡ self.now }
        ensures short { length result.now ≤ 19 }
    {
        self.text.as_str()
    }

    /// Copies the name. Does not allocate.
    pub fn duplicate(&self) -> Name
        ensures { result ≡ self.now }
    {
        Name { text: self.text }
    }

    /// Returns whether both names have the same characters.
    pub fn same(&self, other: &Name) -> bool
        ensures { result ≡ same_name self.now other.now }
    {
        self.as_str() == other.as_str()
    }
}

// Returns whether a data source's name may have these characters.
fn all_letters(bytes: &[u8]) -> bool
    ensures { result ≡ list_all is_letter bytes.now }
{
    bytes.iter().all(|byte| is_letter(*byte))
}

// Returns whether a data source's name may have this character.
fn is_letter(byte: u8) -> bool
    ensures { result ≡ is_letter byte }
{
    byte.is_ascii_alphanumeric() || byte == b'_'
}

impl Default for Name {
    /// Returns the empty name, which no data source may have.
    fn default() -> Self
        ensures { result ≡ [] }
    {
        Name {
            text: ArrayString::new(),
        }
    }
}

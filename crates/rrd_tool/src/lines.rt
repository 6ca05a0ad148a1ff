//! The lines of an input, and the words of a line.
ghost use Rattle.std.specs.Prelude.{◌≡◌, ◌≢◌, ◌≤◌, List, ◌++◌, ◌∷◌, [], ℕ, option_map, IfOk, vec_capacity, true, false, IfSome, OnOk, OnErr};
ghost use Rattle.rrd_tool.specs.Names.{list_all};
ghost use Rattle.rrd_tool.specs.Lines.{has_end, if_some, is_empty, is_plain, text_in, without_cr, words_of};

use crate::Words;
use memchr::memchr2;
use std::alloc::{AllocError, Global};

/// The maximum number of bytes of a line, without its end.
const MAX_LINE: usize = 65_536;

/// The state of an unfinished line: the plain bytes so far; these bytes and a CR after them; or bytes with which no
/// text begins.
#[derive(Clone, Copy)]
pub(crate) enum Ending {
    Plain,
    Cr,
    Lost,
}

/// An unfinished line.
#[derive(Drop)]
pub(crate) struct LineBuffer {
    bytes: Vec<u8>,
    ending: Ending,
    ghost room: { 65536 ≤ vec_capacity bytes },
    ghost plain: { list_all is_plain bytes.items ≡ true },
}

// Returns whether a byte is allowed in a line: tab, or printable ASCII.
fn is_plain(byte: u8) -> bool
    ensures { result ≡ is_plain byte }
{
    byte == b'\t' || (b' ' <= byte && byte <= b'~')
}

// Returns whether each byte is allowed in a line. Checks several bytes at once, because nearly all lines are plain.
fn all_plain(bytes: &[u8]) -> bool
    ensures { result ≡ list_all is_plain bytes.now }
{
    let mut plain = true;
    for byte in bytes {
        plain = plain & is_plain(*byte);
    }
    plain
}

// Returns the bytes as a text; `None` if the bytes are not a text.
fn read_text(bytes: &[u8]) -> Option<&[u8]>
    ensures text { option_map (λ text. text.now) result ≡ text_in bytes.now }
    ensures plain { IfSome result (λ text. list_all is_plain text.now ≡ true) }
{
    if bytes.len() > MAX_LINE || !all_plain(bytes) {
        return None;
    }
    Some(bytes)
}

// Returns a line without one CR at its end.
fn drop_cr(line: &[u8]) -> &[u8]
    ensures { result.now ≡ without_cr line.now }
{
    let Some(last) = line.len().checked_sub(1) else {
        return line;
    };
    if line[last] == b'\r' {
        return &line[..last];
    }
    line
}

/// Returns the text of a complete line, without one CR at its end. Returns `None` if the line is longer than 65,536
/// bytes, or has a byte that is neither tab nor printable ASCII.
pub(crate) fn text_of_line(line: &[u8]) -> Option<&[u8]>
    ensures text { option_map (λ text. text.now) result ≡ text_in (without_cr line.now) }
    ensures plain { IfSome result (λ text. list_all is_plain text.now ≡ true) }
{
    read_text(drop_cr(line))
}

impl LineBuffer {
    ghost use Rattle.rrd_tool.specs.Lines.Buffer.{Buffers};
    ghost use Rattle.rrd_tool.specs.declared.lines.Ending.TheVariants.{Plain};

    /// Creates an empty line with room for 65,536 bytes.
    pub(crate) fn new(alloc: Global) -> Result<LineBuffer, AllocError>
        ensures { IfOk result (λ line. Buffers line []) }
    {
        Ok(LineBuffer {
            bytes: Vec::with_capacity(alloc, MAX_LINE)?,
            ending: Ending::Plain,
        })
    }

    /// Adds a byte other than LF.
    pub(crate) fn push(&mut self, byte: u8)
        requires { byte ≢ 10 }
        ensures { (unfinished : List ℕ) → Buffers self.old unfinished → Buffers self.new (unfinished ++ byte ∷ []) }
    {
        match self.ending {
            Ending::Lost => {}
            Ending::Cr => self.ending = Ending::Lost,
            Ending::Plain => self.push_behind_plain(byte),
        }
    }

    /// Adds bytes other than LF.
    pub(crate) fn extend(&mut self, bytes: &[u8])
        requires { has_end bytes.now ≡ false }
        ensures { (unfinished : List ℕ) → Buffers self.old unfinished → Buffers self.new (unfinished ++ bytes.now) }
    {
        for byte in bytes {
            self.push(*byte);
        }
    }

    // Adds a byte other than LF after plain bytes.
    fn push_behind_plain(&mut self, byte: u8)
        requires other { byte ≢ 10 }
        requires plain { self.old.ending ≡ Plain }
        ensures { (unfinished : List ℕ) → Buffers self.old unfinished → Buffers self.new (unfinished ++ byte ∷ []) }
    {
        if byte == b'\r' {
            self.ending = Ending::Cr;
            return;
        }
        if !is_plain(byte) {
            self.ending = Ending::Lost;
            return;
        }
        if self.bytes.len() >= MAX_LINE {
            self.ending = Ending::Lost;
            return;
        }
        let Ok(()) = self.bytes.push(byte) else {
            unreachable!()
        };
    }

    /// Returns the text of the line, which an LF ends, without one CR at its end. Returns `None` if the line is longer
    /// than 65,536 bytes, or has a byte that is neither tab nor printable ASCII.
    pub(crate) fn whole_line(&self) -> Option<&[u8]>
        ensures text { (unfinished : List ℕ) → Buffers self.now unfinished
            → option_map (λ text. text.now) result ≡ text_in (without_cr unfinished) }
        ensures plain { IfSome result (λ text. list_all is_plain text.now ≡ true) }
    {
        match self.ending {
            Ending::Lost => None,
            Ending::Plain | Ending::Cr => Some(self.bytes.as_slice()),
        }
    }

    /// Returns the text of the line, which the end of the input ends. A CR at the end stays, and the line is then not a
    /// text.
    pub(crate) fn last_line(&self) -> Option<&[u8]>
        ensures text { (unfinished : List ℕ) → Buffers self.now unfinished
            → option_map (λ text. text.now) result ≡ text_in unfinished }
        ensures plain { IfSome result (λ text. list_all is_plain text.now ≡ true) }
    {
        match self.ending {
            Ending::Lost | Ending::Cr => None,
            Ending::Plain => Some(self.bytes.as_slice()),
        }
    }

    /// Returns whether the line has no byte.
    pub(crate) fn is_empty(&self) -> bool
        ensures { (unfinished : List ℕ) → Buffers self.now unfinished → result ≡ is_empty unfinished }
    {
        match self.ending {
            Ending::Lost | Ending::Cr => false,
            Ending::Plain => self.bytes.is_empty(),
        }
    }

    /// Starts a new line.
    pub(crate) fn clear(&mut self)
        ensures { Buffers self.new [] }
    {
        self.bytes.clear();
        self.ending = Ending::Plain;
    }
}

// Adds a word, if the word has a byte.
fn push_word<'a>(words: &mut Words<'a>, word: &'a [u8]) -> Result<(), AllocError>
    requires { list_all is_plain word.now ≡ true }
    ensures ok { OnOk result (words.new ≡ words.old ++ if_some word.entry.now) }
    ensures err { OnErr result (is_empty word.entry.now ≡ false) }
{
    if word.is_empty() {
        return Ok(());
    }
    let Ok(text) = str::from_utf8(word) else {
        unreachable!()
    };
    words.push(text)
}

/// Returns the words of a text, which spaces and tabs separate. Does not allocate for a text without words.
pub(crate) fn read_words(alloc: Global, text: &[u8]) -> Result<Words<'_>, AllocError>
    requires { list_all is_plain text.now ≡ true }
    ensures ok { IfOk result (λ words. words ≡ words_of text.now) }
    ensures err { OnErr result (is_empty (words_of text.now) ≡ false) }
{
    let mut words = Words::new(alloc);
    let mut from = 0;
    while let Some(length) = memchr2(b' ', b'\t', &text[from..]) {
        push_word(&mut words, &text[from..from + length])?;
        from += length + 1;
    }
    push_word(&mut words, &text[from..])?;
    Ok(words)
}

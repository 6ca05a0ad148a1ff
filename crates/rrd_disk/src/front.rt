//! The first bytes of a file, in memory.
ghost use Rattle.std.specs.Prelude.{◌≡◌, ℕ, List, length, IfOk};
ghost use Rattle.rrd_disk.specs.Fronts.{Begins, Shows};

use rrd_change::PAGE;
use std::alloc::{AllocError, Global};

/// The first bytes of a file, perhaps all of them.
///
/// A change of the file drops them.
#[derive(Drop)]
pub(crate) struct Front {
    bytes: Vec<u8>,
}

impl Front {
    /// Creates a front without bytes.
    pub(crate) fn new(alloc: Global) -> Front
        ensures { (file : List ℕ) → Shows result file }
    {
        Front {
            bytes: Vec::new(alloc),
        }
    }

    /// Creates a front of these bytes.
    pub(crate) fn of(bytes: Vec<u8>) -> Front
        ensures bytes { result.bytes ≡ bytes }
        ensures shown { (file : List ℕ) → Begins file bytes.items → Shows result file }
    {
        Front { bytes }
    }

    /// Returns the bytes.
    pub(crate) fn bytes(&self) -> &[u8]
        ensures items { result.now ≡ self.now.bytes.items }
        ensures shown { (file : List ℕ) → Shows self.now file → Begins file result.now }
    {
        &self.bytes
    }

    /// Copies the bytes, with room for as many as a page behind them.
    pub(crate) fn copied(&self, alloc: Global) -> Result<Vec<u8>, AllocError>
        ensures { IfOk result (λ bytes. bytes.items ≡ self.now.bytes.items) }
    {
        let mut bytes = Vec::with_capacity(alloc, self.bytes.len().saturating_add(PAGE))?;
        bytes.extend_from_slice(&self.bytes)?;
        Ok(bytes)
    }

    /// Returns the bytes as a vector.
    pub(crate) fn into_bytes(self) -> Vec<u8>
        ensures { result ≡ self.bytes }
    {
        self.bytes
    }

    /// Returns the number of bytes.
    pub(crate) fn len(&self) -> usize
        ensures { result ≡ length self.now.bytes.items }
    {
        self.bytes.len()
    }

    /// Drops all bytes.
    pub(crate) fn clear(&mut self)
        ensures { (file : List ℕ) → Shows self.new file }
    {
        self.bytes.clear();
    }
}

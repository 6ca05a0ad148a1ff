//! Bytes that wait to be written, and how many cells are put among them at once.
ghost use Rattle.std.specs.Prelude.{◌≡◌, ◌+◌, ◌*◌, ◌≤◌, [], ◌++◌, length, take, true};
ghost use Rattle.rrd_file.specs.Names.{flat_map};
ghost use Rattle.rrd_file.specs.Layout.Values as spelling;

use crate::layout::{CELL_SIZE, MAX_ROW_CELLS};
use crate::values::halves_of;
use rrd_fixed::StoredCell;
use std::marker::Model;

/// The number of bytes that fit into a block: the widest row, and some pieces before it. A block is cleared before it is
/// used, twice in each update, so a larger block would cost each update more.
pub(crate) const BLOCK_SIZE: usize = 2_000;

/// The number of bytes in the widest row. No piece has more.
pub(crate) const MAX_PIECE_SIZE: usize = MAX_ROW_CELLS * CELL_SIZE;

/// Bytes that wait to be written, at most 2,000. Contracts see their list.
#[derive(Drop)]
pub(crate) struct Block {
    // The first `len` of these wait.
    bytes: [u8; BLOCK_SIZE],
    len: usize,
}

impl Model for Block {
    ghost use Rattle.std.specs.Prelude.{◌≡◌, ◌≤◌, List, ℕ, length, take};

    ghost Value = { List ℕ };

    ghost view = { λ b. take b.len b.bytes };

    ghost invariant = { λ b. b.len ≤ 2000 };
}

impl Block {
    /// Returns a block without a byte.
    pub(crate) fn new() -> Block
        ensures { result ≡ [] }
    {
        Block {
            bytes: [0; BLOCK_SIZE],
            len: 0,
        }
    }

    /// Returns the bytes.
    pub(crate) fn as_slice(&self) -> &[u8]
        ensures { result.now ≡ self.now }
    {
        &self.bytes[..self.len]
    }

    /// Returns whether there is room for a piece, or for a row.
    pub(crate) fn has_room(&self) -> bool
        ensures { result ≡ true → length self.now + MAX_PIECE_SIZE ≤ BLOCK_SIZE }
    {
        BLOCK_SIZE - self.len >= MAX_PIECE_SIZE
    }

    /// Forgets the bytes, which were written.
    pub(crate) fn clear(&mut self)
        ensures { self.new ≡ [] }
    {
        self.len = 0;
    }

    /// Adds bytes.
    pub(crate) fn add(&mut self, bytes: &[u8])
        requires { length self.old + length bytes.now ≤ BLOCK_SIZE }
        ensures { self.new ≡ self.old ++ bytes.now }
    {
        let end = self.len + bytes.len();
        self.bytes[self.len..end].copy_from_slice(bytes);
        self.len = end;
    }

    /// Adds cells.
    pub(crate) fn cells(&mut self, cells: &[StoredCell])
        requires { length self.old + CELL_SIZE * length cells.now ≤ BLOCK_SIZE }
        ensures { self.new ≡ self.old ++ flat_map spelling.cell_bytes cells.now }
    {
        let end = self.len + CELL_SIZE * cells.len();
        put_cells(&mut self.bytes[self.len..end], cells);
        self.len = end;
    }
}

// Writes a cell over sixteen bytes.
fn put_cell(into: &mut [u8], cell: StoredCell)
    requires { length into.old ≡ CELL_SIZE }
    ensures { into.new ≡ spelling.cell_bytes cell }
{
    let halves = halves_of(cell.number());
    into[..8].copy_from_slice(&halves.high.to_be_bytes());
    into[8..].copy_from_slice(&halves.low.to_be_bytes());
}

/// Writes cells over bytes, sixteen for each.
pub(crate) fn put_cells(into: &mut [u8], cells: &[StoredCell])
    requires { length into.old ≡ CELL_SIZE * length cells.now }
    ensures { into.new ≡ flat_map spelling.cell_bytes cells.now }
{
    for i in 0..cells.len() {
        put_cell(
            &mut into[CELL_SIZE * i..CELL_SIZE * i + CELL_SIZE],
            cells[i],
        );
    }
}

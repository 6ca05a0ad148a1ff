//! A writer of the pieces of an output.
ghost use Rattle.std.specs.Prelude.{◌≡◌, ◌+◌, ◌≤◌, [], OnOk, length};
ghost use Rattle.rrd_file.specs.Names.{Writes};
ghost use Rattle.rrd_file.specs.Words.{Gathers};

use rrd_fixed::{WriteFault, write_bytes};
use std::io::Write;

mod block;

pub(crate) use block::{BLOCK_SIZE, Block, MAX_PIECE_SIZE, put_cells};

/// A writer with a block of 2,000 bytes, in which records wait until one write takes many pieces. Does not allocate.
/// Pieces that wait are lost if `write_rest` is not called.
#[derive(Drop)]
pub(crate) struct PieceWriter<'a, W: Write> {
    out: &'a mut W,
    /// The bytes that wait. A piece is added here after `make_room`.
    pub(crate) block: Block,
}

impl<'a, W: Write> PieceWriter<'a, W> {
    /// Creates a writer after what `out` has. No byte waits yet.
    pub(crate) fn new(out: &'a mut W) -> PieceWriter<'a, W>
        ensures same_reference { result.out.ghost_name ≡ out.entry.ghost_name }
        ensures same { result.out.now ≡ out.old }
        ensures nothing_waits { result.block ≡ [] }
    {
        PieceWriter {
            out,
            block: Block::new(),
        }
    }

    /// Makes room for a piece or a row. If there may be too little room, writes all waiting bytes.
    pub(crate) fn make_room(&mut self) -> Result<(), WriteFault>
        ensures added { Gathers W.contents self.old self.new [] result }
        ensures room { OnOk result (length self.new.block + MAX_PIECE_SIZE ≤ BLOCK_SIZE) }
    {
        if !self.block.has_room() {
            write_bytes(self.out, self.block.as_slice())?;
            self.block.clear();
        }
        Ok(())
    }

    /// Writes all waiting bytes.
    pub(crate) fn write_rest(&mut self) -> Result<(), WriteFault>
        ensures same_reference { self.new.out.ghost_name ≡ self.old.out.ghost_name }
        ensures written { Writes (W.contents self.old.out.now) (W.contents self.new.out.now) self.old.block result }
    {
        write_bytes(self.out, self.block.as_slice())
    }
}

//! Reads, writes and flushes of streams. A call that a signal interrupts (`ErrorKind::Interrupted`) is made again, at
//! most [`TRIES`] times in a row; after any other error the call is not made again.
ghost use Rattle.std.specs.Prelude.{◌≡◌, ◌<◌, ◌≤◌, length, take, IfOk, OnErr};
ghost use Rattle.std.specs.Io.{ReadsAtMost};
ghost use Rattle.std.specs.Io.KnownBytes.{Appends, Consumes, IsAtEnd, Keeps};
ghost use Rattle.rrd_fixed.specs.Written.{Writes};

use std::io::{ErrorKind, Read, Write};

/// How often a call is made that a signal interrupts each time: once, and 1,000 times more.
pub const TRIES: u32 = 1_001;

/// A read failed, or was interrupted [`TRIES`] times. Nothing was read.
#[derive(Debug, Drop)]
pub struct ReadFault {}

/// A write failed, wrote nothing, or was interrupted [`TRIES`] times: a first part of the bytes is written, and not all.
/// Or a flush failed, or was interrupted [`TRIES`] times.
#[derive(Debug, Drop)]
pub struct WriteFault {}

/// Reads into the buffer, and returns the number of bytes that were read: 0 only at the end of the stream, or if the
/// buffer is empty.
///
/// # Errors
///
/// `ReadFault` if the read failed, or was interrupted [`TRIES`] times. Nothing was read.
pub fn read_some<R: Read>(reader: &mut R, buffer: &mut [u8]) -> Result<usize, ReadFault>
    ensures bound { ReadsAtMost result buffer.new }
    ensures ok { IfOk result (λ n. Consumes (R.remaining reader.old) (R.remaining reader.new) (take n buffer.new)) }
    ensures end { IfOk result (λ n. n ≡ 0 → 0 < length buffer.old → IsAtEnd (R.remaining reader.new)) }
    ensures err { OnErr result (Keeps (R.remaining reader.old) (R.remaining reader.new)) }
{
    'tries: for _ in 0..TRIES {
        match reader.read(buffer) {
            Ok(count) => return Ok(count),
            Err(error) => {
                if error.kind() != ErrorKind::Interrupted {
                    return Err(ReadFault {});
                }
            }
        }
    }
    Err(ReadFault {})
}

// Writes some of the bytes, at least one.
fn write_some<W: Write>(out: &mut W, bytes: &[u8]) -> Result<usize, WriteFault>
    ensures ok { IfOk result (λ n. (0 < n) × (n ≤ length bytes.now)
        × Appends (W.contents out.old) (W.contents out.new) (take n bytes.now)) }
    ensures err { OnErr result (Keeps (W.contents out.old) (W.contents out.new)) }
{
    'tries: for _ in 0..TRIES {
        match out.write(bytes) {
            Ok(0) => return Err(WriteFault {}),
            Ok(count) => return Ok(count),
            Err(error) => {
                if error.kind() != ErrorKind::Interrupted {
                    return Err(WriteFault {});
                }
            }
        }
    }
    Err(WriteFault {})
}

/// Writes all of the bytes.
///
/// # Errors
///
/// `WriteFault` if a write failed, wrote nothing, or was interrupted [`TRIES`] times. A first part of the bytes is written.
pub fn write_bytes<W: Write>(out: &mut W, bytes: &[u8]) -> Result<(), WriteFault>
    ensures { Writes (W.contents out.old) (W.contents out.new) bytes.now result }
{
    let mut at = 0;
    while at < bytes.len() {
        at += write_some(out, &bytes[at..])?;
    }
    Ok(())
}

/// Flushes what was written.
///
/// # Errors
///
/// `WriteFault` if the flush failed, or was interrupted [`TRIES`] times.
pub fn flush<W: Write>(out: &mut W) -> Result<(), WriteFault>
    ensures { Keeps (W.contents out.old) (W.contents out.new) }
{
    'tries: for _ in 0..TRIES {
        match out.flush() {
            Ok(()) => return Ok(()),
            Err(error) => {
                if error.kind() != ErrorKind::Interrupted {
                    return Err(WriteFault {});
                }
            }
        }
    }
    Err(WriteFault {})
}

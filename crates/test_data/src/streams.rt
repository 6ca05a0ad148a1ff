//! Readers and writers in memory that give or take little, are interrupted, or fail once.
ghost use Rattle.std.specs.Prelude.{◌≤◌, IfOk, Some};

use std::alloc::Global;
use std::io::{self, Error, ErrorKind, Read, Write};

// How a stream's calls go: how many bytes a call gives or takes at most, how often a call is interrupted
// before it does, and after how many bytes, or flushes, a call fails, once. Without a fault it then
// takes nothing.
#[derive(Clone, Copy)]
pub struct Manner {
    pub at_once: usize,
    pub interrupts: u64,
    pub room: usize,
    pub fault: Option<ErrorKind>,
}

// All that is asked for.
pub const PLAIN: Manner = Manner {
    at_once: usize::MAX,
    interrupts: 0,
    room: usize::MAX,
    fault: Some(ErrorKind::Other),
};

// The calls of a stream, and how often the present one was interrupted.
#[derive(Drop)]
struct Calls {
    manner: Manner,
    interrupted: u64,
}

impl Calls {
    fn new(manner: Manner) -> Calls {
        Calls {
            manner,
            interrupted: 0,
        }
    }

    // Begins a call for so many bytes: how many may go.
    fn begin(&mut self, asked: usize) -> io::Result<usize>
        ensures { IfOk result (λ count. count ≤ asked) }
    {
        if self.interrupted < self.manner.interrupts {
            self.interrupted += 1;
            return Err(Error::from(ErrorKind::Interrupted));
        }
        self.interrupted = 0;
        if self.manner.room == 0 {
            self.manner.room = usize::MAX;
            return match self.manner.fault {
                Some(kind) => Err(Error::from(kind)),
                None => Ok(0),
            };
        }
        let count = asked.min(self.manner.at_once).min(self.manner.room);
        self.manner.room -= count;
        Ok(count)
    }
}

// A reader of these bytes. It gives none only at their end.
#[derive(Drop)]
pub struct Giver<'a> {
    rest: &'a [u8],
    calls: Calls,
}

impl<'a> Giver<'a> {
    pub fn new(rest: &'a [u8], manner: Manner) -> Giver<'a> {
        Giver {
            rest,
            calls: Calls::new(manner),
        }
    }
}

impl<'a> Read for Giver<'a> {
    ghost remaining = { λ r. Some r.rest.now };

    fn read(&mut self, buf: &mut [u8]) -> io::Result<usize> {
        let most = self.calls.begin(buf.len())?;
        if most == 0 && !buf.is_empty() {
            return Err(Error::from(ErrorKind::Other));
        }
        self.rest.read(&mut buf[..most])
    }
}

// A writer that keeps what it takes, and counts its flushes.
#[derive(Drop)]
pub struct Taker {
    pub taken: Vec<u8>,
    pub flushed: u64,
    writes: Calls,
    flushes: Calls,
}

impl Taker {
    pub fn new(alloc: Global, writing: Manner, flushing: Manner) -> Taker {
        Taker {
            taken: Vec::new(alloc),
            flushed: 0,
            writes: Calls::new(writing),
            flushes: Calls::new(flushing),
        }
    }
}

impl Write for Taker {
    ghost contents = { λ w. Some w.taken.items };

    fn write(&mut self, buf: &[u8]) -> io::Result<usize> {
        let count = self.writes.begin(buf.len())?;
        self.taken.extend_from_slice(&buf[..count])?;
        Ok(count)
    }

    fn flush(&mut self) -> io::Result<()> {
        self.flushes.begin(1)?;
        self.flushed = self.flushed.saturating_add(1);
        Ok(())
    }
}

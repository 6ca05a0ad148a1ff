//! Streams of which a call fails: each call in turn, until a run meets no failure.
use super::streams::{Manner, PLAIN};
use std::io::ErrorKind;

// How a call of a writer fails: by an error, which isn't tried again, or by taking nothing.
pub const FAULTS: &[Option<ErrorKind>] = &[
    Some(ErrorKind::Other),
    Some(ErrorKind::WouldBlock),
    Some(ErrorKind::UnexpectedEof),
    None,
];

// How often each call is interrupted, and whether it then goes well.
pub const INTERRUPTS: &[(u64, bool)] = &[(1_000, true), (1_001, false)];

// Gives or takes a byte at a time, so many times, and then fails once. So its calls are its bytes.
pub const fn failing_after(calls: usize, fault: Option<ErrorKind>) -> Manner {
    Manner {
        at_once: 1,
        room: calls,
        interrupts: 0,
        fault,
    }
}

// Seven bytes at a time, each call interrupted so often.
pub const fn interrupted(interrupts: u64) -> Manner {
    Manner {
        at_once: 7,
        interrupts,
        ..PLAIN
    }
}

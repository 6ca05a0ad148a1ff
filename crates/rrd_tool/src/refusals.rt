//! The numbers of the refused lines of a batch.
ghost use Rattle.std.specs.Prelude.{◌≤◌, vec_capacity};

use std::alloc::{AllocError, Global};

/// Counts the lines of a batch, and keeps the numbers of refused lines, as many as have room. Allocates the room once,
/// so counting does not allocate.
#[derive(Drop)]
pub(crate) struct Refusals {
    most: usize,
    pub(crate) lines: u64,
    pub(crate) count: u64,
    pub(crate) numbers: Vec<u64>,
    ghost room: { most ≤ vec_capacity numbers },
    ghost few: { count ≤ lines },
}

impl Refusals {
    ghost use Rattle.std.specs.Prelude.{◌≡◌, ◌<◌, ◌+◌, ◌^◌, IfOk, true, false, ℕ};
    ghost use Rattle.rrd_tool.specs.Batch.{Tally, no_lines, tallied};
    ghost use Rattle.rrd_tool.specs.Batch.Answers.{Tallies};

    /// Creates a count of no lines, with room for `most` numbers.
    pub(crate) fn new(alloc: Global, most: usize) -> Result<Refusals, AllocError>
        ensures none { IfOk result (λ kept. Tallies most kept no_lines) }
        ensures lines { IfOk result (λ kept. kept.lines ≡ 0) }
    {
        Ok(Refusals {
            most,
            lines: 0,
            count: 0,
            numbers: Vec::with_capacity(alloc, most)?,
        })
    }

    /// Counts the next line.
    pub(crate) fn begin_line(&mut self)
        requires { self.old.lines + 1 < 2 ^ 64 }
        ensures tally { (most : ℕ) (t : Tally) → Tallies most self.old t → Tallies most self.new (tallied t false) }
        ensures lines { self.new.lines ≡ self.old.lines + 1 }
        ensures count { self.new.count ≤ self.old.lines }
    {
        self.lines += 1;
    }

    /// Counts the present line as refused.
    pub(crate) fn refuse(&mut self)
        requires { self.old.count < self.old.lines }
        ensures tally { (most : ℕ) (t : Tally) → Tallies most self.old (tallied t false) → Tallies most self.new (tallied t true) }
        ensures lines { self.new.lines ≡ self.old.lines }
    {
        self.count += 1;
        if self.numbers.len() < self.most {
            let Ok(()) = self.numbers.push(self.lines) else {
                unreachable!()
            };
        }
    }
}

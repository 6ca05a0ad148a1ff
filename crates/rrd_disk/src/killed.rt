//! Runs that are killed.
//!
//! A kill leaves in the file what the calls before it left, and perhaps a part of the call that it interrupted. So does
//! a system on which that call fails, and each later call fails too and leaves nothing. A killed run is the program's
//! own code on such a system.
ghost use Rattle.std.specs.Prelude.{◌≡◌, ◌+◌, ◌++◌, ◌<◌, [], IsTrue};
ghost use Rattle.rrd_disk.specs.Kills.{are_failed, interrupted};
ghost use Rattle.rrd_change.specs.declared.calls.Syncs.TheVariants.{Ordered};
ghost use Rattle.rrd_disk.specs.Making.{SurvivesMaking};
ghost use Rattle.rrd_disk.specs.Runs.{IsKilledRun};
ghost use Rattle.rrd_disk.specs.Safe.{SurvivesRun};
ghost use Rattle.rrd_store.specs.Runs.{batch_run, command_run};

use crate::laws::file_laws;
use crate::{
    Disk, Facts, FileRun, Lock, LockResult, Noted, Opening, Place, Record, run_batch_at,
    run_command_at,
};
use rrd_store::{Always, FileBatchEnd, TaskFault};
use rrd_tool::{Unobserved, Words};
use std::alloc::Global;
use std::io::{self, Error, ErrorKind, Read, Write};

/// A system on which a run is killed after a number of calls. Each call before the kill is passed on to the system `D`.
/// Each later call fails, and `D` does not see it.
#[derive(Drop)]
pub struct Killed<D: Disk> {
    system: D,
    calls_left: u64,
    // The call that the kill interrupts, and those after it, which nobody makes.
    missed: Record,
    ghost failed: { IsTrue (are_failed missed.events) },
    ghost alive: { 0 < calls_left → missed.events ≡ [] },
}

impl<D: Disk> Killed<D> {
    ghost use Rattle.std.specs.Prelude.{OnErr, OnOk};

    /// Creates the system on which the run is killed after `calls_left` more calls of `system`.
    pub fn new(system: D, calls_left: u64) -> Killed<D>
        ensures system { result.system ≡ system }
        ensures missed { result.missed.events ≡ [] }
    {
        Killed {
            system,
            calls_left,
            missed: Record::new(),
        }
    }

    /// Returns the system that the run had. Its record has the calls before the kill.
    pub fn into_system(self) -> D
        ensures { result ≡ self.system }
    {
        self.system
    }

    // Counts a call, or fails if the run was killed.
    fn live(&mut self) -> io::Result<()>
        ensures system { self.new.system ≡ self.old.system }
        ensures missed { self.new.missed ≡ self.old.missed }
        ensures alive { OnOk result (self.new.missed.events ≡ []) }
        ensures count { OnOk result (self.new.calls_left + 1 ≡ self.old.calls_left) }
        ensures dead { OnErr result (self.new.calls_left ≡ 0) }
    {
        if self.calls_left == 0 {
            return Err(Error::from(ErrorKind::Other));
        }
        self.calls_left -= 1;
        Ok(())
    }
}

impl<D: Disk> Disk for Killed<D> {
    ghost events = { λ killed. killed.missed.events ++ D.Disk.events killed.system };

    type File = D::File;

    type Pipe = D::Pipe;

    fn alloc(&self) -> Global {
        self.system.alloc()
    }

    fn open(&mut self, opening: Opening) -> io::Result<Option<D::File>> {
        self.live()?;
        self.system.open(opening)
    }

    fn open_pipe(&mut self) -> io::Result<Option<D::Pipe>> {
        self.live()?;
        self.system.open_pipe()
    }

    fn try_lock(&mut self, file: &D::File, lock: Lock) -> io::Result<LockResult> {
        self.live()?;
        self.system.try_lock(file, lock)
    }

    fn facts(&mut self, file: &D::File) -> io::Result<Facts> {
        self.live()?;
        self.system.facts(file)
    }

    fn facts_at(&mut self) -> io::Result<Option<Facts>> {
        self.live()?;
        self.system.facts_at()
    }

    fn has_directory(&self) -> bool {
        self.calls_left == 0 || self.system.has_directory()
    }

    fn read_at(&mut self, file: &D::File, bytes: &mut [u8], at: u64) -> io::Result<usize> {
        self.live()?;
        self.system.read_at(file, bytes, at)
    }

    fn read_pipe(&mut self, pipe: &mut D::Pipe, bytes: &mut [u8]) -> io::Result<usize> {
        self.live()?;
        self.system.read_pipe(pipe, bytes)
    }

    fn write_at(&mut self, file: &D::File, bytes: &[u8], at: u64) -> io::Result<usize> {
        if let Err(killed) = self.live() {
            self.missed.note(&Noted::PutFailed { at, bytes });
            return Err(killed);
        }
        self.system.write_at(file, bytes, at)
    }

    fn set_length(&mut self, file: &D::File, length: u64) -> io::Result<()> {
        if let Err(killed) = self.live() {
            self.missed.note(&Noted::SizeFailed(length));
            return Err(killed);
        }
        self.system.set_length(file, length)
    }

    fn sync(&mut self, file: &D::File) -> io::Result<()> {
        if let Err(killed) = self.live() {
            self.missed.note(&Noted::SyncFailed);
            return Err(killed);
        }
        self.system.sync(file)
    }

    fn pause(&self, milliseconds: u64) -> u64 {
        if self.calls_left == 0 {
            return milliseconds;
        }
        self.system.pause(milliseconds)
    }
}

/// Runs one command as [`run_command_at`] does, but kills the run in the call on the file that follows `calls` others.
///
/// The end and the text are those of a run whose later calls all fail: of a killed run nobody sees them.
///
/// Theorem: if the record is that of an honest file that nobody else wrote, the file represents what it represented
/// before the run, or what the definitions say of an accepted command; or it is damaged, if there was no database. A write
/// that the kill interrupted may have written a first part of its bytes, but of a small one, within a sector or of the first
/// page, all of them or none: if it wrote none, the kill came between two calls. The body is a part of the theorem: one that
/// makes no call on the file, and fails, would keep the contract too.
pub fn run_command_killed<D: Disk, W: Write>(
    alloc: Global,
    disk: D,
    calls: u64,
    place: Place<'_>,
    words: &Words<'_>,
    now: u64,
    out: &mut W,
) -> FileRun<Killed<D>, Result<(), TaskFault>>
    requires { D.events disk ≡ [] }
    ensures killed { IsKilledRun (interrupted result.disk.missed.events ++ D.events result.disk.system)
        (command_run words.now now (W.contents out.old) (W.contents out.new) result.end) }
    ensures power { place.entry.settings.syncs ≡ Ordered → SurvivesRun (interrupted result.disk.missed.events ++ D.events result.disk.system)
        (command_run words.now now (W.contents out.old) (W.contents out.new) result.end) }
    ensures making { place.entry.settings.syncs ≡ Ordered → SurvivesMaking (interrupted result.disk.missed.events ++ D.events result.disk.system)
        (command_run words.now now (W.contents out.old) (W.contents out.new) result.end) }
{
    file_laws();
    let killed = Killed::new(disk, calls);
    run_command_at(alloc, killed, place, words, now, out, &Unobserved)
}

/// Runs each line of `reader` as [`run_batch_at`] does, but kills the run in the call on the file that follows `calls`
/// others.
///
/// Theorem: as for [`run_command_killed`]. The file has the changes of all lines, or of none.
pub fn run_batch_killed<D: Disk, R: Read, W: Write>(
    alloc: Global,
    disk: D,
    calls: u64,
    place: Place<'_>,
    now: u64,
    numbered: usize,
    reader: &mut R,
    out: &mut W,
) -> FileRun<Killed<D>, Result<FileBatchEnd, TaskFault>>
    requires { D.events disk ≡ [] }
    ensures killed { IsKilledRun (interrupted result.disk.missed.events ++ D.events result.disk.system)
        (batch_run now numbered (R.remaining reader.old) (R.remaining reader.new)
        (W.contents out.old) (W.contents out.new) result.end) }
    ensures power { place.entry.settings.syncs ≡ Ordered → SurvivesRun (interrupted result.disk.missed.events ++ D.events result.disk.system)
        (batch_run now numbered (R.remaining reader.old) (R.remaining reader.new)
        (W.contents out.old) (W.contents out.new) result.end) }
    ensures making { place.entry.settings.syncs ≡ Ordered → SurvivesMaking (interrupted result.disk.missed.events ++ D.events result.disk.system)
        (batch_run now numbered (R.remaining reader.old) (R.remaining reader.new)
        (W.contents out.old) (W.contents out.new) result.end) }
{
    file_laws();
    let killed = Killed::new(disk, calls);
    run_batch_at(alloc, killed, place, now, numbered, reader, out, &Always)
}

//! Repairs of what a change leaves that was stopped. They are stopped, too, and repaired again.
ghost use Rattle.std.specs.Prelude.{take, drop};
ghost use Rattle.std.specs.Int.{w64, from_be_bytes};

use super::decoder::stands_for;
use super::disk::{Disk, Fate, Faults, NO_FAULTS};
use super::states::states;
use super::stops::{Run, Way};
use rrd_change::{FoundDatabase, Layout, Syncs};
use std::alloc::Global;
use std::io::{self, Error, ErrorKind};
use std::process::Abort;
use std::test::Fail;

// Where the databases of these tests end: their bytes from the ninth on are their length.
struct Lengths;

impl Layout for Lengths {
    ghost end_of = { λ bytes. from_be_bytes w64 (take 8 (drop 8 bytes)) };

    fn end(&self, _alloc: Global, bytes: &[u8]) -> io::Result<usize> {
        if bytes.len() < 16 {
            return Err(Error::from(ErrorKind::UnexpectedEof));
        }
        let mut word = [0; 8];
        word.copy_from_slice(&bytes[8..16]);
        Ok(usize::from_be_bytes(word))
    }
}

// Finds what a file stands for, and repairs the file.
fn repair(alloc: Global, disk: &mut Disk, syncs: Syncs) -> io::Result<()> {
    let bytes = Vec::from_slice(alloc, disk.held())?;
    FoundDatabase::read(alloc, &Lengths, bytes)?.repair(disk, syncs)
}

// The failures of the power that are tried after each stop: none of the calls since the last sync is on the disk, all, or some.
const POWER_FAILURES: u64 = 3;

// The stops that are tried: in the middle of a call, which loses what a sync has not stored, and after a call.
const STOPS: [Fate; 2] = [Fate::Part, Fate::After];

fn stop_at(call: u64, fate: Fate) -> Faults {
    Faults {
        call,
        fate,
        ..NO_FAULTS
    }
}

impl Run<'_> {
    // The file stands for `now`, and what a failure of the power leaves for a database of the change; after a repair that
    // ended well for `now`, too.
    fn assert_left(
        &self,
        rt: &impl Abort,
        disk: &Disk,
        now: &[u8],
        is_repaired: bool,
    ) -> Result<(), Fail> {
        let held = stands_for(self.alloc, disk.held())?.ok_or("no database")?;
        assert!(rt; held.as_slice() == now);
        assert!(rt; !is_repaired || disk.held() == now);
        for choice in 0..POWER_FAILURES {
            if self.syncs == Syncs::Never {
                return Ok(());
            }
            let left = stands_for(self.alloc, &disk.left(choice)?)?.ok_or("no database is left")?;
            let mut all = self.states.iter();
            let is_one = all.any(|state| state.bytes.as_slice() == left.as_slice());
            assert!(rt;
                is_one && (!is_repaired || left.as_slice() == now),
                "{choice}"
            );
        }
        Ok(())
    }

    // Repairs what a failure of the power leaves.
    fn repair_left(&self, rt: &impl Abort, disk: &Disk) -> Result<(), Fail> {
        for choice in 0..POWER_FAILURES {
            let file = disk.left(choice)?;
            let now = stands_for(self.alloc, &file)?.ok_or("no database is left")?;
            let mut left = Disk::new(self.alloc, &file, NO_FAULTS)?;
            repair(self.alloc, &mut left, self.syncs)?;
            self.assert_left(rt, &left, &now, true)?;
        }
        Ok(())
    }

    // Repairs a file after a kill, and stops once more in each third call. The next repair ends well.
    fn repair_again(&self, rt: &impl Abort, disk: &Disk, now: &[u8]) -> Result<(), Fail> {
        for third in 1..1_000 {
            let mut next = disk.after_kill(stop_at(third * 3, Fate::Part))?;
            if repair(self.alloc, &mut next, self.syncs).is_ok() {
                return self.assert_left(rt, &next, now, true);
            }
            self.assert_left(rt, &next, now, false)?;
            let mut last = next.after_kill(NO_FAULTS)?;
            repair(self.alloc, &mut last, self.syncs)?;
            self.assert_left(rt, &last, now, true)?;
        }
        Err(Fail::from("repairs without an end"))
    }

    // Repairs a file after a kill, under limits on the size of files. The file stands for the same database afterwards.
    fn repair_limited(&self, rt: &impl Abort, disk: &Disk, now: &[u8]) -> Result<(), Fail> {
        for limit in 0..24 {
            let mut next = disk.after_kill(Faults { limit, ..NO_FAULTS })?;
            let is_repaired = repair(self.alloc, &mut next, self.syncs).is_ok();
            let held = stands_for(self.alloc, next.held())?.ok_or("no database")?;
            assert!(rt; held.as_slice() == now, "{limit}");
            assert!(rt; !is_repaired || next.held() == now, "{limit}");
        }
        Ok(())
    }

    // Repairs a file after a kill, and stops at each call. What is left is repaired again.
    fn repair_each(&self, rt: &impl Abort, disk: &Disk) -> Result<(), Fail> {
        let now = stands_for(self.alloc, disk.held())?.ok_or("no database")?;
        self.repair_limited(rt, disk, &now)?;
        for fate in STOPS {
            for call in 1..1_000 {
                let mut next = disk.after_kill(stop_at(call, fate))?;
                let is_repaired = repair(self.alloc, &mut next, self.syncs).is_ok();
                self.assert_left(rt, &next, &now, is_repaired)?;
                if is_repaired {
                    break;
                }
                if self.syncs == Syncs::Ordered && fate == Fate::Part {
                    self.repair_again(rt, &next, &now)?;
                }
            }
        }
        Ok(())
    }

    // Stops the change at each call, and repairs what is left.
    fn repair_stops(&self, rt: &impl Abort, fate: Fate) -> Result<(), Fail> {
        let first = self.states.first().ok_or("no database")?;
        for call in 1..1_000 {
            let mut disk = Disk::new(self.alloc, &first.bytes, stop_at(call, fate))?;
            let mut done = 0;
            if self.make(&mut disk, &mut done).is_ok() {
                assert!(rt; call > 1, "{call}");
                return Ok(());
            }
            self.repair_each(rt, &disk)?;
            if self.syncs == Syncs::Ordered {
                self.repair_left(rt, &disk)?;
            }
        }
        Err(Fail::from("changes without an end"))
    }
}

// Stops the changes of a file at each call, and repairs what is left.
fn assert_repairs(
    rt: &impl Abort,
    alloc: Global,
    way: Way,
    lengths: &[usize],
    fates: &[Fate],
) -> Result<(), Fail> {
    let states = states(alloc, lengths)?;
    for syncs in [Syncs::Never, Syncs::Ordered] {
        let run = Run {
            alloc,
            way,
            states: &states,
            syncs,
        };
        for fate in fates {
            run.repair_stops(rt, *fate)?;
        }
    }
    Ok(())
}

#[test]
fn repairs_of_a_change_lead_to_rest(rt: HostRuntime) -> Result<(), Fail> {
    assert_repairs(&rt, rt.alloc(), Way::Replace, &[60, 100], &STOPS)
}

// The second change is one append, and the third one outgrows the log.
#[test]
fn repairs_of_an_open_file_lead_to_rest(rt: HostRuntime) -> Result<(), Fail> {
    assert_repairs(&rt, rt.alloc(), Way::Open, &[72, 64, 96], &[Fate::After])
}

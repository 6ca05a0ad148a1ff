//! Changes that stop at each call, and what is left of the file then.
use super::decoder::stands_for;
use super::disk::{Disk, Fate, Faults, NO_FAULTS};
use super::states::{State, states};
use rrd_change::{Syncs, change, create, mark, replace, unmark};
use std::alloc::{AllocError, Global};
use std::io;
use std::process::Abort;
use std::test::Fail;

// How a file comes to its next database: it is made, changed by itself, or stays open.
#[derive(Clone, Copy, PartialEq, Eq, Debug)]
pub(super) enum Way {
    Make,
    Replace,
    Open,
}

// Changes of a file from each database to the next one.
#[derive(Clone, Copy)]
pub(super) struct Run<'a> {
    pub(super) alloc: Global,
    pub(super) way: Way,
    pub(super) states: &'a [State],
    pub(super) syncs: Syncs,
}

// How many failures of the power are tried after each stop.
const POWER_FAILURES: u64 = 6;

impl Run<'_> {
    // Changes the file, and counts the changes that ended well.
    pub(super) fn make(&self, disk: &mut Disk, done: &mut usize) -> io::Result<()> {
        let Some(mut old) = self.states.first() else {
            return Ok(());
        };
        let mut log = None;
        if self.way == Way::Open {
            mark(disk, self.syncs)?;
        }
        for new in self.states.iter().skip(1) {
            let (base, bytes, spans) = (old.base(), &new.bytes, &new.spans);
            match self.way {
                Way::Make => create(disk, bytes, self.syncs)?,
                Way::Replace => replace(self.alloc, disk, &base, bytes, spans, self.syncs)?,
                Way::Open => log = change(self.alloc, disk, log, &base, bytes, spans, self.syncs)?,
            }
            *done = done.saturating_add(1);
            old = new;
        }
        if let Some(kept) = log {
            kept.settle(disk, &old.bytes, self.syncs)?;
        }
        if self.way == Way::Open {
            unmark(disk, self.syncs)?;
        }
        Ok(())
    }

    // A file stands for the database after so many changes, or after one more.
    fn allows(&self, file: &[u8], done: usize) -> Result<bool, AllocError> {
        let Some(found) = stands_for(self.alloc, file)? else {
            return Ok(false);
        };
        let mut next = self.states.iter().skip(done).take(2);
        Ok(next.any(|state| state.bytes.as_slice() == found.as_slice()))
    }

    // Makes the changes, and checks what is left of the file. Says whether they were stopped.
    fn is_stopped(&self, rt: &impl Abort, faults: Faults) -> Result<bool, Fail> {
        let first = self.states.first().ok_or("no database")?;
        let mut disk = Disk::new(self.alloc, &first.bytes, faults)?;
        let mut done = 0;
        let is_stopped = self.make(&mut disk, &mut done).is_err();
        assert!(rt; self.allows(disk.held(), done)?, "{faults:?}");
        for choice in 0..POWER_FAILURES {
            let is_right = self.syncs == Syncs::Never || self.allows(&disk.left(choice)?, done)?;
            assert!(rt; is_right, "{faults:?}, {choice}");
        }
        let last = self.states.last().ok_or("no database")?;
        assert!(rt;
            is_stopped || disk.held() == last.bytes.as_slice(),
            "{faults:?}"
        );
        Ok(is_stopped)
    }

    // Stops at each call, up to the first stop that comes too late.
    fn stop_each(&self, rt: &impl Abort, fate: Fate) -> Result<(), Fail> {
        for call in 1..1_000 {
            let faults = Faults {
                call,
                fate,
                ..NO_FAULTS
            };
            if !self.is_stopped(rt, faults)? {
                assert!(rt; call > 1, "{call}");
                return Ok(());
            }
        }
        Err(Fail::from("changes without an end"))
    }
}

// The lengths of the databases of a file, one after another. The file of length 0 has none. The first log of the last run has
// room for the third database, and not for the fourth one.
const RUNS: &[(Way, &[usize])] = &[
    (Way::Make, &[0, 16]),
    (Way::Replace, &[900, 900]),
    (Way::Replace, &[700, 901]),
    (Way::Replace, &[900, 699, 16, 324]),
    (Way::Open, &[900, 900, 890, 895, 16, 900]),
    (Way::Open, &[60, 61, 70, 80]),
];

// Two writes make a file; and two logs get full, and a third one is brought into place when the file is closed.
const LONG_RUNS: &[(Way, &[usize])] = &[(Way::Make, &[0, 65_600]), (Way::Open, &[40; 41])];

// Stops each run at each call.
fn assert_stops(
    rt: &impl Abort,
    alloc: Global,
    runs: &[(Way, &[usize])],
    fates: &[Fate],
    syncs: Syncs,
) -> Result<(), Fail> {
    for (way, lengths) in runs {
        let states = states(alloc, lengths)?;
        let run = Run {
            alloc,
            way: *way,
            states: &states,
            syncs,
        };
        for fate in fates {
            run.stop_each(rt, *fate)?;
        }
    }
    Ok(())
}

#[test]
fn a_stop_leaves_the_old_database_or_the_new_one(rt: HostRuntime) -> Result<(), Fail> {
    let fates = [Fate::Before, Fate::Part, Fate::After, Fate::Once];
    assert_stops(&rt, rt.alloc(), RUNS, &fates, Syncs::Never)?;
    assert_stops(&rt, rt.alloc(), RUNS, &fates, Syncs::Ordered)
}

#[test]
fn so_does_a_stop_of_a_long_run(rt: HostRuntime) -> Result<(), Fail> {
    let fates = [Fate::Part, Fate::After];
    assert_stops(&rt, rt.alloc(), LONG_RUNS, &fates, Syncs::Ordered)
}

// Writes of at most so many bytes are taken up; and a disk can be full at each byte.
#[test]
fn short_writes_and_full_disks(rt: HostRuntime) -> Result<(), Fail> {
    let alloc = rt.alloc();
    for (way, lengths) in RUNS {
        let states = states(alloc, lengths)?;
        let run = Run {
            alloc,
            way: *way,
            states: &states,
            syncs: Syncs::Ordered,
        };
        for piece in [1_000, 7, 1] {
            let faults = Faults { piece, ..NO_FAULTS };
            assert!(&rt; !run.is_stopped(&rt, faults)?, "{piece}");
        }
        for full in 0..300 {
            let faults = Faults {
                full: full * 4,
                ..NO_FAULTS
            };
            run.is_stopped(&rt, faults)?;
        }
    }
    Ok(())
}

// A limit on the size of files cuts no mark short that counts: each mark of sixteen bytes follows a write behind them.
#[test]
fn limits_on_the_size_of_files(rt: HostRuntime) -> Result<(), Fail> {
    let alloc = rt.alloc();
    for syncs in [Syncs::Never, Syncs::Ordered] {
        for (way, lengths) in RUNS {
            let states = states(alloc, lengths)?;
            let run = Run {
                alloc,
                way: *way,
                states: &states,
                syncs,
            };
            for limit in 0..100 {
                let faults = Faults { limit, ..NO_FAULTS };
                run.is_stopped(&rt, faults)?;
            }
        }
    }
    Ok(())
}

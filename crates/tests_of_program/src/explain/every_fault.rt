//! Every kind of fault is in the table of refusals, and so is explained.
use super::refusals::{TABLE, fault_of};
use super::said;
use rrd_base::Refusal;
use rrd_explain::explain;
use rrd_tool::{Fault, LineFault, Part};
use std::test::Fail;

// Returns the number of a refusal. A new one has to be listed here, and makes a table of `Seen` longer.
fn number_of_refusal(refusal: Refusal) -> usize {
    match refusal {
        Refusal::BadStep => 0,
        Refusal::BadStart => 1,
        Refusal::NoSource => 2,
        Refusal::NoArchive => 3,
        Refusal::BadName => 4,
        Refusal::DoubleName => 5,
        Refusal::BadHeartbeat => 6,
        Refusal::BadBounds => 7,
        Refusal::BadXff => 8,
        Refusal::BadSteps => 9,
        Refusal::BadRows => 10,
        Refusal::TooLarge => 11,
        Refusal::BadDepth => 12,
        Refusal::NoSuchSource => 13,
        Refusal::WrongCount => 14,
        Refusal::BadValue => 15,
        Refusal::NotLater { .. } => 16,
        Refusal::NoSample => 17,
        Refusal::NothingToTune => 18,
        Refusal::NoSuchArchive => 19,
        Refusal::ShrinkTooFar => 20,
        Refusal::NothingToRevert => 21,
        Refusal::NoArchiveForFunction => 22,
        Refusal::SpanTooLong => 23,
        Refusal::BadSpan => 24,
        Refusal::OutOfMemory => 25,
        Refusal::BadTime => 26,
        Refusal::MixedTune => 27,
    }
}

// Returns the number of a part. A new one has to be listed here, and makes a table of `Seen` longer.
fn number_of_part(part: Part) -> usize {
    match part {
        Part::Step => 0,
        Part::Start => 1,
        Part::Journal => 2,
        Part::Definition => 3,
        Part::Template => 4,
        Part::Sample => 5,
        Part::Heartbeat => 6,
        Part::Minimum => 7,
        Part::Maximum => 8,
        Part::Kind => 9,
        Part::Rename => 10,
        Part::Archive => 11,
        Part::Change => 12,
        Part::Rows => 13,
        Part::Function => 14,
        Part::Resolution => 15,
        Part::End => 16,
    }
}

// Which kinds of faults the rows of the table have, by their numbers.
#[derive(Drop)]
struct Seen {
    refusals: [bool; 28],
    parts: [bool; 17],
    usage: bool,
}

impl Seen {
    // Notes a fault.
    fn note(&mut self, fault: Fault) -> Result<(), Fail> {
        match fault {
            Fault::Refused(refusal) => {
                *self
                    .refusals
                    .get_mut(number_of_refusal(refusal))
                    .ok_or("a new one")? = true;
            }
            Fault::Line(LineFault::BadWord { part, .. }) => {
                *self.parts.get_mut(number_of_part(part)).ok_or("a new one")? = true;
            }
            Fault::Line(LineFault::Usage) => self.usage = true,
            Fault::Line(LineFault::OutOfMemory) | Fault::NoDatabase | Fault::Output => {}
        }
        Ok(())
    }
}

// Without memory there is no text either.
const UNTOLD: usize = 25;

#[test]
fn the_table_has_every_fault(rt: HostRuntime) -> Result<(), Fail> {
    let mut seen = Seen {
        refusals: [false; 28],
        parts: [false; 17],
        usage: false,
    };
    for (holder, rows) in TABLE {
        for row in rows.lines() {
            let (line, _) = row.split_once(" => ").ok_or("no row")?;
            seen.note(fault_of(rt.alloc(), holder, line)?)?;
        }
    }
    assert!(&rt; seen.usage);
    for (number, is_seen) in seen.refusals.iter().enumerate() {
        assert_eq!(&rt; *is_seen, number != UNTOLD, "refusal {number}");
    }
    for (number, is_seen) in seen.parts.iter().enumerate() {
        assert!(&rt; *is_seen, "part {number}");
    }
    Ok(())
}

#[test]
fn no_words_at_all(rt: HostRuntime) -> Result<(), Fail> {
    let alloc = rt.alloc();
    let usage = Fault::Line(LineFault::Usage);
    for (words, wanted) in [
        (
            &[] as &[&str],
            "the name of a command is missing, such as info",
        ),
        (&[""], "the name of the command is empty"),
    ] {
        let explanation = explain(alloc, words, None, None, usage, 0);
        assert_eq!(&rt; said(&explanation), wanted, "{wanted}");
    }
    Ok(())
}

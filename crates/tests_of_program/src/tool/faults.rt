//! The lines of faults, and the texts that their types show.
use rrd_base::Refusal;
use rrd_tool::{Fault, LineFault, Part, write_error, write_fault};
use std::alloc::Global;
use std::process::Abort;
use std::test::Fail;

// A fault shows this text, and its line has it.
fn assert_told(rt: &impl Abort, alloc: Global, fault: Fault, text: &str) -> Result<(), Fail> {
    let shown = format!(in alloc; "{fault}")?;
    assert_eq!(rt; shown.as_str(), text);
    let mut out = Vec::new(alloc);
    assert!(rt; write_fault(&mut out, &fault).is_ok(), "{text}");
    let line = format!(in alloc; "ERROR: {text}\n")?;
    assert_eq!(rt; out.as_slice(), line.as_bytes(), "{text}");
    Ok(())
}

const REFUSALS: &[(Refusal, &str)] = &[
    (Refusal::BadStep, "bad step"),
    (Refusal::BadStart, "bad start"),
    (Refusal::NoSource, "no data source"),
    (Refusal::NoArchive, "no archive"),
    (Refusal::BadName, "bad name"),
    (Refusal::DoubleName, "double name"),
    (Refusal::BadHeartbeat, "bad heartbeat"),
    (Refusal::BadBounds, "bad bounds"),
    (Refusal::BadXff, "bad xff"),
    (Refusal::BadSteps, "bad steps"),
    (Refusal::BadRows, "bad rows"),
    (Refusal::TooLarge, "too large"),
    (Refusal::BadDepth, "bad journal depth"),
    (Refusal::NoSuchSource, "no such data source"),
    (Refusal::WrongCount, "wrong number of values"),
    (Refusal::BadValue, "bad value"),
    (
        Refusal::NotLater {
            last: 18_446_744_073_709_551_615,
        },
        "not later than 18446744073709551615",
    ),
    (Refusal::NoSample, "no sample"),
    (Refusal::NothingToTune, "nothing to tune"),
    (Refusal::NoSuchArchive, "no such archive"),
    (Refusal::ShrinkTooFar, "shrinks too far"),
    (Refusal::NothingToRevert, "nothing to revert"),
    (
        Refusal::NoArchiveForFunction,
        "no archive for this function",
    ),
    (Refusal::SpanTooLong, "span too long"),
    (Refusal::BadSpan, "bad span"),
    (Refusal::OutOfMemory, "out of memory"),
    (Refusal::BadTime, "bad time"),
    (Refusal::MixedTune, "mixed tune"),
];

#[test]
fn refusals(rt: HostRuntime) -> Result<(), Fail> {
    for (refusal, text) in REFUSALS {
        let shown = format!(in rt.alloc(); "{refusal}")?;
        assert_eq!(rt; shown.as_str(), *text, "{text}");
        assert_told(&rt, rt.alloc(), Fault::Refused(*refusal), text)?;
    }
    Ok(())
}

#[test]
fn lines_that_say_why(rt: HostRuntime) {
    let mut out = Vec::new(rt.alloc());
    assert!(&rt; write_error(&mut out, "cannot open").is_ok());
    assert_eq!(&rt; out.as_slice(), b"ERROR: cannot open\n".as_slice());
}

// Parts that can't be read, each as the twelfth.
const UNREAD: &[(Part, &str)] = &[
    (Part::Step, "unreadable step"),
    (Part::Start, "unreadable start"),
    (Part::Journal, "unreadable journal"),
    (Part::Definition, "unreadable definition 12"),
    (Part::Template, "unreadable template"),
    (Part::Sample, "unreadable sample 12"),
    (Part::Heartbeat, "unreadable heartbeat"),
    (Part::Minimum, "unreadable minimum"),
    (Part::Maximum, "unreadable maximum"),
    (Part::Kind, "unreadable type"),
    (Part::Rename, "unreadable rename"),
    (Part::Archive, "unreadable archive"),
    (Part::Change, "unreadable change"),
    (Part::Rows, "unreadable rows"),
    (Part::Function, "unreadable function"),
    (Part::Resolution, "unreadable resolution"),
    (Part::End, "unreadable end"),
];

// Words that are no command.
fn assert_line_told(
    rt: &impl Abort,
    alloc: Global,
    fault: LineFault,
    text: &str,
) -> Result<(), Fail> {
    let shown = format!(in alloc; "{fault}")?;
    assert_eq!(rt; shown.as_str(), text);
    assert_told(rt, alloc, Fault::Line(fault), text)
}

#[test]
fn words_that_are_no_command(rt: HostRuntime) -> Result<(), Fail> {
    for (part, text) in UNREAD {
        let fault = LineFault::BadWord {
            part: *part,
            number: 12,
        };
        assert_line_told(&rt, rt.alloc(), fault, text)?;
    }
    assert_line_told(&rt, rt.alloc(), LineFault::Usage, "usage")?;
    assert_line_told(&rt, rt.alloc(), LineFault::OutOfMemory, "out of memory")
}

#[test]
fn other_faults(rt: HostRuntime) -> Result<(), Fail> {
    assert_told(&rt, rt.alloc(), Fault::NoDatabase, "no database")?;
    assert_told(&rt, rt.alloc(), Fault::Output, "write failed")
}

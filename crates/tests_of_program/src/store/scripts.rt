//! Random scripts from a fixed seed: run as one batch over a storage, and cut at random places into
//! batches and single commands, they tell the same and leave the same bytes. In a session, which keeps the bytes in
//! memory and changes a few of them, each line leaves the bytes that it leaves alone.
use super::storage::InMemory;
use super::{run, run_lines};
use rrd_store::{TaskFault, run_file_command};
use rrd_tool::Unobserved;
use std::alloc::{AllocError, Global};
use std::process::Abort;
use std::test::Fail;
use test_data::words_of;

const SCRIPTS: u64 = 64;

// How many lines a script has.
const LINES: u64 = 20;

// ---- chance

// Numbers from a seed, by a linear congruence modulo 2^64, of which the upper half is used.
#[derive(Drop)]
struct Chance {
    state: u64,
}

impl Chance {
    // A number below the bound; 0 where the bound is 0.
    fn below(&mut self, bound: u64) -> u64 {
        self.state = self
            .state
            .wrapping_mul(6_364_136_223_846_793_005)
            .wrapping_add(1_442_695_040_888_963_407);
        (self.state >> 32).checked_rem(bound).unwrap_or(0)
    }

    fn one_of<'a>(&mut self, texts: &[&'a str]) -> &'a str {
        let index = self.below(texts.len() as u64) as usize;
        texts.get(index).copied().unwrap_or("")
    }
}

// ---- scripts

// Lines that make a database. In these and in the other lines `#` stands for a digit, `^` for a type,
// `%` for a function, `$` for a source, and `@` for a time some seconds after the one before it. No line
// needs to know the present time.
const CREATES: [&str; 6] = [
    "create --step 10 --start 0 DS:a:^:100:U:U DS:b:^:40:U:U RRA:%:0.5:1:# RRA:%:0.5:3:4",
    "create --step 10 --start 0 --journal 2 DS:a:GAUGE:100:U:U DS:b:^:40:-5:7 RRA:%:0.5:1:6",
    "create --step 5 --start 7 --journal 3 DS:a:^:30:U:U DS:b:GAUGE:40:U:5.5 RRA:%:0:2:5 RRA:%:0.9:1:8",
    "create --step 1 --start 0 --journal 1# DS:a:^:100:U:U DS:b:^:40:0:U RRA:%:0.5:4:9 RRA:%:0.25:7:3",
    "create --step # --start 3 DS:a:^:100:U:U DS:$:^:40:U:U RRA:%:0.#:#:7",
    "create -s 10 -b 0 DS:a:^:100:U:U RRA:%:0.5:1:4 RRA:%:0.5:3:#",
];

// Lines of each kind, most of them updates and most of them accepted.
const OTHERS: [&str; 47] = [
    "update @:#:#",
    "update @:#:#",
    "update @:#:##",
    "update @:##:#",
    "update @:U:#",
    "update @:##:-#",
    "update @:#:# @:U:#",
    "update @:#:U @:#:# @:#:#",
    "update @:#.5:-0.00000#",
    "update -t b:a @:#:##",
    "update --template $ @:#",
    "update --template $ @:# @:U",
    "update @:#",
    "update @:#:# 5:#:#",
    "update @:#:x",
    "tune --heartbeat $:##",
    "tune -i $:-# -a $:##",
    "tune -a $:# -i $:U",
    "tune -d $:^",
    "tune -r $:c",
    "tune -r c:$ --maximum c:U",
    "tune",
    "tune RRA:%:0.5:1:#",
    "tune RRA:%:0.#:#:#",
    "tune DELRRA:0",
    "tune DELRRA:#",
    "tune -r a:b RRA:%:0.5:1:4",
    "resize 0 GROW #",
    "resize 0 SHRINK #",
    "resize 1 GROW #",
    "resize 1 SHRINK 1",
    "revert",
    "revert",
    "revert",
    "revert",
    "fetch % -s 0 -e 1##",
    "fetch % -s ## -e 1##",
    "fetch % -r 30 -s 0 -e 2##",
    "fetch FIRST -s 0 -e #",
    "first",
    "first --rraindex #",
    "last",
    "lastupdate",
    "info",
    "info",
    "last @",
    "dump",
];

const DIGITS: [&str; 10] = ["0", "1", "2", "3", "4", "5", "6", "7", "8", "9"];

const TYPES: [&str; 4] = ["GAUGE", "COUNTER", "DERIVE", "ABSOLUTE"];

const FUNCTIONS: [&str; 4] = ["AVERAGE", "MIN", "MAX", "LAST"];

const SOURCES: [&str; 5] = ["a", "a", "b", "b", "c"];

// A line of this form, each mark replaced by chance.
fn line_of(
    alloc: Global,
    chance: &mut Chance,
    time: &mut u64,
    form: &str,
) -> Result<String, AllocError> {
    let mut line = String::new(alloc);
    for mark in form.chars() {
        match mark {
            '#' => line.push_str(chance.one_of(&DIGITS))?,
            '^' => line.push_str(chance.one_of(&TYPES))?,
            '%' => line.push_str(chance.one_of(&FUNCTIONS))?,
            '$' => line.push_str(chance.one_of(&SOURCES))?,
            '@' => {
                *time = time.saturating_add(chance.below(20)).saturating_add(1);
                line.push_str(format!(in alloc; "{time}")?.as_str())?;
            }
            other => line.push(other)?,
        }
    }
    Ok(line)
}

// The lines of a script: most begin with a create, and a few of the others are creates too.
fn script_of(alloc: Global, chance: &mut Chance) -> Result<Vec<String>, Fail> {
    let mut lines = Vec::new(alloc);
    let mut time = 0;
    for number in 0..LINES {
        let creates = chance.below(if number == 0 { 10 } else { 160 }) < 9;
        let form = if creates {
            chance.one_of(&CREATES)
        } else {
            chance.one_of(&OTHERS)
        };
        lines.push(line_of(alloc, chance, &mut time, form)?)?;
    }
    Ok(lines)
}

// ---- runs

// A storage, what was told over it, and how many lines were refused.
#[derive(Drop)]
struct Session {
    alloc: Global,
    storage: InMemory,
    told: Vec<u8>,
    refused: u64,
}

impl Session {
    // Over nothing.
    fn new(alloc: Global) -> Result<Session, AllocError> {
        Ok(Session {
            alloc,
            storage: InMemory::missing(alloc),
            told: Vec::new(alloc),
            refused: 0,
        })
    }

    // Runs lines as a batch.
    fn batch(&mut self, lines: &str) -> Result<(), Fail> {
        let (end, out) = run_lines(self.alloc, &mut self.storage, lines);
        let end = end?;
        if end.stream.is_some() || end.unstored.is_some() {
            return Err(Fail::from("a batch ended early"));
        }
        self.told.extend_from_slice(&out)?;
        self.refused = self.refused.saturating_add(end.refused);
        Ok(())
    }

    // Runs a line as a command of its own. The line of its fault comes on another stream than what it
    // prints, and where a batch has no database, there is no file to be opened.
    fn single(&mut self, line: &str) -> Result<(), Fail> {
        let (end, out) = run(self.alloc, &mut self.storage, line, 0)?;
        self.told.extend_from_slice(&out)?;
        let Some(fault) = end else {
            return Ok(());
        };
        self.refused = self.refused.saturating_add(1);
        let line = match fault {
            TaskFault::CannotOpen => format!(in self.alloc; "ERROR: no database\n")?,
            other => format!(in self.alloc; "ERROR: {other}\n")?,
        };
        self.told.extend_from_slice(line.as_bytes())?;
        Ok(())
    }
}

// Runs a script as one batch.
fn run_whole(session: &mut Session, script: &[String]) -> Result<(), Fail> {
    let mut lines = String::new(session.alloc);
    for line in script {
        lines.push_str(line.as_str())?;
        lines.push('\n')?;
    }
    session.batch(lines.as_str())
}

// Runs a script cut at random places: a line in three is a command of its own, and what lies between
// two of them, also if that is nothing, is a batch.
fn run_cut(session: &mut Session, chance: &mut Chance, script: &[String]) -> Result<(), Fail> {
    let mut lines = String::new(session.alloc);
    for line in script {
        if chance.below(3) == 0 {
            session.batch(lines.as_str())?;
            lines.clear();
            session.single(line.as_str())?;
        } else {
            lines.push_str(line.as_str())?;
            lines.push('\n')?;
        }
    }
    session.batch(lines.as_str())
}

// Both tell the same and leave the same bytes. Gives how many lines were refused.
fn assert_cuts_change_nothing(
    rt: &impl Abort,
    alloc: Global,
    chance: &mut Chance,
    number: u64,
) -> Result<u64, Fail> {
    let script = script_of(alloc, chance)?;
    let mut whole = Session::new(alloc)?;
    run_whole(&mut whole, &script)?;
    let mut cut = Session::new(alloc)?;
    run_cut(&mut cut, chance, &script)?;
    assert_eq!(rt;
        cut.told.as_slice(),
        whole.told.as_slice(),
        "{number}: {script:?}"
    );
    assert_eq!(rt;
        cut.storage.bytes.as_slice(),
        whole.storage.bytes.as_slice(),
        "{number}: {script:?}"
    );
    assert_eq!(rt; cut.refused, whole.refused, "{number}: {script:?}");
    Ok(whole.refused)
}

#[test]
fn a_script_may_be_cut_anywhere(rt: HostRuntime) -> Result<(), Fail> {
    let mut chance = Chance { state: 1 };
    let mut refused = 0u64;
    for number in 0..SCRIPTS {
        let more = assert_cuts_change_nothing(&rt, rt.alloc(), &mut chance, number)?;
        refused = refused.saturating_add(more);
    }
    // Neither are all lines accepted nor most of them refused.
    let lines = SCRIPTS * LINES;
    assert!(&rt;
        lines / 4 < refused && refused < lines / 2,
        "{refused} of {lines}"
    );
    Ok(())
}

// ---- sessions

// Runs each line as a command of its own, over a storage that gives the bytes to an update and over one that doesn't, and in
// a session. After each line the storages have the same bytes.
fn assert_session_leaves_the_same(
    rt: &impl Abort,
    alloc: Global,
    script: &[String],
) -> Result<(), Fail> {
    let mut apart = Session::new(alloc)?;
    let mut together = rrd_store::Session::new(InMemory::missing(alloc));
    let mut giving = InMemory::missing(alloc);
    giving.gives_bytes = true;
    for line in script {
        apart.single(line.as_str())?;
        let mut told = Vec::new(alloc);
        let words = words_of(alloc, line.as_str())?;
        let _end = together.run(alloc, &words, 0, &mut told);
        assert_eq!(rt;
            together.storage().bytes.as_slice(),
            apart.storage.bytes.as_slice(),
            "{line}: {script:?}"
        );
        assert!(rt; together.storage().agrees, "{line}: {script:?}");
        let mut told = Vec::new(alloc);
        let _end = run_file_command(alloc, &words, 0, &mut giving, &mut told, &Unobserved);
        assert_eq!(rt;
            giving.bytes.as_slice(),
            apart.storage.bytes.as_slice(),
            "{line}: {script:?}"
        );
        assert!(rt; giving.agrees, "{line}: {script:?}");
    }
    Ok(())
}

#[test]
fn a_session_leaves_the_bytes_of_single_commands(rt: HostRuntime) -> Result<(), Fail> {
    let mut chance = Chance { state: 2 };
    for _ in 0..SCRIPTS {
        let script = script_of(rt.alloc(), &mut chance)?;
        assert_session_leaves_the_same(&rt, rt.alloc(), &script)?;
    }
    Ok(())
}

// Archives of four rows and of three, a journal of two changes, and updates that end no row, a few rows, all rows, and
// more rows than there are.
const UPDATES: [&str; 20] = [
    "create --step 10 --start 0 --journal 2 DS:a:GAUGE:100:U:U DS:b:GAUGE:100:U:U RRA:LAST:0.5:1:4 RRA:AVERAGE:0.5:2:3",
    "update 10:1:2",
    "update 15:2:3",
    "update 20:3:4 30:5:6",
    "update 40:7:8",
    "update 60:9:1",
    "update 70:2:3 80:4:5 90:6:7",
    "update 130:8:9",
    "update 140:1:U",
    "update 300:2:3",
    "update 305:4:5",
    "revert",
    "update 310:6:7",
    "tune --heartbeat a:50",
    "update 320:8:9",
    "resize 0 GROW 1",
    "update 330:1:2",
    "fetch LAST -s 0 -e 330",
    "update 320:3:4",
    "update 345:5:6",
];

#[test]
fn updates_in_a_session_leave_the_bytes_of_single_commands(rt: HostRuntime) -> Result<(), Fail> {
    let alloc = rt.alloc();
    let mut script = Vec::new(alloc);
    for line in UPDATES {
        script.push(String::from_str(alloc, line)?)?;
    }
    assert_session_leaves_the_same(&rt, alloc, &script)
}

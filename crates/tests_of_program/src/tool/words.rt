//! Words and the commands that they are, as a table. The words of a line stand between single
//! spaces, and now is 1000.
use rrd_base::{CreateSpec, DsDef, Given, RraDef, Tuning, Update};
use rrd_fixed::{Name, Number};
use rrd_spec::FetchRequest;
use rrd_tool::{Command, LineFault, Words, read_command};
use std::alloc::Global;
use std::fmt::{self, Display, Formatter};
use std::test::Fail;
use test_data::words_of;

fn read(alloc: Global, line: &str, now: u64) -> Result<String, Fail> {
    let read = read_command(alloc, &words_of(alloc, line)?, now);
    Ok(format!(in alloc; "{}", Told(&read))?)
}

// What was read, with all that a command holds.
#[derive(Clone, Copy)]
struct Told<'a>(&'a Result<Command, LineFault>);

impl Display for Told<'_> {
    fn fmt<W: fmt::Write>(&self, f: &mut Formatter<W>) -> fmt::Result {
        match self.0 {
            Ok(command) => tell(f, command),
            Err(fault) => write!(f, "{fault}"),
        }
    }
}

fn tell<W: fmt::Write>(f: &mut Formatter<W>, command: &Command) -> fmt::Result {
    match command {
        Command::Create(spec) => tell_create(f, spec),
        Command::Update(update) => tell_update(f, update),
        Command::Tune(tuning) => tell_tune(f, tuning),
        Command::Resize {
            archive: a,
            change,
            rows,
        } => write!(f, "resize {a} {change:?} {rows}"),
        Command::Fetch(fetch) => tell_fetch(f, *fetch),
        Command::First { archive } => write!(f, "first {archive}"),
        Command::Last => write!(f, "last"),
        Command::LastUpdate => write!(f, "lastupdate"),
        Command::Info => write!(f, "info"),
        Command::Revert => write!(f, "revert"),
    }
}

fn tell_fetch<W: fmt::Write>(f: &mut Formatter<W>, fetch: FetchRequest) -> fmt::Result {
    let (function, asked) = (fetch.function, fetch.asked);
    write!(
        f,
        "fetch {function:?} {asked} {} {}",
        fetch.start, fetch.end
    )
}

fn tell_create<W: fmt::Write>(f: &mut Formatter<W>, spec: &CreateSpec) -> fmt::Result {
    write!(f, "create {} {} {}", spec.step, spec.start, spec.depth)?;
    for source in spec.sources.as_slice() {
        tell_source(f, source)?;
    }
    for archive in spec.archives.as_slice() {
        tell_archive(f, *archive)?;
    }
    Ok(())
}

fn tell_source<W: fmt::Write>(f: &mut Formatter<W>, source: &DsDef) -> fmt::Result {
    let (kind, heartbeat) = (source.kind, source.heartbeat);
    let (min, max) = (source.min, source.max);
    write!(
        f,
        " DS:{}:{kind:?}:{heartbeat}:{min:?}:{max:?}",
        source.name.as_str()
    )
}

fn tell_archive<W: fmt::Write>(f: &mut Formatter<W>, archive: RraDef) -> fmt::Result {
    let (function, xff) = (archive.function, archive.xff);
    let (steps, rows) = (archive.steps, archive.rows);
    write!(f, " RRA:{function:?}:{xff}:{steps}:{rows}")
}

fn tell_update<W: fmt::Write>(f: &mut Formatter<W>, update: &Update) -> fmt::Result {
    write!(f, "update")?;
    if let Some(names) = &update.template {
        write!(f, " of")?;
        tell_names(f, names.as_slice())?;
    }
    for sample in update.samples.as_slice() {
        write!(f, " {}", sample.time)?;
        tell_values(f, sample.values.as_slice())?;
    }
    Ok(())
}

fn tell_names<W: fmt::Write>(f: &mut Formatter<W>, names: &[Name]) -> fmt::Result {
    for name in names {
        write!(f, " {}", name.as_str())?;
    }
    Ok(())
}

fn tell_values<W: fmt::Write>(f: &mut Formatter<W>, values: &[Given]) -> fmt::Result {
    for value in values {
        match value {
            Given::Unknown => write!(f, ":U")?,
            Given::Number(number) => tell_number(f, *number)?,
        }
    }
    Ok(())
}

fn tell_number<W: fmt::Write>(f: &mut Formatter<W>, number: Number) -> fmt::Result {
    let point = if number.point { "." } else { "" };
    write!(f, ":{}{point}", number.millionths)
}

fn tell_tune<W: fmt::Write>(f: &mut Formatter<W>, tuning: &Tuning) -> fmt::Result {
    write!(f, "tune")?;
    if let Some((name, heartbeat)) = &tuning.heartbeat {
        write!(f, " heartbeat {} {heartbeat}", name.as_str())?;
    }
    if let Some((name, bound)) = &tuning.minimum {
        write!(f, " minimum {} {bound:?}", name.as_str())?;
    }
    if let Some((name, bound)) = &tuning.maximum {
        write!(f, " maximum {} {bound:?}", name.as_str())?;
    }
    if let Some((name, kind)) = &tuning.kind {
        write!(f, " type {} {kind:?}", name.as_str())?;
    }
    if let Some((name, renamed)) = &tuning.rename {
        write!(f, " rename {} {}", name.as_str(), renamed.as_str())?;
    }
    Ok(())
}

// Words, and what they ask for.
const COMMANDS: &str = "\
create => create 300 990 16
create -s 10 --start 7 --journal 2 DS:g:GAUGE:100:U:U RRA:LAST:0.5:1:4 => create 10 7 2 DS:g:Gauge:100:None:None RRA:Last:500000:1:4
create RRA:MIN:0:2:5 DS:b:COUNTER:1:-1.5:U RRA:MAX:1:3:6 DS:a:DERIVE:2:U:2 -b 0 => create 300 0 16 DS:b:Counter:1:Some(-1500000):None DS:a:Derive:2:None:Some(2000000) RRA:Min:0:2:5 RRA:Max:1000000:3:6
create DS::ABSOLUTE:0:0:0 RRA:AVERAGE:-0.000001:0:0 => create 300 990 16 DS::Absolute:0:Some(0):Some(0) RRA:Average:-1:0:0
update => update
update 10:1 20:U:2.5 N:-3 => update 10:1000000 20:U:2500000. 1000:-3000000
update 10:1 -t g 20:2 => update of g 10:1000000 20:2000000
update --template b:a: N:007 => update of b a  1000:7000000
update 18446744073709551615:1 => update 18446744073709551615:1000000
tune => tune
tune -r g:h:i -d g:DERIVE -a g:U -i h:-1 --heartbeat h:5 => tune heartbeat h 5 minimum h Some(-1000000) maximum g None type g Derive rename g h:i
resize 0 GROW 4 => resize 0 Grow 4
resize 7 SHRINK 0 => resize 7 Shrink 0
fetch LAST => fetch Last 1 0 1000
fetch -e 100000 AVERAGE => fetch Average 1 13600 100000
fetch MAX -r 300 -s 5 --end 4 => fetch Max 300 5 4
fetch MIN -s 5 => fetch Min 1 5 1000
first => first 0
first --rraindex 3 => first 3
last => last
lastupdate => lastupdate
info => info
revert => revert
";

// Words that clap takes, and the part of them that cannot be read.
const UNREADABLE: &str = "\
create DS:g:GAUGE:100:U:U RRA:FOO:0.5:1:4 => unreadable definition 2
create --start y --step x => unreadable step
create x --start y => unreadable start
create --journal 1.0 => unreadable journal
create DS:g:gauge:100:U:U => unreadable definition 1
create DS:g:GAUGE:100:U => unreadable definition 1
create DS:g:GAUGE:100:U:U:U => unreadable definition 1
create DS:abcdefghijklmnopqrst:GAUGE:100:U:U => unreadable definition 1
create DS:ä:GAUGE:100:U:U => unreadable definition 1
create RRA:LAST:0.5:1:4:5 => unreadable definition 1
create ds:g:GAUGE:100:U:U => unreadable definition 1
update 10 => unreadable sample 1
update 10: => unreadable sample 1
update 10:1 n:1 => unreadable sample 2
update 10:1:x 20:1 => unreadable sample 1
update 18446744073709551616:1 => unreadable sample 1
update x -t abcdefghijklmnopqrst => unreadable template
update help => unreadable sample 1
update - => unreadable sample 1
update -- -h => unreadable sample 1
tune --heartbeat g => unreadable heartbeat
tune -i g: => unreadable minimum
tune --maximum g:5:6 => unreadable maximum
tune -d g:LAST -r x => unreadable type
tune -r g => unreadable rename
resize x GROW y => unreadable archive
resize 0 grow y => unreadable change
resize 0 GROW y => unreadable rows
fetch FIRST -s x => unreadable function
fetch LAST -s x -r y => unreadable resolution
fetch LAST -e y -s x => unreadable start
fetch LAST -e - => unreadable end
first --rraindex x => unreadable archive
first --rraindex - => unreadable archive
";

// Forms of options and words, and what clap makes of them.
const TAKEN: &str = "\
create -s5 => create 5 990 16
create -s=5 => create 5 990 16
create --step=5 => create 5 990 16
create -s==5 => unreadable step
create --step=-5 => unreadable step
create -s-5 => unreadable step
create -s=-5 => unreadable step
create -s -5 => usage
create --step -- 5 => usage
create --step => usage
create --step 5 --step 5 => usage
create --st 5 => usage
update -5 => usage
update -x 10:1 => usage
update -h => usage
update 10:1 --help => usage
resize 0 GROW => usage
resize 0 GROW 4 5 => usage
fetch => usage
fetch LAST LAST => usage
first --rraindex=7 => first 7
first --rraindex -7 => usage
first --rraindex => usage
first 0 => usage
last 1 => usage
lastupdate 1 => usage
info --last => usage
revert --last => usage
help => usage
-h => usage
--help last => usage
-- => usage
-- last => usage
frobnicate => usage
creat => usage
firs => usage
dump => usage
graph => usage
";

#[test]
fn what_words_are_read_as(rt: HostRuntime) -> Result<(), Fail> {
    for rows in [COMMANDS, UNREADABLE, TAKEN] {
        for row in rows.lines() {
            let (line, wanted) = row.split_once(" => ").ok_or("no row")?;
            let got = read(rt.alloc(), line, 1_000)?;
            assert_eq!(rt; got.as_str(), wanted, "{line}");
        }
    }
    for (line, now, wanted) in [
        ("", 1_000, "usage"),
        ("create", 9, "create 300 0 16"),
        ("fetch LAST", 86_405, "fetch Last 1 5 86405"),
    ] {
        let got = read(rt.alloc(), line, now)?;
        assert_eq!(rt; got.as_str(), wanted, "{line}");
    }
    let none = read_command(rt.alloc(), &Words::new(rt.alloc()), 1_000);
    assert!(rt; matches!(none, Err(LineFault::Usage)));
    Ok(())
}

#[test]
fn words(rt: HostRuntime) -> Result<(), Fail> {
    let mut words = Words::new(rt.alloc());
    assert_eq!(rt; words.len(), 0);
    assert!(rt; words.first().is_none());
    words.push("last")?;
    words.push("")?;
    assert_eq!(rt; words.len(), 2);
    assert_eq!(rt; words.first().unwrap_or("none"), "last");
    Ok(())
}

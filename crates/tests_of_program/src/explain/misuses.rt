//! Arguments that are no command, and what is said of them.
use super::said;
use rrd_explain::{Misuse, misuse_of};
use std::test::Fail;

// The arguments after the program's name, between single spaces; what is said of them; and the command whose usage follows.
// Where there is none, `-` stands for it.
const MISUSES: &str = "\
--help => - => -
-h => - => -
--help f => - => -
create => FILE is missing => create
last f more => 'more' is a word too many; last takes none => last
last f --help => - => last
tune f -h => - => tune
fetch f => give a function: AVERAGE, MIN, MAX, LAST => fetch
fetch MAX => MAX is in the place of FILE, which comes first => fetch
fetch LAST f => LAST is in the place of FILE, which comes first => fetch
resize 0 GROW 10 => 0 is in the place of FILE, which comes first => resize
resize f 0 GROW => give the number of rows after GROW or SHRINK, such as 100 => resize
batch f last => 'last' is a word too many; batch takes only FILE, and commands on standard input => batch
last - => - is in the place of FILE, which does not begin with a dash => last
update --template g f => --template is in the place of FILE, which does not begin with a dash => update
nothing f => there is no command nothing => -
lst f => there is no command lst; did you mean last? => last
upadte f 10:1 => there is no command upadte; did you mean update? => update
batsh => there is no command batsh; did you mean batch? => batch
rrdinfo f => there is no command rrdinfo; did you mean info? => info
a\tb\u{1b}[1m f => there is no command a\\tb\\u{1b}[1m => -
create f --stpe 5 => there is no option --stpe; did you mean --step? => create
fetch f LAST --start -1h => --start has no value; '-1h' begins with a dash; write 996400, or run rrdi-rrdtool --rrdi => fetch
first f --rraindex=0 -- -x => '-x' is a word too many; first takes only the option --rraindex => first
- => - is no command; rrdi-rrdtool - reads commands as RRDtool does, and rrdi batch its own => -
graph f.png DEF:a=f:a:LAST => there is no command graph; rrdi-graph draws with RRDtool's grapher, rrdi-plot with gnuplot => -
dump f => there is no command dump; rrdi-export prints the XML of RRDtool, rrdi-show JSON, CSV or OpenMetrics => -
restore f.xml f => there is no command restore; nothing reads XML; rrdi-import converts files of RRDtool => -
xport DEF:a=f:a:LAST => there is no command xport; rrdi-rrdtool xport prints what RRDtool prints, rrdi-show JSON or CSV => -
updatev f N:1 => there is no command updatev; rrdi-rrdtool updatev prints what RRDtool prints => -
flushcached f => there is no command flushcached; there is no cache; each update is written at once => -
list . => there is no command list; ls lists files => -
import f.rrd f => there is no command import; run rrdi-import => -
show f => there is no command show; run rrdi-show => -
--version => there is no command --version; rrdi --help prints the version too => -
-last f => there is no command -last; did you mean last? => last
";

#[test]
fn what_is_said_of_misuses(rt: HostRuntime) -> Result<(), Fail> {
    let alloc = rt.alloc();
    for row in MISUSES.lines() {
        let (line, rest) = row.split_once(" => ").ok_or("no row")?;
        let (wanted, command) = rest.split_once(" => ").ok_or("no row")?;
        let words: Vec<&str> = line.split(' ').collect(alloc)?;
        let Misuse { explanation, usage } = misuse_of(alloc, &words, 1_000_000);
        assert_eq!(&rt;
            said(&explanation),
            if wanted == "-" { "" } else { wanted },
            "{line}"
        );
        let begins = format!(in alloc; "usage: rrdi {command} ")?;
        let is_right = match &usage {
            Some(usage) => usage.starts_with(begins.as_str()),
            None => command == "-",
        };
        assert!(&rt; is_right, "{line}");
    }
    Ok(())
}

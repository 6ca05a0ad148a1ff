//! The table of refusals: the words of commands, and what is said of them at the time 1,000,000. The tests of the program, of the
//! C library and of the Python package read this file too (`tests/support/refusals.py`). A row is a line: the words of a refused
//! command, between single spaces, and what is said of them.

pub(super) const GAUGE_AND_COUNTER: &str =
    "create --step 10 --start 0 DS:a:GAUGE:100:U:U DS:b:COUNTER:100:U:U RRA:LAST:0.5:1:4";

pub(super) const UNREADABLE: &str = "\
update 10 => '10' has no value; write TIME:VALUE
update 10:1:2 x:1:2 => its time is 'x', not whole seconds since 1970 or N
update -t a:b 10:1,5:2 => its value 1 is '1,5'; write '1.5', with a point
update 10:1:-0,123456 => its value 2 is '-0,123456'; write '-0.123456', with a point
update 10:1:1,5,6 => its value 2 is '1,5,6'; a value is a number, such as 21.5 or -3, or U for unknown
update --template=a -- 10:-.5E-3 => its value 1 is '-.5E-3', with an exponent; a value has at most six decimals and no exponent
update 10:1:0.1234567 => its value 2 is '0.1234567', with more than six decimals; a value has at most six decimals and no exponent
update 10::2 => its value 1 is empty; U is unknown
update 10:1:NaN => its value 2 is 'NaN'; U is unknown
update 10:1:+5 => its value 2 is '+5'; a value is a number, such as 21.5 or -3, or U for unknown; write 5, or run rrdi-rrdtool --rrdi
update 10:1:99999999999999999999999999999999999999999999999999 => its value 2 is '99999999999999999999'.. (50 characters), with more than 20 digits
update -- 10:1:\u{1b}[2J\u{202e} => its value 2 is '\\u{1b}[2J\\u{202e}'; a value is a number, such as 21.5 or -3, or U for unknown
fetch AVG => it is 'AVG', not AVERAGE, MIN, MAX or LAST
create DS:a:GAUGE:60:U:U RRA:AVG:0.5:1:1 => its function is 'AVG', not AVERAGE, MIN, MAX or LAST
create --step x => it is 'x', not a whole number of seconds
create -s=5.0 => it is '5.0', not a whole number of seconds
create --journal all => it is 'all', not a whole number
create -b => --start has no value
tune -i g => it is 'g', not NAME:NUMBER or NAME:U
tune --maximum a:x => it is 'a:x', not NAME:NUMBER or NAME:U
tune -d a:COUNTERS => it is 'a:COUNTERS', not NAME:GAUGE|COUNTER|DERIVE|ABSOLUTE
tune -r a => it is 'a', not NAME:NEW, two names of at most 19 characters
tune RRA:LAST => it is 'RRA:LAST', not RRA:AVERAGE|MIN|MAX|LAST:xff:steps:rows or DELRRA:ARCHIVE
resize 0 UP 1 => it is 'UP', not GROW or SHRINK
resize 0 GROW many => it is 'many', not a whole number
resize a GROW 1 => it is 'a', not the number of an archive, such as 0
first --rraindex last => it is 'last', not the number of an archive, such as 0
";

pub(super) const OF_RRDTOOL: &str = "\
fetch LAST -s now => it is 'now', not whole seconds since 1970; write 1000000, or run rrdi-rrdtool --rrdi
fetch LAST -s-1d => it is '-1d', not whole seconds since 1970; write 913600, or run rrdi-rrdtool --rrdi
fetch LAST -e now-5m => it is 'now-5m', not whole seconds since 1970; write 999700, or run rrdi-rrdtool --rrdi
fetch LAST -e now+1h => it is 'now+1h', not whole seconds since 1970; write 1003600, or run rrdi-rrdtool --rrdi
fetch LAST -s -1h => --start has no value; '-1h' begins with a dash; write 996400, or run rrdi-rrdtool --rrdi
fetch LAST --end -1w => --end has no value; '-1w' begins with a dash; write 395200, or run rrdi-rrdtool --rrdi
fetch LAST -s 1e6 => it is '1e6', not whole seconds since 1970; write 1000000, or run rrdi-rrdtool --rrdi
fetch LAST -s end-1h => it is 'end-1h', not whole seconds since 1970; rrdi-rrdtool --rrdi takes RRDtool's times
fetch LAST -s -1year => --start has no value; '-1year' begins with a dash; rrdi-rrdtool --rrdi takes RRDtool's times
fetch LAST -r=5m => it is '5m', not a whole number of seconds; write 300, or run rrdi-rrdtool --rrdi
create --step 1M => it is '1M', not a whole number of seconds; write 2678400, or run rrdi-rrdtool --rrdi
create --step 3e2 => it is '3e2', not a whole number of seconds; write 300, or run rrdi-rrdtool --rrdi
create DS:a:GAUGE:10m:0:1e3 => its heartbeat is '10m', not a whole number of seconds; write 600, or run rrdi-rrdtool --rrdi
tune --heartbeat a:15m => it is 'a:15m', not NAME:SECONDS; write a:900, or run rrdi-rrdtool --rrdi
tune -a a:1e6 => it is 'a:1e6', not NAME:NUMBER or NAME:U; write a:1000000, or run rrdi-rrdtool --rrdi
tune -a a:99999999999999999999y => it is 'a:99999999999999999999y', not NAME:NUMBER or NAME:U
update now:5:1 => its time is 'now', not whole seconds since 1970 or N; write N, or run rrdi-rrdtool --rrdi
update now-1h:5:1 => its time is 'now-1h', not whole seconds since 1970 or N; write 996400, or run rrdi-rrdtool --rrdi
update 10:U:1e3 => its value 2 is '1e3', with an exponent; a value has at most six decimals and no exponent; write 1000, or run rrdi-rrdtool --rrdi
update 10:-2.5E-3:1 => its value 1 is '-2.5E-3', with an exponent; a value has at most six decimals and no exponent; write -0.0025, or run rrdi-rrdtool --rrdi
update 10:1e-7:1 => its value 1 is '1e-7', with an exponent; a value has at most six decimals and no exponent
update 10:1e20:1 => its value 1 is '1e20', with an exponent; a value has at most six decimals and no exponent
";

pub(super) const OPTIONS: &str = "\
create --stpe 5 => there is no option --stpe; did you mean --step?
fetch LAST --strat=5 => there is no option --strat; did you mean --start?
last --start 5 => there is no option --start; last takes none
info -x => there is no option -x; info takes none
update 10:1 -T g => there is no option -T; update takes --template
create --no-overwrite DS:a:GAUGE:60:U:U RRA:LAST:0.5:1:4 => there is no option --no-overwrite; create takes --step, --start, --journal
tune -x a:5 => there is no option -x; tune takes --heartbeat, --minimum, --maximum, --data-source-type, --data-source-rename
resize -1 GROW 5 => there is no option -1; resize takes none
fetch LAST -s => --start has no value
create --step 10 -s5 => --step is given twice
last more => 'more' is a word too many; last takes none
nothing => there is no command nothing
";

// Words that are missing, or too many.
pub(super) const COUNTS: &str = "\
fetch AVERAGE more => 'more' is a word too many; fetch takes a function and options
fetch LAST -s 5 0 10 => '0' is a word too many; fetch takes a function and options
fetch -e 5 -- LAST -r => '-r' is a word too many; fetch takes a function and options
lastupdate more => 'more' is a word too many; lastupdate takes none
info a b => 'a' is a word too many; info takes none
revert 2 => '2' is a word too many; revert takes none, and undoes one change
first 0 => '0' is a word too many; first takes only the option --rraindex
resize => give the number of an archive, such as 0
resize 0 => give GROW or SHRINK after the number of the archive
resize 0 SHRINK => give the number of rows after GROW or SHRINK, such as 100
resize 0 GROW 1 2 => '2' is a word too many; resize takes an archive, GROW or SHRINK, and a number of rows
tune RRA:LAST:0:1:4 RRA:LAST:0:1:5 => 'RRA:LAST:0:1:5' is a word too many; tune takes options, or one RRA: or DELRRA:
tune --heartbeat a:5 DELRRA:0 more => 'more' is a word too many; tune takes options, or one RRA: or DELRRA:
last aaaaaaaaaabbbbbbbbbbccccccccccdddddddddde => 'aaaaaaaaaabbbbbbbbbb'.. (41 characters) is a word too many; last takes none
--version => there is no command --version; rrdi --help prints the version too
";

pub(super) const CREATES: &str = "\
create => a data source is missing, such as DS:temp:GAUGE:600:U:U
create DS:a:GAUGE:60:U:U => an archive is missing, such as RRA:AVERAGE:0.5:1:1440
create -s0 DS:a:GAUGE:60:U:U RRA:LAST:0.5:1:4 => --step is '0', not 1 to 1000000 seconds
create -b1700000000000 DS:a:GAUGE:60:U:U RRA:LAST:0.5:1:4 => --start is 1700000000000; if these are milliseconds, write 1700000000
create DS:a:GAUGE:60:U:U --journal 100001 RRA:LAST:0.5:1:4 => --journal is '100001', not 1 to 100000 changes
create DS:a:GAUGE:60:U:U RRA:LAST:0.5:1:4 DS:my-temp:GAUGE:60:U:U => definition 3 has the name 'my-temp'; a name has 1 to 19 characters of a-z A-Z 0-9 _
create DS::GAUGE:60:U:U RRA:LAST:0.5:1:4 => definition 1 has the name ''; a name has 1 to 19 characters of a-z A-Z 0-9 _
create DS:a:GAUGE:60:U:U RRA:LAST:0.5:1:4 DS:a:GAUGE:60:U:U => two data sources would have the name a
create DS:a:GAUGE:60:U:U DS:b:GAUGE:0:U:U RRA:LAST:0.5:1:4 => the heartbeat of b is '0', not 1 to 9999999999 seconds
create DS:a:GAUGE:60:100:0 RRA:LAST:0.5:1:4 => the minimum of a is '100', above its maximum, '0'
create DS:a:GAUGE:60:0.5:-2.25 RRA:LAST:0.5:1:4 => the minimum of a is '0.5', above its maximum, '-2.25'
create DS:a:GAUGE:60:U:18446744073709551616 RRA:LAST:0.5:1:4 => the maximum of a is '18446744073709551616', not at most 2^64 - 1 in size
create DS:a:GAUGE:60:U:U RRA:LAST:1:1:4 => the xff of definition 2 is '1', not 0 to 0.999999
create DS:a:GAUGE:60:U:U RRA:LAST:-0.5:1:4 => the xff of definition 2 is '-0.5', not 0 to 0.999999
create RRA:LAST:0.5:1:4 DS:a:GAUGE:60:U:U RRA:LAST:0.5:0:4 => the number of steps of definition 3 is '0', not 1 to 1000000
create DS:a:GAUGE:60:U:U RRA:LAST:0.5:1:1000001 => the number of rows of definition 2 is '1000001', not 1 to 1000000
create DS:a:GAUGE:60:U:U DS:b:GAUGE:60:U:U DS:c:GAUGE:60:U:U DS:d:GAUGE:60:U:U DS:e:GAUGE:60:U:U DS:f:GAUGE:60:U:U DS:g:GAUGE:60:U:U DS:h:GAUGE:60:U:U DS:i:GAUGE:60:U:U RRA:LAST:0:1:900000 => data sources times rows are 9 times 900000, and at most 8000000
";

pub(super) const UPDATES: &str = "\
update => a sample is missing, such as N:21.5
update 1700000000000:1:2 => sample 1 has the time 1700000000000; if these are milliseconds, write 1700000000
update 10:1:2 1700000000123456:1:2 => sample 2 has the time 1700000000123456; if these are microseconds, write 1700000000
update 1700000000123456789:1:2 => sample 1 has the time 1700000000123456789; if these are nanoseconds, write 1700000000
update 18446744073709551615:1:2 => sample 1 has the time 18446744073709551615, which is over 9999999999
update 10:1:2:3 => sample 1 has 3 values, 2 are wanted: a, b
update 10:1:2 20:1 => sample 2 has 1 value, 2 are wanted: a, b
update -tb:a 10:1 => sample 1 has 1 value, 2 are wanted: b, a
update --template a 10:1:2 => sample 1 has 2 values, 1 is wanted: a
update 5:1:2 4:1:2 => sample 2 has the time 4, before that of sample 1, 5; sort them by time
update 5:1:2 7:1:2 0:1:2 => sample 3 has the time 0, before that of sample 2, 7; sort them by time
update 0:1:2 => 0 is not later than the last update, 0; the next sample may be at 1 or later
update -t a:c 10:1:2 => there is no data source c; the file has a, b
update -t a:a 10:1:2 => --template has a twice
update 10:1:5.0 => value 2 of sample 1 is 5.0; b is of type COUNTER, which takes whole numbers without a point from 0 to 2^64 - 1
update 10:1:5 20:1:-5 => value 2 of sample 2 is -5; b is of type COUNTER, which takes whole numbers without a point from 0 to 2^64 - 1
update --template=b:a 10:0.5:1 => value 1 of sample 1 is 0.5; b is of type COUNTER, which takes whole numbers without a point from 0 to 2^64 - 1
update 10:1000000000000000000:1 => value 1 of sample 1 is 1000000000000000000; a is of type GAUGE, which takes numbers below 10^18
";

pub(super) const TUNES: &str = "\
tune => an option, or RRA: or DELRRA:, is missing
tune --heartbeat c:5 => there is no data source c; the file has a, b
tune -i a:0 -r c:d => there is no data source c; the file has a, b
tune --heartbeat a:0 => the heartbeat of a is '0', not 1 to 9999999999 seconds
tune -a a:18446744073709551616 => the maximum of a is '18446744073709551616', not at most 2^64 - 1 in size
tune -i a:-18446744073709551616 => the minimum of a is '-18446744073709551616', not at most 2^64 - 1 in size
tune -i a:5 -a a:4 => the minimum of a is '5', above its maximum, '4'
tune -r a:b => two data sources would have the name b
tune -r a:b-c => the new name is 'b-c'; a name has 1 to 19 characters of a-z A-Z 0-9 _
tune -i a:0 RRA:LAST:0.5:1:4 => run it twice: with the options, and with the archive
tune RRA:LAST:1:1:4 => the xff of definition 1 is '1', not 0 to 0.999999
tune RRA:LAST:0:0:4 => the number of steps of definition 1 is '0', not 1 to 1000000
tune DELRRA:1 => the file has one archive, 0
tune DELRRA:0 => it is the only archive; add another one first
";

pub(super) const READINGS: &str = "\
resize 1 GROW 1 => the file has one archive, 0
resize 0 GROW 0 => the number of rows is '0', not 1 to 1000000
resize 0 GROW 1000000 => archive 0 has 4 rows; at most 999996 can be added
resize 0 SHRINK 4 => archive 0 has 4 rows, of which one has to be left
first --rraindex 1 => the file has one archive, 0
fetch MAX => the archives have LAST
fetch LAST -s 9 -e 8 => --start is 9, after --end, which is 8
fetch LAST -s 9999999999 => --start is 9999999999, after now, where it ends without --end
fetch LAST -s0 -e 9999999999 => it would be over 1000000 rows; raise --start or --resolution
fetch LAST -s 0 -e 1700000000000 => --end is 1700000000000; if these are milliseconds, write 1700000000
fetch LAST -e 1700000000000 => --end is 1700000000000; if these are milliseconds, write 1700000000
fetch LAST -s 1700000000000 => --start is 1700000000000; if these are milliseconds, write 1700000000
revert => no change is left in the journal, which keeps the newest 16
";

// Of all commands once more, with texts that were written before any was printed.
pub(super) const WRITTEN_BEFORE: &str = "\
update 10:1:2: => its value 3 is empty; U is unknown
update :1:2 => its time is '', not whole seconds since 1970 or N
update 10:1:0x1F => its value 2 is '0x1F'; a value is a number, such as 21.5 or -3, or U for unknown
update n:1:2 => its time is 'n', not whole seconds since 1970 or N
update 10:null:2 => its value 1 is 'null'; U is unknown
update 10:1:inf => its value 2 is 'inf'; a value is a number, such as 21.5 or -3, or U for unknown
update 10:1:1_000 => its value 2 is '1_000'; a value is a number, such as 21.5 or -3, or U for unknown
update 1.5:1:2 => its time is '1.5', not whole seconds since 1970 or N
update -t a,b 10:1:2 => there is no data source a,b; the file has a, b
update 10:.5:1 => its value 1 is '.5'; a value is a number, such as 21.5 or -3, or U for unknown; write 0.5, or run rrdi-rrdtool --rrdi
update -t abcdefghijklmnopqrstu 10:1 => it is 'abcdefghijklmnopqrstu', not names of at most 19 characters with colons between them
fetch average => it is 'average', not AVERAGE, MIN, MAX or LAST
fetch LAST -s yesterday => it is 'yesterday', not whole seconds since 1970; rrdi-rrdtool --rrdi takes RRDtool's times
fetch LAST -r -5 => --resolution has no value; '-5' begins with a dash
fetch LAST -r 0.5 => it is '0.5', not a whole number of seconds
create --start tomorrow DS:a:GAUGE:60:U:U RRA:LAST:0.5:1:4 => it is 'tomorrow', not whole seconds since 1970; rrdi-rrdtool --rrdi takes RRDtool's times
create DS:a:GUAGE:60:U:U RRA:LAST:0.5:1:4 => its type is 'GUAGE', not GAUGE, COUNTER, DERIVE or ABSOLUTE
create DS:a:GAUGE:60:U RRA:LAST:0.5:1:4 => it is 'DS:a:GAUGE:60:U', not DS:name:GAUGE|COUNTER|DERIVE|ABSOLUTE:heartbeat:min:max or RRA:AVERAGE|MIN|MAX|LAST:xff:steps:rows
create RRA:LAST:50%:1:4 => its xff is '50%', not a number from 0 to 0.999999
create --journal=-1 DS:a:GAUGE:60:U:U RRA:LAST:0.5:1:4 => it is '-1', not a whole number
create --step=0x10 DS:a:GAUGE:60:U:U RRA:LAST:0.5:1:4 => it is '0x10', not a whole number of seconds
tune --minimum a:low => it is 'a:low', not NAME:NUMBER or NAME:U
tune --heartbeat 600 => it is '600', not NAME:SECONDS
tune -d a:gauge => it is 'a:gauge', not NAME:GAUGE|COUNTER|DERIVE|ABSOLUTE
tune DELRRA:first => it is 'DELRRA:first', not RRA:AVERAGE|MIN|MAX|LAST:xff:steps:rows or DELRRA:ARCHIVE
resize first GROW 1 => it is 'first', not the number of an archive, such as 0
resize 0 grow 1 => it is 'grow', not GROW or SHRINK
resize 0 GROW 1.5 => it is '1.5', not a whole number
first --rraindex=-1 => it is '-1', not the number of an archive, such as 0
lastupdate now => 'now' is a word too many; lastupdate takes none
update --tempalte a 10:1 => there is no option --tempalte; did you mean --template?
fetch LAST --rsolution 5 => there is no option --rsolution; did you mean --resolution?
fetch LAST --end => --end has no value
resize 0 GROW => give the number of rows after GROW or SHRINK, such as 100
first --archive 0 => there is no option --archive; first takes --rraindex
revert 1 => '1' is a word too many; revert takes none, and undoes one change
updte 10:1:2 => there is no command updte; did you mean update?
graph x.png => there is no command graph; rrdi-graph draws with RRDtool's grapher, rrdi-plot with gnuplot
create --step 1000001 DS:a:GAUGE:60:U:U RRA:LAST:0.5:1:4 => --step is '1000001', not 1 to 1000000 seconds
create --journal 0 DS:a:GAUGE:60:U:U RRA:LAST:0.5:1:4 => --journal is '0', not 1 to 100000 changes
create DS:a.b:GAUGE:60:U:U RRA:LAST:0.5:1:4 => definition 1 has the name 'a.b'; a name has 1 to 19 characters of a-z A-Z 0-9 _
create DS:a:GAUGE:10000000000:U:U RRA:LAST:0.5:1:4 => the heartbeat of a is '10000000000', not 1 to 9999999999 seconds
create DS:a:GAUGE:60:U:U RRA:LAST:0.5:1:0 => the number of rows of definition 2 is '0', not 1 to 1000000
create DS:a:GAUGE:60:U:U RRA:MAX:0.5:1000001:4 => the number of steps of definition 2 is '1000001', not 1 to 1000000
create DS:a:GAUGE:60:-5:-6 RRA:LAST:0.5:1:4 => the minimum of a is '-5', above its maximum, '-6'
create RRA:LAST:0.5:1:4 => a data source is missing, such as DS:temp:GAUGE:600:U:U
update 20:1:2 20:1:2 => samples 1 and 2 have the same time, 20; leave one of them out
update 10:1:18446744073709551616 => value 2 of sample 1 is 18446744073709551616; b is of type COUNTER, which takes whole numbers without a point from 0 to 2^64 - 1
update -t b 10:-1 => value 1 of sample 1 is -1; b is of type COUNTER, which takes whole numbers without a point from 0 to 2^64 - 1
update 10000000000:1:2 => sample 1 has the time 10000000000; if these are milliseconds, write 10000000
update -t B:a 10:1:2 => there is no data source B; the file has a, b
tune --data-source-rename a: => the new name is ''; a name has 1 to 19 characters of a-z A-Z 0-9 _
tune --heartbeat a:10000000000 => the heartbeat of a is '10000000000', not 1 to 9999999999 seconds
resize 0 SHRINK 1000001 => the number of rows is '1000001', not 1 to 1000000
first --rraindex 18446744073709551615 => the file has one archive, 0
fetch AVERAGE => the archives have LAST
tune DELRRA:5 => the file has one archive, 0
tune RRA:LAST:0.5:1:0 => the number of rows of definition 1 is '0', not 1 to 1000000
";

pub(super) const FURTHER: &str = "\
fetch LAST --start=-3600 => it is '-3600', not whole seconds since 1970; write 996400, or run rrdi-rrdtool --rrdi
fetch LAST -s now-60 => it is 'now-60', not whole seconds since 1970; write 999940, or run rrdi-rrdtool --rrdi
fetch LAST --end -60 => --end has no value; '-60' begins with a dash; write 999940, or run rrdi-rrdtool --rrdi
fetch LAST -s .5 => it is '.5', not whole seconds since 1970; rrdi-rrdtool --rrdi takes RRDtool's times
create DS:a:GAUGE:60:-.5:U RRA:LAST:.5:1:4 => its minimum is '-.5', not a number or U; write -0.5, or run rrdi-rrdtool --rrdi
create DS:a:GAUGE:60:U:U RRA:LAST:.5:1:4 => its xff is '.5', not a number from 0 to 0.999999; write 0.5, or run rrdi-rrdtool --rrdi
create DS:a:GAUGE:60:U:U RRA:LAST:0.5:5m:4 => its number of steps is '5m', not a whole number
create DS:abcdefghijklmnopqrstu:GAUGE:60:U:U RRA:LAST:0.5:1:4 => its name is 'abcdefghijklmnopqrstu', not 1 to 19 characters of a-z A-Z 0-9 _
create DS:a:GAUGE:60:U:NaN RRA:LAST:0.5:1:4 => its maximum is 'NaN', not a number or U
tune RRA:LAST:0.5:1:1d => its number of rows is '1d', not a whole number
tune --heartbeat abcdefghijklmnopqrstu:60 => it is 'abcdefghijklmnopqrstu:60', not NAME:SECONDS; a name has 1 to 19 characters of a-z A-Z 0-9 _
resize 0 GROW +10 => it is '+10', not a whole number; write 10, or run rrdi-rrdtool --rrdi
update -t a: 10:1:2 => a name is empty; the file has a, b
update 10:1:-,5 => its value 2 is '-,5'; a value is a number, such as 21.5 or -3, or U for unknown
update 10:1:1, => its value 2 is '1,'; a value is a number, such as 21.5 or -3, or U for unknown
update 10:1:+1,5 => its value 2 is '+1,5'; a value is a number, such as 21.5 or -3, or U for unknown
update 10:1:1,1234567 => its value 2 is '1,1234567'; a value is a number, such as 21.5 or -3, or U for unknown
update 10:1:111111111111111111111,5 => its value 2 is '111111111111111111111,5'; a value is a number, such as 21.5 or -3, or U for unknown
update 10:1:1,5e3 => its value 2 is '1,5e3'; a value is a number, such as 21.5 or -3, or U for unknown
update 10:5.:2 => its value 1 is '5.'; a value is a number, such as 21.5 or -3, or U for unknown; write 5, or run rrdi-rrdtool --rrdi
create -b1700000000000 DS:g:GAUGE:100:U:U RRA:LAST:0.5:1:4 => --start is 1700000000000; if these are milliseconds, write 1700000000
fetch -s noon LAST => it is 'noon', not whole seconds since 1970; rrdi-rrdtool --rrdi takes RRDtool's times
update now:1:2 => its time is 'now', not whole seconds since 1970 or N; write N, or run rrdi-rrdtool --rrdi
update 10:1:\u{1b}[2J\u{202e}\u{200b}\u{2028} => its value 2 is '\\u{1b}[2J\\u{202e}\\u{200b}\\u{2028}'; a value is a number, such as 21.5 or -3, or U for unknown
create DS:s0:GAUGE:60:U:U DS:s1:GAUGE:60:U:U DS:s2:GAUGE:60:U:U DS:s3:GAUGE:60:U:U DS:s4:GAUGE:60:U:U DS:s5:GAUGE:60:U:U DS:s6:GAUGE:60:U:U DS:s7:GAUGE:60:U:U DS:s8:GAUGE:60:U:U DS:s9:GAUGE:60:U:U DS:s10:GAUGE:60:U:U DS:s11:GAUGE:60:U:U DS:s12:GAUGE:60:U:U DS:s13:GAUGE:60:U:U DS:s14:GAUGE:60:U:U DS:s15:GAUGE:60:U:U DS:s16:GAUGE:60:U:U DS:s17:GAUGE:60:U:U DS:s18:GAUGE:60:U:U DS:s19:GAUGE:60:U:U DS:s20:GAUGE:60:U:U DS:s21:GAUGE:60:U:U DS:s22:GAUGE:60:U:U DS:s23:GAUGE:60:U:U DS:s24:GAUGE:60:U:U DS:s25:GAUGE:60:U:U DS:s26:GAUGE:60:U:U DS:s27:GAUGE:60:U:U DS:s28:GAUGE:60:U:U DS:s29:GAUGE:60:U:U DS:s30:GAUGE:60:U:U DS:s31:GAUGE:60:U:U DS:s32:GAUGE:60:U:U DS:s33:GAUGE:60:U:U DS:s34:GAUGE:60:U:U DS:s35:GAUGE:60:U:U DS:s36:GAUGE:60:U:U DS:s37:GAUGE:60:U:U DS:s38:GAUGE:60:U:U DS:s39:GAUGE:60:U:U DS:s40:GAUGE:60:U:U DS:s41:GAUGE:60:U:U DS:s42:GAUGE:60:U:U DS:s43:GAUGE:60:U:U DS:s44:GAUGE:60:U:U DS:s45:GAUGE:60:U:U DS:s46:GAUGE:60:U:U DS:s47:GAUGE:60:U:U DS:s48:GAUGE:60:U:U DS:s49:GAUGE:60:U:U DS:s50:GAUGE:60:U:U DS:s51:GAUGE:60:U:U DS:s52:GAUGE:60:U:U DS:s53:GAUGE:60:U:U DS:s54:GAUGE:60:U:U DS:s55:GAUGE:60:U:U DS:s56:GAUGE:60:U:U DS:s57:GAUGE:60:U:U DS:s58:GAUGE:60:U:U DS:s59:GAUGE:60:U:U DS:s60:GAUGE:60:U:U DS:s61:GAUGE:60:U:U DS:s62:GAUGE:60:U:U DS:s63:GAUGE:60:U:U DS:s64:GAUGE:60:U:U RRA:LAST:0.5:1:4 => there are 65 data sources, and at most 64 are allowed
create DS:a:GAUGE:60:U:U RRA:LAST:0.5:1:4 RRA:LAST:0.5:1:4 RRA:LAST:0.5:1:4 RRA:LAST:0.5:1:4 RRA:LAST:0.5:1:4 RRA:LAST:0.5:1:4 RRA:LAST:0.5:1:4 RRA:LAST:0.5:1:4 RRA:LAST:0.5:1:4 RRA:LAST:0.5:1:4 RRA:LAST:0.5:1:4 RRA:LAST:0.5:1:4 RRA:LAST:0.5:1:4 RRA:LAST:0.5:1:4 RRA:LAST:0.5:1:4 RRA:LAST:0.5:1:4 RRA:LAST:0.5:1:4 RRA:LAST:0.5:1:4 RRA:LAST:0.5:1:4 RRA:LAST:0.5:1:4 RRA:LAST:0.5:1:4 RRA:LAST:0.5:1:4 RRA:LAST:0.5:1:4 RRA:LAST:0.5:1:4 RRA:LAST:0.5:1:4 RRA:LAST:0.5:1:4 RRA:LAST:0.5:1:4 RRA:LAST:0.5:1:4 RRA:LAST:0.5:1:4 RRA:LAST:0.5:1:4 RRA:LAST:0.5:1:4 RRA:LAST:0.5:1:4 RRA:LAST:0.5:1:4 RRA:LAST:0.5:1:4 RRA:LAST:0.5:1:4 RRA:LAST:0.5:1:4 RRA:LAST:0.5:1:4 RRA:LAST:0.5:1:4 RRA:LAST:0.5:1:4 RRA:LAST:0.5:1:4 RRA:LAST:0.5:1:4 RRA:LAST:0.5:1:4 RRA:LAST:0.5:1:4 RRA:LAST:0.5:1:4 RRA:LAST:0.5:1:4 RRA:LAST:0.5:1:4 RRA:LAST:0.5:1:4 RRA:LAST:0.5:1:4 RRA:LAST:0.5:1:4 RRA:LAST:0.5:1:4 RRA:LAST:0.5:1:4 RRA:LAST:0.5:1:4 RRA:LAST:0.5:1:4 RRA:LAST:0.5:1:4 RRA:LAST:0.5:1:4 RRA:LAST:0.5:1:4 RRA:LAST:0.5:1:4 RRA:LAST:0.5:1:4 RRA:LAST:0.5:1:4 RRA:LAST:0.5:1:4 RRA:LAST:0.5:1:4 RRA:LAST:0.5:1:4 RRA:LAST:0.5:1:4 RRA:LAST:0.5:1:4 RRA:LAST:0.5:1:4 RRA:LAST:0.5:1:4 RRA:LAST:0.5:1:4 RRA:LAST:0.5:1:4 RRA:LAST:0.5:1:4 RRA:LAST:0.5:1:4 RRA:LAST:0.5:1:4 RRA:LAST:0.5:1:4 RRA:LAST:0.5:1:4 RRA:LAST:0.5:1:4 RRA:LAST:0.5:1:4 RRA:LAST:0.5:1:4 RRA:LAST:0.5:1:4 RRA:LAST:0.5:1:4 RRA:LAST:0.5:1:4 RRA:LAST:0.5:1:4 RRA:LAST:0.5:1:4 RRA:LAST:0.5:1:4 RRA:LAST:0.5:1:4 RRA:LAST:0.5:1:4 RRA:LAST:0.5:1:4 RRA:LAST:0.5:1:4 RRA:LAST:0.5:1:4 RRA:LAST:0.5:1:4 RRA:LAST:0.5:1:4 RRA:LAST:0.5:1:4 RRA:LAST:0.5:1:4 RRA:LAST:0.5:1:4 RRA:LAST:0.5:1:4 RRA:LAST:0.5:1:4 RRA:LAST:0.5:1:4 RRA:LAST:0.5:1:4 RRA:LAST:0.5:1:4 RRA:LAST:0.5:1:4 RRA:LAST:0.5:1:4 RRA:LAST:0.5:1:4 RRA:LAST:0.5:1:4 RRA:LAST:0.5:1:4 RRA:LAST:0.5:1:4 RRA:LAST:0.5:1:4 RRA:LAST:0.5:1:4 RRA:LAST:0.5:1:4 RRA:LAST:0.5:1:4 RRA:LAST:0.5:1:4 RRA:LAST:0.5:1:4 RRA:LAST:0.5:1:4 RRA:LAST:0.5:1:4 RRA:LAST:0.5:1:4 RRA:LAST:0.5:1:4 RRA:LAST:0.5:1:4 RRA:LAST:0.5:1:4 RRA:LAST:0.5:1:4 RRA:LAST:0.5:1:4 RRA:LAST:0.5:1:4 RRA:LAST:0.5:1:4 RRA:LAST:0.5:1:4 RRA:LAST:0.5:1:4 RRA:LAST:0.5:1:4 RRA:LAST:0.5:1:4 RRA:LAST:0.5:1:4 RRA:LAST:0.5:1:4 RRA:LAST:0.5:1:4 RRA:LAST:0.5:1:4 RRA:LAST:0.5:1:4 RRA:LAST:0.5:1:4 => there are 129 archives, and at most 128 are allowed
create DS:s0:GAUGE:60:U:U DS:s1:GAUGE:60:U:U DS:s2:GAUGE:60:U:U DS:s3:GAUGE:60:U:U DS:s4:GAUGE:60:U:U DS:s5:GAUGE:60:U:U DS:s6:GAUGE:60:U:U DS:s7:GAUGE:60:U:U DS:s8:GAUGE:60:U:U RRA:LAST:0:1:900000 => data sources times rows are 9 times 900000, and at most 8000000
";

// ---- the refusals that depend on the file: on its data sources and archives, or on its last time

pub(super) const NINE_SOURCES: &str =
    "create --start 0 DS:traffic:DERIVE:100:U:U DS:s1:DERIVE:100:U:U DS:s2:DERIVE:100:U:U DS:s3:DERIVE:100:U:U DS:s4:DERIVE:100:U:U DS:s5:DERIVE:100:U:U DS:s6:DERIVE:100:U:U DS:s7:DERIVE:100:U:U DS:s8:ABSOLUTE:100:U:U RRA:MAX:0:1:4 RRA:AVERAGE:0:2:4 RRA:MAX:0:2:5";

pub(super) const FAR_AHEAD: &str = "create --start 1003600 DS:a:GAUGE:100:U:U RRA:LAST:0.5:1:1";

pub(super) const FOUR_FUNCTIONS: &str =
    "create --step 10 --start 1020 DS:a:GAUGE:100:U:U DS:b:COUNTER:100:U:U RRA:AVERAGE:0:1:4 RRA:MIN:0:1:4 RRA:MAX:0:1:4 RRA:LAST:0:1:4";

// Refusals that depend on the functions and the last time of the file.
pub(super) const LATER: &str = "\
fetch => give a function: AVERAGE, MIN, MAX, LAST
fetch --start 5 -e9 => give a function: AVERAGE, MIN, MAX, LAST
update 1020:1:2 => 1020 is not later than the last update, 1020; the next sample may be at 1021 or later
update 900:1:2 => 900 is not later than the last update, 1020; the next sample may be at 1021 or later
update -t b 0:U => 0 is not later than the last update, 1020; the next sample may be at 1021 or later
update 1020:1:2 1010:1:2 => 1020 is not later than the last update, 1020; the next sample may be at 1021 or later
update 1030:1:2 1020:1:2 => sample 2 has the time 1020, before that of sample 1, 1030; sort them by time
update 1030:1:2 1040:1:2 1040:3:4 => samples 2 and 3 have the same time, 1040; leave one of them out
revert => no change is left in the journal, which keeps the newest 16
";

pub(super) const MANY: &str = "\
update 10:1 => sample 1 has 1 value, 9 are wanted: traffic, s1, s2, s3, s4, s5, s6, s7, ..
update -t s1:trafic 10:1 => there is no data source trafic; did you mean traffic?
update -t s8:s7 10:0.5:0.5 => value 2 of sample 1 is 0.5; s7 is of type DERIVE, which takes whole numbers without a point from -2^63 to 2^63 - 1
update -t s8 10:-1000000000000000000 => value 1 of sample 1 is -1000000000000000000; s8 is of type ABSOLUTE, which takes numbers below 10^18
first --rraindex 3 => the file has 3 archives, 0 to 2
fetch MIN => the archives have AVERAGE, MAX
resize 2 SHRINK 5 => archive 2 has 5 rows, of which one has to be left
";

pub(super) const AHEAD: &str = "\
update N:1 => 1003600 is 3600 seconds ahead of the clock; if a sample has this wrong time, rrdi revert takes it back
resize 0 SHRINK 1 => archive 0 has 1 row, of which one has to be left
";

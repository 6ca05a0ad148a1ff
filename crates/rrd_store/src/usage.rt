//! The usage text.

/// The usage text of the program.
///
/// The program prints this text after `ERROR: usage`, if the program's arguments are not a command. The version in the
/// last line is the version in the file `VERSION`.
pub const USAGE: &str = "usage: rrdi COMMAND FILE ARGUMENT..
       rrdi batch [FILE]

Runs one command on the round-robin database in FILE, and prints to standard
output. batch runs the commands on standard input, one per line and without
FILE: it reads FILE first and writes FILE at the end, or keeps the database in
memory if no FILE is given. A refused command changes nothing; the reason
follows 'ERROR: ' on standard error or, in a batch, on standard output.

commands:
  create FILE [-s|--step SECONDS] [-b|--start TIME] [--journal DEPTH] DEFINITION..
         creates a database, or replaces the one that is there
         a DEFINITION is DS:name:GAUGE|COUNTER|DERIVE|ABSOLUTE:heartbeat:min:max
         or RRA:AVERAGE|MIN|MAX|LAST:xff:steps:rows
  update FILE [-t|--template NAME[:NAME..]] TIME|N:VALUE[:VALUE..]..
         adds samples, all or none
  tune   FILE [--heartbeat NAME:SECONDS] [-i|--minimum NAME:MIN]
         [-a|--maximum NAME:MAX] [-d|--data-source-type NAME:TYPE]
         [-r|--data-source-rename NAME:NEW]
         [RRA:AVERAGE|MIN|MAX|LAST:xff:steps:rows | DELRRA:ARCHIVE]
         changes settings of data sources, or adds or removes an archive
  resize FILE ARCHIVE GROW|SHRINK ROWS
         changes the number of rows of an archive
  fetch  FILE AVERAGE|MIN|MAX|LAST [-r|--resolution SECONDS] [-s|--start TIME]
         [-e|--end TIME]
         prints the rows of an archive
  first  FILE [--rraindex ARCHIVE]
         prints the time of the oldest row of an archive
  last   FILE
         prints the time of the last sample
  lastupdate FILE
         prints the last value of each data source
  info   FILE
         prints the settings
  revert FILE
         undoes the newest change

FILE doesn't begin with '-'. Times are seconds since 1970. Status: 0 if nothing
was refused and nothing failed, 1 if not, 2 after this text.

rrdi 0.2.0
";

//! What does the work of commands that rrdi lacks.
use std::alloc::Global;

// Returns what to run in place of a command of RRDtool that rrdi lacks.
fn instead_of_lacking(word: &str) -> Option<&'static str> {
    match word {
        "graph" | "graphv" => Some(
            "rrdi-graph draws with RRDtool's grapher, rrdi-plot with gnuplot",
        ),
        "dump" => Some("rrdi-export prints the XML of RRDtool, rrdi-show JSON, CSV or OpenMetrics"),
        "restore" => Some("nothing reads XML; rrdi-import converts files of RRDtool"),
        "xport" => Some("rrdi-rrdtool xport prints what RRDtool prints, rrdi-show JSON or CSV"),
        "updatev" => Some("rrdi-rrdtool updatev prints what RRDtool prints"),
        "flushcached" => Some("there is no cache; each update is written at once"),
        "list" => Some("ls lists files"),
        "help" => Some("rrdi --help prints the usage"),
        "version" | "--version" => Some("rrdi --help prints the version too"),
        _ => None,
    }
}

/// The tools, which are programs of their own, without the beginning of their names, `rrdi-`.
const TOOLS: [&str; 11] = [
    "carbon-cache",
    "check",
    "compare",
    "export",
    "feed",
    "fix",
    "import",
    "plot",
    "record",
    "rrdtool",
    "show",
];

/// Returns what to run in place of a command that rrdi lacks.
pub(crate) fn instead_of(alloc: Global, word: &str) -> Option<String> {
    if let Some(instead) = instead_of_lacking(word) {
        return String::from_str(alloc, instead).ok();
    }
    if !TOOLS.iter().any(|tool| *tool == word) {
        return None;
    }
    format!(in alloc; "run rrdi-{word}").ok()
}

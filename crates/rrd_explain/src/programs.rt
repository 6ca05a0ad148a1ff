//! Files of other programs.
use crate::Explanation;
use std::alloc::Global;

// Returns the program whose file is called `file` and begins with these bytes. The files of RRDtool begin with a mark,
// and those of whisper with the number of a method, 1 to 8.
fn program_of(file: &str, first: &[u8]) -> Option<&'static str> {
    match first {
        [b'R', b'R', b'D', 0, ..] => Some("RRDtool"),
        [0, 0, 0, 1..=8, ..] if file.ends_with(".wsp") => Some("whisper"),
        _ => None,
    }
}

/// Says of which other program the file is that is called `file` and begins with the bytes `first`, of which four suffice.
///
/// Returns `None` if they do not show it, or memory runs out.
pub fn other_program(alloc: Global, file: &str, first: &[u8]) -> Option<Explanation> {
    let program = program_of(file, first)?;
    let text = format!(in alloc; "{file} is a file of {program}; rrdi-import converts it").ok()?;
    Explanation::new(alloc, &text).ok()
}

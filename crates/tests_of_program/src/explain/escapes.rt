//! Characters that command a terminal, or that nobody sees.
use super::said;
use rrd_explain::{Explanation, other_program};
use std::alloc::AllocError;

// Texts, and how an explanation shows them.
const SHOWN: &[(&str, &str)] = &[
    ("", ""),
    ("plain 'text' ~", "plain 'text' ~"),
    ("a\nb\rc\td", "a\\nb\\rc\\td"),
    ("\u{0}\u{1b}[2J\u{7f}", "\\u{0}\\u{1b}[2J\\u{7f}"),
    ("\u{80}\u{9f}\u{a0}\u{ad}", "\\u{80}\\u{9f}\u{a0}\\u{ad}"),
    ("\u{200b}\u{200f}\u{2010}", "\\u{200b}\\u{200f}\u{2010}"),
    (
        "\u{2027}\u{2028}\u{2029}\u{202a}\u{202e}\u{202f}",
        "\u{2027}\\u{2028}\\u{2029}\\u{202a}\\u{202e}\u{202f}",
    ),
    (
        "\u{2066}\u{2069}\u{61c}\u{feff}",
        "\\u{2066}\\u{2069}\\u{61c}\\u{feff}",
    ),
    ("\u{e0041}\u{10ffff}", "\\u{e0041}\u{10ffff}"),
    (
        "\u{34f}\u{115e}\u{115f}\u{1161}\u{17b5}\u{180b}\u{3164}",
        "\\u{34f}\u{115e}\\u{115f}\u{1161}\\u{17b5}\\u{180b}\\u{3164}",
    ),
    (
        "\u{fe0f}\u{fe10}\u{ffa0}\u{fff0}\u{fffc}\u{1d173}\u{e0fff}\u{e1000}",
        "\\u{fe0f}\u{fe10}\\u{ffa0}\\u{fff0}\u{fffc}\\u{1d173}\\u{e0fff}\u{e1000}",
    ),
    ("größer \u{1f600}", "größer \u{1f600}"),
];

#[test]
fn what_is_escaped(rt: HostRuntime) -> Result<(), AllocError> {
    for (text, wanted) in SHOWN {
        let explanation = Explanation::new(rt.alloc(), text)?;
        assert_eq!(&rt; explanation.as_bytes(), wanted.as_bytes(), "{wanted}");
    }
    Ok(())
}

// The first bytes of files and their names, and what is said of them.
const FILES: &[(&[u8], &str, &str)] = &[
    (
        b"RRD\x000003",
        "old",
        "old is a file of RRDtool; rrdi-import converts it",
    ),
    (
        b"RRD\x00",
        "a\nb",
        "a\\nb is a file of RRDtool; rrdi-import converts it",
    ),
    (
        b"\0\0\0\x01",
        "x.wsp",
        "x.wsp is a file of whisper; rrdi-import converts it",
    ),
    (b"\0\0\0\x01", "x", ""),
    (b"\0\0\0\x09", "x.wsp", ""),
    (b"RRD", "old", ""),
    (b"RRD3", "old", ""),
    (b"", "old.wsp", ""),
];

#[test]
fn files_of_other_programs(rt: HostRuntime) {
    for (first, name, wanted) in FILES {
        let explanation = other_program(rt.alloc(), name, first);
        assert_eq!(&rt; said(&explanation), *wanted, "{name}");
    }
}

//! Parses texts as values, and the parts of a command.
ghost use Rattle.std.specs.Prelude.{◌≡◌, ◌∷◌, ◌<◌, [], IfSome, length, option_map};
ghost use Rattle.rrd_tool.specs.Names.{option_map_or, whole_of};
ghost use Rattle.rrd_tool.specs.Words.{bound_of, cut_of, each_in, function_of, function_text, kind_of, kind_text, name_of, named, pieces, Meets, given, optional, or_fault, required};

use crate::{LineFault, Part};
use rrd_base::List;
use rrd_fixed::{Kind, Name, read_number, read_whole};
use rrd_fold::Function;
use std::alloc::Global;

/// A value that a text can represent.
pub(crate) trait Field: Sized {
    ghost use Rattle.std.specs.Prelude.{◌≡◌, List, Option, ℕ};

    ghost meaning: { List ℕ → Option Self };

    /// Parses the text. Returns `None` if the text cannot be read as such a value.
    fn read(text: &str) -> Option<Self>
        ensures { result ≡ meaning text.now };
}

/// A type that has a word for each of its values.
pub(crate) trait Worded: Copy {
    ghost use Rattle.std.specs.Prelude.{◌≡◌, ◌≤◌, List, length, ℕ};

    ghost word_of: { Self → List ℕ };

    /// Returns the word of the value, of at most 16 bytes.
    fn word(self) -> &'static str
        ensures word { result.now ≡ word_of self }
        ensures short { length result.now ≤ 16 };
}

/// Returns the value that has this word.
pub(crate) fn named<T: Worded>(all: &[T], text: &str) -> Option<T>
    ensures { result ≡ named T.word_of all.now text.now }
{
    for item in all {
        if text == item.word() {
            return Some(*item);
        }
    }
    None
}

/// Returns the value that was read, or the fault of the part.
pub(crate) fn or_fault<T>(part: Part, number: u64, read: Option<T>) -> Result<T, LineFault>
    ensures { Meets (or_fault part number read) result }
{
    match read {
        Some(value) => Ok(value),
        None => Err(LineFault::BadWord { part, number }),
    }
}

/// Parses a required word.
pub(crate) fn read_required<T: Field>(part: Part, text: Option<&str>) -> Result<T, LineFault>
    ensures { Meets (required T.meaning part (option_map (λ s. s.now) text.entry)) result }
{
    match text {
        None => Err(LineFault::BadWord { part, number: 1 }),
        Some(text) => or_fault(part, 1, T::read(text)),
    }
}

/// Parses an option, if there is one.
pub(crate) fn read_optional<T: Field>(
    part: Part,
    text: Option<&str>,
) -> Result<Option<T>, LineFault>
    ensures { Meets (optional T.meaning part (option_map (λ s. s.now) text.entry)) result }
{
    match text {
        None => Ok(None),
        Some(text) => Ok(Some(or_fault(part, 1, T::read(text))?)),
    }
}

/// Parses an option. Without the option, returns the default.
pub(crate) fn read_or<T: Field + Drop>(
    part: Part,
    text: Option<&str>,
    standard: T,
) -> Result<T, LineFault>
    ensures { Meets (given T.meaning part (option_map (λ s. s.now) text.entry) standard) result }
{
    match text {
        None => Ok(standard),
        Some(text) => or_fault(part, 1, T::read(text)),
    }
}

/// Returns the text before the first colon, and the text after it.
pub(crate) fn cut(text: &str) -> Option<(&str, &str)>
    ensures { option_map (λ p. (p.0.now, p.1.now)) result ≡ cut_of text.now }
{
    text.split_once(':')
}

// Returns the text before the first colon, and the text after it if there is a colon.
#[tactic(auto, using(crate::proofs::Pieces::pieces_none, crate::proofs::Pieces::pieces_some))]
fn first_piece(text: &str) -> (&str, Option<&str>)
    ensures split { pieces text.now ≡ result.0.now ∷ option_map_or (λ rest. pieces rest.now) result.1 [] }
    ensures shorter { IfSome result.1 (λ rest. length rest.now < length text.now) }
{
    match text.split_once(':') {
        Some((piece, rest)) => (piece, Some(rest)),
        None => (text, None),
    }
}

/// Parses each text between the colons. Returns the values in their order.
pub(crate) fn read_list<T: Field + Drop>(
    alloc: Global,
    part: Part,
    number: u64,
    text: &str,
) -> Result<List<T>, LineFault>
    ensures { Meets (or_fault part number (each_in T.meaning (pieces text.now))) result }
{
    let mut values = List::new(alloc);
    let mut left = Some(text);
    while let Some(text) = left {
        let (piece, rest) = first_piece(text);
        let value = or_fault(part, number, T::read(piece))?;
        values.push(value)?;
        left = rest;
    }
    Ok(values)
}

// Parses a whole number.
impl Field for u64 {
    ghost meaning = { whole_of };

    fn read(text: &str) -> Option<u64> {
        read_whole(text.as_bytes())
    }
}

// Parses the name of a data source.
impl Field for Name {
    ghost meaning = { name_of };

    fn read(text: &str) -> Option<Name> {
        Name::fit(text.as_bytes())
    }
}

/// The types of data sources, with their words.
const KINDS: [Kind; 4] = [Kind::Gauge, Kind::Counter, Kind::Derive, Kind::Absolute];

impl Worded for Kind {
    ghost word_of = { kind_text };

    fn word(self) -> &'static str {
        match self {
            Kind::Gauge => "GAUGE",
            Kind::Counter => "COUNTER",
            Kind::Derive => "DERIVE",
            Kind::Absolute => "ABSOLUTE",
        }
    }
}

// Parses the type of a data source (rrdcreate, "DS").
impl Field for Kind {
    ghost meaning = { kind_of };

    fn read(text: &str) -> Option<Kind> {
        named(&KINDS, text)
    }
}

/// The consolidation functions, with their words.
const FUNCTIONS: [Function; 4] = [
    Function::Average,
    Function::Min,
    Function::Max,
    Function::Last,
];

impl Worded for Function {
    ghost word_of = { function_text };

    fn word(self) -> &'static str {
        match self {
            Function::Average => "AVERAGE",
            Function::Min => "MIN",
            Function::Max => "MAX",
            Function::Last => "LAST",
        }
    }
}

// Parses a consolidation function (rrdcreate, "RRA").
impl Field for Function {
    ghost meaning = { function_of };

    fn read(text: &str) -> Option<Function> {
        named(&FUNCTIONS, text)
    }
}

// Parses a bound. Returns millionths; `U` is no bound (rrdcreate, "DS").
impl Field for Option<i128> {
    ghost meaning = { bound_of };

    fn read(text: &str) -> Option<Option<i128>> {
        if text == "U" {
            return Some(None);
        }
        let number = read_number(text.as_bytes())?;
        Some(Some(number.millionths))
    }
}

//! Which field of a definition cannot be read.
use crate::hints::length_for;
use crate::numbers::{whole_written_out, written_out};
use crate::shown::Quoted;
use rrd_fixed::{Name, read_number, read_whole};
use std::alloc::Global;

/// The fields of a data source, and what each has to be.
const SOURCE: [(&str, Form); 5] = [
    ("name", Form::Name),
    ("type", Form::Kind),
    ("heartbeat", Form::Seconds),
    ("minimum", Form::Bound),
    ("maximum", Form::Bound),
];

/// The fields of an archive, and what each has to be.
const ARCHIVE: [(&str, Form); 4] = [
    ("function", Form::Function),
    ("xff", Form::Share),
    ("number of steps", Form::Whole),
    ("number of rows", Form::Whole),
];

/// What a field of a definition has to be.
#[derive(Clone, Copy, Debug, PartialEq, Eq)]
enum Form {
    Name,
    Kind,
    Seconds,
    Bound,
    Function,
    Share,
    Whole,
}

impl Form {
    // Returns the form as an explanation names it.
    fn text(self) -> &'static str {
        match self {
            Form::Name => "1 to 19 characters of a-z A-Z 0-9 _",
            Form::Kind => "GAUGE, COUNTER, DERIVE or ABSOLUTE",
            Form::Seconds => "a whole number of seconds",
            Form::Bound => "a number or U",
            Form::Function => "AVERAGE, MIN, MAX or LAST",
            Form::Share => "a number from 0 to 0.999999",
            Form::Whole => "a whole number",
        }
    }

    // Checks whether a text can be read as this.
    fn is_of(self, text: &str) -> bool {
        match self {
            Form::Name => Name::fit(text.as_bytes()).is_some(),
            Form::Kind => matches!(text, "GAUGE" | "COUNTER" | "DERIVE" | "ABSOLUTE"),
            Form::Seconds | Form::Whole => read_whole(text.as_bytes()).is_some(),
            Form::Bound => text == "U" || read_number(text.as_bytes()).is_some(),
            Form::Function => matches!(text, "AVERAGE" | "MIN" | "MAX" | "LAST"),
            Form::Share => read_number(text.as_bytes()).is_some(),
        }
    }

    // Returns what to write in place of a text that cannot be read as this.
    fn written_for(self, alloc: Global, text: &str) -> Option<String> {
        match self {
            Form::Name | Form::Kind | Form::Function => None,
            Form::Seconds => length_for(alloc, text),
            Form::Bound | Form::Share => written_out(alloc, text),
            Form::Whole => whole_written_out(alloc, text),
        }
    }
}

/// A field of a definition that cannot be read.
#[derive(Clone, Copy)]
pub(crate) struct WrongField<'a> {
    // What the field is.
    what: &'static str,
    form: Form,
    text: &'a str,
}

// Returns the first field that cannot be read, if there are as many as there have to be.
fn wrong_in<'a>(fields: &[(&'static str, Form)], text: &'a str) -> Option<WrongField<'a>> {
    if text.split(':').count() != fields.len() {
        return None;
    }
    for (number, text) in text.split(':').enumerate() {
        let (what, form) = *fields.get(number)?;
        if !form.is_of(text) {
            return Some(WrongField { what, form, text });
        }
    }
    None
}

/// Returns the first field of a definition that cannot be read. Returns `None` if there is another number of fields.
pub(crate) fn wrong_field(text: &str, is_tune: bool) -> Option<WrongField<'_>> {
    let (tag, fields) = text.split_once(':')?;
    match tag {
        "DS" if !is_tune => wrong_in(&SOURCE, fields),
        "RRA" => wrong_in(&ARCHIVE, fields),
        _ => None,
    }
}

impl<'a> WrongField<'a> {
    /// Says what the field is.
    pub(crate) fn says(&self, alloc: Global) -> Option<String> {
        let WrongField { what, form, text } = *self;
        format!(in alloc; "its {what} is {}, not {}", Quoted(text), form.text()).ok()
    }

    /// Returns what to write instead.
    pub(crate) fn written(&self, alloc: Global) -> Option<String> {
        self.form.written_for(alloc, self.text)
    }
}

//! Texts of the caller as an explanation quotes them: of a long text the beginning.
use std::fmt::{self, Display, Formatter};

/// The maximum number of characters of a text that is shown whole.
const MOST: usize = 40;

/// How many characters of a longer text are shown.
const BEGINNING: usize = 20;

// Returns how many characters are shown of a text with `count` characters.
fn most_of(count: usize) -> usize {
    if count > MOST { BEGINNING } else { count }
}

/// A text as it is shown, without quotes.
#[derive(Clone, Copy)]
pub(crate) struct Shown<'a>(pub(crate) &'a str);

impl<'a> Display for Shown<'a> {
    fn fmt<W: fmt::Write>(&self, f: &mut Formatter<W>) -> fmt::Result {
        for character in self.0.chars().take(most_of(self.0.chars().count())) {
            write!(f, "{character}")?;
        }
        Ok(())
    }
}

/// A text as it is shown, in quotes. After the beginning of a long text follows the number of its characters.
#[derive(Clone, Copy)]
pub(crate) struct Quoted<'a>(pub(crate) &'a str);

impl<'a> Display for Quoted<'a> {
    fn fmt<W: fmt::Write>(&self, f: &mut Formatter<W>) -> fmt::Result {
        write!(f, "'{}'", Shown(self.0))?;
        let count = self.0.chars().count();
        if most_of(count) < count {
            write!(f, ".. ({count} characters)")?;
        }
        Ok(())
    }
}

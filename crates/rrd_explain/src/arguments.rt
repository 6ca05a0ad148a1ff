//! The arguments of a command: options and other words, as the program takes them.
use crate::shown::Shown;
use rrd_tool::begins_with_minus;
use std::alloc::{AllocError, Global};
use std::fmt::{self, Display, Formatter};

/// The name of an option, as it was typed.
#[derive(Clone, Copy)]
pub(crate) enum OptionName<'a> {
    /// `--name`.
    Long(&'a str),
    /// `-n`.
    Letter(char),
}

impl<'a> Display for OptionName<'a> {
    fn fmt<W: fmt::Write>(&self, f: &mut Formatter<W>) -> fmt::Result {
        match self {
            OptionName::Long(name) => write!(f, "{}", Shown(name)),
            OptionName::Letter(letter) => write!(f, "-{letter}"),
        }
    }
}

// Checks whether a text is one letter.
fn is_letter(letter: char, text: &str) -> bool {
    let mut chars = text.chars();
    chars.next() == Some(letter) && chars.next().is_none()
}

impl<'a> OptionName<'a> {
    // Checks whether this is the name of an option of the usage text.
    fn names(self, option: &str) -> bool {
        match self {
            OptionName::Long(name) => name == option,
            OptionName::Letter(letter) => match option.strip_prefix('-') {
                Some(rest) => is_letter(letter, rest),
                None => false,
            },
        }
    }

    /// Returns the long name of the option, out of the options of a command. In the list the letter of an option precedes
    /// the option's long name.
    pub(crate) fn long_in(self, options: &[&'static str]) -> Option<&'static str> {
        let mut is_next = false;
        for option in options {
            is_next = is_next || self.names(option);
            if is_next && option.starts_with("--") {
                return Some(*option);
            }
        }
        None
    }
}

/// An option with its value.
#[derive(Clone, Copy)]
pub(crate) struct GivenOption<'a> {
    /// The name, as it was typed.
    pub(crate) name: OptionName<'a>,
    /// The value. `None` if no word follows that can be the value.
    pub(crate) value: Option<&'a str>,
    /// The word that follows in place of the value, and begins with a dash.
    pub(crate) next: Option<&'a str>,
}

/// An option, as one word has it.
#[derive(Clone, Copy)]
enum Typed<'a> {
    /// `--`, after which no word is an option.
    End,
    /// The name alone: the value is the next word.
    Name(OptionName<'a>),
    /// The name and the value.
    Both(OptionName<'a>, &'a str),
}

// Checks whether a dash in front makes a word an option.
fn is_option(word: &str) -> bool {
    begins_with_minus(word) && word != "-"
}

// Reads an option that begins with two dashes.
fn long_of(word: &str) -> Typed<'_> {
    match word.split_once('=') {
        Some((name, value)) => Typed::Both(OptionName::Long(name), value),
        None => Typed::Name(OptionName::Long(word)),
    }
}

// Reads the option that is a letter, from the text after its dash.
fn letter_of(text: &str) -> Typed<'_> {
    let mut chars = text.chars();
    let Some(letter) = chars.next() else {
        return Typed::End;
    };
    let name = OptionName::Letter(letter);
    let rest = chars.as_str();
    if rest.is_empty() {
        return Typed::Name(name);
    }
    Typed::Both(name, rest.strip_prefix('=').unwrap_or(rest))
}

// Reads the option that a word is.
fn typed_in(word: &str) -> Typed<'_> {
    if word == "--" {
        Typed::End
    } else if word.starts_with("--") {
        long_of(word)
    } else {
        letter_of(word.strip_prefix('-').unwrap_or(word))
    }
}

/// The arguments of a command.
#[derive(Drop)]
pub(crate) struct Arguments<'a> {
    /// The words that are no options: the samples of an update, the definitions of a create.
    pub(crate) words: Vec<&'a str>,
    /// The options, in their order.
    pub(crate) options: Vec<GivenOption<'a>>,
}

impl<'a> Arguments<'a> {
    /// Takes the arguments of a command apart as the program does.
    ///
    /// # Errors
    /// `AllocError` if memory runs out.
    pub(crate) fn new(alloc: Global, arguments: &[&'a str]) -> Result<Arguments<'a>, AllocError> {
        let mut given = Arguments {
            words: Vec::new(alloc),
            options: Vec::new(alloc),
        };
        // The option whose value comes next.
        let mut waiting = None;
        let mut has_options = true;
        for word in arguments {
            let is_word = !has_options || !is_option(word);
            let name = waiting.take();
            if is_word {
                given.push_word(name, word)?;
                continue;
            }
            if let Some(name) = name {
                given.push_option(name, None, Some(*word))?;
            }
            match typed_in(word) {
                Typed::End => has_options = false,
                Typed::Name(name) => waiting = Some(name),
                Typed::Both(name, value) => given.push_option(name, Some(value), None)?,
            }
        }
        if let Some(name) = waiting {
            given.push_option(name, None, None)?;
        }
        Ok(given)
    }

    // Adds a word: the value of the option of this name, if one waits for it.
    fn push_word(&mut self, name: Option<OptionName<'a>>, word: &'a str) -> Result<(), AllocError> {
        match name {
            Some(name) => self.push_option(name, Some(word), None),
            None => {
                self.words.push(word)?;
                Ok(())
            }
        }
    }

    // Adds an option.
    fn push_option(
        &mut self,
        name: OptionName<'a>,
        value: Option<&'a str>,
        next: Option<&'a str>,
    ) -> Result<(), AllocError> {
        self.options.push(GivenOption { name, value, next })?;
        Ok(())
    }

    /// Returns the value of the option with this long name, which `options` has.
    pub(crate) fn value(&self, long: &str, options: &[&'static str]) -> Option<&'a str> {
        for option in &self.options {
            if option.name.long_in(options) == Some(long) {
                return option.value;
            }
        }
        None
    }
}

//! How runs use the file of a system, and the directory of a file.
ghost use Rattle.std.specs.Prelude.{◌≡◌};
ghost use Rattle.rrd_change.specs.declared.calls.Syncs.{Syncs};

use crate::{Cause, Settings};
use std::path::Path;

/// How runs use their file.
pub trait Location: Drop {
    // When a run syncs the file.
    ghost syncs: { Self → Syncs };

    /// Returns the settings by which a run uses the file.
    fn settings(&self) -> Settings
        ensures { result.syncs ≡ syncs self.now };

    /// Returns the place for the reason why a call on the file failed.
    fn cause(&self) -> &Cause;
}

/// How one run uses its file.
#[derive(Clone, Copy)]
pub struct Place<'a> {
    /// The settings by which the run uses the file.
    pub settings: Settings,
    /// Receives the reason why a call on the file failed.
    pub cause: &'a Cause,
}

impl<'a> Location for Place<'a> {
    ghost syncs = { λ place. place.settings.syncs };

    fn settings(&self) -> Settings {
        self.settings
    }

    fn cause(&self) -> &Cause {
        self.cause
    }
}

/// How several runs use their file.
#[derive(Drop)]
pub struct OwnPlace {
    settings: Settings,
    cause: Cause,
}

impl OwnPlace {
    /// Creates the place of a file that runs use by these settings.
    pub fn new(settings: Settings) -> OwnPlace {
        OwnPlace {
            settings,
            cause: Cause::new(),
        }
    }
}

impl Location for OwnPlace {
    ghost syncs = { λ place. place.settings.syncs };

    fn settings(&self) -> Settings {
        self.settings
    }

    fn cause(&self) -> &Cause {
        &self.cause
    }
}

/// Returns the directory of the file at `path`: an empty text if that is the current directory. Returns `None` if the path
/// is empty, and names no file.
pub fn directory_of(path: &str) -> Option<&str> {
    match Path::new(path).parent() {
        Some(directory) => Some(directory.as_str()),
        None => None,
    }
}

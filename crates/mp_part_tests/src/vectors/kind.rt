//! The kinds of cases.

use crate::vectors::names::Names;
use crate::vectors::wrong::{Result, Wrong};
use crate::vectors::{again, check, overlay, refusals};

/// What the lines of a file are about.
#[derive(Clone, Copy)]
pub enum Kind {
    Check,
    Again,
    Overlay,
}

impl Kind {
    /// All kinds, in the order in which they are checked.
    pub const ALL: [Kind; 3] = [Kind::Check, Kind::Again, Kind::Overlay];

    /// The name of its file.
    pub fn file_name(self) -> &'static str {
        match self {
            Kind::Check => "check.txt",
            Kind::Again => "again.txt",
            Kind::Overlay => "overlay.txt",
        }
    }

    /// Fails unless what is given leads to the expected result.
    pub fn check_case(self, names: &Names, given: &str, wanted: &str) -> Result<()> {
        match self {
            Kind::Check => check::check_case(names, given, wanted),
            Kind::Again => again::check_case(names, given, wanted),
            Kind::Overlay => overlay::check_case(names, given, wanted),
        }
    }

    /// How many cases a line like `GIVEN = WANTED` has, which is one. Fails unless what is given leads to the expected result,
    /// and reports each allocation that fails.
    pub fn check(self, names: &Names, line: &str) -> Result<u64> {
        let (given, wanted) = line.rsplit_once('=').ok_or(Wrong::Because("no '='"))?;
        let (given, wanted) = (given.trim(), wanted.trim());
        self.check_case(names, given, wanted)?;
        refusals::check(self, names, given, wanted)?;
        Ok(1)
    }
}

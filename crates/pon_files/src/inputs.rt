//! The files that are read while another is written.

ghost use Rattle.std.specs.Prelude.{◌≡◌, ◌↔◌, IsNone, Some};

use crate::identity::FileId;
use std::fmt::{self, Display, Formatter, Write};
use std::rt::Files;

/// What a file is read for.
#[derive(Clone, Copy, Debug, PartialEq, Eq)]
pub enum Source {
    /// The settings.
    Settings,
    /// The lines of an operator.
    Lines,
    /// A recording that is shown or migrated.
    Recording,
}

impl Display for Source {
    fn fmt<W: Write>(&self, f: &mut Formatter<W>) -> fmt::Result {
        match *self {
            Source::Settings => f.write_str("the settings file"),
            Source::Lines => f.write_str("the operator's file"),
            Source::Recording => f.write_str("the recording that is read"),
        }
    }
}

/// The files that are read while another is written; `None` for no such file.
#[derive(Clone, Copy, Debug, PartialEq, Eq, Default)]
pub struct Inputs<'a> {
    /// The file of the settings.
    pub settings: Option<&'a str>,
    /// The file of an operator's lines.
    pub lines: Option<&'a str>,
    /// The recording that is shown or migrated.
    pub recording: Option<&'a str>,
}

/// The identities of the files that are read.
#[derive(Clone, Copy)]
struct InputIds {
    settings: Option<FileId>,
    lines: Option<FileId>,
    recording: Option<FileId>,
}

impl InputIds {
    // Returns what a file is read for. `None` exactly if it is not read.
    fn source_of(&self, id: FileId) -> Option<Source>
        ensures { IsNone result ↔ ((¬ (self.now.settings ≡ Some id)) × ((¬ (self.now.lines ≡ Some id))
            × (¬ (self.now.recording ≡ Some id)))) }
    {
        if id.is(self.settings) {
            return Some(Source::Settings);
        }
        if id.is(self.lines) {
            return Some(Source::Lines);
        }
        if id.is(self.recording) {
            return Some(Source::Recording);
        }
        None
    }
}

// Returns the identity of a file that may be read, if one is.
fn id_of<R: Files>(rt: &R, name: Option<&str>) -> Option<FileId> {
    FileId::at(rt, name?)
}

impl Inputs<'_> {
    /// Returns what the file with a name is read for, if it is read under whatever name.
    pub(crate) fn source_at<R: Files>(&self, rt: &R, name: &str) -> Option<Source> {
        let id = FileId::at(rt, name)?;
        let ids = InputIds {
            settings: id_of(rt, self.settings),
            lines: id_of(rt, self.lines),
            recording: id_of(rt, self.recording),
        };
        ids.source_of(id)
    }
}

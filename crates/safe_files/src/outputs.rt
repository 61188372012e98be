// The outputs of a run, from the first byte of each until all are in their places.
use crate::naming::{STANDARD_OUTPUT, are_one, names_of};
use crate::part::{Part, Way, make_part, path_beside, way_of};
use std::alloc::{AllocError, Global};
use std::cell::{Cell, RefCell};
use std::fs::{Files, Permissions};
use std::io::Write;
use std::path::PathBuf;

/// The outputs of a run that aren't in their places yet, and which could not be written for a cause that only a command line shows.
///
/// It is lent to the shelf that begins them and to the output before whose first line they are put in their places.
#[derive(Drop)]
pub struct Outputs<'a, F> {
    alloc: Global,
    names: Vec<&'a str>,
    parts: RefCell<Vec<Part<'a, F>>>,
    same: Cell<Option<(&'a str, &'a str)>>,
    unplaced: Cell<Option<&'a str>>,
}

/// How an output was begun.
#[derive(Clone, Copy)]
pub(crate) enum Begun {
    /// In a file beside it.
    Beside,
    /// Not yet: it is to be written as it stands.
    Directly,
    /// It can't be written, and nothing was changed.
    Refused,
}

/// What became of bytes for an output.
#[derive(Clone, Copy)]
pub(crate) enum Added {
    /// They are in the file beside it.
    Beside,
    /// Nothing yet: the output has no file beside it.
    Directly,
    /// They could not be written, and the file beside it is gone.
    Lost,
}

impl<'a, F: Write + Drop> Outputs<'a, F> {
    /// No outputs yet, of a command line with these words after the program's name.
    pub fn new(alloc: Global, words: &'a [String]) -> Result<Outputs<'a, F>, AllocError> {
        Ok(Outputs {
            alloc,
            names: names_of(alloc, words)?,
            parts: RefCell::new(Vec::new(alloc)),
            same: Cell::new(None),
            unplaced: Cell::new(None),
        })
    }

    /// An output that was not begun since another word, behind it, names the same file, or standard output is written to it.
    pub fn same(&self) -> Option<(&'a str, &'a str)> {
        self.same.get()
    }

    /// The first output that is whole and could not be put in its place.
    pub fn unplaced(&self) -> Option<&'a str> {
        self.unplaced.get()
    }

    // What else writes to the file of an output or is read from it.
    fn other_of<R: Files<File = F>>(&self, files: &R, name: &str) -> Option<&'a str> {
        let words = self.names.iter().find(|other| **other != name
            && are_one(self.alloc, files, name, **other));
        match words {
            Some(other) => Some(*other),
            None if are_one(self.alloc, files, name, STANDARD_OUTPUT) => Some(STANDARD_OUTPUT),
            None => None,
        }
    }

    // Takes away what was begun, so that all outputs stay as they were.
    fn forget<R: Files<File = F>>(&self, files: &R) {
        if let Ok(mut parts) = self.parts.try_borrow_mut() {
            let parts = &mut *parts;
            for part in parts.drain(..) {
                part.remove(files);
            }
        }
    }

    // Begins an output in a file beside the place that it is to have.
    fn begin_beside<R: Files<File = F>>(
        &self,
        files: &R,
        name: &'a str,
        place: PathBuf<Global>,
        old: Option<Permissions>,
    ) -> Begun {
        let Some(path) = path_beside(self.alloc, place.as_path()) else {
            return Begun::Directly;
        };
        if self
            .names
            .iter()
            .any(|other| are_one(self.alloc, files, path.as_str(), *other))
        {
            return Begun::Directly;
        }
        let Ok(mut parts) = self.parts.try_borrow_mut() else {
            return Begun::Refused;
        };
        let parts = &mut *parts;
        if parts.reserve(1).is_err() {
            return Begun::Refused;
        }
        match make_part(files, name, place, path, old) {
            Ok(part) => match parts.push(part) {
                Ok(()) => Begun::Beside,
                Err(_) => Begun::Refused,
            },
            Err(_) => Begun::Directly,
        }
    }

    /// Begins an output. Where it is also the file of another word, all that was begun is taken away.
    pub(crate) fn begin<R: Files<File = F>>(&self, files: &R, name: &str) -> Begun {
        let Some(name) = self.names.iter().find(|other| **other == name) else {
            return Begun::Directly;
        };
        let name = *name;
        if let Some(other) = self.other_of(files, name) {
            self.same.set(Some((name, other)));
            self.forget(files);
            return Begun::Refused;
        }
        match way_of(self.alloc, files, name) {
            Way::Beside(place, old) => self.begin_beside(files, name, place, old),
            Way::Directly => Begun::Directly,
            Way::Refused => Begun::Refused,
        }
    }

    /// Adds bytes at the end of an output.
    pub(crate) fn add<R: Files<File = F>>(&self, files: &R, name: &str, piece: &[u8]) -> Added {
        let Ok(mut parts) = self.parts.try_borrow_mut() else {
            return Added::Lost;
        };
        let parts = &mut *parts;
        let Some(at) = parts.iter().rposition(|part| part.name == name) else {
            return Added::Directly;
        };
        if parts[at].add(piece).is_ok() {
            return Added::Beside;
        }
        parts.remove(at).remove(files);
        Added::Lost
    }

    /// Puts all outputs in their places, the first one first, and says whether that went well. The first that can't be put there
    /// is remembered; it and all after it stay as they were.
    pub(crate) fn settle<R: Files<File = F>>(&self, files: &R) -> bool {
        let Ok(mut parts) = self.parts.try_borrow_mut() else {
            return false;
        };
        let parts = &mut *parts;
        let mut is_placed = true;
        for part in parts.drain(..) {
            if !is_placed {
                part.remove(files);
            } else if part.settle(files).is_err() {
                part.remove(files);
                is_placed = false;
                self.unplaced.set(Some(part.name));
            }
        }
        is_placed
    }
}

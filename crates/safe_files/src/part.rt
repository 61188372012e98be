// The new bytes of an output, in a file beside it.
use crate::naming::end_of_links;
use std::alloc::Global;
use std::fs::{Files, OpenFile, OpenOptions, Permissions};
use std::io::{Error, ErrorKind, Write};
use std::os::unix::fs::MetadataExt;
use std::path::{Path, PathBuf};
use std::{fs, io};

/// The new bytes of an output, in a file beside it that was made for them and is open.
#[derive(Drop)]
pub(crate) struct Part<'a, F> {
    /// The name of the output, as the command line has it.
    pub(crate) name: &'a str,
    /// The path of the output, with no link at its end.
    place: PathBuf<Global>,
    /// The path of the file beside it.
    path: PathBuf<Global>,
    file: F,
}

/// Where an output is to be written.
#[derive(Drop)]
pub(crate) enum Way {
    /// To a file beside it, which takes the place of this path.
    Beside(PathBuf<Global>, Option<Permissions>),
    /// As it stands: it is a folder or a device, or can be no file.
    Directly,
    /// Not at all: it may not be written, or its links lead round in a circle.
    Refused,
}

// How a file is opened to see that it may be written.
fn writing() -> OpenOptions {
    let mut options = OpenOptions::new();
    options.write(true);
    options
}

// The rights of the file that an output is to take the place of; none where there is none yet.
fn old_rights<R: Files>(files: &R, name: &str) -> Result<Option<Permissions>, Way> {
    if name.ends_with('/') {
        return Err(Way::Directly);
    }
    match fs::metadata(files, name) {
        Ok(old) if !old.is_file() => Err(Way::Directly),
        Ok(old) => match writing().open(files, name) {
            Ok(_) => Ok(Some(old.permissions())),
            Err(_) => Err(Way::Refused),
        },
        Err(_) => Ok(None),
    }
}

/// Where an output of this name is to be written. Nothing is changed.
pub(crate) fn way_of<R: Files>(alloc: Global, files: &R, name: &str) -> Way {
    match old_rights(files, name) {
        Ok(old) => match end_of_links(alloc, files, name) {
            Some(place) => Way::Beside(place, old),
            None => Way::Refused,
        },
        Err(way) => way,
    }
}

/// The path of the file beside the output of this path. None where the path ends in no name, or memory is short.
pub(crate) fn path_beside(alloc: Global, place: Path<'_>) -> Option<PathBuf<Global>> {
    let last = place.file_name()?;
    let beside = format!(in alloc; ".{last}.part").ok()?;
    place.with_file_name(alloc, beside.as_str()).ok()
}

// Whether an open file is the one of this path.
fn is_at<R: Files>(files: &R, file: &R::File, path: &PathBuf<Global>) -> io::Result<bool> {
    let open = file.metadata()?;
    let there = fs::symlink_metadata(files, path.as_path())?;
    Ok(open.dev() == there.dev() && open.ino() == there.ino())
}

/// A new file beside an output, with the rights of the old one. What an earlier run left there goes.
pub(crate) fn make_part<'a, R: Files>(
    files: &R,
    name: &'a str,
    place: PathBuf<Global>,
    path: PathBuf<Global>,
    old: Option<Permissions>,
) -> io::Result<Part<'a, R::File>> {
    let _ = fs::remove_file(files, path.as_path());
    let mut options = writing();
    options.create_new(true);
    let file = options.open(files, path.as_path())?;
    if let Some(old) = old {
        let _ = file.set_permissions(old);
    }
    Ok(Part {
        name,
        place,
        path,
        file,
    })
}

impl<F: Write> Part<'_, F> {
    /// Adds bytes at its end.
    pub(crate) fn add(&mut self, piece: &[u8]) -> io::Result<()> {
        self.file.write_all(piece)
    }

    /// Puts it in the place of the output.
    pub(crate) fn settle<R: Files<File = F>>(&self, files: &R) -> io::Result<()> {
        if !is_at(files, &self.file, &self.path)? {
            return Err(Error::from(ErrorKind::NotFound));
        }
        fs::rename(files, self.path.as_path(), self.place.as_path())
    }

    /// Takes it away.
    pub(crate) fn remove<R: Files<File = F>>(&self, files: &R) {
        if let Ok(true) = is_at(files, &self.file, &self.path) {
            let _ = fs::remove_file(files, self.path.as_path());
        }
    }
}

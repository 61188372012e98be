// Which words of a command line may name files, and whether two names are of one file.
use std::alloc::{AllocError, Global};
use std::fs;
use std::fs::Files;
use std::os::unix::fs::MetadataExt;
use std::path::{Path, PathBuf};

/// Standard output, as a file.
pub(crate) const STANDARD_OUTPUT: &str = "/dev/stdout";

// So many links one after the other are followed at most, as the machine does.
const MOST_LINKS: u32 = 40;

// What stands behind the equals sign of an option; the word where it is no option. None for an option without a value, and for the
// plan to start from: that one is read whole before anything is written, and may be the plan file.
fn named_by(word: &str) -> Option<&str> {
    if !word.starts_with('-') {
        return Some(word);
    }
    match word.split_once('=') {
        Some(("--start", _)) => None,
        Some((_, value)) => Some(value),
        None => None,
    }
}

/// The words that may name files, in their order.
pub(crate) fn names_of<'a>(alloc: Global, words: &'a [String]) -> Result<Vec<&'a str>, AllocError> {
    let mut names: Vec<&'a str> = Vec::new(alloc);
    let mut is_start = false;
    for word in words {
        let word = word.as_str();
        if !is_start {
            if let Some(name) = named_by(word) {
                names.push(name)?;
            }
        }
        is_start = word == "--start";
    }
    Ok(names)
}

/// The path that a name leads to, through links at its end. None where they lead round in a circle, or memory is short.
pub(crate) fn end_of_links<R: Files>(
    alloc: Global,
    files: &R,
    name: &str,
) -> Option<PathBuf<Global>> {
    let mut path = PathBuf::from_str(alloc, name).ok()?;
    for _ in 0..MOST_LINKS {
        let Ok(next) = files.read_link(alloc, path.as_str()) else {
            return Some(path);
        };
        path.pop();
        path.push(next.as_str()).ok()?;
    }
    None
}

// The path of a file that isn't there, from the top and with no link on its way. None where its folder isn't there.
fn absent_path<R: Files>(alloc: Global, files: &R, name: &str) -> Option<PathBuf<Global>> {
    let end = end_of_links(alloc, files, name)?;
    let path = end.as_path();
    let last = path.file_name()?;
    let folder = match path.parent() {
        Some(folder) if !folder.as_str().is_empty() => folder.as_str(),
        _ => ".",
    };
    let mut whole = files.canonicalize(alloc, folder).ok()?;
    whole.push(last).ok()?;
    Some(whole)
}

// Whether two names of files that aren't there are of one file.
fn are_one_absent<R: Files>(alloc: Global, files: &R, one: &str, other: &str) -> bool {
    match (
        absent_path(alloc, files, one),
        absent_path(alloc, files, other),
    ) {
        (Some(one), Some(other)) => one.as_str() == other.as_str(),
        _ => false,
    }
}

/// Whether two names are of one file, through links too: one that is there, and neither a folder nor a device, or one that isn't
/// there.
pub(crate) fn are_one<R: Files>(alloc: Global, files: &R, one: &str, other: &str) -> bool {
    match (fs::metadata(files, one), fs::metadata(files, other)) {
        (Ok(one), Ok(other)) => {
            one.is_file() && one.dev() == other.dev() && one.ino() == other.ino()
        }
        (Err(_), Err(_)) => are_one_absent(alloc, files, one, other),
        _ => false,
    }
}

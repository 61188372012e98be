// Words on an output that is a file of the command already.

use crate::files::Files;
use explain_lookup::plain;
use std::alloc::{AllocError, Global};

// Standard output, as a file.
const STANDARD_OUTPUT: &str = "/dev/stdout";

// What a file of the command is, behind its name; nothing where the command has none of this name.
fn role(files: Option<Files<'_>>, name: &str) -> &'static str {
    let Some(files) = files else {
        return "";
    };
    if name == files.model {
        return ", the model file,";
    }
    if name == files.plan {
        return ", the plan file,";
    }
    match files.later {
        Some((model, _)) if name == model => ", the model file of the later periods,",
        Some((_, plan)) if name == plan => ", the plan file of the later periods,",
        _ => "",
    }
}

/// Words on an output that wasn't written since another name is one of the same file.
pub(crate) fn on_same_file(
    alloc: Global,
    files: Option<Files<'_>>,
    name: &str,
    other: &str,
) -> Result<String, AllocError> {
    let shown = plain(alloc, name)?;
    if other == STANDARD_OUTPUT {
        return format!(in alloc;
            "The lines of the program go to {shown} themselves. Send them to another file. No file was changed.\n"
        );
    }
    let (taken, role) = (plain(alloc, other)?, role(files, other));
    format!(in alloc;
        "{shown} and {taken}{role} are one file, which would be written over. Choose another name. No file was changed.\n"
    )
}

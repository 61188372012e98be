// Texts in columns.
ghost use Rattle.std.specs.Prelude.{◌≡◌, ◌++◌, OnOk, string_bytes};
ghost use Rattle.plan_report.specs.Padding.{at_left, at_right, blanks};

use std::alloc::AllocError;

// Adds blanks.
#[tactic(auto, unfolding(crate::specs::Padding::blanks))]
fn add_blanks(text: &mut String, count: usize) -> Result<(), AllocError>
    ensures { OnOk result (string_bytes text.new ≡ string_bytes text.old ++ blanks count) }
{
    for _place in 0..count {
        text.push_str(" ")?;
    }
    Ok(())
}

/// Adds a text at the left of a column.
#[tactic(auto, unfolding(crate::specs::Padding::at_left))]
pub(crate) fn add_at_left(text: &mut String, width: usize, shown: &str) -> Result<(), AllocError>
    ensures { OnOk result (string_bytes text.new ≡ string_bytes text.old
        ++ at_left width shown.now) }
{
    let room = width.saturating_sub(shown.len());
    text.push_str(shown)?;
    add_blanks(text, room)?;
    Ok(())
}

/// Adds a text at the right of a column, after a blank.
#[tactic(auto, unfolding(crate::specs::Padding::at_right))]
pub(crate) fn add_at_right(text: &mut String, width: usize, shown: &str) -> Result<(), AllocError>
    ensures { OnOk result (string_bytes text.new ≡ string_bytes text.old
        ++ at_right width shown.now) }
{
    let room = width.saturating_sub(shown.len());
    text.push_str(" ")?;
    add_blanks(text, room)?;
    text.push_str(shown)?;
    Ok(())
}

// Texts of a file as they may be shown on a terminal.
use std::fmt;

// The most characters of a name or a value that are shown.
const MOST_SHOWN: usize = 60;

/// A text without control characters, which are shown as `?`, of at most so many characters.
#[derive(Clone, Copy)]
pub struct Shown<'a> {
    text: &'a str,
    most: usize,
}

/// A name or a value, cut off after 60 characters.
pub fn cut(text: &str) -> Shown<'_> {
    Shown {
        text,
        most: MOST_SHOWN,
    }
}

/// A text that isn't cut off.
pub fn whole(text: &str) -> Shown<'_> {
    Shown {
        text,
        most: text.len(),
    }
}

// Whether a character changes how those around it are shown, or isn't shown at all.
fn is_format(ch: char) -> bool {
    matches!(
        ch,
        '\u{200b}'..='\u{200f}' | '\u{2028}'..='\u{202e}' | '\u{2060}'..='\u{206f}' | '\u{feff}'
    )
}

/// What is shown of a character.
pub fn visible(ch: char) -> char {
    if ch.is_control() || is_format(ch) {
        '?'
    } else {
        ch
    }
}

impl fmt::Display for Shown<'_> {
    fn fmt<W: fmt::Write>(&self, f: &mut fmt::Formatter<W>) -> fmt::Result {
        let mut left = self.most;
        for ch in self.text.chars() {
            if left == 0 {
                return f.write_str("..");
            }
            left = left.saturating_sub(1);
            f.write_char(visible(ch))?;
        }
        Ok(())
    }
}

/// Whether a character may stand in a name.
pub fn is_plain(ch: char) -> bool {
    ch.is_ascii_alphanumeric() || ch == '_' || ch == '-' || ch == '.'
}

/// A name, in quotes where it has characters that no name has.
#[derive(Clone, Copy)]
pub struct Name<'a>(pub &'a str);

// Whether all characters may stand in a name.
fn is_name(text: &str) -> bool {
    text.chars().all(|ch| is_plain(ch))
}

impl fmt::Display for Name<'_> {
    fn fmt<W: fmt::Write>(&self, f: &mut fmt::Formatter<W>) -> fmt::Result {
        let text = cut(self.0);
        if !self.0.is_empty() && is_name(self.0) {
            write!(f, "{text}")
        } else {
            write!(f, "\"{text}\"")
        }
    }
}

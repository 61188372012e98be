// Forms of texts.
use std::str;

/// Whether a text is of a form, in which each `*` stands for any text, or for none.
pub fn is_of_form(text: &str, form: &str) -> bool {
    match form.split_once('*') {
        Some((first, more)) => match text.strip_prefix(first) {
            Some(rest) => goes_on(rest, more),
            None => false,
        },
        None => text == form,
    }
}

// Whether a text is of a form that any text may come before.
fn goes_on(text: &str, form: &str) -> bool {
    match form.rsplit_once('*') {
        Some((middle, last)) => match after_pieces(text.as_bytes(), middle) {
            Some(rest) => rest.ends_with(last.as_bytes()),
            None => false,
        },
        None => text.ends_with(form),
    }
}

// What is left of a text after the pieces of a form, each at the first place where it can be.
fn after_pieces<'a>(text: &'a [u8], form: &str) -> Option<&'a [u8]> {
    let mut rest = text;
    for piece in form.split('*') {
        match after_piece(rest, piece) {
            Some(after) => rest = after,
            None => return None,
        }
    }
    Some(rest)
}

// What is left of a text after the first place of a piece.
fn after_piece<'a>(text: &'a [u8], piece: &str) -> Option<&'a [u8]> {
    if piece.is_empty() {
        return Some(text);
    }
    match str::from_utf8(text) {
        Ok(text) => match text.split_once(piece) {
            Some((_before, after)) => Some(after.as_bytes()),
            None => None,
        },
        Err(_) => None,
    }
}

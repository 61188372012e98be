// The runs of a case.
use crate::content::{Texts, content};
use crate::fault::Fault;
use crate::forms::is_of_form;
use crate::keys::{Keys, add_numbers, has_only, keys_of, number_of, text_of};
use crate::outside::{Fails, Files, Left, left_by};
use crate::transcript::{add_counts, add_fates, add_new, add_text, add_words};
use std::alloc::Global;
use std::collections::BTreeMap;
use std::str;
use toml::{Table, Value};

// The keys of a later run.
const LATER_KEYS: [&str; 4] = ["run", "show", "form", "forms"];

/// The words of a run.
pub fn words_of(alloc: Global, keys: Keys) -> Result<Vec<String>, Fault> {
    match keys.get("run") {
        Some(value) => match value.as_str() {
            Some(words) => split_words(alloc, words),
            None => listed_words(alloc, keys.list("run")?),
        },
        None => Ok(Vec::new(alloc)),
    }
}

// The words between the blanks of a text.
fn split_words(alloc: Global, text: &str) -> Result<Vec<String>, Fault> {
    let mut words = Vec::new(alloc);
    for word in text.split_whitespace() {
        words.push(String::from_str(alloc, word)?)?;
    }
    Ok(words)
}

// The words of a list.
fn listed_words(alloc: Global, list: &[Value]) -> Result<Vec<String>, Fault> {
    let mut words = Vec::new(alloc);
    for value in list {
        words.push(String::from_str(alloc, text_of(value, "run")?)?)?;
    }
    Ok(words)
}

// Puts the files of a table among others.
fn put_files(alloc: Global, files: &mut Files, table: &Table, texts: &Texts) -> Result<(), Fault> {
    for (name, value) in table.iter() {
        let bytes = content(alloc, value, texts)?;
        files.insert(String::from_str(alloc, name.as_str())?, bytes)?;
    }
    Ok(())
}

// Puts the files that stand in a table of a case, where it has some.
fn put_files_of(
    alloc: Global,
    files: &mut Files,
    case: &Table,
    texts: &Texts,
) -> Result<(), Fault> {
    match case.get("files") {
        Some(value) => put_files(alloc, files, keys_of(value, "files")?.first, texts),
        None => Ok(()),
    }
}

/// The files that there are before a case.
pub fn files_of(alloc: Global, keys: Keys, texts: &Texts) -> Result<Files, Fault> {
    let mut files = BTreeMap::new(alloc);
    if let Some(case) = keys.second {
        put_files_of(alloc, &mut files, case, texts)?;
    }
    put_files_of(alloc, &mut files, keys.first, texts)?;
    Ok(files)
}

// The calls that are to fail.
fn fails_of(alloc: Global, keys: Keys) -> Result<Fails, Fault> {
    let mut fails = Fails::none(alloc);
    if let Some(value) = keys.get("fail") {
        let calls = keys_of(value, "fail")?;
        has_only(alloc, calls.first, &["fetch", "start", "append", "print"])?;
        add_fails(&mut fails, calls)?;
    }
    Ok(fails)
}

// Adds the numbers of the calls that are to fail.
fn add_fails(fails: &mut Fails, calls: Keys) -> Result<(), Fault> {
    add_numbers(&mut fails.fetch, calls.list("fetch")?, "fetch")?;
    add_numbers(&mut fails.start, calls.list("start")?, "start")?;
    add_numbers(&mut fails.append, calls.list("append")?, "append")?;
    add_numbers(&mut fails.print, calls.list("print")?, "print")
}

// Whether what was printed is of a form.
fn prints(left: &Left, form: &str) -> bool {
    match str::from_utf8(left.printed.as_slice()) {
        Ok(text) => is_of_form(text, form),
        Err(_) => false,
    }
}

// Whether a run is of one of several forms.
fn is_of(left: &Left, form: &Value) -> Result<bool, Fault> {
    let keys = keys_of(form, "forms")?;
    let status = match keys.get("status") {
        Some(value) => number_of(value, "status")?,
        None => return Err(Fault::Missing("status")),
    };
    let text = keys.text("prints")?.ok_or(Fault::Missing("prints"))?;
    Ok(status == u64::from(left.status) && prints(left, text))
}

// Which of several forms a run is of: the chosen one, where one is.
fn met(left: &Left, forms: &[Value], chosen: Option<usize>) -> Result<Option<usize>, Fault> {
    for (place, form) in forms.iter().enumerate() {
        let may_be = match chosen {
            Some(one) => one == place,
            None => true,
        };
        if may_be && is_of(left, form)? {
            return Ok(Some(place));
        }
    }
    Ok(None)
}

// Adds the status, the counts and what was printed.
fn add_said(out: &mut String, left: &Left, form: Option<&str>) -> Result<(), Fault> {
    let status = left.status;
    write!(out, "status {status}")?;
    add_counts(out, left.counts)?;
    match form {
        Some(form) if prints(left, form) => add_text(out, form.as_bytes())?,
        _ => add_text(out, left.printed.as_slice())?,
    }
    Ok(())
}

// Adds that a run is of one of several forms.
fn add_met(out: &mut String, left: &Left, forms: usize) -> Result<(), Fault> {
    write!(out, "one of {forms} statuses")?;
    add_counts(out, left.counts)?;
    write!(out, "as one of {forms} forms\n")?;
    Ok(())
}

// Adds what a run said, and gives the form that was met.
fn add_answer(
    out: &mut String,
    left: &Left,
    keys: Keys,
    chosen: Option<usize>,
) -> Result<Option<usize>, Fault> {
    let forms = keys.list("forms")?;
    match met(left, forms, chosen)? {
        Some(place) => {
            add_met(out, left, forms.len())?;
            Ok(Some(place))
        }
        None => {
            add_said(out, left, keys.text("form")?)?;
            Ok(chosen)
        }
    }
}

// Adds the new texts of the files that are to be shown.
fn add_shown(
    out: &mut String,
    names: &[Value],
    before: &Files,
    after: &Files,
) -> Result<(), Fault> {
    for name in names {
        add_new(out, text_of(name, "show")?, before, after)?;
    }
    Ok(())
}

// Adds what a run left, and gives the form that was met.
fn add_left(
    out: &mut String,
    left: &Left,
    keys: Keys,
    before: &Files,
    chosen: Option<usize>,
) -> Result<Option<usize>, Fault> {
    let chosen = add_answer(out, left, keys, chosen)?;
    add_fates(out, before, &left.files)?;
    add_shown(out, keys.list("show")?, before, &left.files)?;
    Ok(chosen)
}

// Runs the words once more, over files and output that don't tell what they hold.
fn add_untold(
    alloc: Global,
    out: &mut String,
    keys: Keys,
    words: &[String],
    before: &Files,
    told: &Left,
) -> Result<(), Fault> {
    let left = left_by(alloc, words, before, fails_of(alloc, keys)?, false)?;
    if left.is_same(told) {
        out.push_str("untold: the same\n")?;
    } else {
        out.push_str("untold:\n")?;
        let _ = add_left(out, &left, keys, before, None)?;
    }
    Ok(())
}

/// Runs a case's own words. It gives the files that are left, and the form that was met.
pub fn run_first(
    alloc: Global,
    out: &mut String,
    keys: Keys,
    before: &Files,
) -> Result<(Files, Option<usize>), Fault> {
    let words = words_of(alloc, keys)?;
    add_words(out, words.as_slice())?;
    let left = left_by(
        alloc,
        words.as_slice(),
        before,
        fails_of(alloc, keys)?,
        true,
    )?;
    let chosen = add_left(out, &left, keys, before, None)?;
    if keys.is_set("untold")? {
        add_untold(alloc, out, keys, words.as_slice(), before, &left)?;
    }
    Ok((left.files, chosen))
}

// Runs words that stand alone.
fn run_words(
    alloc: Global,
    out: &mut String,
    words: &[String],
    before: &Files,
) -> Result<Files, Fault> {
    add_words(out, words)?;
    let left = left_by(alloc, words, before, Fails::none(alloc), true)?;
    add_said(out, &left, None)?;
    add_fates(out, before, &left.files)?;
    Ok(left.files)
}

// Runs words with what is to be shown of them.
fn run_table(
    alloc: Global,
    out: &mut String,
    keys: Keys,
    before: &Files,
    chosen: Option<usize>,
) -> Result<(Files, Option<usize>), Fault> {
    has_only(alloc, keys.first, &LATER_KEYS)?;
    let words = words_of(alloc, keys)?;
    add_words(out, words.as_slice())?;
    let left = left_by(alloc, words.as_slice(), before, Fails::none(alloc), true)?;
    let chosen = add_left(out, &left, keys, before, chosen)?;
    Ok((left.files, chosen))
}

/// Runs later words over the files that were left.
pub fn run_later(
    alloc: Global,
    out: &mut String,
    value: &Value,
    before: &Files,
    chosen: Option<usize>,
) -> Result<(Files, Option<usize>), Fault> {
    match value.as_str() {
        Some(text) => {
            let words = split_words(alloc, text)?;
            let files = run_words(alloc, out, words.as_slice(), before)?;
            Ok((files, chosen))
        }
        None => run_table(alloc, out, keys_of(value, "then")?, before, chosen),
    }
}

//! Lines of a file, gathered into fields.

use crate::errors::{CaseError, Fault, at_line};
use std::alloc::Global;

/// A line that begins with a key, and the lines below it that go on with it.
#[derive(Drop)]
pub(crate) struct Field<'a> {
    /// The number of the line, from 1.
    pub line: usize,
    pub key: &'a str,
    /// What stands behind the key and a blank.
    pub rest: &'a str,
    pub below: Vec<Below<'a>>,
}

/// A line that begins with two blanks, without them.
#[derive(Clone, Copy)]
pub(crate) struct Below<'a> {
    pub line: usize,
    pub text: &'a str,
}

/// Cuts a text at its first blank; the second part is empty where there is none.
pub(crate) fn cut(text: &str) -> (&str, &str) {
    match text.split_once(' ') {
        Some(parts) => parts,
        None => (text, ""),
    }
}

/// Adds a line to the fields above it.
fn add_line<'a>(
    alloc: Global,
    fields: &mut Vec<Field<'a>>,
    line: usize,
    text: &'a str,
) -> Result<(), Fault> {
    if text.ends_with(' ') {
        return Err(Fault::BlankAtEnd);
    }
    if text.is_empty() || text.starts_with('#') {
        return Ok(());
    }
    if let Some(text) = text.strip_prefix("  ") {
        let field = fields.last_mut().ok_or(Fault::NothingAbove)?;
        field.below.push(Below { line, text })?;
        return Ok(());
    }
    let (key, rest) = cut(text);
    fields.push(Field {
        line,
        key,
        rest,
        below: Vec::new(alloc),
    })?;
    Ok(())
}

/// The fields of a text. Empty lines and lines that begin with `#` are left out.
pub(crate) fn fields_of(alloc: Global, text: &str) -> Result<Vec<Field<'_>>, CaseError> {
    let mut fields = Vec::new(alloc);
    for (above, line) in text.lines().enumerate() {
        let number = above.saturating_add(1);
        at_line(number, add_line(alloc, &mut fields, number, line))?;
    }
    Ok(fields)
}

//! A case while its fields are read.

ghost use Rattle.std.specs.Prelude.{◌<◌, IfOk};

use crate::cases::{Case, Entry, Failing, File, Found, Narrow, Row};
use crate::errors::{CaseError, Fault, at_line, push};
use crate::escapes::digest_of;
use crate::fields::{Field, cut};
use crate::rows::{Fronts, read_rows};
use crate::values::{Reader, number_of};
use std::alloc::{AllocError, Global};

/// What was read of a case.
#[derive(Drop)]
pub(crate) struct Draft {
    line: usize,
    name: String,
    commands: Vec<Vec<String>>,
    then: Vec<Vec<String>>,
    files: Vec<File>,
    cache: Vec<Entry>,
    narrow: Narrow,
    failing: Failing,
    desks: Option<u32>,
    rows: Vec<Row>,
    input: Option<Vec<u8>>,
    out: Option<Vec<u8>>,
    err: Option<Vec<u8>>,
    status: Option<u8>,
    asked: Option<u64>,
    kept: Vec<Entry>,
    keeps: Option<u64>,
}

/// The words of a line, between which blanks stand.
fn words_of(alloc: Global, text: &str) -> Result<Vec<String>, AllocError> {
    let mut words = Vec::new(alloc);
    for word in text.split_whitespace() {
        words.push(String::from_str(alloc, word)?)?;
    }
    Ok(words)
}

/// Sets what is not set yet.
fn set<T: Drop>(place: &mut Option<T>, value: T) -> Result<(), Fault> {
    if place.is_some() {
        return Err(Fault::Twice);
    }
    *place = Some(value);
    Ok(())
}

/// Adds an entry: its digest stands behind the key, and its bytes in the lines below.
fn push_entry(
    entries: &mut Vec<Entry>,
    reader: Reader<'_>,
    field: &Field<'_>,
) -> Result<(), CaseError> {
    let digest = at_line(field.line, digest_of(field.rest))?;
    let bytes = reader.value_below(field)?;
    at_line(field.line, push(entries, Entry { digest, bytes }))
}

/// Adds a file: its location stands behind the key, and its text in the lines below.
fn push_file(
    files: &mut Vec<File>,
    reader: Reader<'_>,
    field: &Field<'_>,
) -> Result<(), CaseError> {
    let bytes = reader.value_below(field)?;
    let found = Found::Text { bytes, allow: None };
    let pushed = push_found(reader.alloc, files, field.line, field.rest, found);
    at_line(field.line, pushed)
}

/// The case of this name.
pub(crate) fn case_of<'a>(cases: &'a [Case], name: &str) -> Option<&'a Case> {
    for case in cases {
        if case.name.as_str() == name {
            return Some(case);
        }
    }
    None
}

/// Adds the files of a case above.
fn push_files(files: &mut Vec<File>, reader: Reader<'_>, name: &str) -> Result<(), Fault> {
    let Some(case) = case_of(reader.cases, name) else {
        return Err(Fault::UnknownCase);
    };
    for file in &case.files {
        files.push(file.clone()?)?;
    }
    Ok(())
}

/// Adds what is found at a location.
fn push_found(
    alloc: Global,
    files: &mut Vec<File>,
    line: usize,
    location: &str,
    found: Found,
) -> Result<(), Fault> {
    files.push(File {
        line,
        location: String::from_str(alloc, location)?,
        found,
    })?;
    Ok(())
}

/// Adds a server without a text: its status stands behind the key, and then the location.
fn push_status(alloc: Global, files: &mut Vec<File>, field: &Field<'_>) -> Result<(), Fault> {
    let (status, location) = cut(field.rest);
    let found = Found::Status(server_status_of(status)?);
    push_found(alloc, files, field.line, location, found)
}

/// Lets the last text be read by an origin.
fn allow(alloc: Global, files: &mut Vec<File>, origin: &str) -> Result<(), Fault> {
    let file = files.last_mut().ok_or(Fault::NoFileAbove)?;
    match &mut file.found {
        Found::Text { bytes: _, allow } => set(allow, Vec::from_slice(alloc, origin.as_bytes())?),
        Found::Status(_) => Err(Fault::NoFileAbove),
    }
}

/// How many desks a text asks for.
fn number_of_desks(text: &str) -> Result<u32, Fault>
    ensures { IfOk result (λ count. 0 < count) }
{
    match u32::try_from(number_of(text)?) {
        Ok(0) => Err(Fault::NoDesk),
        Ok(count) => Ok(count),
        Err(_) => Err(Fault::NotNumber),
    }
}

/// The exit status that a text writes.
fn exit_status_of(text: &str) -> Result<u8, Fault> {
    match u8::try_from(number_of(text)?) {
        Ok(status) => Ok(status),
        Err(_) => Err(Fault::NotNumber),
    }
}

/// The status of a server that a text writes.
fn server_status_of(text: &str) -> Result<u16, Fault> {
    match u16::try_from(number_of(text)?) {
        Ok(status) => Ok(status),
        Err(_) => Err(Fault::NotNumber),
    }
}

/// The bytes, or none.
fn bytes_or_none(alloc: Global, bytes: Option<Vec<u8>>) -> Vec<u8> {
    match bytes {
        Some(bytes) => bytes,
        None => Vec::new(alloc),
    }
}

/// The bytes, or none.
fn slice_or_none(bytes: &Option<Vec<u8>>) -> &[u8] {
    match bytes {
        Some(bytes) => bytes.as_slice(),
        None => &[],
    }
}

impl Draft {
    /// A case of which no field was read.
    pub(crate) fn new(alloc: Global, field: &Field<'_>) -> Result<Draft, Fault> {
        if field.rest.is_empty() {
            return Err(Fault::NoName);
        }
        Ok(Draft {
            line: field.line,
            name: String::from_str(alloc, field.rest)?,
            commands: Vec::new(alloc),
            then: Vec::new(alloc),
            files: Vec::new(alloc),
            cache: Vec::new(alloc),
            narrow: Narrow::NONE,
            failing: Failing::none(alloc),
            desks: None,
            rows: Vec::new(alloc),
            input: None,
            out: None,
            err: None,
            status: None,
            asked: None,
            kept: Vec::new(alloc),
            keeps: None,
        })
    }

    /// Takes a field.
    pub(crate) fn take(&mut self, reader: Reader<'_>, field: &Field<'_>) -> Result<(), CaseError> {
        match field.key {
            "input" => self.take_front(Front::Input, reader, field),
            "out" => self.take_front(Front::Out, reader, field),
            "err" => self.take_front(Front::Err, reader, field),
            "file" => push_file(&mut self.files, reader, field),
            "cache" => push_entry(&mut self.cache, reader, field),
            "kept" => push_entry(&mut self.kept, reader, field),
            "rows" => self.take_rows(reader, field),
            _ => at_line(field.line, self.take_line(reader, field)),
        }
    }

    /// Takes a value that stands alone or before those of the rows.
    fn take_front(
        &mut self,
        front: Front,
        reader: Reader<'_>,
        field: &Field<'_>,
    ) -> Result<(), CaseError> {
        if !self.rows.is_empty() {
            return at_line(field.line, Err(Fault::BelowRows));
        }
        let value = reader.value_of(field)?;
        let set = match front {
            Front::Input => set(&mut self.input, value),
            Front::Out => set(&mut self.out, value),
            Front::Err => set(&mut self.err, value),
        };
        at_line(field.line, set)
    }

    /// Takes rows.
    fn take_rows(&mut self, reader: Reader<'_>, field: &Field<'_>) -> Result<(), CaseError> {
        let fronts = Fronts {
            input: slice_or_none(&self.input),
            out: slice_or_none(&self.out),
            err: slice_or_none(&self.err),
        };
        read_rows(reader, fronts, field, &mut self.rows)
    }

    /// Takes a field of one line.
    fn take_line(&mut self, reader: Reader<'_>, field: &Field<'_>) -> Result<(), Fault> {
        let alloc = reader.alloc;
        if !field.below.is_empty() {
            return Err(Fault::NothingBelow);
        }
        match field.key {
            "words" => self.commands.push(words_of(alloc, field.rest)?)?,
            "then" => self.then.push(words_of(alloc, field.rest)?)?,
            "word" => self.add_word(alloc, field.rest)?,
            "files" => push_files(&mut self.files, reader, field.rest)?,
            "allow" => allow(alloc, &mut self.files, field.rest)?,
            "answers" => push_status(alloc, &mut self.files, field)?,
            "narrow" => self.add_narrow(field.rest)?,
            "fail" => self.add_failing(field.rest)?,
            _ => return self.take_number(field),
        }
        Ok(())
    }

    /// Takes a field whose value is a number.
    fn take_number(&mut self, field: &Field<'_>) -> Result<(), Fault> {
        match field.key {
            "desks" => set(&mut self.desks, number_of_desks(field.rest)?),
            "status" => set(&mut self.status, exit_status_of(field.rest)?),
            "asked" => set(&mut self.asked, number_of(field.rest)?),
            "keeps" => set(&mut self.keeps, number_of(field.rest)?),
            _ => Err(Fault::UnknownField),
        }
    }

    /// Adds a word to the last command.
    fn add_word(&mut self, alloc: Global, word: &str) -> Result<(), Fault> {
        let words = self.commands.last_mut().ok_or(Fault::NoWordsAbove)?;
        words.push(String::from_str(alloc, word)?)?;
        Ok(())
    }

    /// Adds streams that move at most one byte a call.
    fn add_narrow(&mut self, text: &str) -> Result<(), Fault> {
        for stream in text.split_whitespace() {
            self.narrow.add(stream)?;
        }
        Ok(())
    }

    /// Adds calls that fail: the kind of call, and their numbers.
    fn add_failing(&mut self, text: &str) -> Result<(), Fault> {
        let (device, numbers) = cut(text);
        for number in numbers.split_whitespace() {
            self.failing.add(device, number_of(number)?)?;
        }
        Ok(())
    }

    /// The row of a case that has none of its own.
    fn lone_row(&mut self, alloc: Global) -> Row {
        Row {
            line: self.line,
            input: bytes_or_none(alloc, self.input.take()),
            out: bytes_or_none(alloc, self.out.take()),
            err: bytes_or_none(alloc, self.err.take()),
            status: self.status.unwrap_or(0),
        }
    }

    /// Adds the row of a case that has none of its own.
    fn add_row(&mut self, alloc: Global) -> Result<(), Fault> {
        if self.rows.is_empty() {
            let row = self.lone_row(alloc);
            self.rows.push(row)?;
            return Ok(());
        }
        match self.status {
            Some(_) => Err(Fault::StatusOfRows),
            None => Ok(()),
        }
    }

    /// The case, once all of its fields were taken.
    pub(crate) fn finish(mut self, alloc: Global) -> Result<Case, CaseError> {
        if self.commands.is_empty() {
            return at_line(self.line, Err(Fault::NoWords));
        }
        if self.keeps.is_some() && !self.kept.is_empty() {
            return at_line(self.line, Err(Fault::CountOfEntries));
        }
        at_line(self.line, self.add_row(alloc))?;
        let Draft {
            line,
            name,
            commands,
            then,
            files,
            cache,
            narrow,
            failing,
            desks,
            rows,
            input: _,
            out: _,
            err: _,
            status: _,
            asked,
            kept,
            keeps,
        } = self;
        Ok(Case {
            name,
            line,
            commands,
            then,
            files,
            cache,
            narrow,
            failing,
            desks: desks.unwrap_or(1),
            rows,
            asked,
            kept,
            keeps,
        })
    }
}

/// The three values that stand before those of the rows.
#[derive(Clone, Copy)]
enum Front {
    Input,
    Out,
    Err,
}

//! The cases of a file.

ghost use Rattle.std.specs.Prelude.{◌<◌, vec_len, IfOk};

use crate::cases::Case;
use crate::drafts::{Draft, case_of};
use crate::errors::{CaseError, Fault, at_line, push};
use crate::fields::{Field, fields_of};
use crate::values::{Definition, Reader, definition_of};
use std::alloc::Global;

/// What was read of a file: values with names, cases, and the case that goes on.
#[derive(Drop)]
struct Reading {
    alloc: Global,
    definitions: Vec<Definition>,
    cases: Vec<Case>,
    draft: Option<Draft>,
}

impl Reading {
    /// A fault where a value or a case has the name of a field.
    fn check_name(&self, field: &Field<'_>) -> Result<(), CaseError> {
        if case_of(self.cases.as_slice(), field.rest).is_some()
            || definition_of(self.definitions.as_slice(), field.rest).is_some()
        {
            return at_line(field.line, Err(Fault::NameTwice));
        }
        Ok(())
    }

    /// Takes a value with a name.
    fn define(&mut self, field: &Field<'_>) -> Result<(), CaseError> {
        self.check_name(field)?;
        let reader = Reader {
            alloc: self.alloc,
            definitions: self.definitions.as_slice(),
            cases: self.cases.as_slice(),
        };
        let bytes = reader.value_below(field)?;
        let definition = at_line(field.line, define(self.alloc, field, bytes))?;
        at_line(field.line, push(&mut self.definitions, definition))
    }

    /// Ends the case that goes on, if one does.
    fn finish(&mut self) -> Result<(), CaseError> {
        let Some(draft) = self.draft.take() else {
            return Ok(());
        };
        let case = draft.finish(self.alloc)?;
        let line = case.line;
        at_line(line, push(&mut self.cases, case))
    }

    /// Begins a case.
    fn begin(&mut self, field: &Field<'_>) -> Result<(), CaseError> {
        self.finish()?;
        self.check_name(field)?;
        let draft = at_line(field.line, Draft::new(self.alloc, field))?;
        self.draft = Some(draft);
        Ok(())
    }

    /// Takes a field of the case that goes on.
    fn go_on(&mut self, field: &Field<'_>) -> Result<(), CaseError> {
        let reader = Reader {
            alloc: self.alloc,
            definitions: self.definitions.as_slice(),
            cases: self.cases.as_slice(),
        };
        match &mut self.draft {
            Some(draft) => draft.take(reader, field),
            None => at_line(field.line, Err(Fault::OutsideOfCases)),
        }
    }

    fn take(&mut self, field: &Field<'_>) -> Result<(), CaseError> {
        match field.key {
            "define" => self.define(field),
            "case" => self.begin(field),
            _ => self.go_on(field),
        }
    }
}

/// A value with the name that stands behind a key.
fn define(alloc: Global, field: &Field<'_>, bytes: Vec<u8>) -> Result<Definition, Fault> {
    if field.rest.is_empty() {
        return Err(Fault::NoName);
    }
    let name = String::from_str(alloc, field.rest)?;
    Ok(Definition { name, bytes })
}

/// The cases of a file, of which there is at least one.
pub fn read_cases(alloc: Global, text: &str) -> Result<Vec<Case>, CaseError>
    ensures { IfOk result (λ cases. 0 < vec_len cases) }
{
    let fields = fields_of(alloc, text)?;
    let mut reading = Reading {
        alloc,
        definitions: Vec::new(alloc),
        cases: Vec::new(alloc),
        draft: None,
    };
    for field in &fields {
        reading.take(field)?;
    }
    reading.finish()?;
    if reading.cases.is_empty() {
        return Err(CaseError {
            line: 1,
            fault: Fault::NoCase,
        });
    }
    Ok(reading.cases)
}

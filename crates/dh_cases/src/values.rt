//! Values: bytes, written in parts.

use crate::cases::Case;
use crate::errors::{CaseError, Fault, at_line};
use crate::escapes::{append_escaped, append_hexadecimal};
use crate::fields::{Below, Field, cut};
use std::alloc::{AllocError, Global};

/// A value with a name.
#[derive(Drop)]
pub(crate) struct Definition {
    pub name: String,
    pub bytes: Vec<u8>,
}

/// What fields are read with: the allocator, and the values that were named and the cases that were read above.
#[derive(Clone, Copy)]
pub(crate) struct Reader<'a> {
    pub alloc: Global,
    pub definitions: &'a [Definition],
    pub cases: &'a [Case],
}

/// The value of this name.
pub(crate) fn definition_of<'a>(
    definitions: &'a [Definition],
    name: &str,
) -> Option<&'a Definition> {
    for definition in definitions {
        if definition.name.as_str() == name {
            return Some(definition);
        }
    }
    None
}

/// The number that a text writes.
pub(crate) fn number_of(text: &str) -> Result<u64, Fault> {
    match text.parse::<u64>() {
        Ok(number) => Ok(number),
        Err(_) => Err(Fault::NotNumber),
    }
}

/// A text with a number in the place of each `{#}`.
fn numbered(alloc: Global, text: &str, number: u64) -> Result<String, AllocError> {
    let digits = format!(in alloc; "{number}")?;
    let mut made = String::new(alloc);
    for (index, piece) in text.split("{#}").enumerate() {
        if index > 0 {
            made.push_str(digits.as_str())?;
        }
        made.push_str(piece)?;
    }
    Ok(made)
}

impl Reader<'_> {
    /// Adds the bytes of a definition.
    fn append_named(&self, bytes: &mut Vec<u8>, name: &str) -> Result<(), Fault> {
        let Some(definition) = definition_of(self.definitions, name) else {
            return Err(Fault::UnknownName);
        };
        bytes.extend_from_slice(definition.bytes.as_slice())?;
        Ok(())
    }

    /// Adds the bytes of what a text spells in a notation of this name.
    pub(crate) fn append_as(
        &self,
        bytes: &mut Vec<u8>,
        notation: &str,
        text: &str,
    ) -> Result<(), Fault> {
        match notation {
            "text" => bytes.extend_from_slice(text.as_bytes())?,
            "line" => {
                bytes.extend_from_slice(text.as_bytes())?;
                bytes.push(b'\n')?;
            }
            "bytes" => append_escaped(bytes, text)?,
            "hex" => append_hexadecimal(self.alloc, bytes, text)?,
            "use" => self.append_named(bytes, text)?,
            _ => return Err(Fault::UnknownPart),
        }
        Ok(())
    }

    /// Adds the bytes of a part, so many times.
    fn append_repeated(&self, bytes: &mut Vec<u8>, text: &str) -> Result<(), Fault> {
        let (count, part) = cut(text);
        let count = number_of(count)?;
        let (notation, text) = cut(part);
        let mut one = Vec::new(self.alloc);
        self.append_as(&mut one, notation, text)?;
        for _ in 0..count {
            bytes.extend_from_slice(one.as_slice())?;
        }
        Ok(())
    }

    /// Adds the bytes of a part once for each number of a range, which stands in the place of `{#}`.
    fn append_counted(&self, bytes: &mut Vec<u8>, text: &str) -> Result<(), Fault> {
        let (first, rest) = cut(text);
        let (end, part) = cut(rest);
        let (first, end) = (number_of(first)?, number_of(end)?);
        let (notation, text) = cut(part);
        for number in first..end {
            let text = numbered(self.alloc, text, number)?;
            self.append_as(bytes, notation, text.as_str())?;
        }
        Ok(())
    }

    /// Adds the bytes of a part.
    fn append_part(&self, bytes: &mut Vec<u8>, part: &str) -> Result<(), Fault> {
        let (notation, text) = cut(part);
        match notation {
            "repeat" => self.append_repeated(bytes, text),
            "count" => self.append_counted(bytes, text),
            _ => self.append_as(bytes, notation, text),
        }
    }

    /// The bytes of the parts in these lines, behind those that are there.
    fn append_below(&self, bytes: &mut Vec<u8>, below: &[Below<'_>]) -> Result<(), CaseError> {
        for part in below {
            at_line(part.line, self.append_part(bytes, part.text))?;
        }
        Ok(())
    }

    /// The value whose parts stand in the lines below a field.
    pub(crate) fn value_below(&self, field: &Field<'_>) -> Result<Vec<u8>, CaseError> {
        let mut bytes = Vec::new(self.alloc);
        self.append_below(&mut bytes, field.below.as_slice())?;
        Ok(bytes)
    }

    /// The value whose first part stands behind a key, if anything does, and the others in the lines below.
    pub(crate) fn value_of(&self, field: &Field<'_>) -> Result<Vec<u8>, CaseError> {
        let mut bytes = Vec::new(self.alloc);
        if !field.rest.is_empty() {
            at_line(field.line, self.append_part(&mut bytes, field.rest))?;
        }
        self.append_below(&mut bytes, field.below.as_slice())?;
        Ok(bytes)
    }
}

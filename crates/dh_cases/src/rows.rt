//! Rows: an input and an answer in one line.

use crate::cases::Row;
use crate::errors::{CaseError, Fault, at_line, push};
use crate::fields::{Below, Field, cut};
use crate::values::Reader;
use std::alloc::AllocError;

/// What stands between an input and its answer, by the status that the run ends with.
const ARROWS: [(&str, u8); 12] = [
    (" ~> ", 0),
    (" ~1> ", 1),
    (" ~2> ", 2),
    (" ~3> ", 3),
    (" ~4> ", 4),
    (" ~5> ", 5),
    (" ~6> ", 6),
    (" ~7> ", 7),
    (" ~8> ", 8),
    (" ~9> ", 9),
    (" ~10> ", 10),
    (" ~11> ", 11),
];

/// A row, cut at its arrow.
#[derive(Clone, Copy)]
struct Cut<'a> {
    input: &'a str,
    answer: &'a str,
    status: u8,
}

fn cut_at_arrow(text: &str) -> Option<Cut<'_>> {
    for (arrow, status) in ARROWS {
        if let Some((input, answer)) = text.split_once(arrow) {
            return Some(Cut {
                input,
                answer,
                status,
            });
        }
    }
    None
}

/// What stands before the input and the answers of each row.
#[derive(Clone, Copy)]
pub(crate) struct Fronts<'a> {
    pub input: &'a [u8],
    pub out: &'a [u8],
    pub err: &'a [u8],
}

/// A row: its input is in the first notation, and its answer in the second where the status is 0; else the answer is a line of standard
/// error.
fn read_row(
    reader: Reader<'_>,
    fronts: Fronts<'_>,
    notations: (&str, &str),
    below: &Below<'_>,
) -> Result<Row, Fault> {
    let cut = cut_at_arrow(below.text).ok_or(Fault::NoArrow)?;
    let mut input = Vec::from_slice(reader.alloc, fronts.input)?;
    reader.append_as(&mut input, notations.0, cut.input)?;
    let (mut out, mut err) = (Vec::new(reader.alloc), Vec::new(reader.alloc));
    if cut.status == 0 {
        out.extend_from_slice(fronts.out)?;
        reader.append_as(&mut out, notations.1, cut.answer)?;
    } else {
        err.extend_from_slice(fronts.err)?;
        reader.append_as(&mut err, "line", cut.answer)?;
    }
    Ok(Row {
        line: below.line,
        input,
        out,
        err,
        status: cut.status,
    })
}

/// Adds the rows below a field to these.
pub(crate) fn read_rows(
    reader: Reader<'_>,
    fronts: Fronts<'_>,
    field: &Field<'_>,
    rows: &mut Vec<Row>,
) -> Result<(), CaseError> {
    if field.below.is_empty() {
        return at_line(field.line, Err(Fault::NoRows));
    }
    let notations = cut(field.rest);
    for below in &field.below {
        let row = at_line(below.line, read_row(reader, fronts, notations, below))?;
        at_line(below.line, push(rows, row))?;
    }
    Ok(())
}

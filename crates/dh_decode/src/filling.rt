//! What a place becomes by an item.
ghost use Rattle.std.specs.Prelude.{◌≡◌, IfOk, option_map};
ghost use Rattle.dh_binary.specs.Machine as machine;
ghost use Rattle.dh_binary.specs.Stubs.{stubs};
ghost use Rattle.dh_decode.specs.Inside.Forms.{op_of};
ghost use Rattle.dh_decode.specs.Inside.Views.{part_of, digest_of, place_of, value_of, entries_of};

use crate::entries::{put_entry, put_name, row_made};
use crate::imports::{environment_part, located, url_part};
use crate::lets::lets_made;
use crate::nodes::{
    applied, binding, emptied, field_of, integer_part, natural_part, typed_fields_of, updated,
    variable,
};
use crate::parts::Part;
use crate::places::{Binding, Entries, Form, Names, OpenItem, Start, Value};
use crate::rows::row_at;
use dh_syntax::{BinOp, Digest, Label, Labels, Many, Mode, Piece};
use std::alloc::{AllocError, Global};

/// An application behind one more part.
fn applying<'a>(
    alloc: Global,
    function: Option<Part>,
    part: Part,
) -> Result<OpenItem<'a>, AllocError>
    ensures { IfOk result (λ p.
        place_of p ≡ machine.fill stubs (machine.applying (option_map part_of function)) (machine.holds (part_of part))) }
{
    match function {
        None => Ok(OpenItem::Applying(Some(part))),
        Some(function) => {
            let made = applied(alloc, function, part)?;
            Ok(OpenItem::Applying(Some(made)))
        }
    }
}

/// A function, or a type of functions, behind its domain or its body.
#[inline(never)]
fn quantifying<'a>(
    alloc: Global,
    form: Form,
    name: &'a str,
    domain: Option<Part>,
    part: Part,
) -> Result<OpenItem<'a>, AllocError>
    ensures { IfOk result (λ p.
        place_of p ≡ machine.fill stubs (machine.quantify (op_of form) name.now (option_map part_of domain)) (machine.holds (part_of part))) }
{
    match domain {
        None => Ok(OpenItem::Quantify(form, name, Some(part))),
        Some(domain) => {
            let made = binding(alloc, form.op(), domain, name, part)?;
            Ok(OpenItem::Finished(made))
        }
    }
}

impl<'a> OpenItem<'a> {
    /// The place behind null.
    fn behind_null(self, alloc: Global) -> Result<OpenItem<'a>, AllocError>
        ensures { IfOk result (λ p. place_of p ≡ machine.fill stubs (place_of self.entry) machine.nothing) }
    {
        match self {
            OpenItem::Skipping(form) => Ok(OpenItem::Operands(form, Many::new(alloc))),
            OpenItem::Headers(start, secure) => Ok(OpenItem::Hosting(start, secure)),
            OpenItem::LetType(bindings, name) => Ok(OpenItem::LetValue(bindings, name, None)),
            OpenItem::Value(nulls, entries, name) => {
                Ok(OpenItem::Key(nulls, put_entry(entries, name, None)?))
            }
            other => Ok(other),
        }
    }

    /// The place behind a number that is not negative.
    fn behind_number(self, alloc: Global, n: u128) -> Result<OpenItem<'a>, AllocError>
        ensures { IfOk result (λ p. place_of p ≡ machine.fill stubs (place_of self.entry) (machine.counted n)) }
    {
        match self {
            OpenItem::Numeral => Ok(OpenItem::Finished(natural_part(alloc, n)?)),
            OpenItem::Locating(start) => Ok(located(alloc, start, n)?),
            other => Ok(other),
        }
    }

    /// The place behind an index.
    fn behind_index(self, alloc: Global, n: u32) -> Result<OpenItem<'a>, AllocError>
        ensures { IfOk result (λ p. place_of p ≡ machine.fill stubs (place_of self.entry) (machine.indexed n)) }
    {
        match self {
            OpenItem::Indexing(name) => Ok(OpenItem::Finished(variable(alloc, name, n)?)),
            other => Ok(other),
        }
    }

    /// The place behind an integer.
    fn behind_integer(self, alloc: Global, z: i128) -> Result<OpenItem<'a>, AllocError>
        ensures { IfOk result (λ p. place_of p ≡ machine.fill stubs (place_of self.entry) (machine.signed z)) }
    {
        match self {
            OpenItem::SignedNumeral => Ok(OpenItem::Finished(integer_part(alloc, z)?)),
            other => Ok(other),
        }
    }

    /// The place behind the first number of an array.
    fn behind_code(self, alloc: Global, code: u64, items: u128) -> OpenItem<'a>
        ensures { place_of result ≡ machine.fill stubs (place_of self.entry) (machine.coded code items) }
    {
        match self {
            OpenItem::First => match row_at(alloc, code, items) {
                Some(place) => place,
                None => OpenItem::First,
            },
            other => other,
        }
    }

    /// The place behind an operator.
    fn behind_operator(self, alloc: Global, operator: BinOp) -> OpenItem<'a>
        ensures { place_of result ≡ machine.fill stubs (place_of self.entry) (machine.by operator) }
    {
        match self {
            OpenItem::Operating => OpenItem::Operands(Form::By(operator), Many::new(alloc)),
            other => other,
        }
    }

    /// The place behind the digest of an import.
    fn behind_digest(self, digest: Option<Box<Digest>>) -> OpenItem<'a>
        ensures { place_of result ≡ machine.fill stubs (place_of self.entry) (machine.hashed (digest_of digest)) }
    {
        match self {
            OpenItem::Importing => OpenItem::Moding(digest),
            other => other,
        }
    }

    /// The place behind the mode of an import.
    fn behind_mode(self, mode: Mode) -> OpenItem<'a>
        ensures { place_of result ≡ machine.fill stubs (place_of self.entry) (machine.taken mode) }
    {
        match self {
            OpenItem::Moding(digest) => OpenItem::Locating(Start { digest, mode }),
            other => other,
        }
    }

    /// The place behind the query of a URL.
    fn behind_query(self, alloc: Global, query: Option<&'a str>) -> Result<OpenItem<'a>, AllocError>
        ensures { IfOk result (λ p.
            place_of p ≡ machine.fill stubs (place_of self.entry) (machine.queried (option_map (λ x. x.now) query.entry))) }
    {
        match self {
            OpenItem::Segments(start, secure, host, comps) => {
                let part = url_part(alloc, start, secure, host, comps, query)?;
                Ok(OpenItem::Finished(part))
            }
            other => Ok(other),
        }
    }

    /// The place behind the path of an update.
    fn behind_path(self, labels: Labels) -> OpenItem<'a>
        ensures { place_of result ≡ machine.fill stubs (place_of self.entry) (machine.names labels) }
    {
        match self {
            OpenItem::UpdatePath(part) => OpenItem::UpdateValue(part, labels),
            other => other,
        }
    }

    /// The place behind a map.
    fn behind_entries(self, alloc: Global, entries: Entries<'a>) -> Result<OpenItem<'a>, AllocError>
        ensures { IfOk result (λ p.
            place_of p ≡ machine.fill stubs (place_of self.entry) (machine.entries (entries_of entries.entry.entries))) }
    {
        match self {
            OpenItem::Rowing(kind) => Ok(OpenItem::Finished(row_made(alloc, kind, entries)?)),
            other => Ok(other),
        }
    }

    /// The place behind a text.
    fn behind_text(self, alloc: Global, text: &'a str) -> Result<OpenItem<'a>, AllocError>
        ensures { IfOk result (λ p. place_of p ≡ machine.fill stubs (place_of self.entry) (machine.called text.now)) }
    {
        match self {
            OpenItem::First => Ok(OpenItem::Indexing(text)),
            OpenItem::Binder(form) => Ok(OpenItem::Quantify(form, text, None)),
            OpenItem::Selected(part) => Ok(OpenItem::Finished(field_of(alloc, part, text)?)),
            OpenItem::Labelled(part, names) => Ok(OpenItem::Labelled(part, put_name(names, text)?)),
            OpenItem::Projected(part) => {
                Ok(OpenItem::Labelled(part, put_name(Names::new(alloc), text)?))
            }
            OpenItem::Piece(mut pieces, parts) => {
                pieces.push(Piece::new(alloc, text)?)?;
                Ok(OpenItem::Between(pieces, parts))
            }
            OpenItem::Components(start, scheme, mut comps) => {
                comps.push(Piece::new(alloc, text)?)?;
                Ok(OpenItem::Components(start, scheme, comps))
            }
            OpenItem::Hosting(start, secure) => {
                Ok(OpenItem::Segments(start, secure, text, Many::new(alloc)))
            }
            OpenItem::Segments(start, secure, host, mut comps) => {
                comps.push(Piece::new(alloc, text)?)?;
                Ok(OpenItem::Segments(start, secure, host, comps))
            }
            OpenItem::Environment(start) => {
                Ok(OpenItem::Finished(environment_part(alloc, start, text)?))
            }
            OpenItem::LetName(bindings) => Ok(OpenItem::LetType(bindings, text)),
            OpenItem::Labels(mut labels) => {
                labels.push(Label::new(alloc, text)?)?;
                Ok(OpenItem::Labels(labels))
            }
            OpenItem::Key(nulls, entries) => Ok(OpenItem::Value(nulls, entries, text)),
            other => Ok(other),
        }
    }

    /// The place behind an expression.
    fn behind_part(self, alloc: Global, part: Part) -> Result<OpenItem<'a>, AllocError>
        ensures { IfOk result (λ p. place_of p ≡ machine.fill stubs (place_of self.entry) (machine.holds (part_of part))) }
    {
        match self {
            OpenItem::Applying(function) => applying(alloc, function, part),
            OpenItem::Operands(form, mut parts) => {
                parts.push(part)?;
                Ok(OpenItem::Operands(form, parts))
            }
            OpenItem::Quantify(form, name, domain) => quantifying(alloc, form, name, domain, part),
            OpenItem::Emptied => Ok(OpenItem::Finished(emptied(alloc, part)?)),
            OpenItem::Selecting => Ok(OpenItem::Selected(part)),
            OpenItem::Projecting => Ok(OpenItem::Projected(part)),
            OpenItem::Projected(record) => Ok(OpenItem::Finished(typed_fields_of(
                alloc, record, part,
            )?)),
            OpenItem::Between(pieces, mut parts) => {
                parts.push(part)?;
                Ok(OpenItem::Piece(pieces, parts))
            }
            OpenItem::LetName(bindings) => Ok(OpenItem::Finished(lets_made(
                alloc, bindings, part,
            )?)),
            OpenItem::LetType(bindings, name) => Ok(OpenItem::LetValue(bindings, name, Some(part))),
            OpenItem::LetValue(mut bindings, name, annotation) => {
                bindings.push(Binding {
                    name,
                    annotation,
                    value: part,
                })?;
                Ok(OpenItem::LetName(bindings))
            }
            OpenItem::Updating => Ok(OpenItem::UpdatePath(part)),
            OpenItem::UpdateValue(record, labels) => {
                Ok(OpenItem::Finished(updated(alloc, record, labels, part)?))
            }
            OpenItem::Boxing => Ok(OpenItem::Finished(part)),
            OpenItem::Value(nulls, entries, name) => {
                Ok(OpenItem::Key(nulls, put_entry(entries, name, Some(part))?))
            }
            other => Ok(other),
        }
    }

    /// The place behind an item.
    pub fn filled(self, alloc: Global, value: Value<'a>) -> Result<OpenItem<'a>, AllocError>
        ensures { IfOk result (λ p. place_of p ≡ machine.fill stubs (place_of self.entry) (value_of value.entry)) }
    {
        match value {
            Value::Nothing => self.behind_null(alloc),
            Value::Holds(part) => self.behind_part(alloc, part),
            Value::Called(text) => self.behind_text(alloc, text),
            Value::Counted(n) => self.behind_number(alloc, n),
            Value::Indexed(n) => self.behind_index(alloc, n),
            Value::Signed(z) => self.behind_integer(alloc, z),
            Value::Coded(code, items) => Ok(self.behind_code(alloc, code, items)),
            Value::By(operator) => Ok(self.behind_operator(alloc, operator)),
            Value::Hashed(digest) => Ok(self.behind_digest(digest)),
            Value::Taken(mode) => Ok(self.behind_mode(mode)),
            Value::Queried(query) => self.behind_query(alloc, query),
            Value::Path(labels) => Ok(self.behind_path(labels)),
            Value::Entries(entries) => self.behind_entries(alloc, entries),
        }
    }
}

//! JSON text, written straight from an expression: no value is made on the way.

ghost use Rattle.std.specs.Prelude.{◌≡◌, ◌<◌, Ok, IfErr, IfOk, IsTrue, length};
ghost use Rattle.serde_json.specs.Data.{Data};
ghost use Rattle.serde_json.specs.Written.{compact_text};
ghost use Rattle.dh_syntax.specs.Expressions.Arity.{AreWellFormed, IsWellFormed};
ghost use Rattle.dh_syntax.specs.Expressions.Bridge.{row_of, term};
ghost use Rattle.dh_syntax.specs.Expressions.Order.{ascending};
ghost use Rattle.dh_json.specs.Inside.{HasParts, IsWritten, case_shown};
ghost use Rattle.dh_json.specs.JsonFaults.{IsNoValue};
ghost use Rattle.dh_json.specs.JsonValue.{Elements, Fields, by_case, json, jsons, part_at};

use crate::faults::JsonFault;
use crate::forms::{Form, form_of};
use crate::paths::above;
use dh_syntax::{Expr, Kid, Label, Many, Piece};
use json::Writer;
use std::alloc::Global;

/// The JSON text of an expression, without white space, or the first place that has no value.
///
/// It goes as deep as the expression nests.
pub fn json_text(alloc: Global, e: &Expr) -> Result<Piece, JsonFault>
    requires { IsWellFormed (term e.now) }
    ensures text { IfOk result (λ t. (d : Data) × (json (term e.now) ≡ Ok d) × (t ≡ compact_text d)) }
    ensures no_value { IfErr result (IsNoValue (json (term e.now))) }
{
    let mut out = Writer::new(Vec::new(alloc));
    write(alloc, e, &mut out)?;
    let Ok(text) = String::from_utf8(out.into_inner()) else {
        unreachable!();
    };
    Ok(Piece::of(text))
}

/// Writes the value of an expression.
#[cycle(text)]
fn write(alloc: Global, e: &Expr, out: &mut Writer) -> Result<(), JsonFault>
    requires { IsWellFormed (term e.now) }
    ensures written { IsWritten (json (term e.now)) out.old.tokens out.new.tokens result }
    ensures before { out.new.before ≡ out.old.before }
{
    match e {
        Expr::Var(_, _) => Err(JsonFault::NoValue(Many::new(alloc))),
        Expr::Node(op, kids) => write_node(
            alloc,
            form_of(op, kids.as_slice()),
            kids.as_slice(),
            out,
        ),
    }
}

/// Writes the value of a node of this form.
#[cycle(text)]
fn write_node(
    alloc: Global,
    form: Form<'_>,
    kids: &[Kid],
    out: &mut Writer,
) -> Result<(), JsonFault>
    requires formed { AreWellFormed (row_of kids.now) }
    requires fits { HasParts (case_shown form) (row_of kids.now) }
    ensures written { IsWritten (by_case (case_shown form.entry) (jsons (row_of kids.now))) out.old.tokens out.new.tokens result }
    ensures before { out.new.before ≡ out.old.before }
{
    match form {
        Form::Null => Ok(out.null()?),
        Form::Truth(value) => Ok(out.boolean(value)?),
        Form::Unsigned(n) => Ok(out.u64(n)?),
        Form::Signed(z) => Ok(out.i64(z)?),
        Form::Text(text) => Ok(out.string(text)?),
        Form::NoElements => {
            out.begin_array()?;
            Ok(out.end_array()?)
        }
        Form::Elements => write_elements(alloc, kids, out),
        Form::Fields(labels) => write_fields(alloc, labels, kids, out),
        Form::Part(i) => write_part(alloc, i, kids, out),
        Form::NoValue => Err(JsonFault::NoValue(Many::new(alloc))),
    }
}

/// Writes the value of one part.
#[cycle(text)]
fn write_part(alloc: Global, i: usize, kids: &[Kid], out: &mut Writer) -> Result<(), JsonFault>
    requires formed { AreWellFormed (row_of kids.now) }
    requires within { i < length kids.now }
    ensures written { IsWritten (part_at i i (jsons (row_of kids.now))) out.old.tokens out.new.tokens result }
    ensures before { out.new.before ≡ out.old.before }
{
    match write(alloc, &kids[i].body, out) {
        Ok(()) => Ok(()),
        Err(fault) => Err(above(i, fault)),
    }
}

/// Writes the values of the parts, in an array.
#[cycle(text)]
fn write_elements(alloc: Global, kids: &[Kid], out: &mut Writer) -> Result<(), JsonFault>
    requires formed { AreWellFormed (row_of kids.now) }
    ensures written { IsWritten (by_case Elements (jsons (row_of kids.now))) out.old.tokens out.new.tokens result }
    ensures before { out.new.before ≡ out.old.before }
{
    out.begin_array()?;
    for i in 0..kids.len() {
        write_part(alloc, i, kids, out)?;
    }
    Ok(out.end_array()?)
}

/// Writes the values of the parts under their labels, in an object. The labels ascend, so the members have their order.
#[cycle(text)]
fn write_fields(
    alloc: Global,
    labels: &[Label],
    kids: &[Kid],
    out: &mut Writer,
) -> Result<(), JsonFault>
    requires formed { AreWellFormed (row_of kids.now) }
    requires fits { length labels.now ≡ length kids.now }
    requires ascend { IsTrue (ascending labels.now) }
    ensures written { IsWritten (by_case (Fields labels.now) (jsons (row_of kids.now))) out.old.tokens out.new.tokens result }
    ensures before { out.new.before ≡ out.old.before }
{
    out.begin_object()?;
    for i in 0..kids.len() {
        out.key(labels[i].as_str())?;
        write_part(alloc, i, kids, out)?;
    }
    Ok(out.end_object()?)
}

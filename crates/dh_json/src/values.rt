//! JSON values.

ghost use Rattle.std.specs.Prelude.{◌≡◌, ◌<◌, length};
ghost use Rattle.dh_syntax.specs.Expressions.Arity.{AreWellFormed, IsWellFormed};
ghost use Rattle.dh_syntax.specs.Expressions.Bridge.{row_of, term};
ghost use Rattle.dh_json.specs.Inside.{HasParts, case_shown};
ghost use Rattle.dh_json.specs.JsonFaults.{IsAnswer};
ghost use Rattle.dh_json.specs.JsonValue.{Elements, Fields, by_case, json, jsons, part_at};

use crate::faults::JsonFault;
use crate::forms::{Form, form_of};
use crate::paths::above;
use dh_syntax::{Expr, Kid, Label, Many};
use serde_json::{Map, Value, put};
use std::alloc::Global;

/// The JSON value of an expression (RFC 8259), or the first place that has none.
///
/// It goes as deep as the expression nests, and so does whatever drops or writes the value.
#[cycle(json)]
pub fn to_json(alloc: Global, e: &Expr) -> Result<Value, JsonFault>
    requires { IsWellFormed (term e.now) }
    ensures { IsAnswer (json (term e.now)) result }
{
    match e {
        Expr::Var(_, _) => Err(JsonFault::NoValue(Many::new(alloc))),
        Expr::Node(op, kids) => node(alloc, form_of(op, kids.as_slice()), kids.as_slice()),
    }
}

/// The value of a node of this form.
#[cycle(json)]
fn node(alloc: Global, form: Form<'_>, kids: &[Kid]) -> Result<Value, JsonFault>
    requires formed { AreWellFormed (row_of kids.now) }
    requires fits { HasParts (case_shown form) (row_of kids.now) }
    ensures { IsAnswer (by_case (case_shown form.entry) (jsons (row_of kids.now))) result }
{
    match form {
        Form::Null => Ok(Value::from(())),
        Form::Truth(value) => Ok(Value::from(value)),
        Form::Unsigned(n) => Ok(Value::from(n)),
        Form::Signed(z) => Ok(Value::from(z)),
        Form::Text(text) => Ok(Value::try_from_str(alloc, text)?),
        Form::NoElements => Ok(Value::from(Vec::new(alloc))),
        Form::Elements => elements(alloc, kids),
        Form::Fields(labels) => fields(alloc, labels, kids),
        Form::Part(i) => part(alloc, i, kids),
        Form::NoValue => Err(JsonFault::NoValue(Many::new(alloc))),
    }
}

/// The value of one part.
#[cycle(json)]
fn part(alloc: Global, i: usize, kids: &[Kid]) -> Result<Value, JsonFault>
    requires formed { AreWellFormed (row_of kids.now) }
    requires within { i < length kids.now }
    ensures { IsAnswer (part_at i i (jsons (row_of kids.now))) result }
{
    match to_json(alloc, &kids[i].body) {
        Ok(value) => Ok(value),
        Err(fault) => Err(above(i, fault)),
    }
}

/// The values of the parts, in an array.
#[cycle(json)]
fn elements(alloc: Global, kids: &[Kid]) -> Result<Value, JsonFault>
    requires formed { AreWellFormed (row_of kids.now) }
    ensures { IsAnswer (by_case Elements (jsons (row_of kids.now))) result }
{
    let mut values = Vec::new(alloc);
    for i in 0..kids.len() {
        let value = part(alloc, i, kids)?;
        values.push(value)?;
    }
    Ok(Value::from(values))
}

/// The values of the parts under their labels, in an object.
#[cycle(json)]
fn fields(alloc: Global, labels: &[Label], kids: &[Kid]) -> Result<Value, JsonFault>
    requires formed { AreWellFormed (row_of kids.now) }
    requires fits { length labels.now ≡ length kids.now }
    ensures { IsAnswer (by_case (Fields labels.now) (jsons (row_of kids.now))) result }
{
    let mut members = Map::new(alloc);
    for i in 0..kids.len() {
        let value = part(alloc, i, kids)?;
        put(&mut members, alloc, labels[i].as_str(), value)?;
    }
    Ok(Value::from(members))
}

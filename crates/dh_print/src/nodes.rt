//! The nodes of expressions, each part of them at the level at which it is needed.
ghost use Rattle.std.specs.Prelude.{◌≡◌, ◌+◌, ◌++◌, length, map, OnOk, IsTrue, string_bytes};
ghost use Rattle.dh_syntax.specs.Expressions.Arity.{IsWellFormed, AreWellFormed, fits, typed_count};
ghost use Rattle.dh_syntax.specs.Expressions.Bridge.{term, row_of};
ghost use Rattle.dh_syntax.specs.Text.Printed.{at, layout, layouts, list_text, node, text_of, texts, union_text};
ghost use Rattle.dh_print.specs.Inside.Parts.{fields_text, form_of, operation_text, parts_text, quoted_text, update_text};

use crate::binders::{binds_blank, write_binder};
use crate::imports::write_import;
use crate::labels::{write_label, write_labels, write_projection, write_selected, write_variable};
use crate::levels::{
    ANY, APPLICATION, IMPORT, OPERATOR, SELECTION, level, level_before_annotation,
};
use crate::words::{mark, truth};
use dh_literals::{push_escaped, push_integer, push_natural};
use dh_syntax::{Alt, BinOp, Expr, Kid, Label, Op, Piece};
use std::alloc::AllocError;

/// A text, and after it an expression, in brackets where its level is below the one that is needed.
#[cycle(write)]
pub fn write_part(text: &mut String, before: &str, needed: u32, e: &Expr) -> Result<(), AllocError>
    requires { IsWellFormed (term e.now) }
    ensures { OnOk result (string_bytes text.new
        ≡ string_bytes text.old ++ (before.now ++ at needed (layout (term e.now)))) }
{
    text.push_str(before)?;
    if level(e) < needed {
        text.push_str("(")?;
        write_whole(text, e)?;
        text.push_str(")")
    } else {
        write_whole(text, e)
    }
}

/// An expression without brackets.
#[cycle(write)]
fn write_whole(text: &mut String, e: &Expr) -> Result<(), AllocError>
    requires { IsWellFormed (term e.now) }
    ensures { OnOk result (string_bytes text.new ≡ string_bytes text.old ++ text_of (term e.now)) }
{
    match e {
        Expr::Var(name, index) => write_variable(text, name, *index),
        Expr::Node(op, kids) => write_node(text, op, kids.as_slice()),
    }
}

/// A node that has its parts.
#[cycle(write)]
fn write_node(text: &mut String, op: &Op, kids: &[Kid]) -> Result<(), AllocError>
    requires fits { IsTrue (fits op.now (row_of kids.now)) }
    requires parts { AreWellFormed (row_of kids.now) }
    ensures { OnOk result (string_bytes text.new
        ≡ string_bytes text.old ++ (node op.now (layouts (row_of kids.now))).text) }
{
    match op {
        Op::Builtin(builtin) => text.push_str(builtin.name()),
        Op::Bool(value) => text.push_str(truth(*value)),
        Op::Nat(n) => push_natural(text, *n),
        Op::Int(n) => push_integer(text, *n),
        Op::Text(pieces) => write_text(text, pieces.as_slice(), kids),
        Op::Import(import) => write_import(text, import.get()),
        Op::Lam => {
            write_binder(text, "λ(", kids)?;
            write_parts(text, &[(" : ", ANY), (") → ", ANY)], kids)
        }
        Op::Pi if binds_blank(kids) => write_parts(text, &[("", OPERATOR), (" → ", ANY)], kids),
        Op::Pi => {
            write_binder(text, "∀(", kids)?;
            write_parts(text, &[(" : ", ANY), (") → ", ANY)], kids)
        }
        Op::Let(false) => {
            write_binder(text, "let ", kids)?;
            write_parts(text, &[(" = ", ANY), (" in ", ANY)], kids)
        }
        Op::Let(true) => {
            write_binder(text, "let ", kids)?;
            write_parts(text, &[(" : ", ANY), (" = ", ANY), (" in ", ANY)], kids)
        }
        Op::App => write_parts(text, &[("", APPLICATION), (" ", IMPORT)], kids),
        Op::If => write_parts(
            text,
            &[("if ", ANY), (" then ", ANY), (" else ", ANY)],
            kids,
        ),
        Op::Bin(operator) => write_operation(text, *operator, kids),
        Op::EmptyList => write_parts(text, &[("[] : ", ANY)], kids),
        Op::List => write_list(text, kids),
        Op::Some => write_parts(text, &[("Some ", IMPORT)], kids),
        Op::Merge(false) => write_parts(text, &[("merge ", IMPORT), (" ", IMPORT)], kids),
        Op::Merge(true) => write_parts(
            text,
            &[("merge ", IMPORT), (" ", IMPORT), (" : ", ANY)],
            kids,
        ),
        Op::RecordType(labels) => write_fields(text, "{}", " : ", labels.as_slice(), kids),
        Op::Record(labels) => write_fields(text, "{=}", " = ", labels.as_slice(), kids),
        Op::Field(label) => {
            write_parts(text, &[("", SELECTION)], kids)?;
            write_selected(text, label)
        }
        Op::Project(labels) => {
            write_parts(text, &[("", SELECTION)], kids)?;
            write_projection(text, labels.as_slice())
        }
        Op::ProjectType => {
            write_parts(text, &[("", SELECTION), (".(", ANY)], kids)?;
            text.push_str(")")
        }
        Op::Union(alts) => write_union(text, alts.as_slice(), kids),
        Op::Assert => write_parts(text, &[("assert : ", ANY)], kids),
        Op::Annot => write_parts(
            text,
            &[("", level_before_annotation(kids)), (" : ", ANY)],
            kids,
        ),
        Op::ToMap(false) => write_parts(text, &[("toMap ", IMPORT)], kids),
        Op::ToMap(true) => write_parts(text, &[("toMap ", IMPORT), (" : ", ANY)], kids),
        Op::With(path) => write_update(text, path.as_slice(), kids),
    }
}

/// The parts of a node, each after its text and at its level.
#[cycle(write)]
fn write_parts(text: &mut String, forms: &[(&str, u32)], kids: &[Kid]) -> Result<(), AllocError>
    requires count { length forms.now ≡ length kids.now }
    requires parts { AreWellFormed (row_of kids.now) }
    ensures { OnOk result (string_bytes text.new
        ≡ string_bytes text.old ++ parts_text (map form_of forms.now) (row_of kids.now)) }
{
    for (i, kid) in kids.iter().enumerate() {
        let (before, needed) = forms[i];
        write_part(text, before, needed, &kid.body)?;
    }
    Ok(())
}

/// Two parts with an operator between them.
#[cycle(write)]
fn write_operation(text: &mut String, operator: BinOp, kids: &[Kid]) -> Result<(), AllocError>
    requires count { length kids.now ≡ 2 }
    requires parts { AreWellFormed (row_of kids.now) }
    ensures { OnOk result (string_bytes text.new
        ≡ string_bytes text.old ++ operation_text operator (row_of kids.now)) }
{
    let right = operator.level() + 1;
    write_parts(
        text,
        &[("", operator.left_level()), (mark(operator), right)],
        kids,
    )
}

/// The elements of a list in their brackets.
#[cycle(write)]
fn write_list(text: &mut String, kids: &[Kid]) -> Result<(), AllocError>
    requires { AreWellFormed (row_of kids.now) }
    ensures { OnOk result (string_bytes text.new
        ≡ string_bytes text.old ++ list_text (texts (layouts (row_of kids.now)))) }
{
    text.push_str("[ ")?;
    let mut before = "";
    for kid in kids {
        write_part(text, before, ANY, &kid.body)?;
        before = ", ";
    }
    text.push_str(" ]")
}

/// The labels of a record or of a record type, each with its part, in their braces.
#[cycle(write)]
fn write_fields(
    text: &mut String,
    empty: &str,
    mark: &str,
    labels: &[Label],
    kids: &[Kid],
) -> Result<(), AllocError>
    requires count { length labels.now ≡ length kids.now }
    requires parts { AreWellFormed (row_of kids.now) }
    ensures { OnOk result (string_bytes text.new
        ≡ string_bytes text.old ++ fields_text empty.now mark.now labels.now (texts (layouts (row_of kids.now)))) }
{
    if labels.is_empty() {
        return text.push_str(empty);
    }
    text.push_str("{ ")?;
    let mut before = "";
    for (i, kid) in kids.iter().enumerate() {
        text.push_str(before)?;
        write_label(text, &labels[i])?;
        write_part(text, mark, ANY, &kid.body)?;
        before = ", ";
    }
    text.push_str(" }")
}

/// The alternatives of a union, with their types where they have one.
#[cycle(write)]
fn write_union(text: &mut String, alts: &[Alt], kids: &[Kid]) -> Result<(), AllocError>
    requires count { typed_count alts.now ≡ length kids.now }
    requires parts { AreWellFormed (row_of kids.now) }
    ensures { OnOk result (string_bytes text.new
        ≡ string_bytes text.old ++ union_text alts.now (texts (layouts (row_of kids.now)))) }
{
    if alts.is_empty() {
        return text.push_str("<>");
    }
    text.push_str("< ")?;
    let mut before = "";
    let mut typed = 0;
    for alt in alts {
        text.push_str(before)?;
        write_label(text, &alt.label)?;
        if alt.typed {
            write_part(text, " : ", ANY, &kids[typed].body)?;
            typed += 1;
        }
        before = " | ";
    }
    text.push_str(" >")
}

/// The pieces of a text with the parts between them.
#[cycle(write)]
fn write_text(text: &mut String, pieces: &[Piece], kids: &[Kid]) -> Result<(), AllocError>
    requires count { length pieces.now ≡ length kids.now + 1 }
    requires parts { AreWellFormed (row_of kids.now) }
    ensures { OnOk result (string_bytes text.new
        ≡ string_bytes text.old ++ quoted_text pieces.now (texts (layouts (row_of kids.now)))) }
{
    text.push_str("\"")?;
    push_escaped(text, &pieces[0])?;
    for (i, kid) in kids.iter().enumerate() {
        write_part(text, "${", ANY, &kid.body)?;
        text.push_str("}")?;
        push_escaped(text, &pieces[i + 1])?;
    }
    text.push_str("\"")
}

/// An expression with a value put at a path.
#[cycle(write)]
fn write_update(text: &mut String, path: &[Label], kids: &[Kid]) -> Result<(), AllocError>
    requires count { length kids.now ≡ 2 }
    requires parts { AreWellFormed (row_of kids.now) }
    ensures { OnOk result (string_bytes text.new
        ≡ string_bytes text.old ++ update_text path.now (row_of kids.now)) }
{
    write_part(text, "", IMPORT, &kids[0].body)?;
    text.push_str(" with ")?;
    write_labels(text, ".", path)?;
    write_part(text, " = ", OPERATOR, &kids[1].body)
}

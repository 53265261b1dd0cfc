//! Labels with what stands behind them, in their order, and what they make.
ghost use Rattle.std.specs.Prelude.{◌≡◌, IfOk, IsTrue, None, false, option_map, map, not};
ghost use Rattle.std.specs.BTreeMap.{keys};
ghost use Rattle.std.specs.List.Sorted.{IsStrictlySortedBy};
ghost use Rattle.dh_syntax.specs.Bytes.BinaryLeaves.{inserted};
ghost use Rattle.dh_binary.specs.Machine as machine;
ghost use Rattle.dh_binary.specs.Machine.{is_some};
ghost use Rattle.dh_binary.specs.Stubs.{stubs};
ghost use Rattle.dh_decode.specs.Inside.Entries.{order, with_name, with_entry, has_label, labels_of, alternatives_of};
ghost use Rattle.dh_decode.specs.Inside.Views.{part_of, kind_of, names_of, entries_of};

use crate::nodes::all;
use crate::parts::Part;
use crate::places::{Entries, Names, RowKind};
use dh_syntax::{Alt, Alts, Label, Labels, Many, Op};
use std::alloc::{AllocError, Global};
use std::collections::BTreeMap;

/// Whether a label comes behind all labels of a map: most come in their order.
fn comes_last<V>(labels: &BTreeMap<&str, V>, name: &str) -> bool
    ensures { IsTrue result → has_label labels.now.entries name.now ≡ false }
{
    match labels.last_key_value() {
        Some((last, _)) => *last < name,
        None => false,
    }
}

/// Whether a map has a label.
fn contains<V>(labels: &BTreeMap<&str, V>, name: &str) -> bool
    ensures { result ≡ has_label labels.now.entries name.now }
{
    if comes_last(labels, name) {
        return false;
    }
    labels.contains_key(name)
}

/// Whether labels have one.
pub fn has_name(names: &Names<'_>, name: &str) -> bool
    ensures fresh { is_some (inserted (λ y. y) name.now (names_of names.now.entries)) ≡ not result }
    ensures same { result ≡ has_label names.now.entries name.now }
{
    // The clause of `len` says that the labels ascend.
    let _count = names.len();
    contains(names, name)
}

/// Whether entries have a label.
pub fn has_entry(entries: &Entries<'_>, name: &str) -> bool
    ensures fresh { is_some (inserted (λ e. e.name) (record { name = name.now; value = None }) (entries_of entries.now.entries)) ≡ not result }
    ensures same { result ≡ has_label entries.now.entries name.now }
    ensures ordered { IsStrictlySortedBy order (keys entries.now) }
{
    // The clause of `len` says that the labels ascend.
    let _count = entries.len();
    contains(entries, name)
}

/// The labels with one more, if they have not got it.
pub fn put_name<'a>(mut names: Names<'a>, name: &'a str) -> Result<Names<'a>, AllocError>
    ensures { IfOk result (λ m. names_of m.entries ≡ with_name name.now (names_of names.entry.entries)) }
{
    if has_name(&names, name) {
        return Ok(names);
    }
    match names.insert(name, ()) {
        Ok(_) => Ok(names),
        Err(_) => Err(AllocError),
    }
}

/// The entries with one more, if they have not got its label.
pub fn put_entry<'a>(
    mut entries: Entries<'a>,
    name: &'a str,
    value: Option<Part>,
) -> Result<Entries<'a>, AllocError>
    ensures { IfOk result (λ m.
        entries_of m.entries ≡ with_entry name.now (option_map part_of value) (entries_of entries.entry.entries)) }
{
    if has_entry(&entries, name) {
        return Ok(entries);
    }
    match entries.insert(name, value) {
        Ok(_) => Ok(entries),
        Err(_) => Err(AllocError),
    }
}

/// The labels of entries and their values.
fn fields(alloc: Global, entries: Entries<'_>) -> Result<(Labels, Many<Part>), AllocError>
    ensures { IfOk result (λ r.
        (r.0 ≡ labels_of (entries_of entries.entry.entries)) × (map part_of r.1 ≡ machine.held_values stubs (entries_of entries.entry.entries))) }
{
    let mut labels = Many::new(alloc);
    let mut parts = Many::new(alloc);
    let mut rest = entries.into_iter();
    while let Some((name, value)) = rest.next() {
        labels.push(Label::new(alloc, name)?)?;
        if let Some(part) = value {
            parts.push(part)?;
        }
    }
    Ok((labels, parts))
}

/// The alternatives of entries and their types.
fn alternatives(alloc: Global, entries: Entries<'_>) -> Result<(Alts, Many<Part>), AllocError>
    ensures { IfOk result (λ r.
        (r.0 ≡ alternatives_of (entries_of entries.entry.entries)) × (map part_of r.1 ≡ machine.held_values stubs (entries_of entries.entry.entries))) }
{
    let mut alternatives = Many::new(alloc);
    let mut parts = Many::new(alloc);
    let mut rest = entries.into_iter();
    while let Some((name, value)) = rest.next() {
        let label = Label::new(alloc, name)?;
        alternatives.push(Alt {
            label,
            typed: value.is_some(),
        })?;
        if let Some(part) = value {
            parts.push(part)?;
        }
    }
    Ok((alternatives, parts))
}

/// What the entries of a map make.
#[inline(never)]
pub fn row_made(alloc: Global, kind: RowKind, entries: Entries<'_>) -> Result<Part, AllocError>
    ensures { IfOk result (λ p. part_of p ≡ machine.row_made stubs (kind_of kind) (entries_of entries.entry.entries)) }
{
    match kind {
        RowKind::Types => {
            let (labels, parts) = fields(alloc, entries)?;
            all(alloc, Op::RecordType(labels), parts)
        }
        RowKind::Values => {
            let (labels, parts) = fields(alloc, entries)?;
            all(alloc, Op::Record(labels), parts)
        }
        RowKind::Alternatives => {
            let (alternatives, parts) = alternatives(alloc, entries)?;
            all(alloc, Op::Union(alternatives), parts)
        }
    }
}

/// Labels in their order.
#[inline(never)]
pub fn labels_in(alloc: Global, names: Names<'_>) -> Result<Labels, AllocError>
    ensures { IfOk result (λ r. r ≡ names_of names.entry.entries) }
{
    let mut labels = Many::new(alloc);
    let mut rest = names.into_iter();
    while let Some((name, _)) = rest.next() {
        labels.push(Label::new(alloc, name)?)?;
    }
    Ok(labels)
}

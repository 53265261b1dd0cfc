//! The fields of record types and the entries of records.
ghost use Rattle.std.specs.Prelude.{◌≡◌, false, IfOk, option_map, map, [], ◌∷◌};
ghost use Rattle.dh_grammar.specs.Stubs.{stubs, unbound, joined, record_part};
ghost use Rattle.dh_grammar.specs.Making.{so_far};
ghost use Rattle.dh_operands.specs.Inside.Nodes.{gathered_of, nothing, and_parts};
ghost use Rattle.dh_making.specs.Views.{with_old};
ghost use Rattle.dh_operands.specs.Operands.{part_of, operand_of};
ghost use Rattle.dh_operands.specs.Rows.{rows_of, fields_of, entry_of, entries_of};
ghost use Rattle.dh_making.specs.Words.{key_of, keys_of, keys_on};
ghost use Rattle.dh_syntax.specs.Text.Derivation.{key_label};
ghost use Rattle.dh_syntax.specs.Text.Derived.{among};
ghost use Rattle.dh_syntax.specs.Text.Meaning.{names, values};

use crate::gathering::{Gathering, kept};
use crate::nodes::{one, two};
use crate::operands::Operand;
use crate::parts::Part;
use dh_making::{ByLabel, EntryKey, Keys};
use dh_syntax::{BinOp, Expr, Label, Labels, Many, Op};
use std::alloc::{AllocError, Global};

/// The fields of a record type, in the order of their labels.
#[derive(Drop)]
pub struct Fields {
    rows: ByLabel<Part>,
}

/// An entry of a record: the label of its first key, and what stands under it.
#[derive(Drop)]
pub struct Entry {
    pub label: Label,
    pub value: Part,
}

/// The entries of a record, in the order of their labels.
#[derive(Drop)]
pub struct Entries {
    rows: ByLabel<Part>,
}

impl Fields {
    /// One field more beside those that there are. A label that is there already stays as it is.
    pub fn add(
        alloc: Global,
        so_far: Option<Fields>,
        key: EntryKey,
        annotation: Operand,
    ) -> Result<Fields, AllocError>
        ensures { IfOk result (λ fs.
            fields_of fs ≡ stubs.add_field (option_map fields_of so_far) (key_of key) (operand_of annotation)) }
    {
        let mut rows = fields_so_far(alloc, so_far);
        rows.insert(key.into_label(alloc)?, annotation.part)?;
        Ok(Fields { rows })
    }

    /// Whether the key's label is there.
    pub fn contains(&self, alloc: Global, key: &EntryKey) -> Result<bool, AllocError>
        ensures { IfOk result (λ b. b ≡ among (key_label (key_of key.now)) (stubs.field_labels (fields_of self.now))) }
    {
        self.rows.contains_key(alloc, key)
    }

    /// The record type.
    pub fn record_type(self, alloc: Global) -> Result<Operand, AllocError>
        ensures { IfOk result (λ x. operand_of x ≡ stubs.record_type false (fields_of self) false) }
    {
        let (labels, parts) = labels_and_parts(alloc, self.rows)?;
        Ok(Operand {
            part: parts.finish(alloc, Op::RecordType(labels)),
            level: 17,
        })
    }
}

impl Entry {
    /// `key`, whose value is the variable of that name.
    pub fn alone(alloc: Global, key: EntryKey) -> Result<Entry, AllocError>
        ensures { IfOk result (λ e. entry_of e ≡ stubs.alone (key_of key)) }
    {
        let label = key.into_label(alloc)?;
        let variable = Expr::Var(label.copied(alloc)?, 0);
        let value = kept(alloc, variable, 0);
        Ok(Entry { label, value })
    }

    /// `keys = value`, where `a.b.c = v` is `a = { b = { c = v } }`.
    pub fn given(alloc: Global, keys: Keys, value: Operand) -> Result<Entry, AllocError>
        ensures { IfOk result (λ e. entry_of e ≡ stubs.given (keys_of keys) (operand_of value)) }
    {
        let (first, mut more) = keys.into_parts();
        let label = first.into_label(alloc)?;
        let mut part = value.part;
        while let Some(key) = more.pop() {
            part = record_of_one(alloc, key, part)?;
        }
        Ok(Entry { label, value: part })
    }
}

impl Entries {
    /// One entry more beside those that there are. Two entries of one label become one by `∧`.
    pub fn add(alloc: Global, so_far: Option<Entries>, entry: Entry) -> Result<Entries, AllocError>
        ensures { IfOk result (λ es. entries_of es ≡ stubs.add_entry (option_map entries_of so_far) (entry_of entry)) }
    {
        let mut rows = entries_so_far(alloc, so_far);
        let Entry { label, value } = entry;
        let old = rows.remove(&label);
        let value = with_old(alloc, value, old)?;
        rows.insert(label, value)?;
        Ok(Entries { rows })
    }

    /// The record.
    pub fn record(self, alloc: Global) -> Result<Operand, AllocError>
        ensures { IfOk result (λ x. operand_of x ≡ stubs.record_of false (entries_of self) false) }
    {
        let (labels, parts) = labels_and_parts(alloc, self.rows)?;
        Ok(Operand {
            part: parts.finish(alloc, Op::Record(labels)),
            level: 17,
        })
    }
}

/// The part, or `old ∧ part` where an old one stands under its label.
fn with_old(alloc: Global, part: Part, old: Option<Part>) -> Result<Part, AllocError>
    ensures { IfOk result (λ p. part_of p ≡ with_old joined (option_map part_of old) (part_of part)) }
{
    match old {
        Some(old) => two(alloc, Op::Bin(BinOp::Combine), old, None, part),
        None => Ok(part),
    }
}

/// The fields that there are.
fn fields_so_far(alloc: Global, fields: Option<Fields>) -> ByLabel<Part>
    ensures { rows_of result ≡ so_far (option_map fields_of fields) }
{
    match fields {
        Some(fields) => fields.rows,
        None => ByLabel::new(alloc),
    }
}

/// The entries that there are.
fn entries_so_far(alloc: Global, entries: Option<Entries>) -> ByLabel<Part>
    ensures { rows_of result ≡ so_far (option_map entries_of entries) }
{
    match entries {
        Some(entries) => entries.rows,
        None => ByLabel::new(alloc),
    }
}

/// `{ key = part }`
fn record_of_one(alloc: Global, key: EntryKey, part: Part) -> Result<Part, AllocError>
    ensures { IfOk result (λ p. part_of p ≡ record_part ((key_label (key_of key), part_of part) ∷ [])) }
{
    let mut labels = Many::new(alloc);
    labels.push(key.into_label(alloc)?)?;
    one(alloc, Op::Record(labels), part)
}

/// The labels and the parts, in the order of the labels.
fn labels_and_parts(alloc: Global, rows: ByLabel<Part>) -> Result<(Labels, Gathering), AllocError>
    ensures labels { IfOk result (λ p. p.0 ≡ names (rows_of rows)) }
    ensures parts { IfOk result (λ p. gathered_of p.1 ≡ and_parts nothing (unbound (values (rows_of rows)))) }
{
    let mut labels = Many::new(alloc);
    let mut parts = Gathering::new(alloc);
    for (label, part) in rows.into_vec(alloc)? {
        labels.push(label)?;
        parts.push(None, part)?;
    }
    Ok((labels, parts))
}

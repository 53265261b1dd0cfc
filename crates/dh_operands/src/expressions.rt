//! The builder of expressions.

use crate::alternatives::Alternatives;
use crate::bindings::Lets;
use crate::chunks::Chunks;
use crate::items::Items;
use crate::operands::Operand;
use crate::parts::Part;
use crate::rows::{Entries, Entry, Fields};
use dh_making::{EntryKey, Keys, Makes, Projection, Source, Word};
use dh_syntax::{BinOp, Builtin, Digest, Mode, Piece, TextForm};
use std::alloc::{AllocError, Global};

/// A reader of tokens that builds expressions, whatever the numbers of their tokens are.
#[derive(Clone, Copy, Debug, PartialEq, Eq)]
pub struct Expressions;

impl Makes for Expressions {
    ghost use Rattle.std.specs.Prelude.{◌≡◌, List, IfOk, map, option_map};
    ghost use Rattle.dh_grammar.specs.Stubs.{stub_sorts, stubs};
    ghost use Rattle.dh_making.specs.Views.{Views};
    ghost use Rattle.dh_making.specs.Words.{word_of, key_of};
    ghost use Rattle.dh_operands.specs.Operands.{operand_of, note_of, lets_of, chunks_of, items_of};
    ghost use Rattle.dh_operands.specs.Rows.{alternatives_of, fields_of, entry_of, entries_of};

    type Tree = Operand;

    type Note = Option<Part>;

    type Lets = Lets;

    type Chunks = Chunks;

    type Items = Items;

    type Alternatives = Alternatives;

    type Fields = Fields;

    type Entry = Entry;

    type Entries = Entries;

    ghost sorts = { stub_sorts };

    ghost views = { record {
      tree = operand_of;
      note = note_of;
      lets = lets_of;
      chunks = chunks_of;
      items = items_of;
      alternatives = alternatives_of;
      fields = fields_of;
      entry = entry_of;
      entries = entries_of;
    } };

    ghost makes = { λ n. stubs };

    fn binds(_at: u32, tree: &Operand) -> u32 {
        tree.level
    }

    fn has_field(
        alloc: Global,
        _at: u32,
        fields: &Fields,
        key: &EntryKey,
    ) -> Result<bool, AllocError> {
        fields.contains(alloc, key)
    }

    fn has_alternative(
        alloc: Global,
        _at: u32,
        alternatives: &Alternatives,
        key: &EntryKey,
    ) -> Result<bool, AllocError> {
        alternatives.contains(alloc, key)
    }

    fn untyped(_at: u32) -> Option<Part> {
        None
    }

    fn natural(alloc: Global, _at: u32, number: u128) -> Result<Operand, AllocError> {
        Ok(Operand::natural(alloc, number))
    }

    fn integer(alloc: Global, _at: u32, number: i128) -> Result<Operand, AllocError> {
        Ok(Operand::integer(alloc, number))
    }

    fn truth(alloc: Global, _at: u32, value: bool) -> Result<Operand, AllocError> {
        Ok(Operand::truth(alloc, value))
    }

    fn builtin(alloc: Global, _at: u32, builtin: Builtin) -> Result<Operand, AllocError> {
        Ok(Operand::builtin(alloc, builtin))
    }

    fn variable(
        alloc: Global,
        _at: u32,
        word: Word,
        index: Option<u32>,
    ) -> Result<Operand, AllocError> {
        match index {
            Some(index) => Ok(Operand::indexed(alloc, word, index)),
            None => Ok(Operand::variable(alloc, word)),
        }
    }

    fn import(
        alloc: Global,
        _at: u32,
        source: Source,
        digest: Option<Digest>,
        mode: Mode,
    ) -> Result<Operand, AllocError> {
        Operand::import(alloc, source, digest, mode)
    }

    fn operation(
        alloc: Global,
        _at: u32,
        operator: BinOp,
        left: Operand,
        right: Operand,
    ) -> Result<Operand, AllocError> {
        Operand::operation(alloc, operator, left, right)
    }

    fn application(
        alloc: Global,
        _at: u32,
        function: Operand,
        argument: Operand,
    ) -> Result<Operand, AllocError> {
        Operand::application(alloc, function, argument)
    }

    fn merging(
        alloc: Global,
        _at: u32,
        handlers: Operand,
        union: Operand,
    ) -> Result<Operand, AllocError> {
        Operand::merging(alloc, handlers, union)
    }

    fn some_of(alloc: Global, _at: u32, value: Operand) -> Result<Operand, AllocError> {
        Operand::some_of(alloc, value)
    }

    fn to_map(alloc: Global, _at: u32, value: Operand) -> Result<Operand, AllocError> {
        Operand::to_map(alloc, value)
    }

    fn updating(
        alloc: Global,
        _at: u32,
        whole: Operand,
        keys: Keys,
        value: Operand,
    ) -> Result<Operand, AllocError> {
        Operand::updating(alloc, whole, keys, value)
    }

    fn quantify(
        alloc: Global,
        _at: u32,
        is_lambda: bool,
        word: Word,
        domain: Operand,
        body: Operand,
    ) -> Result<Operand, AllocError> {
        Operand::quantified(alloc, is_lambda, word, domain, body)
    }

    fn arrow(
        alloc: Global,
        _at: u32,
        domain: Operand,
        codomain: Operand,
    ) -> Result<Operand, AllocError> {
        Operand::arrow(alloc, domain, codomain)
    }

    fn choice(
        alloc: Global,
        _at: u32,
        condition: Operand,
        yes: Operand,
        no: Operand,
    ) -> Result<Operand, AllocError> {
        Operand::choice(alloc, condition, yes, no)
    }

    fn around(alloc: Global, _at: u32, lets: Lets, body: Operand) -> Result<Operand, AllocError> {
        lets.around(alloc, body)
    }

    fn noting(
        alloc: Global,
        _at: u32,
        value: Operand,
        annotation: Operand,
    ) -> Result<Operand, AllocError> {
        Operand::noting(alloc, value, annotation)
    }

    fn empty_list(
        alloc: Global,
        _at: u32,
        _comma: bool,
        annotation: Operand,
    ) -> Result<Operand, AllocError> {
        Operand::empty_list(alloc, annotation)
    }

    fn assertion(alloc: Global, _at: u32, annotation: Operand) -> Result<Operand, AllocError> {
        Operand::assertion(alloc, annotation)
    }

    fn brackets(_alloc: Global, _at: u32, inner: Operand) -> Result<Operand, AllocError> {
        Ok(inner.bracketed())
    }

    fn field(
        alloc: Global,
        _at: u32,
        whole: Operand,
        key: EntryKey,
    ) -> Result<Operand, AllocError> {
        Operand::field(alloc, whole, key)
    }

    fn project_none(
        alloc: Global,
        _at: u32,
        whole: Operand,
        _comma: bool,
    ) -> Result<Operand, AllocError> {
        Operand::project_none(alloc, whole)
    }

    fn project(
        alloc: Global,
        _at: u32,
        whole: Operand,
        _before: bool,
        keys: Projection,
        _behind: bool,
    ) -> Result<Operand, AllocError> {
        Operand::project(alloc, whole, keys)
    }

    fn project_by(
        alloc: Global,
        _at: u32,
        whole: Operand,
        fields: Operand,
    ) -> Result<Operand, AllocError> {
        Operand::project_by(alloc, whole, fields)
    }

    fn text(
        alloc: Global,
        _at: u32,
        form: TextForm,
        chunks: Chunks,
    ) -> Result<Operand, AllocError> {
        chunks.text(alloc, form)
    }

    fn list(
        alloc: Global,
        _at: u32,
        _before: bool,
        items: Items,
        _behind: bool,
    ) -> Result<Operand, AllocError> {
        items.list(alloc)
    }

    fn union_none(alloc: Global, _at: u32, _bar: bool) -> Result<Operand, AllocError> {
        Ok(Operand::empty_union(alloc))
    }

    fn union(
        alloc: Global,
        _at: u32,
        _before: bool,
        alternatives: Alternatives,
        _behind: bool,
    ) -> Result<Operand, AllocError> {
        alternatives.union(alloc)
    }

    fn record_type_none(alloc: Global, _at: u32, _comma: bool) -> Result<Operand, AllocError> {
        Ok(Operand::empty_record_type(alloc))
    }

    fn record_type(
        alloc: Global,
        _at: u32,
        _before: bool,
        fields: Fields,
        _behind: bool,
    ) -> Result<Operand, AllocError> {
        fields.record_type(alloc)
    }

    fn record_none(
        alloc: Global,
        _at: u32,
        _before: bool,
        _behind: bool,
    ) -> Result<Operand, AllocError> {
        Ok(Operand::empty_record(alloc))
    }

    fn record_of(
        alloc: Global,
        _at: u32,
        _before: bool,
        entries: Entries,
        _behind: bool,
    ) -> Result<Operand, AllocError> {
        entries.record(alloc)
    }

    fn typed(_alloc: Global, _at: u32, annotation: Operand) -> Result<Option<Part>, AllocError> {
        Ok(annotation.into_note())
    }

    fn add_let(
        alloc: Global,
        _at: u32,
        so_far: Option<Lets>,
        word: Word,
        note: Option<Part>,
        value: Operand,
    ) -> Result<Lets, AllocError>
        ensures { IfOk result (λ made. lets_of made ≡ stubs.add_let (option_map lets_of so_far) (word_of word) (note_of note) (operand_of value)) }
    {
        Lets::add(alloc, so_far, word, note, value)
    }

    fn start(alloc: Global, _at: u32, piece: Option<Piece>) -> Result<Chunks, AllocError> {
        Chunks::start(alloc, piece)
    }

    fn more_chunks(
        alloc: Global,
        _at: u32,
        chunks: Chunks,
        interpolation: Operand,
        piece: Option<Piece>,
    ) -> Result<Chunks, AllocError> {
        chunks.more(alloc, interpolation, piece)
    }

    fn add_item(
        alloc: Global,
        _at: u32,
        so_far: Option<Items>,
        item: Operand,
    ) -> Result<Items, AllocError>
        ensures { IfOk result (λ made. items_of made ≡ stubs.add_item (option_map items_of so_far) (operand_of item)) }
    {
        Items::add(alloc, so_far, item)
    }

    fn add_alternative(
        alloc: Global,
        _at: u32,
        so_far: Option<Alternatives>,
        key: EntryKey,
        note: Option<Part>,
    ) -> Result<Alternatives, AllocError>
        ensures { IfOk result (λ made. alternatives_of made ≡ stubs.add_alternative (option_map alternatives_of so_far) (key_of key) (note_of note)) }
    {
        Alternatives::add(alloc, so_far, key, note)
    }

    fn add_field(
        alloc: Global,
        _at: u32,
        so_far: Option<Fields>,
        key: EntryKey,
        field_type: Operand,
    ) -> Result<Fields, AllocError>
        ensures { IfOk result (λ made. fields_of made ≡ stubs.add_field (option_map fields_of so_far) (key_of key) (operand_of field_type)) }
    {
        Fields::add(alloc, so_far, key, field_type)
    }

    fn alone(alloc: Global, _at: u32, key: EntryKey) -> Result<Entry, AllocError> {
        Entry::alone(alloc, key)
    }

    fn given(alloc: Global, _at: u32, keys: Keys, value: Operand) -> Result<Entry, AllocError> {
        Entry::given(alloc, keys, value)
    }

    fn add_entry(
        alloc: Global,
        _at: u32,
        so_far: Option<Entries>,
        entry: Entry,
    ) -> Result<Entries, AllocError>
        ensures { IfOk result (λ made. entries_of made ≡ stubs.add_entry (option_map entries_of so_far) (entry_of entry)) }
    {
        Entries::add(alloc, so_far, entry)
    }
}

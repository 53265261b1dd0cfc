//! The builder that notes places.
ghost use Rattle.std.specs.Prelude.{◌≡◌, IfOk, option_map};
ghost use Rattle.dh_grammar.specs.Placing.{placing};
ghost use Rattle.dh_making.specs.Words.{word_of, key_of};
ghost use Rattle.dh_places.specs.Parts.{placed_of, note_of, lets_of, row_of, rows_of, entry_of, entries_of};

use crate::annotations::{before_note, note_nodes, noted};
use crate::bindings::{add_let, around, pending};
use crate::entries::{add_entry, alone, given, record};
use crate::leaves::{import_at, variable};
use crate::nodes::{
    after, back, fenced, if_there, leaf, node, one_behind, selection, special_node, two,
};
use crate::notes::Notes;
use crate::parts::{Entries, Entry, Lets, Placed, Row, Rows};
use crate::rows::{add_row, fenced_rows, has_row};
use dh_making::{EntryKey, Keys, Makes, Projection, Source, Word};
use dh_syntax::{BinOp, Builtin, Digest, Mode, Piece, TextForm};
use std::alloc::{AllocError, Global};
use std::marker::PhantomData;

/// The builder that notes, of each part, its tokens and what `N` notes of its nodes.
#[derive(Drop)]
pub struct Places<N> {
    of: PhantomData<N>,
}

impl<N: Notes> Makes for Places<N> {
    ghost use Rattle.dh_grammar.specs.Placing.{place_sorts};

    type Tree = Placed<N::Row>;

    type Note = Option<Row<N::Row>>;

    type Lets = Lets<N::Row>;

    type Chunks = Row<N::Row>;

    type Items = Row<N::Row>;

    type Alternatives = Rows<N::Row>;

    type Fields = Rows<N::Row>;

    type Entry = Entry<N::Row>;

    type Entries = Entries<N::Row>;

    ghost sorts = { place_sorts N.noting };

    ghost views = { record { tree = placed_of N.noting N.view; note = note_of N.noting N.view; lets = lets_of N.noting N.view; chunks = row_of N.noting N.view; items = row_of N.noting N.view; alternatives = rows_of N.noting N.view; fields = rows_of N.noting N.view; entry = entry_of N.noting N.view; entries = entries_of N.noting N.view } };

    ghost makes = { placing N.noting };

    fn binds(_at: u32, tree: &Placed<N::Row>) -> u32 {
        tree.level
    }

    fn has_field(
        alloc: Global,
        _at: u32,
        fields: &Rows<N::Row>,
        key: &EntryKey,
    ) -> Result<bool, AllocError> {
        has_row::<N>(alloc, fields, key)
    }

    fn has_alternative(
        alloc: Global,
        _at: u32,
        alternatives: &Rows<N::Row>,
        key: &EntryKey,
    ) -> Result<bool, AllocError> {
        has_row::<N>(alloc, alternatives, key)
    }

    fn untyped(_at: u32) -> Option<Row<N::Row>> {
        None
    }

    fn natural(alloc: Global, at: u32, _number: u128) -> Result<Placed<N::Row>, AllocError> {
        leaf::<N>(alloc, at, at)
    }

    fn integer(alloc: Global, at: u32, _number: i128) -> Result<Placed<N::Row>, AllocError> {
        leaf::<N>(alloc, at, at)
    }

    fn truth(alloc: Global, at: u32, _value: bool) -> Result<Placed<N::Row>, AllocError> {
        leaf::<N>(alloc, at, at)
    }

    fn builtin(alloc: Global, at: u32, _builtin: Builtin) -> Result<Placed<N::Row>, AllocError> {
        leaf::<N>(alloc, at, at)
    }

    fn variable(
        alloc: Global,
        at: u32,
        _word: Word,
        index: Option<u32>,
    ) -> Result<Placed<N::Row>, AllocError> {
        variable::<N>(alloc, at, index)
    }

    fn import(
        alloc: Global,
        at: u32,
        _source: Source,
        digest: Option<Digest>,
        mode: Mode,
    ) -> Result<Placed<N::Row>, AllocError> {
        import_at::<N>(alloc, at, digest, mode)
    }

    fn operation(
        alloc: Global,
        _at: u32,
        operator: BinOp,
        left: Placed<N::Row>,
        right: Placed<N::Row>,
    ) -> Result<Placed<N::Row>, AllocError> {
        two::<N>(alloc, operator.level(), left, right)
    }

    fn application(
        alloc: Global,
        _at: u32,
        function: Placed<N::Row>,
        argument: Placed<N::Row>,
    ) -> Result<Placed<N::Row>, AllocError> {
        two::<N>(alloc, 14, function, argument)
    }

    fn merging(
        alloc: Global,
        _at: u32,
        handlers: Placed<N::Row>,
        union: Placed<N::Row>,
    ) -> Result<Placed<N::Row>, AllocError> {
        let parts = N::joined(handlers.nodes, union.nodes)?;
        special_node::<N>(alloc, back(1, handlers.first), union.last, parts)
    }

    fn some_of(
        alloc: Global,
        _at: u32,
        value: Placed<N::Row>,
    ) -> Result<Placed<N::Row>, AllocError> {
        one_behind::<N>(alloc, 14, 1, value)
    }

    fn to_map(
        alloc: Global,
        _at: u32,
        value: Placed<N::Row>,
    ) -> Result<Placed<N::Row>, AllocError> {
        special_node::<N>(alloc, back(1, value.first), value.last, value.nodes)
    }

    fn updating(
        alloc: Global,
        _at: u32,
        whole: Placed<N::Row>,
        _keys: Keys,
        value: Placed<N::Row>,
    ) -> Result<Placed<N::Row>, AllocError> {
        two::<N>(alloc, 0, whole, value)
    }

    fn quantify(
        alloc: Global,
        _at: u32,
        _is_lambda: bool,
        _word: Word,
        domain: Placed<N::Row>,
        body: Placed<N::Row>,
    ) -> Result<Placed<N::Row>, AllocError> {
        let parts = N::joined(domain.nodes, body.nodes)?;
        node::<N>(alloc, 0, back(4, domain.first), body.last, parts)
    }

    fn arrow(
        alloc: Global,
        _at: u32,
        domain: Placed<N::Row>,
        codomain: Placed<N::Row>,
    ) -> Result<Placed<N::Row>, AllocError> {
        two::<N>(alloc, 0, domain, codomain)
    }

    fn choice(
        alloc: Global,
        _at: u32,
        condition: Placed<N::Row>,
        yes: Placed<N::Row>,
        no: Placed<N::Row>,
    ) -> Result<Placed<N::Row>, AllocError> {
        let parts = N::joined(N::joined(condition.nodes, yes.nodes)?, no.nodes)?;
        node::<N>(alloc, 0, back(1, condition.first), no.last, parts)
    }

    fn around(
        alloc: Global,
        _at: u32,
        lets: Lets<N::Row>,
        body: Placed<N::Row>,
    ) -> Result<Placed<N::Row>, AllocError> {
        around::<N>(alloc, lets, body)
    }

    fn noting(
        alloc: Global,
        _at: u32,
        value: Placed<N::Row>,
        annotation: Placed<N::Row>,
    ) -> Result<Placed<N::Row>, AllocError> {
        noted::<N>(alloc, value, annotation)
    }

    fn empty_list(
        alloc: Global,
        _at: u32,
        comma: bool,
        annotation: Placed<N::Row>,
    ) -> Result<Placed<N::Row>, AllocError> {
        one_behind::<N>(alloc, 0, 3 + if_there(comma), annotation)
    }

    fn assertion(
        alloc: Global,
        _at: u32,
        annotation: Placed<N::Row>,
    ) -> Result<Placed<N::Row>, AllocError> {
        one_behind::<N>(alloc, 0, 2, annotation)
    }

    fn brackets(
        _alloc: Global,
        at: u32,
        inner: Placed<N::Row>,
    ) -> Result<Placed<N::Row>, AllocError> {
        Ok(Placed {
            first: back(1, inner.first),
            last: after(at)?,
            nodes: inner.nodes,
            level: 17,
            special: false,
        })
    }

    fn field(
        alloc: Global,
        at: u32,
        whole: Placed<N::Row>,
        _key: EntryKey,
    ) -> Result<Placed<N::Row>, AllocError> {
        selection::<N>(alloc, at, whole.first, whole.nodes)
    }

    fn project_none(
        alloc: Global,
        at: u32,
        whole: Placed<N::Row>,
        _comma: bool,
    ) -> Result<Placed<N::Row>, AllocError> {
        selection::<N>(alloc, at, whole.first, whole.nodes)
    }

    fn project(
        alloc: Global,
        at: u32,
        whole: Placed<N::Row>,
        _before: bool,
        _keys: Projection,
        _behind: bool,
    ) -> Result<Placed<N::Row>, AllocError> {
        selection::<N>(alloc, at, whole.first, whole.nodes)
    }

    fn project_by(
        alloc: Global,
        at: u32,
        whole: Placed<N::Row>,
        fields: Placed<N::Row>,
    ) -> Result<Placed<N::Row>, AllocError> {
        let parts = N::joined(whole.nodes, fields.nodes)?;
        selection::<N>(alloc, at, whole.first, parts)
    }

    fn text(
        alloc: Global,
        at: u32,
        _form: TextForm,
        chunks: Row<N::Row>,
    ) -> Result<Placed<N::Row>, AllocError> {
        node::<N>(alloc, 17, back(1, chunks.first), after(at)?, chunks.nodes)
    }

    fn list(
        alloc: Global,
        at: u32,
        before: bool,
        items: Row<N::Row>,
        _behind: bool,
    ) -> Result<Placed<N::Row>, AllocError> {
        fenced::<N>(alloc, at, items.first, before, items.nodes)
    }

    fn union_none(alloc: Global, at: u32, bar: bool) -> Result<Placed<N::Row>, AllocError> {
        leaf::<N>(alloc, back(1 + if_there(bar), at), at)
    }

    fn union(
        alloc: Global,
        at: u32,
        before: bool,
        alternatives: Rows<N::Row>,
        _behind: bool,
    ) -> Result<Placed<N::Row>, AllocError> {
        fenced_rows::<N>(alloc, at, before, alternatives)
    }

    fn record_type_none(alloc: Global, at: u32, comma: bool) -> Result<Placed<N::Row>, AllocError> {
        leaf::<N>(alloc, back(1 + if_there(comma), at), at)
    }

    fn record_type(
        alloc: Global,
        at: u32,
        before: bool,
        fields: Rows<N::Row>,
        _behind: bool,
    ) -> Result<Placed<N::Row>, AllocError> {
        fenced_rows::<N>(alloc, at, before, fields)
    }

    fn record_none(
        alloc: Global,
        at: u32,
        before: bool,
        behind: bool,
    ) -> Result<Placed<N::Row>, AllocError> {
        let marks = if_there(before) + if_there(behind);
        leaf::<N>(alloc, back(2 + marks, at), at)
    }

    fn record_of(
        alloc: Global,
        at: u32,
        before: bool,
        entries: Entries<N::Row>,
        _behind: bool,
    ) -> Result<Placed<N::Row>, AllocError> {
        record::<N>(alloc, at, before, entries)
    }

    fn typed(
        _alloc: Global,
        _at: u32,
        annotation: Placed<N::Row>,
    ) -> Result<Option<Row<N::Row>>, AllocError> {
        Ok(Some(Row {
            first: annotation.first,
            nodes: annotation.nodes,
        }))
    }

    fn add_let(
        alloc: Global,
        at: u32,
        so_far: Option<Lets<N::Row>>,
        word: Word,
        note: Option<Row<N::Row>>,
        value: Placed<N::Row>,
    ) -> Result<Lets<N::Row>, AllocError>
        ensures { IfOk result (λ made. lets_of N.noting N.view made ≡ (placing N.noting at).add_let (option_map (lets_of N.noting N.view) so_far) (word_of word) (note_of N.noting N.view note) (placed_of N.noting N.view value)) }
    {
        add_let::<N>(alloc, so_far, pending::<N>(alloc, note, value)?)
    }

    fn start(alloc: Global, at: u32, _piece: Option<Piece>) -> Result<Row<N::Row>, AllocError> {
        Ok(Row {
            first: at,
            nodes: N::none(alloc),
        })
    }

    fn more_chunks(
        _alloc: Global,
        _at: u32,
        chunks: Row<N::Row>,
        interpolation: Placed<N::Row>,
        _piece: Option<Piece>,
    ) -> Result<Row<N::Row>, AllocError> {
        Ok(Row {
            first: chunks.first,
            nodes: N::joined(chunks.nodes, interpolation.nodes)?,
        })
    }

    fn add_item(
        _alloc: Global,
        at: u32,
        so_far: Option<Row<N::Row>>,
        item: Placed<N::Row>,
    ) -> Result<Row<N::Row>, AllocError>
        ensures { IfOk result (λ made. row_of N.noting N.view made ≡ (placing N.noting at).add_item (option_map (row_of N.noting N.view) so_far) (placed_of N.noting N.view item)) }
    {
        match so_far {
            Some(items) => Ok(Row {
                first: items.first,
                nodes: N::joined(items.nodes, item.nodes)?,
            }),
            None => Ok(Row {
                first: item.first,
                nodes: item.nodes,
            }),
        }
    }

    fn add_alternative(
        alloc: Global,
        at: u32,
        so_far: Option<Rows<N::Row>>,
        key: EntryKey,
        note: Option<Row<N::Row>>,
    ) -> Result<Rows<N::Row>, AllocError>
        ensures { IfOk result (λ made. rows_of N.noting N.view made ≡ (placing N.noting at).add_alternative (option_map (rows_of N.noting N.view) so_far) (key_of key) (note_of N.noting N.view note)) }
    {
        let first = before_note::<N>(2, &note, back(1, at));
        let nodes = note_nodes::<N>(alloc, note);
        add_row::<N>(alloc, so_far, first, key, nodes)
    }

    fn add_field(
        alloc: Global,
        at: u32,
        so_far: Option<Rows<N::Row>>,
        key: EntryKey,
        field_type: Placed<N::Row>,
    ) -> Result<Rows<N::Row>, AllocError>
        ensures { IfOk result (λ made. rows_of N.noting N.view made ≡ (placing N.noting at).add_field (option_map (rows_of N.noting N.view) so_far) (key_of key) (placed_of N.noting N.view field_type)) }
    {
        let first = back(2, field_type.first);
        add_row::<N>(alloc, so_far, first, key, field_type.nodes)
    }

    fn alone(alloc: Global, at: u32, key: EntryKey) -> Result<Entry<N::Row>, AllocError> {
        alone::<N>(alloc, at, key)
    }

    fn given(
        alloc: Global,
        _at: u32,
        keys: Keys,
        value: Placed<N::Row>,
    ) -> Result<Entry<N::Row>, AllocError> {
        given::<N>(alloc, keys, value)
    }

    fn add_entry(
        alloc: Global,
        at: u32,
        so_far: Option<Entries<N::Row>>,
        entry: Entry<N::Row>,
    ) -> Result<Entries<N::Row>, AllocError>
        ensures { IfOk result (λ made. entries_of N.noting N.view made ≡ (placing N.noting at).add_entry (option_map (entries_of N.noting N.view) so_far) (entry_of N.noting N.view entry)) }
    {
        add_entry::<N>(alloc, so_far, entry)
    }
}

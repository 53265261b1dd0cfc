//! What a reader of tokens builds.

use crate::keys::Keys;
use crate::projections::Projection;
use crate::sources::Source;
use crate::words::{EntryKey, Word};
use dh_syntax::{BinOp, Builtin, Digest, Mode, Piece, TextForm};
use std::alloc::{AllocError, Global};

/// What the machine of the grammar makes of the parts that it reads: one function for each thing that it makes. Each is
/// given the number of the token that is read, counted from 0.
pub trait Makes {
    ghost use Rattle.std.specs.Prelude.{◌≡◌, ℕ, IfOk, option_map};
    ghost use Rattle.dh_grammar.specs.Making.{Sorts, Making};
    ghost use Rattle.dh_making.specs.Projections.{projection_of};
    ghost use Rattle.dh_making.specs.Views.{Views};
    ghost use Rattle.dh_making.specs.Words.{word_of, key_of, keys_of, source_of};
    ghost use Rattle.dh_syntax.specs.Text.Derivation.{key_label};
    ghost use Rattle.dh_syntax.specs.Text.Derived.{among};

    /// A part that is an operand.
    type Tree: Drop;

    /// An annotation, or none.
    type Note: Drop;

    /// Bindings of a chain of lets.
    type Lets: Drop;

    /// A text so far.
    type Chunks: Drop;

    /// Items of a list so far.
    type Items: Drop;

    /// Alternatives of a union so far.
    type Alternatives: Drop;

    /// Fields of a record type so far.
    type Fields: Drop;

    /// An entry of a record.
    type Entry: Drop;

    /// Entries of a record so far.
    type Entries: Drop;

    /// What the parts stand for.
    ghost sorts: { Sorts };

    ghost views: { Views Self.Tree Self.Note Self.Lets Self.Chunks Self.Items Self.Alternatives Self.Fields Self.Entry Self.Entries sorts };

    /// What is made of them at the token of a number.
    ghost makes: { ℕ → Making sorts };

    /// How tightly an operand binds.
    fn binds(at: u32, tree: &Self::Tree) -> u32
        ensures { result ≡ (makes at).binds (views.tree tree.now) };

    /// Whether a field has the label of the key.
    fn has_field(
        alloc: Global,
        at: u32,
        fields: &Self::Fields,
        key: &EntryKey,
    ) -> Result<bool, AllocError>
        ensures { IfOk result (λ b. b ≡ among (key_label (key_of key.now)) ((makes at).field_labels (views.fields fields.now))) };

    /// Whether an alternative has the label of the key.
    fn has_alternative(
        alloc: Global,
        at: u32,
        alternatives: &Self::Alternatives,
        key: &EntryKey,
    ) -> Result<bool, AllocError>
        ensures { IfOk result (λ b. b ≡ among (key_label (key_of key.now)) ((makes at).alternative_labels (views.alternatives alternatives.now))) };

    /// No annotation.
    fn untyped(at: u32) -> Self::Note
        ensures { views.note result ≡ (makes at).untyped };

    /// A natural literal.
    fn natural(alloc: Global, at: u32, number: u128) -> Result<Self::Tree, AllocError>
        ensures { IfOk result (λ made. views.tree made ≡ (makes at).natural number) };

    /// An integer literal.
    fn integer(alloc: Global, at: u32, number: i128) -> Result<Self::Tree, AllocError>
        ensures { IfOk result (λ made. views.tree made ≡ (makes at).integer number) };

    /// `True` or `False`.
    fn truth(alloc: Global, at: u32, value: bool) -> Result<Self::Tree, AllocError>
        ensures { IfOk result (λ made. views.tree made ≡ (makes at).truth value) };

    /// The name of a built-in.
    fn builtin(alloc: Global, at: u32, builtin: Builtin) -> Result<Self::Tree, AllocError>
        ensures { IfOk result (λ made. views.tree made ≡ (makes at).builtin builtin) };

    /// A name, with an index where it is written: `x@1`.
    fn variable(
        alloc: Global,
        at: u32,
        word: Word,
        index: Option<u32>,
    ) -> Result<Self::Tree, AllocError>
        ensures { IfOk result (λ made. views.tree made ≡ (makes at).variable (word_of word) index) };

    /// An import: what it asks for, its digest, and how it is taken (`as Text`, `as Location`).
    fn import(
        alloc: Global,
        at: u32,
        source: Source,
        digest: Option<Digest>,
        mode: Mode,
    ) -> Result<Self::Tree, AllocError>
        ensures { IfOk result (λ made. views.tree made ≡ (makes at).«import» (source_of source) digest mode) };

    /// `left operator right`
    fn operation(
        alloc: Global,
        at: u32,
        operator: BinOp,
        left: Self::Tree,
        right: Self::Tree,
    ) -> Result<Self::Tree, AllocError>
        ensures { IfOk result (λ made. views.tree made ≡ (makes at).operation operator (views.tree left) (views.tree right)) };

    /// `function argument`
    fn application(
        alloc: Global,
        at: u32,
        function: Self::Tree,
        argument: Self::Tree,
    ) -> Result<Self::Tree, AllocError>
        ensures { IfOk result (λ made. views.tree made ≡ (makes at).application (views.tree function) (views.tree argument)) };

    /// `merge handlers union`
    fn merging(
        alloc: Global,
        at: u32,
        handlers: Self::Tree,
        union: Self::Tree,
    ) -> Result<Self::Tree, AllocError>
        ensures { IfOk result (λ made. views.tree made ≡ (makes at).merging (views.tree handlers) (views.tree union)) };

    /// `Some value`
    fn some_of(alloc: Global, at: u32, value: Self::Tree) -> Result<Self::Tree, AllocError>
        ensures { IfOk result (λ made. views.tree made ≡ (makes at).some_of (views.tree value)) };

    /// `toMap value`
    fn to_map(alloc: Global, at: u32, value: Self::Tree) -> Result<Self::Tree, AllocError>
        ensures { IfOk result (λ made. views.tree made ≡ (makes at).to_map (views.tree value)) };

    /// `whole with keys = value`
    fn updating(
        alloc: Global,
        at: u32,
        whole: Self::Tree,
        keys: Keys,
        value: Self::Tree,
    ) -> Result<Self::Tree, AllocError>
        ensures { IfOk result (λ made. views.tree made ≡ (makes at).updating (views.tree whole) (keys_of keys) (views.tree value)) };

    /// `λ(word : domain) → body`, or with `∀` where it is no lambda.
    fn quantify(
        alloc: Global,
        at: u32,
        is_lambda: bool,
        word: Word,
        domain: Self::Tree,
        body: Self::Tree,
    ) -> Result<Self::Tree, AllocError>
        ensures { IfOk result (λ made. views.tree made ≡ (makes at).quantify is_lambda (word_of word) (views.tree domain) (views.tree body)) };

    /// `domain → codomain`
    fn arrow(
        alloc: Global,
        at: u32,
        domain: Self::Tree,
        codomain: Self::Tree,
    ) -> Result<Self::Tree, AllocError>
        ensures { IfOk result (λ made. views.tree made ≡ (makes at).arrow (views.tree domain) (views.tree codomain)) };

    /// `if condition then yes else no`
    fn choice(
        alloc: Global,
        at: u32,
        condition: Self::Tree,
        yes: Self::Tree,
        no: Self::Tree,
    ) -> Result<Self::Tree, AllocError>
        ensures { IfOk result (λ made. views.tree made ≡ (makes at).choice (views.tree condition) (views.tree yes) (views.tree no)) };

    /// Bindings, `in body`.
    fn around(
        alloc: Global,
        at: u32,
        lets: Self::Lets,
        body: Self::Tree,
    ) -> Result<Self::Tree, AllocError>
        ensures { IfOk result (λ made. views.tree made ≡ (makes at).lets (views.lets lets) (views.tree body)) };

    /// `value : annotation`, also that of a `merge` or a `toMap`.
    fn noting(
        alloc: Global,
        at: u32,
        value: Self::Tree,
        annotation: Self::Tree,
    ) -> Result<Self::Tree, AllocError>
        ensures { IfOk result (λ made. views.tree made ≡ (makes at).noting (views.tree value) (views.tree annotation)) };

    /// `[] : annotation`; `comma` says whether one stands between the brackets.
    fn empty_list(
        alloc: Global,
        at: u32,
        comma: bool,
        annotation: Self::Tree,
    ) -> Result<Self::Tree, AllocError>
        ensures { IfOk result (λ made. views.tree made ≡ (makes at).empty_list comma (views.tree annotation)) };

    /// `assert : annotation`
    fn assertion(alloc: Global, at: u32, annotation: Self::Tree) -> Result<Self::Tree, AllocError>
        ensures { IfOk result (λ made. views.tree made ≡ (makes at).assertion (views.tree annotation)) };

    /// `(inner)`
    fn brackets(alloc: Global, at: u32, inner: Self::Tree) -> Result<Self::Tree, AllocError>
        ensures { IfOk result (λ made. views.tree made ≡ (makes at).brackets (views.tree inner)) };

    /// `whole.key`
    fn field(
        alloc: Global,
        at: u32,
        whole: Self::Tree,
        key: EntryKey,
    ) -> Result<Self::Tree, AllocError>
        ensures { IfOk result (λ made. views.tree made ≡ (makes at).field (views.tree whole) (key_of key)) };

    /// `whole.{}`; `comma` says whether one stands between the braces.
    fn project_none(
        alloc: Global,
        at: u32,
        whole: Self::Tree,
        comma: bool,
    ) -> Result<Self::Tree, AllocError>
        ensures { IfOk result (λ made. views.tree made ≡ (makes at).project_none (views.tree whole) comma) };

    /// `whole.{ keys }`, with a comma before the first key, and behind the last one.
    fn project(
        alloc: Global,
        at: u32,
        whole: Self::Tree,
        before: bool,
        keys: Projection,
        behind: bool,
    ) -> Result<Self::Tree, AllocError>
        ensures { IfOk result (λ made. views.tree made ≡ (makes at).project (views.tree whole) before (projection_of keys) behind) };

    /// `whole.(fields)`
    fn project_by(
        alloc: Global,
        at: u32,
        whole: Self::Tree,
        fields: Self::Tree,
    ) -> Result<Self::Tree, AllocError>
        ensures { IfOk result (λ made. views.tree made ≡ (makes at).project_by (views.tree whole) (views.tree fields)) };

    /// A whole text literal.
    fn text(
        alloc: Global,
        at: u32,
        form: TextForm,
        chunks: Self::Chunks,
    ) -> Result<Self::Tree, AllocError>
        ensures { IfOk result (λ made. views.tree made ≡ (makes at).text form (views.chunks chunks)) };

    /// `[ items ]`, with a comma before the first item, and behind the last one.
    fn list(
        alloc: Global,
        at: u32,
        before: bool,
        items: Self::Items,
        behind: bool,
    ) -> Result<Self::Tree, AllocError>
        ensures { IfOk result (λ made. views.tree made ≡ (makes at).list before (views.items items) behind) };

    /// `< >`; `bar` says whether one stands between the brackets.
    fn union_none(alloc: Global, at: u32, bar: bool) -> Result<Self::Tree, AllocError>
        ensures { IfOk result (λ made. views.tree made ≡ (makes at).union_none bar) };

    /// `< alternatives >`, with a bar before the first one, and behind the last one.
    fn union(
        alloc: Global,
        at: u32,
        before: bool,
        alternatives: Self::Alternatives,
        behind: bool,
    ) -> Result<Self::Tree, AllocError>
        ensures { IfOk result (λ made. views.tree made ≡ (makes at).union before (views.alternatives alternatives) behind) };

    /// `{ }`; `comma` says whether one stands between the braces.
    fn record_type_none(alloc: Global, at: u32, comma: bool) -> Result<Self::Tree, AllocError>
        ensures { IfOk result (λ made. views.tree made ≡ (makes at).record_type_none comma) };

    /// `{ fields }`, with a comma before the first one, and behind the last one.
    fn record_type(
        alloc: Global,
        at: u32,
        before: bool,
        fields: Self::Fields,
        behind: bool,
    ) -> Result<Self::Tree, AllocError>
        ensures { IfOk result (λ made. views.tree made ≡ (makes at).record_type before (views.fields fields) behind) };

    /// `{ = }`, with a comma before the `=`, and behind it.
    fn record_none(
        alloc: Global,
        at: u32,
        before: bool,
        behind: bool,
    ) -> Result<Self::Tree, AllocError>
        ensures { IfOk result (λ made. views.tree made ≡ (makes at).record_none before behind) };

    /// `{ entries }`, with a comma before the first one, and behind the last one.
    fn record_of(
        alloc: Global,
        at: u32,
        before: bool,
        entries: Self::Entries,
        behind: bool,
    ) -> Result<Self::Tree, AllocError>
        ensures { IfOk result (λ made. views.tree made ≡ (makes at).record_of before (views.entries entries) behind) };

    /// The annotation that an operand is.
    fn typed(alloc: Global, at: u32, annotation: Self::Tree) -> Result<Self::Note, AllocError>
        ensures { IfOk result (λ made. views.note made ≡ (makes at).typed (views.tree annotation)) };

    /// One binding more, behind those so far.
    fn add_let(
        alloc: Global,
        at: u32,
        so_far: Option<Self::Lets>,
        word: Word,
        note: Self::Note,
        value: Self::Tree,
    ) -> Result<Self::Lets, AllocError>
        ensures { IfOk result (λ made. views.lets made ≡ (makes at).add_let (option_map views.lets so_far) (word_of word) (views.note note) (views.tree value)) };

    /// A text up to its first interpolation, or to its end.
    fn start(alloc: Global, at: u32, piece: Option<Piece>) -> Result<Self::Chunks, AllocError>
        ensures { IfOk result (λ made. views.chunks made ≡ (makes at).start piece) };

    /// One interpolation more, and what stands behind it.
    fn more_chunks(
        alloc: Global,
        at: u32,
        chunks: Self::Chunks,
        interpolation: Self::Tree,
        piece: Option<Piece>,
    ) -> Result<Self::Chunks, AllocError>
        ensures { IfOk result (λ made. views.chunks made ≡ (makes at).more_chunks (views.chunks chunks) (views.tree interpolation) piece) };

    /// One item more.
    fn add_item(
        alloc: Global,
        at: u32,
        so_far: Option<Self::Items>,
        item: Self::Tree,
    ) -> Result<Self::Items, AllocError>
        ensures { IfOk result (λ made. views.items made ≡ (makes at).add_item (option_map views.items so_far) (views.tree item)) };

    /// One alternative more, whose label is not there yet.
    fn add_alternative(
        alloc: Global,
        at: u32,
        so_far: Option<Self::Alternatives>,
        key: EntryKey,
        note: Self::Note,
    ) -> Result<Self::Alternatives, AllocError>
        ensures { IfOk result (λ made. views.alternatives made ≡ (makes at).add_alternative (option_map views.alternatives so_far) (key_of key) (views.note note)) };

    /// One field more, whose label is not there yet.
    fn add_field(
        alloc: Global,
        at: u32,
        so_far: Option<Self::Fields>,
        key: EntryKey,
        field_type: Self::Tree,
    ) -> Result<Self::Fields, AllocError>
        ensures { IfOk result (λ made. views.fields made ≡ (makes at).add_field (option_map views.fields so_far) (key_of key) (views.tree field_type)) };

    /// An entry that is a label alone.
    fn alone(alloc: Global, at: u32, key: EntryKey) -> Result<Self::Entry, AllocError>
        ensures { IfOk result (λ made. views.entry made ≡ (makes at).alone (key_of key)) };

    /// An entry `a.b = value`.
    fn given(
        alloc: Global,
        at: u32,
        keys: Keys,
        value: Self::Tree,
    ) -> Result<Self::Entry, AllocError>
        ensures { IfOk result (λ made. views.entry made ≡ (makes at).given (keys_of keys) (views.tree value)) };

    /// One entry more, joined by `∧` with one of the same label.
    fn add_entry(
        alloc: Global,
        at: u32,
        so_far: Option<Self::Entries>,
        entry: Self::Entry,
    ) -> Result<Self::Entries, AllocError>
        ensures { IfOk result (λ made. views.entries made ≡ (makes at).add_entry (option_map views.entries so_far) (views.entry entry)) };
}

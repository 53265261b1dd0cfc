//! What stands above the frames.
ghost use Rattle.std.specs.Prelude.{◌≡◌, true};
ghost use Rattle.dh_reader.specs.Inside.Tops.{has_operand, is_ready, is_waiting};
ghost use Rattle.dh_reader.specs.declared.tops.Held.TheVariants as helds;
ghost use Rattle.dh_reader.specs.declared.tops.Top.TheVariants as tops;

use dh_making::{EntryKey, Keys, Makes, Projection, Source, Word};
use dh_syntax::{Digest, TextForm};
use std::mem::{forget, replace};

/// What an import asks for, with its digest.
#[derive(Drop)]
pub struct Imported {
    pub source: Source,
    pub digest: Option<Digest>,
}

/// An operand whose last token may be followed by more of it.
#[derive(Drop)]
pub enum Held<M: Makes> {
    /// A name, which may take an index
    Named(Word),
    /// An import, which may take a digest and `as`
    Imported(Imported),
    Ready(M::Tree),
}

/// What stands between the opening of a text and an interpolation, or between two.
#[derive(Drop)]
pub enum Front<M: Makes> {
    Opening,
    Behind(M::Chunks, M::Tree),
}

/// Where a token of a production is awaited that is no part's. A `bool` beside the parts so far says whether a comma
/// or a bar stands before the first of them.
#[derive(Drop)]
pub enum Wait<M: Makes> {
    /// `λ`, or `∀` where it is no lambda
    Quantifier(bool),
    /// `λ(`
    Quantified(bool),
    /// `λ(word`
    Quantity(bool, Word),
    /// `λ(word : domain)`
    Domained(bool, Word, M::Tree),
    /// `assert`
    Asserting,
    /// Bindings so far, `let`
    Letting(Option<M::Lets>),
    /// Bindings so far, `let word`
    Lettered(Option<M::Lets>, Word),
    /// `whole with`
    WithStart(M::Tree),
    /// `whole with keys`
    WithKeys(M::Tree, Keys),
    /// `whole with keys.`
    WithDot(M::Tree, Keys),
    /// `word@`
    Indexed(Word),
    /// An import, `as`
    Moded(Imported),
    /// `whole.`
    Dotted(M::Tree),
    /// `whole.{`
    Projecting(M::Tree, bool),
    /// `whole.{ keys`
    Projected(M::Tree, bool, Projection),
    /// `whole.{ keys,`
    ProjectedComma(M::Tree, bool, Projection),
    /// `[ ]`
    Empty(bool),
    /// `<`
    UnionStart(bool),
    /// `<` and the alternatives so far, `key`
    Alternative(bool, Option<M::Alternatives>, EntryKey),
    /// `<` and the alternatives so far, `|`
    AlternativeBar(bool, M::Alternatives),
    /// `{`
    RecordStart(bool),
    /// `{ =`, and whether a comma stands behind
    RecordEquals(bool, bool),
    /// `{` and the fields so far, `,`
    FieldComma(bool, M::Fields),
    /// `{` and the fields so far, `key`
    FieldKey(bool, M::Fields, EntryKey),
    /// `{` and the entries so far, `,`
    EntryComma(bool, M::Entries),
    /// `{` and the entries so far, `keys`; the first key of a record may yet be a field's
    EntryKeys(bool, Option<M::Entries>, Keys),
    /// `{` and the entries so far, `keys.`
    EntryDot(bool, Option<M::Entries>, Keys),
    /// A text up to where a piece may stand
    TextFront(TextForm, Front<M>),
    /// A text up to a piece
    TextPiece(TextForm, M::Chunks),
}

/// What stands above the frames.
#[derive(Drop)]
pub enum Top<M: Makes> {
    /// An operand or an expression begins.
    Need,
    /// An operand has been read.
    Have(Held<M>),
    /// A token of a production is awaited.
    Wait(Wait<M>),
    /// The text has ended.
    Done(M::Tree),
}

impl<M: Makes> Top<M> {
    /// Puts this where nothing stands. What was there is forgotten, since to drop it takes a test for each form.
    pub(crate) fn put(&mut self, top: Top<M>)
        requires { self.old ≡ tops.Need }
        ensures { self.new ≡ top }
    {
        forget(replace(self, top));
    }

    /// Whether an operand has been read that takes no more tokens of its own.
    pub(crate) fn is_ready(&self) -> bool
        ensures { result ≡ is_ready self.now }
    {
        match self {
            Top::Have(Held::Ready(_)) => true,
            Top::Have(Held::Named(_) | Held::Imported(_)) => false,
            Top::Need | Top::Wait(_) | Top::Done(_) => false,
        }
    }

    /// Takes out the operand.
    pub(crate) fn take_ready(&mut self) -> M::Tree
        requires { is_ready self.old ≡ true }
        ensures taken { self.old ≡ tops.Have (helds.Ready result) }
        ensures left { self.new ≡ tops.Need }
    {
        match replace(self, Top::Need) {
            Top::Have(Held::Ready(operand)) => operand,
            Top::Have(Held::Named(_) | Held::Imported(_)) => unreachable!(),
            Top::Need | Top::Wait(_) | Top::Done(_) => unreachable!(),
        }
    }

    /// Takes out the operand, of which more may come.
    pub(crate) fn take_held(&mut self) -> Held<M>
        requires { has_operand self.old ≡ true }
        ensures taken { self.old ≡ tops.Have result }
        ensures left { self.new ≡ tops.Need }
    {
        match replace(self, Top::Need) {
            Top::Have(held) => held,
            Top::Need | Top::Wait(_) | Top::Done(_) => unreachable!(),
        }
    }

    /// Takes out what is awaited.
    pub(crate) fn take_wait(&mut self) -> Wait<M>
        requires { is_waiting self.old ≡ true }
        ensures taken { self.old ≡ tops.Wait result }
        ensures left { self.new ≡ tops.Need }
    {
        match replace(self, Top::Need) {
            Top::Wait(wait) => wait,
            Top::Need | Top::Have(_) | Top::Done(_) => unreachable!(),
        }
    }
}

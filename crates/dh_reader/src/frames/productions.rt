//! Productions that have begun and wait for a part of theirs.

use dh_making::{EntryKey, Keys, Makes, Word};
use dh_syntax::{BinOp, TextForm};

/// An operand with a place for its last part, which ends where what follows cannot go on with it.
#[derive(Drop)]
pub enum Open<M: Makes> {
    /// `left operator [ ]`
    Left(M::Tree, BinOp),
    /// `function [ ]`
    Applied(M::Tree),
    /// `merge handlers [ ]`
    Merged(M::Tree),
    /// `Some [ ]`
    Somed,
    /// `toMap [ ]`
    Mapped,
    /// `whole with keys = [ ]`
    Update(M::Tree, Keys),
    /// `λ(word : domain) → [ ]`, or with `∀` where it is no lambda
    Body(bool, Word, M::Tree),
    /// `domain → [ ]`
    Target(M::Tree),
    /// `if condition then yes else [ ]`
    Otherwise(M::Tree, M::Tree),
    /// Bindings, `in [ ]`
    Bound(M::Lets),
    /// `value : [ ]`
    Noted(M::Tree),
    /// `[] : [ ]`, and whether a comma stands between the brackets
    Emptied(bool),
    /// `assert : [ ]`
    Asserted,
}

/// An operand with a place that a token ends. A `bool` beside the parts so far says whether a comma or a bar stands
/// before the first of them.
#[derive(Drop)]
pub enum Shut<M: Makes> {
    /// `( [ ] )`
    Bracket,
    /// `λ(word : [ ] )`, or with `∀` where it is no lambda
    Domain(bool, Word),
    /// `if [ ] then`
    Condition,
    /// `if condition then [ ] else`
    Branch(M::Tree),
    /// Bindings so far, `let word : [ ] =`
    LetType(Option<M::Lets>, Word),
    /// Bindings so far, `let word : annotation = [ ]`, up to `let` or `in`
    LetValue(Option<M::Lets>, Word, M::Note),
    /// `whole.( [ ] )`
    Selected(M::Tree),
    /// `merge [ ]`: the operand behind it ends it
    First,
    /// `[` and the items so far, `[ ]`
    Items(bool, Option<M::Items>),
    /// `<` and the alternatives so far, `key : [ ]`
    AlternativeType(bool, Option<M::Alternatives>, EntryKey),
    /// `{` and the fields so far, `key : [ ]`
    FieldType(bool, Option<M::Fields>, EntryKey),
    /// `{` and the entries so far, `keys = [ ]`
    EntryValue(bool, Option<M::Entries>, Keys),
    /// A text up to `${ [ ] }`
    Chunk(TextForm, M::Chunks),
}

/// A production that waits for a part of it.
#[derive(Drop)]
pub enum Frame<M: Makes> {
    Open(Open<M>),
    Shut(Shut<M>),
}

//! Parts that are read, by their tokens, and what is noted of their nodes.

use dh_making::ByLabel;
use dh_syntax::Label;

/// An operand: its first token and the one behind it, brackets included, what is noted of its expression, and how tightly it
/// binds. Exactly `merge` with two arguments and `toMap` with one are special.
#[derive(Drop)]
pub struct Placed<R> {
    pub first: u32,
    pub last: u32,
    pub nodes: R,
    pub level: u32,
    pub special: bool,
}

/// Parts in the order of the text: the first token, and what is noted of them.
#[derive(Drop)]
pub struct Row<R> {
    pub first: u32,
    pub nodes: R,
}

/// A `let` whose body follows: where it begins, and its parts.
#[derive(Drop)]
pub struct Pending<R> {
    pub from: u32,
    pub parts: R,
}

/// Bindings that share one `in`, the outermost first.
#[derive(Drop)]
pub struct Lets<R> {
    pub first: u32,
    pub pendings: Vec<Pending<R>>,
}

/// Alternatives or fields: the first token, and what is noted of each, in the order of their labels.
#[derive(Drop)]
pub struct Rows<R> {
    pub first: u32,
    pub rows: ByLabel<R>,
}

/// What stands under a label of a record: what is noted of it, and the stretch of the whole entry.
#[derive(Drop)]
pub struct Stand<R> {
    pub value: R,
    pub from: u32,
    pub to: u32,
}

/// An entry of a record: the label of its first key, and what stands under it.
#[derive(Drop)]
pub struct Entry<R> {
    pub label: Label,
    pub stand: Stand<R>,
}

/// Entries: the first token, and what stands under each label, in the order of the labels.
#[derive(Drop)]
pub struct Entries<R> {
    pub first: u32,
    pub rows: ByLabel<Stand<R>>,
}

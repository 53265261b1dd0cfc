//! What stands open while bytes are read, and what each item gave.
ghost use Rattle.std.specs.Prelude.{◌≡◌};
ghost use Rattle.dh_decode.specs.Inside.Forms.{op_of};

use crate::parts::Part;
use dh_syntax::{BinOp, Digest, Labels, Many, Mode, Op, Piece};
use std::collections::BTreeMap;

/// Labels with what stands behind them, in their order, none twice.
pub type Entries<'a> = BTreeMap<&'a str, Option<Part>>;

/// Labels in their order, none twice.
pub type Names<'a> = BTreeMap<&'a str, ()>;

/// What an item is, once it is read.
#[derive(Drop)]
pub enum Value<'a> {
    Nothing,
    Holds(Part),
    Called(&'a str),
    Counted(u128),
    /// The index of a variable.
    Indexed(u32),
    Signed(i128),
    /// The first number of an array, and how many items come after it.
    Coded(u64, u128),
    By(BinOp),
    Hashed(Option<Box<Digest>>),
    Taken(Mode),
    Queried(Option<&'a str>),
    Path(Labels),
    Entries(Entries<'a>),
}

/// A name that a let binds, with its type and its value.
#[derive(Drop)]
pub struct Binding<'a> {
    pub name: &'a str,
    pub annotation: Option<Part>,
    pub value: Part,
}

/// What stands before the scheme of an import.
#[derive(Drop)]
pub struct Start {
    pub digest: Option<Box<Digest>>,
    pub mode: Mode,
}

/// An operator without text or numbers in it.
#[derive(Clone, Copy, Debug, PartialEq, Eq)]
pub enum Form {
    Lam,
    Pi,
    If,
    By(BinOp),
    EmptyList,
    List,
    Some,
    Merge(bool),
    Assert,
    Annot,
    ToMap(bool),
}

impl Form {
    /// The operator.
    pub fn op(self) -> Op
        ensures { result ≡ op_of self }
    {
        match self {
            Form::Lam => Op::Lam,
            Form::Pi => Op::Pi,
            Form::If => Op::If,
            Form::By(operator) => Op::Bin(operator),
            Form::EmptyList => Op::EmptyList,
            Form::List => Op::List,
            Form::Some => Op::Some,
            Form::Merge(typed) => Op::Merge(typed),
            Form::Assert => Op::Assert,
            Form::Annot => Op::Annot,
            Form::ToMap(typed) => Op::ToMap(typed),
        }
    }
}

/// What the entries of a map make.
#[derive(Clone, Copy, Debug, PartialEq, Eq)]
pub enum RowKind {
    Types,
    Values,
    Alternatives,
}

/// An open array or map, with what was made of its items. It is moved at each item, so what is large stands in a box.
#[derive(Drop)]
pub enum OpenItem<'a> {
    /// `[ ]`
    First,
    /// All is read.
    Finished(Part),
    /// `[0 ]`, `[0, f, a.. ]`
    Applying(Option<Part>),
    /// Expressions only.
    Operands(Form, Many<Part>),
    /// `[1 ]`, `[2 ]`
    Binder(Form),
    /// `[1, x ]`, `[1, x, A ]`
    Quantify(Form, &'a str, Option<Part>),
    /// `[3 ]`
    Operating,
    /// `[4 ]` before one item.
    Emptied,
    /// `[4 ]`, `[5 ]` before null.
    Skipping(Form),
    /// `[7 ]`, `[8 ]`, `[11 ]`
    Rowing(RowKind),
    /// `[9 ]`
    Selecting,
    /// `[9, t ]`
    Selected(Part),
    /// `[10 ]`
    Projecting,
    /// `[10, t ]`
    Projected(Part),
    /// `[10, t, x.. ]`
    Labelled(Part, Names<'a>),
    /// `[15 ]`
    Numeral,
    /// `[16 ]`
    SignedNumeral,
    /// `[18, .. ]` before a piece of text.
    Piece(Many<Piece>, Many<Part>),
    /// `[18, .. ]` behind a piece of text.
    Between(Many<Piece>, Many<Part>),
    /// `[24 ]`
    Importing,
    /// `[24, digest ]`
    Moding(Option<Box<Digest>>),
    /// `[24, digest, mode ]`
    Locating(Start),
    /// The components of a path by its scheme.
    Components(Start, u64, Many<Piece>),
    /// A URL behind its scheme, and whether it is secure.
    Headers(Start, bool),
    Hosting(Start, bool),
    Segments(Start, bool, &'a str, Many<Piece>),
    /// An environment variable behind its scheme.
    Environment(Start),
    /// `[25, .. ]`
    LetName(Many<Binding<'a>>),
    LetType(Many<Binding<'a>>, &'a str),
    LetValue(Many<Binding<'a>>, &'a str, Option<Part>),
    /// `[29 ]`
    Updating,
    /// `[29, e ]`
    UpdatePath(Part),
    /// `[29, e, path ]`
    UpdateValue(Part, Labels),
    /// `[x ]`
    Indexing(&'a str),
    /// The labels of a path.
    Labels(Labels),
    /// An array of one expression.
    Boxing,
    /// A map before a key, and whether null may stand for a value.
    Key(bool, Entries<'a>),
    /// A map before a value.
    Value(bool, Entries<'a>, &'a str),
}

/// An open array or map, and how many items come behind the one that is read.
#[derive(Drop)]
pub struct Frame<'a> {
    pub place: OpenItem<'a>,
    pub left: u128,
}

/// What an item is wanted as.
#[derive(Clone, Copy, Debug)]
pub enum Want {
    /// An expression.
    Term,
    /// An expression with any marks of CBOR before it.
    Whole,
    /// Null or an expression.
    Nullable,
    /// The first item of an array, with so many behind it.
    Opening(u128),
    /// A text of a class.
    Spelled(Test),
    /// A label that the projection on top has not yet.
    FreshLabel,
    /// A label that the map on top has not yet.
    FreshKey,
    Null,
    Index,
    OperatorCode,
    Digest,
    Mode,
    /// The scheme of an import, with so many items behind it.
    Scheme(u128),
    Query,
    Natural,
    Integer,
    /// The string of a bignum.
    BigNatural,
    /// The string of a bignum with this tag.
    BigInteger(u64),
    /// An array of labels.
    Path,
    /// A label, or an array of one expression.
    Boxed,
    /// A map; whether null may stand for a value.
    Rows(bool),
    /// Nothing.
    None,
}

/// What a text is tested for.
#[derive(Clone, Copy, Debug, PartialEq, Eq)]
pub enum Test {
    /// A label other than `_`.
    Named,
    Label,
    Utf8,
    Component,
    Host,
    Segment,
    Environment,
}

//! The operators and the built-ins: their codes, names and levels.

ghost use Rattle.std.specs.Prelude.{◌≡◌};
ghost use Rattle.dh_syntax.specs.Expressions.Levels.{left_level, level_of};
ghost use Rattle.dh_syntax.specs.Expressions.Operators.{builtin_name, op_code};

/// The operators between two expressions, in the order of their codes in the binary form
/// (the standard's "Binary encoding", "Operators").
#[derive(Clone, Copy, Debug, PartialEq, Eq)]
pub enum BinOp {
    /// `||`
    Or,
    /// `&&`
    And,
    /// `==`
    Equal,
    /// `!=`
    NotEqual,
    /// `+`
    Plus,
    /// `*`
    Times,
    /// `++`
    TextAppend,
    /// `#`
    ListAppend,
    /// `∧`
    Combine,
    /// `⫽`
    Prefer,
    /// `⩓`
    CombineTypes,
    /// `?`
    Fallback,
    /// `≡`
    Equivalent,
    /// `::`
    Complete,
}

/// The names that the language defines, `True` and `False` apart (`dhall.abnf`, "builtin").
#[derive(Clone, Copy, Debug, PartialEq, Eq)]
pub enum Builtin {
    /// `Type`
    TypeConst,
    Kind,
    Sort,
    Bool,
    Natural,
    Integer,
    Text,
    List,
    Optional,
    None,
    NaturalFold,
    NaturalBuild,
    NaturalIsZero,
    NaturalEven,
    NaturalOdd,
    NaturalToInteger,
    NaturalShow,
    NaturalSubtract,
    IntegerShow,
    IntegerNegate,
    IntegerClamp,
    ListBuild,
    ListFold,
    ListLength,
    ListHead,
    ListLast,
    ListIndexed,
    ListReverse,
    TextShow,
    TextReplace,
}

impl BinOp {
    /// The operator's code in the binary form (the standard's "Binary encoding", "Operators").
    pub fn code(self) -> u8
        ensures { result ≡ op_code self }
    {
        match self {
            BinOp::Or => 0,
            BinOp::And => 1,
            BinOp::Equal => 2,
            BinOp::NotEqual => 3,
            BinOp::Plus => 4,
            BinOp::Times => 5,
            BinOp::TextAppend => 6,
            BinOp::ListAppend => 7,
            BinOp::Combine => 8,
            BinOp::Prefer => 9,
            BinOp::CombineTypes => 10,
            BinOp::Fallback => 11,
            BinOp::Equivalent => 12,
            BinOp::Complete => 13,
        }
    }

    /// The level of the operator in the grammar: 1 to 13, and 15 for `::`. A higher level binds more tightly.
    pub fn level(self) -> u32
        ensures { result ≡ level_of self }
    {
        match self {
            BinOp::Equivalent => 1,
            BinOp::Fallback => 2,
            BinOp::Or => 3,
            BinOp::Plus => 4,
            BinOp::TextAppend => 5,
            BinOp::ListAppend => 6,
            BinOp::And => 7,
            BinOp::Combine => 8,
            BinOp::Prefer => 9,
            BinOp::CombineTypes => 10,
            BinOp::Times => 11,
            BinOp::Equal => 12,
            BinOp::NotEqual => 13,
            BinOp::Complete => 15,
        }
    }

    /// The least level of the operator's left part: its own, but for `::`. The least level of its right part is one more than
    /// its own.
    pub fn left_level(self) -> u32
        ensures { result ≡ left_level self }
    {
        match self {
            BinOp::Complete => 16,
            other => other.level(),
        }
    }
}

impl Builtin {
    /// The name that stands for the built-in in a text.
    pub fn name(self) -> &'static str
        ensures { result.now ≡ builtin_name self }
    {
        match self {
            Builtin::TypeConst => "Type",
            Builtin::Kind => "Kind",
            Builtin::Sort => "Sort",
            Builtin::Bool => "Bool",
            Builtin::Natural => "Natural",
            Builtin::Integer => "Integer",
            Builtin::Text => "Text",
            Builtin::List => "List",
            Builtin::Optional => "Optional",
            Builtin::None => "None",
            Builtin::NaturalFold => "Natural/fold",
            Builtin::NaturalBuild => "Natural/build",
            Builtin::NaturalIsZero => "Natural/isZero",
            Builtin::NaturalEven => "Natural/even",
            Builtin::NaturalOdd => "Natural/odd",
            Builtin::NaturalToInteger => "Natural/toInteger",
            Builtin::NaturalShow => "Natural/show",
            Builtin::NaturalSubtract => "Natural/subtract",
            Builtin::IntegerShow => "Integer/show",
            Builtin::IntegerNegate => "Integer/negate",
            Builtin::IntegerClamp => "Integer/clamp",
            Builtin::ListBuild => "List/build",
            Builtin::ListFold => "List/fold",
            Builtin::ListLength => "List/length",
            Builtin::ListHead => "List/head",
            Builtin::ListLast => "List/last",
            Builtin::ListIndexed => "List/indexed",
            Builtin::ListReverse => "List/reverse",
            Builtin::TextShow => "Text/show",
            Builtin::TextReplace => "Text/replace",
        }
    }
}

//! Where white space is needed before a token.
ghost use Rattle.std.specs.Prelude.{◌≡◌};
ghost use Rattle.dh_grammar.specs.Machine.{extend_gap, gap_at, gap_on, open_gap, shut_gap, wait_gap};
ghost use Rattle.dh_reader.specs.Frames.{open_of, shut_of};
ghost use Rattle.dh_reader.specs.Stacks.{stack_of};
ghost use Rattle.dh_reader.specs.States.{state_of, wait_of};
ghost use Rattle.dh_syntax.specs.Text.Yield.{gap_after};
ghost use Rattle.dh_syntax.specs.declared.tokens.TokenKind.TheVariants as kinds;

use crate::frames::{Frame, Frames, Open, Shut};
use crate::tops::{Top, Wait};
use dh_making::Makes;
use dh_syntax::{BinOp, Keyword, Mark, TokenKind};

/// Whether a gap is needed behind the operator: `+` and `?` could begin a longer form.
fn gap_after(operator: BinOp) -> bool
    ensures { result ≡ gap_after operator }
{
    match operator {
        BinOp::Plus | BinOp::Fallback => true,
        BinOp::Equivalent | BinOp::Or | BinOp::TextAppend | BinOp::ListAppend => false,
        BinOp::And | BinOp::Combine | BinOp::Prefer | BinOp::CombineTypes => false,
        BinOp::Times | BinOp::Equal | BinOp::NotEqual | BinOp::Complete => false,
    }
}

impl<M: Makes> Open<M> {
    /// Whether a gap is needed before the place of the frame.
    fn gap(&self) -> bool
        ensures { result ≡ open_gap (open_of M.views self.now) }
    {
        match self {
            Open::Left(_, operator) => gap_after(*operator),
            Open::Update(_, _) | Open::Body(_, _, _) | Open::Target(_) => false,
            Open::Applied(_) | Open::Merged(_) | Open::Somed | Open::Mapped => true,
            Open::Otherwise(_, _) | Open::Bound(_) | Open::Noted(_) => true,
            Open::Emptied(_) | Open::Asserted => true,
        }
    }
}

impl<M: Makes> Shut<M> {
    /// Whether a gap is needed before the place of the frame.
    fn gap(&self) -> bool
        ensures { result ≡ shut_gap (shut_of M.views self.now) }
    {
        match self {
            Shut::Domain(_, _) | Shut::Condition | Shut::Branch(_) => true,
            Shut::LetType(_, _) | Shut::First => true,
            Shut::AlternativeType(_, _, _) | Shut::FieldType(_, _, _) => true,
            Shut::Bracket | Shut::LetValue(_, _, _) | Shut::Selected(_) => false,
            Shut::Items(_, _) | Shut::EntryValue(_, _, _) | Shut::Chunk(_, _) => false,
        }
    }
}

impl<M: Makes> Frames<M> {
    /// Whether a gap is needed before the place of the newest frame.
    fn gap(&self) -> bool
        ensures { result ≡ gap_on (stack_of M.views self.now) }
    {
        match self.top() {
            Some(Frame::Open(frame)) => frame.gap(),
            Some(Frame::Shut(frame)) => frame.gap(),
            None => false,
        }
    }
}

impl<M: Makes> Wait<M> {
    /// Whether a gap is needed before the token that is awaited.
    fn gap(&self) -> bool
        ensures { result ≡ wait_gap (wait_of M.views self.now) }
    {
        match self {
            Wait::Letting(_) | Wait::WithStart(_) | Wait::Moded(_) => true,
            Wait::Quantifier(_) | Wait::Quantified(_) | Wait::Quantity(_, _) => false,
            Wait::Domained(_, _, _) | Wait::Asserting | Wait::Lettered(_, _) => false,
            Wait::WithKeys(_, _) | Wait::WithDot(_, _) | Wait::Indexed(_) => false,
            Wait::Dotted(_) | Wait::Projecting(_, _) | Wait::Projected(_, _, _) => false,
            Wait::ProjectedComma(_, _, _) | Wait::Empty(_) | Wait::UnionStart(_) => false,
            Wait::Alternative(_, _, _) | Wait::AlternativeBar(_, _) => false,
            Wait::RecordStart(_) | Wait::RecordEquals(_, _) => false,
            Wait::FieldComma(_, _) | Wait::FieldKey(_, _, _) => false,
            Wait::EntryComma(_, _) | Wait::EntryKeys(_, _, _) => false,
            Wait::EntryDot(_, _, _) | Wait::TextFront(_, _) => false,
            Wait::TextPiece(_, _) => false,
        }
    }
}

/// Whether a gap is needed before a token behind an operand: an argument, a digest, `with`, `let` and `in` need it.
fn extend_gap(kind: &TokenKind) -> bool
    ensures { result ≡ extend_gap kind.now }
{
    match kind {
        TokenKind::Mark(mark) => opens_argument(*mark),
        TokenKind::Keyword(keyword) => needs_gap(*keyword),
        TokenKind::InterpolationClose | TokenKind::End => false,
        TokenKind::Name(_) | TokenKind::Quoted(_) | TokenKind::Bool(_) => true,
        TokenKind::Builtin(_) | TokenKind::Natural(_) | TokenKind::Integer(_) => true,
        TokenKind::TextOpen(_) | TokenKind::TextPiece(_) | TokenKind::TextClose => true,
        TokenKind::InterpolationOpen | TokenKind::Path(_) | TokenKind::Url(_) => true,
        TokenKind::Environment(_) | TokenKind::Digest(_) => true,
    }
}

/// Whether an argument begins with the mark. Neither a lambda nor a `∀` is one, but none of them goes on with an
/// operand.
fn opens_argument(mark: Mark) -> bool
    ensures { result ≡ extend_gap (kinds.Mark mark) }
{
    match mark {
        Mark::ParenOpen | Mark::BracketOpen | Mark::BraceOpen | Mark::AngleOpen => true,
        Mark::Lambda | Mark::Forall => true,
        Mark::ParenClose | Mark::BracketClose | Mark::BraceClose | Mark::AngleClose => false,
        Mark::Comma | Mark::Dot | Mark::Colon | Mark::Equals | Mark::At | Mark::Bar => false,
        Mark::Arrow | Mark::Operator(_) => false,
    }
}

/// Whether a gap is needed before a keyword behind an operand.
fn needs_gap(keyword: Keyword) -> bool
    ensures { result ≡ extend_gap (kinds.Keyword keyword) }
{
    match keyword {
        Keyword::Then | Keyword::Else | Keyword::As => false,
        Keyword::If | Keyword::Let | Keyword::In | Keyword::Missing | Keyword::Assert => true,
        Keyword::Merge | Keyword::Some | Keyword::ToMap | Keyword::With => true,
    }
}

/// Whether a gap is needed before a token of this kind.
pub fn gap_at<M: Makes>(frames: &Frames<M>, place: &Top<M>, kind: &TokenKind) -> bool
    ensures { result ≡ gap_at (state_of M.views frames.now place.now) kind.now }
{
    match place {
        Top::Need => frames.gap(),
        Top::Have(_) => extend_gap(kind),
        Top::Wait(wait) => wait.gap(),
        Top::Done(_) => false,
    }
}

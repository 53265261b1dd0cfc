//! What the next item of an open array or map is wanted as.
ghost use Rattle.std.specs.Prelude.{◌≡◌, ℕ, ◌∷◌, List, option_map};
ghost use Rattle.dh_binary.specs.Machine as machine;
ghost use Rattle.dh_binary.specs.Machine.{Frame, want};
ghost use Rattle.dh_binary.specs.Verdict as verdict;
ghost use Rattle.dh_binary.specs.Stubs.{Kept, stubs};
ghost use Rattle.dh_decode.specs.Inside.Views.{place_of};
ghost use Rattle.dh_decode.specs.Inside.States.{want_of};

use crate::places::{OpenItem, RowKind, Test, Want};

impl Want {
    /// Whether it is the string of a bignum.
    pub fn is_big(self) -> bool
        ensures { (st : List (Frame Kept)) → result ≡ verdict.is_big (want_of self st) }
    {
        match self {
            Want::BigNatural | Want::BigInteger(_) => true,
            Want::Term | Want::Whole | Want::Nullable | Want::Opening(_) => false,
            Want::Spelled(_) | Want::FreshLabel | Want::FreshKey | Want::Null => false,
            Want::Index | Want::OperatorCode | Want::Digest | Want::Mode => false,
            Want::Scheme(_) | Want::Query | Want::Natural | Want::Integer => false,
            Want::Path | Want::Boxed | Want::Rows(_) | Want::None => false,
        }
    }

    /// What is wanted behind a tag.
    pub fn behind_tag(self, tag: u64) -> Option<Want>
        ensures { (st : List (Frame Kept)) → option_map (λ w. want_of w st) result ≡ machine.tag_as stubs (want_of self st) tag }
    {
        match self {
            Want::Whole if tag == 55799 => Some(Want::Whole),
            Want::Whole => None,
            Want::Natural if tag == 2 => Some(Want::BigNatural),
            Want::Natural => None,
            Want::Integer if tag == 2 || tag == 3 => Some(Want::BigInteger(tag)),
            Want::Integer => None,
            Want::Term | Want::Nullable | Want::Path | Want::Boxed | Want::Rows(_) => None,
            Want::Opening(_) | Want::Spelled(_) | Want::FreshLabel | Want::FreshKey => None,
            Want::Null | Want::Index | Want::OperatorCode | Want::Digest | Want::Mode => None,
            Want::Scheme(_) | Want::Query | Want::BigNatural | Want::BigInteger(_) => None,
            Want::None => None,
        }
    }
}

impl<'a> OpenItem<'a> {
    /// What the next item is wanted as, where so many come behind it.
    pub fn want(&self, left: u128) -> Want
        ensures { (st : List (Frame Kept)) →
            want_of result (record { place = place_of self.now; left = left } ∷ st) ≡ want (place_of self.now) left }
    {
        match self {
            OpenItem::First => Want::Opening(left),
            OpenItem::Finished(_) => Want::None,
            OpenItem::Applying(_) | OpenItem::Operands(_, _) | OpenItem::Quantify(_, _, _) =>
                Want::Term,
            OpenItem::Binder(_) => Want::Spelled(Test::Named),
            OpenItem::Operating => Want::OperatorCode,
            OpenItem::Emptied | OpenItem::Selecting | OpenItem::Projecting => Want::Term,
            OpenItem::Skipping(_) => Want::Null,
            OpenItem::Rowing(RowKind::Types | RowKind::Values) => Want::Rows(false),
            OpenItem::Rowing(RowKind::Alternatives) => Want::Rows(true),
            OpenItem::Selected(_) => Want::Spelled(Test::Label),
            OpenItem::Projected(_) if left == 0 => Want::Boxed,
            OpenItem::Projected(_) => Want::Spelled(Test::Label),
            OpenItem::Labelled(_, _) => Want::FreshLabel,
            OpenItem::Numeral => Want::Natural,
            OpenItem::SignedNumeral => Want::Integer,
            OpenItem::Piece(_, _) => Want::Spelled(Test::Utf8),
            OpenItem::Between(_, _) => Want::Term,
            OpenItem::Importing => Want::Digest,
            OpenItem::Moding(_) => Want::Mode,
            OpenItem::Locating(_) => Want::Scheme(left),
            OpenItem::Components(_, _, _) => Want::Spelled(Test::Component),
            OpenItem::Headers(_, _) => Want::Null,
            OpenItem::Hosting(_, _) => Want::Spelled(Test::Host),
            OpenItem::Segments(_, _, _, _) if left == 0 => Want::Query,
            OpenItem::Segments(_, _, _, _) => Want::Spelled(Test::Segment),
            OpenItem::Environment(_) => Want::Spelled(Test::Environment),
            OpenItem::LetName(_) if left == 0 => Want::Term,
            OpenItem::LetName(_) => Want::Spelled(Test::Label),
            OpenItem::LetType(_, _) => Want::Nullable,
            OpenItem::LetValue(_, _, _) => Want::Term,
            OpenItem::Updating | OpenItem::UpdateValue(_, _) | OpenItem::Boxing => Want::Term,
            OpenItem::UpdatePath(_) => Want::Path,
            OpenItem::Indexing(_) => Want::Index,
            OpenItem::Labels(_) => Want::Spelled(Test::Label),
            OpenItem::Key(_, _) => Want::FreshKey,
            OpenItem::Value(true, _, _) => Want::Nullable,
            OpenItem::Value(false, _, _) => Want::Term,
        }
    }
}

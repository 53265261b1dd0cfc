//! How many expressions stand open.
ghost use Rattle.std.specs.Prelude.{◌≡◌};
ghost use Rattle.dh_reader.specs.Counting.{frame_opens};

use crate::frames::{Frame, Open, Shut};
use dh_making::Makes;

impl<M: Makes> Frame<M> {
    /// How many expressions the place of the frame opens.
    pub(crate) fn opens(&self) -> u32
        ensures { result ≡ frame_opens self.now }
    {
        match self {
            Frame::Open(Open::Left(_, _) | Open::Applied(_) | Open::Merged(_)) => 0,
            Frame::Open(Open::Somed | Open::Mapped | Open::Update(_, _)) => 0,
            Frame::Open(Open::Body(_, _, _) | Open::Target(_) | Open::Otherwise(_, _)) => 1,
            Frame::Open(Open::Bound(_) | Open::Noted(_) | Open::Emptied(_)) => 1,
            Frame::Open(Open::Asserted) => 1,
            Frame::Shut(Shut::First) => 0,
            Frame::Shut(Shut::Bracket | Shut::Domain(_, _) | Shut::Condition) => 1,
            Frame::Shut(Shut::Branch(_) | Shut::LetType(_, _)) => 1,
            Frame::Shut(Shut::LetValue(_, _, _) | Shut::Selected(_)) => 1,
            Frame::Shut(Shut::Items(_, _) | Shut::AlternativeType(_, _, _)) => 1,
            Frame::Shut(Shut::FieldType(_, _, _) | Shut::EntryValue(_, _, _)) => 1,
            Frame::Shut(Shut::Chunk(_, _)) => 1,
        }
    }
}

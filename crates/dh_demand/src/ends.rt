//! What a walk answers.

ghost use Rattle.std.specs.Prelude.{◌≡◌, ◌↔◌, IsTrue};

use crate::scans::Edge;

/// What a walk does next.
#[derive(Clone, Copy, Debug)]
pub enum Next {
    /// It asks the key of this number, which has no outcome yet.
    Need(u32),
    /// Each import that it asks has a value.
    Ready,
    /// It ends at this import, in the fault or the loop that the import comes to.
    Fault(Edge),
}

impl Next {
    /// Whether nothing is left to ask, and nothing failed.
    pub(crate) fn is_ready(&self) -> bool
        ensures { IsTrue result ↔ (self.now ≡ Next.Ready) }
    {
        match self {
            Next::Ready => true,
            Next::Need(_) | Next::Fault(_) => false,
        }
    }
}

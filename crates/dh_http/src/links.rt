//! What a request is sent to and a reply comes from.

ghost use Rattle.std.specs.Prelude.{◌≡◌, ℕ, ◌<◌, ◌≤◌, List, None, Option, length, IfOk, OnOk, OnErr};
ghost use Rattle.std.specs.Io.{ReadsAtMost, WritesAtMost};
ghost use Rattle.std.specs.Io.KnownBytes.{ReadConsumes, WriteAppends};
ghost use Rattle.dh_ports.specs.Counts.{one_more, Rose};

use std::alloc::AllocError;

/// Why a link took nothing or gave nothing.
#[derive(Clone, Copy, Debug, PartialEq, Eq)]
pub enum LinkError {
    /// The device failed.
    Failed,
}

/// Why a request has no answer.
#[derive(Clone, Copy, Debug, PartialEq, Eq)]
pub enum GetError {
    /// The link failed.
    Failed,
    Memory,
}

impl From<AllocError> for GetError {
    ghost use Rattle.dh_http.specs.declared.links.GetError.TheVariants.{Memory};

    ghost from_gives = { λ _ e. e ≡ Memory };

    fn from(_e: AllocError) -> GetError {
        GetError::Memory
    }
}

impl From<LinkError> for GetError {
    ghost use Rattle.dh_http.specs.declared.links.GetError.TheVariants.{Failed};

    ghost from_gives = { λ _ e. e ≡ Failed };

    fn from(_e: LinkError) -> GetError {
        GetError::Failed
    }
}

/// An open connection: what a request is sent to and its reply comes from.
pub trait Link {
    /// What was sent so far, where it is known.
    ghost sent: { Self → Option (List ℕ) } = { λ _. None };

    /// What is left to receive, where it is known.
    ghost left: { Self → Option (List ℕ) } = { λ _. None };

    /// How often it was asked for bytes. It stands still at the last value of a `u64`.
    ghost receives: { Self → ℕ };

    /// How many calls have failed. It stands still at the last value of a `u64`.
    ghost faults: { Self → ℕ };

    /// Takes bytes from the front of the piece, at least one of a nonempty piece, and answers how many. What was sent grows
    /// by just these bytes, and by nothing where the call failed.
    fn send(&mut self, bytes: &[u8]) -> Result<usize, LinkError>
        ensures bound { WritesAtMost result bytes.now }
        ensures goes_on { IfOk result (λ n. 0 < length bytes.now → 0 < n) }
        ensures bytes { WriteAppends (sent self.old) (sent self.new) result bytes.now }
        ensures left { left self.new ≡ left self.old }
        ensures receives { receives self.new ≡ receives self.old }
        ensures quiet { OnOk result (faults self.new ≡ faults self.old) }
        ensures failed { OnErr result (Rose (faults self.old) (faults self.new)) };

    /// Receives into the front of `into` and answers how many bytes came: 0 for a nonempty piece only at the end of the
    /// stream. What is left loses just these bytes, and nothing where the call failed.
    fn receive(&mut self, into: &mut [u8]) -> Result<usize, LinkError>
        ensures bound { ReadsAtMost result into.new }
        ensures bytes { ReadConsumes (left self.old) (left self.new) result into.new }
        ensures sent { sent self.new ≡ sent self.old }
        ensures receives { receives self.new ≡ one_more (receives self.old) }
        ensures quiet { OnOk result (faults self.new ≡ faults self.old) }
        ensures failed { OnErr result (Rose (faults self.old) (faults self.new)) };
}

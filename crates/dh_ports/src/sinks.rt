//! What the command writes to.

ghost use Rattle.std.specs.Prelude.{◌≡◌, ℕ, ◌<◌, ◌≤◌, List, None, Option, length, IfOk, OnOk, OnErr};
ghost use Rattle.std.specs.Io.{WritesAtMost};
ghost use Rattle.std.specs.Io.KnownBytes.{WriteAppends};
ghost use Rattle.dh_ports.specs.Counts.{Rose};

/// Why a write took nothing.
#[derive(Clone, Copy, Debug, PartialEq, Eq)]
pub enum WriteError {
    /// The device failed.
    Failed,
}

/// What bytes are written to, as standard output.
pub trait Sink {
    /// What was written so far, where it is known.
    ghost written: { Self → Option (List ℕ) } = { λ _. None };

    /// How many writes have failed. It stands still at the last value of a `u64`.
    ghost faults: { Self → ℕ };

    /// Takes bytes from the front of the piece, at least one of a nonempty piece, and answers how many. What was
    /// written grows by just these bytes, and by nothing where the write failed. The count of faults rises where the
    /// write failed, and nowhere else.
    fn write(&mut self, bytes: &[u8]) -> Result<usize, WriteError>
        ensures bound { WritesAtMost result bytes.now }
        ensures goes_on { IfOk result (λ n. 0 < length bytes.now → 0 < n) }
        ensures bytes { WriteAppends (written self.old) (written self.new) result bytes.now }
        ensures counted { faults self.old ≤ faults self.new }
        ensures quiet { OnOk result (faults self.new ≡ faults self.old) }
        ensures failed { OnErr result (Rose (faults self.old) (faults self.new)) };
}

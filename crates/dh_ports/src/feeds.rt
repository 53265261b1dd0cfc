//! What the command reads from.

ghost use Rattle.std.specs.Prelude.{◌≡◌, ℕ, ◌≤◌, List, None, Option, OnOk, OnErr};
ghost use Rattle.std.specs.Io.{ReadsAtMost};
ghost use Rattle.std.specs.Io.KnownBytes.{ReadConsumes};
ghost use Rattle.dh_ports.specs.Counts.{Rose};

/// Why a read gave nothing.
#[derive(Clone, Copy, Debug, PartialEq, Eq)]
pub enum ReadError {
    /// The device failed.
    Failed,
}

/// What bytes are read from, as standard input.
pub trait Feed {
    /// What reads will give from here on, where it is known.
    ghost left: { Self → Option (List ℕ) } = { λ _. None };

    /// How many reads have failed. It stands still at the last value of a `u64`.
    ghost faults: { Self → ℕ };

    /// Reads into the front of `into` and answers how many bytes came: 0 for a nonempty piece only at the end.
    /// What is left loses just these bytes, and nothing where the read failed. The count of faults rises where the read
    /// failed, and nowhere else.
    fn read(&mut self, into: &mut [u8]) -> Result<usize, ReadError>
        ensures bound { ReadsAtMost result into.new }
        ensures bytes { ReadConsumes (left self.old) (left self.new) result into.new }
        ensures counted { faults self.old ≤ faults self.new }
        ensures quiet { OnOk result (faults self.new ≡ faults self.old) }
        ensures failed { OnErr result (Rose (faults self.old) (faults self.new)) };
}

//! How many bytes one call of a feed or a sink in memory moves.

ghost use Rattle.std.specs.Prelude.{◌≡◌};
ghost use Rattle.dh_ports.specs.Moves.{moved};

/// How many of so many bytes one call moves: at most one where the device is narrow.
pub(crate) fn moved(narrow: bool, count: usize) -> usize
    ensures { result ≡ moved narrow count }
{
    if narrow { count.min(1) } else { count }
}

//! The calls that a feed or a sink in memory lets fail.

ghost use Rattle.std.specs.Prelude.{◌≡◌, [], Contains, IsTrue, ◌↔◌};
ghost use Rattle.dh_ports.specs.Counts.{one_more, Rose};

use dh_syntax::Many;

/// The numbers, from 1, of the calls that fail.
pub type CallList = Many<u64>;

/// The calls made so far, which of all calls are to fail, and how many did.
#[derive(Debug, Drop)]
pub(crate) struct Calls {
    pub(crate) fails: CallList,
    pub(crate) made: u64,
    pub(crate) failed: u64,
}

impl Calls {
    pub(crate) fn new(fails: CallList) -> Calls
        ensures { result ≡ record { fails = fails; made = 0; failed = 0 } }
    {
        Calls {
            fails,
            made: 0,
            failed: 0,
        }
    }

    /// Counts one more call, and tells whether it is to fail.
    pub(crate) fn next_fails(&mut self) -> bool
        ensures listed { IsTrue result ↔ Contains self.old.fails (one_more self.old.made) }
        ensures counted { self.new ≡ record self.old { made = one_more self.old.made } }
    {
        self.made = self.made.saturating_add(1);
        self.fails.as_slice().contains(&self.made)
    }

    /// Counts one more failure.
    pub(crate) fn count_failure(&mut self)
        ensures counted { self.new ≡ record self.old { failed = one_more self.old.failed } }
        ensures rose { Rose self.old.failed self.new.failed }
    {
        self.failed = self.failed.saturating_add(1);
    }
}

//! What happens between the claim of a fetch and the fetch: nothing, or in a test a wait for another fetch.

use dh_syntax::Loc;
use dh_terms::is_same_loc;
use std::sync::atomic::{AtomicBool, Ordering};

/// What a worker passes before each fetch.
pub trait Gate {
    fn at_fetch(&self, loc: &Loc);
}

/// The gate that does nothing.
#[derive(Clone, Copy, Debug)]
pub struct OpenGate;

impl Gate for OpenGate {
    fn at_fetch(&self, _loc: &Loc) {}
}

/// How often the gate looks whether the other fetch was reached.
const TURNS: u32 = 200_000_000;

/// A gate that holds the fetch of one location until that of another was reached, but not forever. So a test sees whether
/// two fetches are under way at once.
#[derive(Drop)]
pub struct HoldGate {
    held: Loc,
    other: Loc,
    reached: AtomicBool,
    tired: AtomicBool,
}

impl HoldGate {
    /// A gate that holds the fetch of `held` until that of `other` was reached, but not forever.
    pub fn new(held: Loc, other: Loc) -> HoldGate {
        HoldGate {
            held,
            other,
            reached: AtomicBool::new(false),
            tired: AtomicBool::new(false),
        }
    }

    /// Whether the gate stopped waiting before the other fetch was reached.
    pub fn gave_up(&self) -> bool {
        self.tired.load(Ordering::SeqCst)
    }

    /// Waits until the other fetch was reached.
    fn wait(&self) {
        for _ in 0..TURNS {
            if self.reached.load(Ordering::SeqCst) {
                return;
            }
        }
        self.tired.store(true, Ordering::SeqCst);
    }
}

impl Gate for HoldGate {
    fn at_fetch(&self, loc: &Loc) {
        if is_same_loc(loc, &self.other) {
            self.reached.store(true, Ordering::SeqCst);
        }
        if is_same_loc(loc, &self.held) {
            self.wait();
        }
    }
}

#[cfg(test)]
mod tests {
    use super::*;
    use dh_syntax::{Many, Piece};
    use std::alloc::{AllocError, Global};
    use std::test::Fail;

    fn here(alloc: Global, name: &str) -> Result<Loc, AllocError> {
        let comps = Vec::from_array(alloc, [Piece::new(alloc, name)?])?;
        Ok(Loc::Here(Many::of(comps)))
    }

    fn pass<G: Gate>(gate: &G, loc: &Loc) {
        gate.at_fetch(loc);
    }

    #[test]
    fn holds_until_the_other_was_reached(rt: HostRuntime) -> Result<(), Fail> {
        let alloc = rt.alloc();
        let gate = HoldGate::new(here(alloc, "a")?, here(alloc, "b")?);
        pass(&gate, &here(alloc, "c")?);
        pass(&gate, &here(alloc, "b")?);
        pass(&gate, &here(alloc, "a")?);
        assert!(rt; !gate.gave_up());
        let alone = HoldGate::new(here(alloc, "a")?, here(alloc, "b")?);
        pass(&alone, &here(alloc, "a")?);
        assert!(rt; alone.gave_up());
        pass(&OpenGate, &here(alloc, "a")?);
        Ok(())
    }
}

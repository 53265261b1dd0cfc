//! The orders of a script.

ghost use Rattle.std.specs.Prelude.{◌≡◌};
ghost use Rattle.dh_script.specs.Orders.{location_of};

use dh_syntax::{Bytes, Loc};

/// What a line of a script asks for. Its location is canonical, is none of `missing`, and can be spelled.
#[derive(Debug)]
pub enum Order {
    /// The bytes at a location are now these.
    Set(Loc, Bytes),
    /// Nothing is at a location any more.
    Drop(Loc),
    /// What a location is.
    Ask(Loc),
}

impl Order {
    /// The location that it edits or asks.
    pub fn location(&self) -> &Loc
        ensures { result.now ≡ location_of self.now }
    {
        match self {
            Order::Set(loc, _) => loc,
            Order::Drop(loc) => loc,
            Order::Ask(loc) => loc,
        }
    }
}

// Written by hand: a derived one puts the drop of each part inline wherever an order may die.
impl Drop for Order {
    fn drop(self) {
        match self {
            Order::Set(_, _) => {}
            Order::Drop(_) | Order::Ask(_) => {}
        }
    }
}

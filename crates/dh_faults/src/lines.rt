//! The line of a type fault with its place.

ghost use Rattle.std.specs.Prelude.{Some};
ghost use Rattle.dh_command.specs.PlacedFaults.{placed_line};

use crate::places::Position;
use dh_syntax::Ill;
use std::fmt;

/// A type fault and where it stands in the text.
#[derive(Drop)]
pub struct Placed<'a> {
    pub ill: &'a Ill,
    pub place: Position,
}

impl<'a> fmt::Display for Placed<'a> {
    ghost output = { λ fault. Some (placed_line fault.ill.now fault.place.line fault.place.column) };

    fn fmt<W: fmt::Write>(&self, f: &mut fmt::Formatter<W>) -> fmt::Result {
        let ill = self.ill;
        let Position { line, column } = self.place;
        write!(f, "{ill}, line {line}, column {column}")
    }
}

//! What an import asks for.
ghost use Rattle.std.specs.Prelude.{◌≡◌};
ghost use Rattle.dh_making.specs.Words.{source_of};
ghost use Rattle.dh_syntax.specs.Text.Meaning.{location};

use dh_syntax::{Loc, Piece};

/// What an import asks for, as it is written (`import-type`).
#[derive(Debug, Drop)]
pub enum Source {
    Path(Loc),
    Url(Loc),
    Environment(Piece),
    Missing,
}

impl Source {
    pub fn into_location(self) -> Loc
        ensures { result ≡ location (source_of self) }
    {
        match self {
            Source::Path(location) => location,
            Source::Url(location) => location,
            Source::Environment(name) => Loc::Env(name),
            Source::Missing => Loc::Missing,
        }
    }
}

//! What the words of a command line ask for.

use crate::verbs::Verb;

/// A command with its options.
#[derive(Clone, Copy, Debug, PartialEq, Eq)]
pub struct Command {
    pub verb: Verb,
    /// How many workers resolve imports, from 1 to 64.
    pub workers: u32,
}

//! The commands of the command line.

ghost use Rattle.std.specs.Prelude.{◌≡◌};
ghost use Rattle.dh_command.specs.Words.{most_operands, reads, takes_files, takes_number, takes_rule};

use dh_steps::MOST_PLACES;

/// What a command line asks for.
#[derive(Clone, Copy, Debug, PartialEq, Eq)]
pub enum Verb {
    /// The binary form of the expression that the input spells.
    Encode,
    /// The printed text of the expression that the input is the binary form of.
    Decode,
    /// The expression that the input spells, with a value for each import, printed.
    Resolve,
    /// The printed type of the expression that the input spells.
    Type,
    /// The printed normal form of the expression that the input spells.
    Normalize,
    /// The digest of the normal form of the expression that the input spells.
    Hash,
    /// The JSON text of the normal form of the expression that the input spells.
    ToJson,
    /// The input with the digest of its value behind each import that has none.
    Freeze,
    /// For each file that is named, the digest of the normal form of its expression, or why there is none.
    Batch,
    /// The expression that the input spells after one step at each place that is named, and whether it is normal.
    Steps,
    /// How many imports and fetches a list of generated texts takes, and the digest of its normal form.
    Gen,
    /// What a rule of typing wants, or which rules there are.
    Explain,
    /// What the commands and the exit statuses are.
    Help,
    /// The versions of the program and of the standard.
    Version,
}

impl Verb {
    /// Whether the command reads its input.
    pub fn reads(self) -> bool
        ensures { result ≡ reads self }
    {
        match self {
            Verb::Encode | Verb::Decode | Verb::Resolve => true,
            Verb::Type | Verb::Normalize | Verb::Hash | Verb::ToJson => true,
            Verb::Freeze | Verb::Steps => true,
            Verb::Batch | Verb::Gen | Verb::Explain | Verb::Help | Verb::Version => false,
        }
    }

    /// How many places may be the operands of the command.
    pub fn most_operands(self) -> u32
        ensures { result ≡ most_operands self }
    {
        match self {
            Verb::Steps => MOST_PLACES,
            _ => 0,
        }
    }

    /// Whether the operand of the command is the number of a rule of typing.
    pub fn takes_rule(self) -> bool
        ensures { result ≡ takes_rule self }
    {
        match self {
            Verb::Explain => true,
            _ => false,
        }
    }

    /// Whether the operands of the command are files.
    pub fn takes_files(self) -> bool
        ensures { result ≡ takes_files self }
    {
        match self {
            Verb::Batch => true,
            _ => false,
        }
    }

    /// Whether the operand of the command is the number of a generated text.
    pub fn takes_number(self) -> bool
        ensures { result ≡ takes_number self }
    {
        match self {
            Verb::Gen => true,
            _ => false,
        }
    }
}

//! How far a rule of typing goes on what is known.

ghost use Rattle.std.specs.Prelude.{◌≡◌};
ghost use Rattle.dh_syntax.specs.Typing.Universes.{is_type};

use dh_store::CodeId;
use dh_syntax::Builtin;

/// What is known of the parts of a node beside their types, as far as a rule asked for it.
#[derive(Clone, Copy)]
pub struct Found {
    /// The normal forms of the first three parts.
    pub first: Option<CodeId>,
    pub second: Option<CodeId>,
    pub third: Option<CodeId>,
    /// The universes that the types of the first two parts are in, the inner `None` where such a type is in none.
    pub first_universe: Option<Option<Builtin>>,
    pub second_universe: Option<Option<Builtin>>,
}

/// How far a rule goes: to a type, to the number of the rule that fails, or to something that is wanted. The parts of the node
/// are counted from 0.
#[derive(Clone, Copy)]
pub enum Step {
    /// The type is this one, which is in normal form.
    Takes(CodeId),
    /// The type is the normal form of this one.
    Forms(CodeId),
    /// The rule with this number fails.
    Refuses(u8),
    /// The normal form of a part is wanted.
    WantsNormal(u32),
    /// The universe that the type of a part is in is wanted.
    WantsUniverse(u32),
}

/// Whether a type is in the universe Type.
pub fn is_type(universe: Option<Builtin>) -> bool
    ensures { result ≡ is_type universe }
{
    match universe {
        Some(Builtin::TypeConst) => true,
        _ => false,
    }
}

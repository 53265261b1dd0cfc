//! The world of the generated texts.

use dh_ports::World;

/// The world that has the generated texts and nothing else, and no entry in its cache.
#[derive(Clone, Copy, Debug)]
pub struct Gen;

impl World for Gen {
    ghost use Rattle.dh_gen.specs.Generated.{shelved as shelved_under, told as told_at};

    ghost told = { told_at };

    ghost shelved = { shelved_under };
}

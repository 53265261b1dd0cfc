//! The alternatives of unions.
ghost use Rattle.std.specs.Prelude.{◌≡◌, false, IfOk, option_map};
ghost use Rattle.dh_grammar.specs.Stubs.{stubs};
ghost use Rattle.dh_grammar.specs.Making.{so_far};
ghost use Rattle.dh_operands.specs.Operands.{operand_of, note_of};
ghost use Rattle.dh_operands.specs.Rows.{alternatives_of, alternative_rows};
ghost use Rattle.dh_making.specs.Words.{key_of};
ghost use Rattle.dh_syntax.specs.Text.Derivation.{key_label};
ghost use Rattle.dh_syntax.specs.Text.Derived.{among};

use crate::gathering::Gathering;
use crate::operands::Operand;
use crate::parts::Part;
use dh_making::{ByLabel, EntryKey};
use dh_syntax::{Alt, Many, Op};
use std::alloc::{AllocError, Global};

/// The alternatives of a union, each with its type, where it has one, in the order of their labels.
#[derive(Drop)]
pub struct Alternatives {
    by_label: ByLabel<Option<Part>>,
}

impl Alternatives {
    /// One alternative more beside those that there are. A label that is there already stays as it is.
    pub fn add(
        alloc: Global,
        so_far: Option<Alternatives>,
        key: EntryKey,
        annotation: Option<Part>,
    ) -> Result<Alternatives, AllocError>
        ensures { IfOk result (λ a.
            alternatives_of a ≡ stubs.add_alternative (option_map alternatives_of so_far) (key_of key) (note_of annotation)) }
    {
        let mut by_label = rows_so_far(alloc, so_far);
        by_label.insert(key.into_label(alloc)?, annotation)?;
        Ok(Alternatives { by_label })
    }

    /// Whether the key's label is there.
    pub fn contains(&self, alloc: Global, key: &EntryKey) -> Result<bool, AllocError>
        ensures { IfOk result (λ b. b ≡ among (key_label (key_of key.now)) (stubs.alternative_labels (alternatives_of self.now))) }
    {
        self.by_label.contains_key(alloc, key)
    }

    /// The union.
    pub fn union(self, alloc: Global) -> Result<Operand, AllocError>
        ensures { IfOk result (λ x. operand_of x ≡ stubs.union false (alternatives_of self) false) }
    {
        let mut alts = Many::new(alloc);
        let mut types = Gathering::new(alloc);
        for (label, annotation) in self.by_label.into_vec(alloc)? {
            alts.push(Alt {
                label,
                typed: annotation.is_some(),
            })?;
            types.push_if(annotation)?;
        }
        Ok(Operand {
            part: types.finish(alloc, Op::Union(alts)),
            level: 17,
        })
    }
}

/// The alternatives that there are.
fn rows_so_far(alloc: Global, alternatives: Option<Alternatives>) -> ByLabel<Option<Part>>
    ensures { alternative_rows result ≡ so_far (option_map alternatives_of alternatives) }
{
    match alternatives {
        Some(alternatives) => alternatives.by_label,
        None => ByLabel::new(alloc),
    }
}

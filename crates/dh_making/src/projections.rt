//! The labels of projections.
ghost use Rattle.std.specs.Prelude.{◌≡◌, IfOk};
ghost use Rattle.dh_making.specs.Words.{key_of, keys_of};
ghost use Rattle.dh_syntax.specs.Text.Meaning.{sorted};

use crate::keys::Keys;
use crate::labels::ByLabel;
use crate::words::EntryKey;
use dh_syntax::{Labels, Many};
use std::alloc::{AllocError, Global};

/// The keys of `x.{ a, b }` in the order in which they are written, with a set of their labels.
#[derive(Drop)]
pub struct Projection {
    keys: Keys,
    labels: ByLabel<()>,
    ghost same: { labels ≡ sorted (keys_of keys) },
}

impl Projection {
    ghost use Rattle.dh_grammar.specs.Stubs.{stubs};
    ghost use Rattle.dh_making.specs.Projections.{projection_of};
    ghost use Rattle.dh_syntax.specs.Text.Derivation.{key_label, labels, one_key, more_keys};
    ghost use Rattle.dh_syntax.specs.Text.Derived.{among};
    ghost use Rattle.dh_syntax.specs.Text.Meaning.{names};

    /// One key.
    pub fn one(alloc: Global, key: EntryKey) -> Result<Projection, AllocError>
        ensures { IfOk result (λ p. projection_of p ≡ one_key (key_of key)) }
    {
        let mut labels = ByLabel::new(alloc);
        labels.insert(key.copy_label(alloc)?, ())?;
        Ok(Projection {
            keys: Keys::one(alloc, key),
            labels,
        })
    }

    /// One key more, at the end.
    pub fn add(self, alloc: Global, key: EntryKey) -> Result<Projection, AllocError>
        ensures { IfOk result (λ p. projection_of p ≡ more_keys (projection_of self) (key_of key)) }
    {
        let Projection {
            mut keys,
            mut labels,
        } = self;
        labels.insert(key.copy_label(alloc)?, ())?;
        keys.push(key)?;
        Ok(Projection { keys, labels })
    }

    /// Whether the key's label is there.
    pub fn contains(&self, alloc: Global, key: &EntryKey) -> Result<bool, AllocError>
        ensures { IfOk result (λ b. b ≡ among (key_label (key_of key.now)) (labels (projection_of self.now))) }
    {
        self.labels.contains_key(alloc, key)
    }

    /// The labels, in their order.
    pub fn into_labels(self, alloc: Global) -> Result<Labels, AllocError>
        ensures { IfOk result (λ ls. ls ≡ names (sorted (projection_of self))) }
    {
        let mut labels = Many::new(alloc);
        for (label, _) in self.labels.into_vec(alloc)? {
            labels.push(label)?;
        }
        Ok(labels)
    }
}

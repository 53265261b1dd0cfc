//! Keys in a row, as `a.b.c`.
ghost use Rattle.std.specs.Prelude.{◌≡◌, IfOk, OnOk, option_map};
ghost use Rattle.dh_grammar.specs.Machine.{one_of};
ghost use Rattle.dh_making.specs.Words.{key_of, keys_of, keys_on};
ghost use Rattle.dh_syntax.specs.Text.Derivation.{labels, more_keys, one_key};
ghost use Rattle.dh_syntax.specs.Text.Noting.{keys_len};

use crate::words::EntryKey;
use dh_syntax::{Labels, Many};
use std::alloc::{AllocError, Global};

/// One key or more, in the order in which they are written.
#[derive(Drop)]
pub struct Keys {
    first: EntryKey,
    more: Vec<EntryKey>,
}

impl Keys {
    /// One key. It takes no memory.
    pub fn one(alloc: Global, key: EntryKey) -> Keys
        ensures { keys_of result ≡ one_key (key_of key) }
    {
        Keys {
            first: key,
            more: Vec::new(alloc),
        }
    }

    /// One key more, at the end.
    pub fn push(&mut self, key: EntryKey) -> Result<(), AllocError>
        ensures { OnOk result (keys_of self.new ≡ more_keys (keys_of self.old) (key_of key)) }
    {
        self.more.push(key)?;
        Ok(())
    }

    /// How many tokens they take: each key but the first stands behind a dot.
    pub fn token_count(&self) -> usize
        ensures { result ≡ keys_len (keys_of self.now) }
    {
        self.more.as_slice().len() * 2 + 1
    }

    /// The key, where there is but one.
    pub fn into_only(self) -> Option<EntryKey>
        ensures { option_map key_of result ≡ one_of (keys_of self) }
    {
        let Keys { first, more } = self;
        if more.as_slice().is_empty() {
            Some(first)
        } else {
            None
        }
    }

    /// The first key, and those behind it in their order.
    pub fn into_parts(self) -> (EntryKey, Vec<EntryKey>)
        ensures { keys_of self ≡ keys_on (one_key (key_of result.0)) result.1.items }
    {
        let Keys { first, more } = self;
        (first, more)
    }

    /// The labels, in the order in which they are written.
    pub fn into_labels(self, alloc: Global) -> Result<Labels, AllocError>
        ensures { IfOk result (λ ls. ls ≡ labels (keys_of self)) }
    {
        let Keys { first, more } = self;
        let mut labels = Many::new(alloc);
        labels.push(first.into_label(alloc)?)?;
        for key in more {
            labels.push(key.into_label(alloc)?)?;
        }
        Ok(labels)
    }
}

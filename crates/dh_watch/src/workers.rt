//! What is done with texts and with items.

use dh_ports::Got;
use dh_record::{Done, Item, Parsed};
use dh_syntax::Loc;
use std::alloc::{AllocError, Global};

/// Parses texts, and makes the last steps of keys.
pub trait Worker {
    ghost use Rattle.std.specs.Prelude.{◌≡◌, IfOk};
    ghost use Rattle.dh_record.specs.Brought.{IsScanned};
    ghost use Rattle.dh_record.specs.declared.news.Noted.TheVariants as noteds;
    ghost use Rattle.dh_record.specs.Values.{IsFit};

    /// What found bytes parse to, with the keys of their imports.
    fn scan(&self, alloc: Global, loc: &Loc, got: &Got) -> Result<Option<Parsed>, AllocError>
        ensures { IfOk result (λ scan. IsScanned loc.now (noteds.Got got.now) scan) };

    /// What comes of an item.
    fn last(&self, alloc: Global, item: Item) -> Result<Done, AllocError>
        requires { IsFit item.body }
        ensures { IfOk result (λ done. done.item ≡ item) };
}

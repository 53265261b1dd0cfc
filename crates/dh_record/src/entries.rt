//! Cache entries.

ghost use Rattle.std.specs.Prelude.{◌≡◌};
ghost use Rattle.dh_syntax.specs.Expressions.Arity.{IsWellFormed};
ghost use Rattle.dh_syntax.specs.Expressions.Bridge.{term};
ghost use Rattle.dh_record.specs.Entries.{IsGoodEntry};
ghost use Rattle.dh_record.specs.Values.{IsValue};

use dh_syntax::{Bytes, Digest, Expr};
use std::marker::Model;

/// A good entry of the cache: its bytes have its digest, and are an expression without imports and free variables.
#[derive(Debug, Drop)]
pub struct Entry {
    digest: Digest,
    bytes: Bytes,
    expr: Expr,
}

impl Model for Entry {
    ghost use Rattle.dh_syntax.specs.contracts.expressions.Expr as e;
    ghost use Rattle.std.specs.Coded.{codes};
    ghost use Rattle.dh_syntax.specs.Expressions.Arity.{IsWellFormed};
    ghost use Rattle.dh_syntax.specs.Expressions.Bridge.{term};
    ghost use Rattle.dh_record.specs.Entries.{EntryParts, IsGoodEntry};

    ghost Value = { EntryParts };

    ghost coded = { Prim.hlevel (codes, e.the_row.coded) };

    ghost view = { λ a. record { digest = a.digest; bytes = a.bytes; expr = a.expr } };

    ghost invariant = { λ a. IsGoodEntry a.digest a.bytes a.expr × IsWellFormed (term a.expr) };
}

impl Entry {
    /// The entry with these parts, which are those of a good one.
    pub fn of(digest: Digest, bytes: Bytes, expr: Expr) -> Entry
        requires good { IsGoodEntry digest bytes expr }
        requires well_formed { IsWellFormed (term expr) }
        ensures { result ≡ record { digest = digest; bytes = bytes; expr = expr } }
    {
        Entry {
            digest,
            bytes,
            expr,
        }
    }

    /// The digest of its bytes.
    pub fn digest(&self) -> Digest
        ensures { result ≡ self.now.digest }
    {
        self.digest
    }

    /// The bytes of the entry.
    pub fn bytes(&self) -> &Bytes
        ensures { result.now ≡ self.now.bytes }
    {
        &self.bytes
    }

    /// The expression that its bytes are.
    pub fn expr(&self) -> &Expr
        ensures { result.now ≡ self.now.expr }
    {
        &self.expr
    }

    /// States that it is a good entry. Does nothing: a caller's proof uses it.
    pub fn by_digest(&self)
        ensures { IsGoodEntry self.now.digest self.now.bytes self.now.expr }
    {
        let _bytes = &self.bytes;
    }

    /// States that its expression is a value. Does nothing: a caller's proof uses it.
    pub fn by_value(&self)
        ensures { IsValue (term self.now.expr) }
    {
        let _expr = &self.expr;
    }
}

/// What was found under a digest.
#[derive(Debug, Drop)]
pub enum Seen {
    Good(Entry),
    /// No good entry.
    Miss,
    /// The device failed.
    Failed,
}

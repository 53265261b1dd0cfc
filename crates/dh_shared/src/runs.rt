//! Of which run a shared table is.

use std::marker::Brand;

/// The root of a run. No clause can follow a table that lies under a lock, so the type of a shared table says of which root it is;
/// who makes one picks it.
pub trait Rooted {
    ghost use Rattle.dh_syntax.specs.declared.expressions.Expr.{Expr};

    ghost root: { Expr };
}

impl Rooted for Brand {
    ghost use Rattle.std.specs.Prelude.{[]};
    ghost use Rattle.dh_syntax.specs.declared.expressions.Expr.TheVariants.{Node};
    ghost use Rattle.dh_syntax.specs.declared.expressions.Op.TheVariants as ops;

    ghost root = { Node ops.List [] };
}

/// The eight ledgers of a run. A type over them cannot say of which root it is, so these are two parameters.
pub trait Counted {
    ghost use Rattle.dh_shared.specs.Ledgers.{Ledgers};

    ghost ledgers: { Ledgers };
}

impl Counted for Brand {
    ghost ledgers = { record { parts = 0; claims = 0; kept = 0; releases = 0; lates = 0; fetches = 0; failed = 0; overs = 0; returns = 0 } };
}

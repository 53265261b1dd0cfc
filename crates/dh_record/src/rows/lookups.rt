//! What is recorded at a location, and under a digest. It is found by the order of its number.

ghost use Rattle.std.specs.Prelude.{◌≡◌, List, All, map, reverse, IfSome};
ghost use Rattle.std.specs.Option.{option_copied, option_map};
ghost use Rattle.dh_syntax.specs.Expressions.SameTree.{digest_eq, loc_eq};
ghost use Rattle.dh_imports.specs.Records.{lookup};
ghost use Rattle.dh_demand.specs.Results.{Row};
ghost use Rattle.dh_record.specs.Reading.{noted_of, seen_of, IsReadAt, IsRead};
ghost use Rattle.dh_record.specs.Sorting.{IsOrder, rank_of_look, rank_of_text};
ghost use Rattle.dh_record.specs.Rows.{text_of, look_of};

use crate::rows::{LocProbe, Look, LookProbe, Order, Text};
use dh_syntax::{Digest, Loc};
use std::marker::Model;

/// The recorded texts, each at a location of its own.
#[derive(Drop)]
pub struct Texts<'a> {
    rows: &'a [Text],
    // their numbers in the order of the locations
    order: &'a Order,
}

impl<'a> Model for Texts<'a> {
    ghost use Rattle.dh_syntax.specs.contracts.expressions.Expr as e;
    ghost use Rattle.std.specs.Coded.{codes};
    ghost use Rattle.std.specs.Prelude.{List, map};
    ghost use Rattle.dh_record.specs.declared.rows.recorded.Text.{Text};
    ghost use Rattle.dh_record.specs.Sorting.{IsOrder, rank_of_text};

    ghost Value = { List Text };

    ghost coded = { Prim.hlevel (codes, e.the_row.coded) };

    ghost view = { λ t. t.rows.now };

    ghost invariant = { λ t. IsOrder (map rank_of_text t.rows.now) t.order.now.numbers.items };
}

impl<'a> Texts<'a> {
    /// These texts with this order.
    pub fn of(rows: &'a [Text], order: &'a Order) -> Texts<'a>
        requires { IsOrder (map rank_of_text rows.now) order.now.numbers.items }
        ensures { result ≡ rows.now }
    {
        Texts { rows, order }
    }
}

/// The recorded looks, each under a digest of its own.
#[derive(Drop)]
pub struct Looks<'a> {
    rows: &'a [Look],
    // their numbers in the order of the digests
    order: &'a Order,
}

impl<'a> Model for Looks<'a> {
    ghost use Rattle.dh_syntax.specs.contracts.expressions.Expr as e;
    ghost use Rattle.std.specs.Coded.{codes};
    ghost use Rattle.std.specs.Prelude.{List, map};
    ghost use Rattle.dh_record.specs.declared.rows.recorded.Look.{Look};
    ghost use Rattle.dh_record.specs.Sorting.{IsOrder, rank_of_look};

    ghost Value = { List Look };

    ghost coded = { Prim.hlevel (codes, e.the_row.coded) };

    ghost view = { λ t. t.rows.now };

    ghost invariant = { λ t. IsOrder (map rank_of_look t.rows.now) t.order.now.numbers.items };
}

impl<'a> Looks<'a> {
    /// These looks with this order.
    pub fn of(rows: &'a [Look], order: &'a Order) -> Looks<'a>
        requires { IsOrder (map rank_of_look rows.now) order.now.numbers.items }
        ensures { result ≡ rows.now }
    {
        Looks { rows, order }
    }
}

/// The text that is recorded at a location.
pub fn text_at<'a>(texts: &Texts<'a>, loc: &Loc) -> Option<&'a Text>
    ensures noted { option_map noted_of (option_copied result) ≡ lookup loc_eq (reverse (map text_of texts.now)) loc.now }
    ensures read { (rows : List Row) → All (IsRead rows) texts.now → IfSome (option_copied result) (IsReadAt rows loc.now) }
{
    let rows = texts.rows;
    match texts.order.find(&LocProbe { rows, loc }) {
        None => None,
        Some(number) => Some(&rows[number as usize]),
    }
}

/// What is recorded under a digest.
pub fn look_at<'a>(looks: &Looks<'a>, digest: &Digest) -> Option<&'a Look>
    ensures { option_map seen_of (option_copied result) ≡ lookup digest_eq (reverse (map look_of looks.now)) digest.now }
{
    let rows = looks.rows;
    match looks.order.find(&LookProbe { rows, digest }) {
        None => None,
        Some(number) => Some(&rows[number as usize]),
    }
}

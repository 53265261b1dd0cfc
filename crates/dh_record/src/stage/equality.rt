//! Whether two faults or origins are equal.

ghost use Rattle.std.specs.Prelude.{◌≡◌};
ghost use Rattle.std.specs.Option.{option_copied};
ghost use Rattle.dh_syntax.specs.Expressions.Numbers.{bytes_eq};
ghost use Rattle.dh_syntax.specs.Expressions.SameTree.{option_eq, digest_eq};
ghost use Rattle.dh_imports.specs.declared.outcomes.Why.TheVariants as whys;
ghost use Rattle.dh_syntax.specs.Imports.Keys.{key_eq};
ghost use Rattle.dh_record.specs.Inside.Equal.{parse_eq, type_eq, norm_eq, why_eq, fault_eq, origin_eq};

use dh_imports::{Blame, Origin, Why};
use dh_syntax::{Bytes, Digest, Key, Loc, NormFault, ParseFault, TypeFault};
use dh_terms::{is_same_key, is_same_loc};

/// Whether the bytes are equal.
pub fn is_same_bytes(a: &Bytes, b: &Bytes) -> bool
    ensures { result ≡ bytes_eq a.now b.now }
{
    a.as_slice() == b.as_slice()
}

/// Whether two allowed origins are equal.
pub fn is_same_allow(a: &Option<Bytes>, b: &Option<Bytes>) -> bool
    ensures { result ≡ option_eq bytes_eq a.now b.now }
{
    match (a, b) {
        (Some(a), Some(b)) => is_same_bytes(a, b),
        (None, None) => true,
        _ => false,
    }
}

/// Whether two origins are equal.
pub fn is_same_origin(o: &Origin, p: &Origin) -> bool
    ensures { result ≡ origin_eq o.now p.now }
{
    match (o, p) {
        (Origin::Fetched(a), Origin::Fetched(b)) => is_same_allow(a, b),
        (Origin::Cached, Origin::Cached) => true,
        (Origin::Made, Origin::Made) => true,
        _ => false,
    }
}

/// Whether this is a fault of this item, for this reason.
pub fn is_fault_of(at: Option<&Key>, why: &Why, blame: &Blame) -> bool
    ensures { result ≡ fault_eq (option_copied at.entry) why.now blame.now.at blame.now.why }
{
    is_same_why(why, &blame.why) && is_key_of(at, &blame.at)
}

/// Whether the two keys, where they are there, are equal.
pub fn is_key_of(at: Option<&Key>, other: &Option<Key>) -> bool
    ensures { result ≡ option_eq key_eq (option_copied at.entry) other.now }
{
    match (at, other) {
        (Some(key), Some(other)) => is_same_key(key, other),
        (None, None) => true,
        (Some(_), None) | (None, Some(_)) => false,
    }
}

fn is_same_digest(d: &Digest, e: &Digest) -> bool
    ensures { result ≡ digest_eq d.now e.now }
{
    d.0 == e.0
}

fn is_same_parse(f: ParseFault, g: ParseFault) -> bool
    ensures { result ≡ parse_eq f g }
{
    match (f, g) {
        (ParseFault::NotUtf8(m), ParseFault::NotUtf8(n)) => m == n,
        (ParseFault::Syntax(m), ParseFault::Syntax(n)) => m == n,
        (ParseFault::Wide(m), ParseFault::Wide(n)) => m == n,
        (ParseFault::Out(m), ParseFault::Out(n)) => m == n,
        (ParseFault::TooLarge, ParseFault::TooLarge) => true,
        (ParseFault::TooNested, ParseFault::TooNested) => true,
        (ParseFault::Memory, ParseFault::Memory) => true,
        _ => false,
    }
}

fn is_same_type_fault(f: &TypeFault, g: &TypeFault) -> bool
    ensures { result ≡ type_eq f.now g.now }
{
    match (f, g) {
        (TypeFault::Ill(i), TypeFault::Ill(j)) => {
            is_same_path(i.path.as_slice(), j.path.as_slice()) && i.rule == j.rule
        }
        (TypeFault::Wide, TypeFault::Wide) => true,
        (TypeFault::Spent, TypeFault::Spent) => true,
        (TypeFault::Deep, TypeFault::Deep) => true,
        (TypeFault::Memory, TypeFault::Memory) => true,
        _ => false,
    }
}

fn is_same_path(p: &[u32], q: &[u32]) -> bool
    ensures { result ≡ bytes_eq p.now q.now }
{
    p == q
}

fn is_same_norm(f: NormFault, g: NormFault) -> bool
    ensures { result ≡ norm_eq f g }
{
    f == g
}

fn is_same_why(v: &Why, w: &Why) -> bool
    ensures { result ≡ why_eq v.now w.now }
{
    match (v, w) {
        (Why::Parse(f), Why::Parse(g)) => is_same_parse(*f, *g),
        (Why::Typing(f), Why::Typing(g)) => is_same_type_fault(f, g),
        (Why::Norm(f), Why::Norm(g)) => is_same_norm(*f, *g),
        (Why::Absent, Why::Absent) => true,
        (Why::Missing, Why::Missing) => true,
        (Why::Broken(m), Why::Broken(n)) => m == n,
        (Why::Https, Why::Https) => true,
        (Why::Failed, Why::Failed) => true,
        (
            Why::Differs { wanted, got },
            Why::Differs {
                wanted: want,
                got: have,
            },
        ) => { is_same_digest(wanted, want) && is_same_digest(got, have) }
        (Why::Insane(l), Why::Insane(m)) => is_same_loc(l, m),
        (Why::Cors(l), Why::Cors(m)) => is_same_loc(l, m),
        (Why::Cycle, Why::Cycle) => true,
        (Why::TooMany, Why::TooMany) => true,
        _ => false,
    }
}

/// Whether the fault is that this location may not be imported.
pub fn is_insane_at(loc: &Loc, why: &Why) -> bool
    ensures { result ≡ why_eq (whys.Insane loc.now) why.now }
{
    match why {
        Why::Insane(other) => is_same_loc(loc, other),
        Why::Parse(_) | Why::Norm(_) | Why::Typing(_) => false,
        Why::Absent | Why::Missing | Why::Broken(_) | Why::Https | Why::Failed => false,
        Why::Differs { wanted: _, got: _ } => false,
        Why::Cors(_) | Why::Cycle | Why::TooMany => false,
    }
}

/// Whether the fault is that a cross-origin import of this location is refused.
pub fn is_barred_at(loc: &Loc, why: &Why) -> bool
    ensures { result ≡ why_eq (whys.Cors loc.now) why.now }
{
    match why {
        Why::Cors(other) => is_same_loc(loc, other),
        Why::Parse(_) | Why::Norm(_) | Why::Typing(_) => false,
        Why::Absent | Why::Missing | Why::Broken(_) | Why::Https | Why::Failed => false,
        Why::Differs { wanted: _, got: _ } => false,
        Why::Insane(_) | Why::Cycle | Why::TooMany => false,
    }
}

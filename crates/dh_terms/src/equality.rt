//! Whether two nodes are of the same kind, with the same labels and values.

ghost use Rattle.std.specs.Prelude.{◌≡◌};
ghost use Rattle.dh_syntax.specs.Expressions.Numbers.{bytes_eq};
ghost use Rattle.dh_syntax.specs.Expressions.SameTree.{list_eq, option_eq, alt_eq, url_eq, loc_eq, digest_eq, mode_eq, import_eq, builtin_eq, bin_eq, op_eq};
ghost use Rattle.dh_syntax.specs.Imports.Keys.{key_eq};

use crate::binders::is_same_label;
use dh_syntax::{Alt, BinOp, Builtin, Digest, Import, Key, Label, Loc, Mode, Op, Piece, Url};

/// Whether the two pieces are equal.
fn is_same_piece(p: &Piece, q: &Piece) -> bool
    ensures { result ≡ bytes_eq p.now q.now }
{
    p.as_str() == q.as_str()
}

/// Whether the two lists of labels are equal.
fn are_same_labels(xs: &[Label], ys: &[Label]) -> bool
    ensures { result ≡ list_eq bytes_eq xs.now ys.now }
{
    if xs.len() != ys.len() {
        return false;
    }
    for i in 0..xs.len() {
        if !is_same_label(&xs[i], &ys[i]) {
            return false;
        }
    }
    true
}

/// Whether the two lists of pieces are equal.
fn are_same_pieces(ps: &[Piece], qs: &[Piece]) -> bool
    ensures { result ≡ list_eq bytes_eq ps.now qs.now }
{
    if ps.len() != qs.len() {
        return false;
    }
    for i in 0..ps.len() {
        if !is_same_piece(&ps[i], &qs[i]) {
            return false;
        }
    }
    true
}

/// Whether the two alternatives are equal.
fn is_same_alt(a: &Alt, b: &Alt) -> bool
    ensures { result ≡ alt_eq a.now b.now }
{
    is_same_label(&a.label, &b.label) && a.typed == b.typed
}

/// Whether the two lists of alternatives are equal.
fn are_same_alts(xs: &[Alt], ys: &[Alt]) -> bool
    ensures { result ≡ list_eq alt_eq xs.now ys.now }
{
    if xs.len() != ys.len() {
        return false;
    }
    for i in 0..xs.len() {
        if !is_same_alt(&xs[i], &ys[i]) {
            return false;
        }
    }
    true
}

/// Whether the two texts, where they are there, are equal.
fn is_same_query(p: &Option<Piece>, q: &Option<Piece>) -> bool
    ensures { result ≡ option_eq bytes_eq p.now q.now }
{
    match (p, q) {
        (Some(p), Some(q)) => is_same_piece(p, q),
        (None, None) => true,
        _ => false,
    }
}

/// Whether the two URLs are equal.
fn is_same_url(u: &Url, v: &Url) -> bool
    ensures { result ≡ url_eq u.now v.now }
{
    is_same_piece(&u.host, &v.host)
        && are_same_pieces(u.comps.as_slice(), v.comps.as_slice())
        && is_same_query(&u.query, &v.query)
}

/// Whether the two locations are equal.
pub fn is_same_loc(a: &Loc, b: &Loc) -> bool
    ensures { result ≡ loc_eq a.now b.now }
{
    match (a, b) {
        (Loc::Abs(x), Loc::Abs(y)) => are_same_pieces(x.as_slice(), y.as_slice()),
        (Loc::Here(x), Loc::Here(y)) => are_same_pieces(x.as_slice(), y.as_slice()),
        (Loc::Parent(x), Loc::Parent(y)) => are_same_pieces(x.as_slice(), y.as_slice()),
        (Loc::Home(x), Loc::Home(y)) => are_same_pieces(x.as_slice(), y.as_slice()),
        (Loc::Http(x), Loc::Http(y)) => is_same_url(x, y),
        (Loc::Https(x), Loc::Https(y)) => is_same_url(x, y),
        (Loc::Env(x), Loc::Env(y)) => is_same_piece(x, y),
        (Loc::Missing, Loc::Missing) => true,
        _ => false,
    }
}

/// Whether the two digests, where they are there, are equal.
fn is_same_digest(d: &Option<Digest>, e: &Option<Digest>) -> bool
    ensures { result ≡ option_eq digest_eq d.now e.now }
{
    match (d, e) {
        (Some(d), Some(e)) => d.0 == e.0,
        (None, None) => true,
        _ => false,
    }
}

/// Whether the two modes are equal.
fn is_same_mode(m: Mode, n: Mode) -> bool
    ensures { result ≡ mode_eq m n }
{
    m == n
}

/// Whether the two keys are equal.
pub fn is_same_key(j: &Key, k: &Key) -> bool
    ensures { result ≡ key_eq j.now k.now }
{
    is_same_loc(&j.loc, &k.loc)
        && is_same_mode(j.mode, k.mode)
        && is_same_digest(&j.digest, &k.digest)
}

/// Whether the two imports are equal.
fn is_same_import(i: &Import, j: &Import) -> bool
    ensures { result ≡ import_eq i.now j.now }
{
    is_same_loc(&i.loc, &j.loc)
        && is_same_mode(i.mode, j.mode)
        && is_same_digest(&i.digest, &j.digest)
}

/// Whether the two built-in names are equal.
fn is_same_builtin(b: Builtin, c: Builtin) -> bool
    ensures { result ≡ builtin_eq b c }
{
    b == c
}

/// Whether the two operators between expressions are equal.
fn is_same_bin(o: BinOp, p: BinOp) -> bool
    ensures { result ≡ bin_eq o p }
{
    o == p
}

/// Whether the two operators are equal.
pub fn is_same_op(o: &Op, p: &Op) -> bool
    ensures { result ≡ op_eq o.now p.now }
{
    match (o, p) {
        (Op::Builtin(b), Op::Builtin(c)) => is_same_builtin(*b, *c),
        (Op::Bool(b), Op::Bool(c)) => b == c,
        (Op::Nat(m), Op::Nat(n)) => m == n,
        (Op::Int(m), Op::Int(n)) => m == n,
        (Op::Text(x), Op::Text(y)) => are_same_pieces(x.as_slice(), y.as_slice()),
        (Op::Import(i), Op::Import(j)) => is_same_import(i.get(), j.get()),
        (Op::Lam, Op::Lam) => true,
        (Op::Pi, Op::Pi) => true,
        (Op::Let(b), Op::Let(c)) => b == c,
        (Op::App, Op::App) => true,
        (Op::If, Op::If) => true,
        (Op::Bin(o), Op::Bin(p)) => is_same_bin(*o, *p),
        (Op::EmptyList, Op::EmptyList) => true,
        (Op::List, Op::List) => true,
        (Op::Some, Op::Some) => true,
        (Op::Merge(b), Op::Merge(c)) => b == c,
        (Op::RecordType(x), Op::RecordType(y)) => are_same_labels(x.as_slice(), y.as_slice()),
        (Op::Record(x), Op::Record(y)) => are_same_labels(x.as_slice(), y.as_slice()),
        (Op::Field(x), Op::Field(y)) => is_same_label(x, y),
        (Op::Project(x), Op::Project(y)) => are_same_labels(x.as_slice(), y.as_slice()),
        (Op::ProjectType, Op::ProjectType) => true,
        (Op::Union(x), Op::Union(y)) => are_same_alts(x.as_slice(), y.as_slice()),
        (Op::Assert, Op::Assert) => true,
        (Op::Annot, Op::Annot) => true,
        (Op::ToMap(b), Op::ToMap(c)) => b == c,
        (Op::With(x), Op::With(y)) => are_same_labels(x.as_slice(), y.as_slice()),
        _ => false,
    }
}

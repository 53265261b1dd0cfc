//! The order of keys: by the text of the location, the mode and the digest, and where these agree by the parts of the location.

ghost use Rattle.std.specs.Prelude.{◌≡◌, ◌∷◌, []};
ghost use Rattle.dh_syntax.specs.declared.locations.Loc.TheVariants as locs;
ghost use Rattle.dh_syntax.specs.Bytes.Binary.{mode_code};
ghost use Rattle.dh_syntax.specs.Expressions.Numbers.{bytes_eq};
ghost use Rattle.dh_syntax.specs.Expressions.Order.{before};
ghost use Rattle.dh_syntax.specs.Imports.Keys.{texts_before, key_le, key_rank, digest_rank, loc_rank, query_rank};
ghost use Rattle.dh_syntax.specs.Imports.Locations.{loc_text};

use crate::rows::Entrant;
use dh_syntax::{Comps, Digest, Key, Loc, Mode, Piece, Url};

/// Whether a key comes before another or is it.
pub fn is_at_most(j: &Entrant, k: &Entrant) -> bool
    requires left { j.now.text ≡ loc_text j.now.key.loc }
    requires right { k.now.text ≡ loc_text k.now.key.loc }
    ensures { result ≡ key_le j.now.key k.now.key }
{
    !(is_before(&k.text, &j.text) || is_same(&k.text, &j.text) && is_key_before(&k.key, &j.key))
}

/// Whether a key comes before another one whose location has the same text.
pub fn is_key_before(j: &Key, k: &Key) -> bool
    ensures { result ≡ texts_before ((mode_code j.now.mode ∷ []) ∷ digest_rank j.now.digest ∷ loc_rank j.now.loc) ((mode_code k.now.mode ∷ []) ∷ digest_rank k.now.digest ∷ loc_rank k.now.loc) }
{
    is_mode_before(j.mode, k.mode) || is_same_mode(j.mode, k.mode) && is_frozen_before(j, k)
}

fn is_frozen_before(j: &Key, k: &Key) -> bool
    ensures { result ≡ texts_before (digest_rank j.now.digest ∷ loc_rank j.now.loc) (digest_rank k.now.digest ∷ loc_rank k.now.loc) }
{
    is_digest_before(&j.digest, &k.digest)
        || is_same_digest(&j.digest, &k.digest) && is_loc_before(&j.loc, &k.loc)
}

fn is_before(x: &Piece, y: &Piece) -> bool
    ensures { result ≡ before x.now y.now }
{
    x.as_str() < y.as_str()
}

fn is_same(x: &Piece, y: &Piece) -> bool
    ensures { result ≡ bytes_eq x.now y.now }
{
    x.as_str() == y.as_str()
}

fn is_mode_before(m: Mode, n: Mode) -> bool
    ensures { result ≡ before (mode_code m ∷ []) (mode_code n ∷ []) }
{
    match m {
        Mode::Code => match n {
            Mode::Code => false,
            Mode::Text | Mode::Location => true,
        },
        Mode::Text => match n {
            Mode::Code | Mode::Text => false,
            Mode::Location => true,
        },
        Mode::Location => false,
    }
}

fn is_same_mode(m: Mode, n: Mode) -> bool
    ensures { result ≡ bytes_eq (mode_code m ∷ []) (mode_code n ∷ []) }
{
    match m {
        Mode::Code => match n {
            Mode::Code => true,
            Mode::Text | Mode::Location => false,
        },
        Mode::Text => match n {
            Mode::Text => true,
            Mode::Code | Mode::Location => false,
        },
        Mode::Location => match n {
            Mode::Location => true,
            Mode::Code | Mode::Text => false,
        },
    }
}

/// Whether a digest comes before another; none comes before each.
pub fn is_digest_before(d: &Option<Digest>, e: &Option<Digest>) -> bool
    ensures { result ≡ before (digest_rank d.now) (digest_rank e.now) }
{
    match d {
        None => match e {
            None => false,
            Some(_) => true,
        },
        Some(d) => match e {
            None => false,
            Some(e) => d.0.cmp(&e.0).is_lt(),
        },
    }
}

/// Whether the bytes of a digest come before those of another.
pub fn is_bytes_before(d: &Digest, e: &Digest) -> bool
    ensures { result ≡ before d.now.0 e.now.0 }
{
    d.0.cmp(&e.0).is_lt()
}

fn is_same_digest(d: &Option<Digest>, e: &Option<Digest>) -> bool
    ensures { result ≡ bytes_eq (digest_rank d.now) (digest_rank e.now) }
{
    match d {
        None => match e {
            None => true,
            Some(_) => false,
        },
        Some(d) => match e {
            None => false,
            Some(e) => d.0 == e.0,
        },
    }
}

fn is_query_before(p: &Option<Piece>, q: &Option<Piece>) -> bool
    ensures { result ≡ before (query_rank p.now) (query_rank q.now) }
{
    match p {
        None => match q {
            None => false,
            Some(_) => true,
        },
        Some(p) => match q {
            None => false,
            Some(q) => is_before(p, q),
        },
    }
}

fn is_same_query(p: &Option<Piece>, q: &Option<Piece>) -> bool
    ensures { result ≡ bytes_eq (query_rank p.now) (query_rank q.now) }
{
    match p {
        None => match q {
            None => true,
            Some(_) => false,
        },
        Some(p) => match q {
            None => false,
            Some(q) => is_same(p, q),
        },
    }
}

// Whether the first list of texts comes before the second.
fn are_before(x: &[Piece], y: &[Piece]) -> bool
    ensures { result ≡ texts_before x.now y.now }
{
    match x {
        [] => match y {
            [] => false,
            [_first, ..] => true,
        },
        [p, xs @ ..] => match y {
            [] => false,
            [q, ys @ ..] => is_before(p, q) || is_same(p, q) && are_before(xs, ys),
        },
    }
}

fn is_url_before(u: &Url, v: &Url) -> bool
    ensures { result ≡ texts_before (u.now.host ∷ query_rank u.now.query ∷ u.now.comps) (v.now.host ∷ query_rank v.now.query ∷ v.now.comps) }
{
    is_before(&u.host, &v.host) || is_same(&u.host, &v.host) && is_path_before(u, v)
}

fn is_path_before(u: &Url, v: &Url) -> bool
    ensures { result ≡ texts_before (query_rank u.now.query ∷ u.now.comps) (query_rank v.now.query ∷ v.now.comps) }
{
    is_query_before(&u.query, &v.query)
        || is_same_query(&u.query, &v.query) && are_before(u.comps.as_slice(), v.comps.as_slice())
}

/// Whether a location comes before another, by their parts.
pub fn is_loc_before(a: &Loc, b: &Loc) -> bool
    ensures { result ≡ texts_before (loc_rank a.now) (loc_rank b.now) }
{
    match a {
        Loc::Abs(x) => is_abs_before(x, b),
        Loc::Here(x) => is_here_before(x, b),
        Loc::Parent(x) => is_parent_before(x, b),
        Loc::Home(x) => is_home_before(x, b),
        Loc::Http(u) => is_http_before(u, b),
        Loc::Https(u) => is_https_before(u, b),
        Loc::Env(x) => is_env_before(x, b),
        Loc::Missing => false,
    }
}

fn is_abs_before(x: &Comps, b: &Loc) -> bool
    ensures { result ≡ texts_before (loc_rank (locs.Abs x.now)) (loc_rank b.now) }
{
    match b {
        Loc::Abs(y) => are_before(x.as_slice(), y.as_slice()),
        Loc::Here(_)
        | Loc::Parent(_)
        | Loc::Home(_)
        | Loc::Http(_)
        | Loc::Https(_)
        | Loc::Env(_)
        | Loc::Missing => true,
    }
}

fn is_here_before(x: &Comps, b: &Loc) -> bool
    ensures { result ≡ texts_before (loc_rank (locs.Here x.now)) (loc_rank b.now) }
{
    match b {
        Loc::Here(y) => are_before(x.as_slice(), y.as_slice()),
        Loc::Abs(_) => false,
        Loc::Parent(_) | Loc::Home(_) | Loc::Http(_) | Loc::Https(_) | Loc::Env(_) | Loc::Missing =>
            true,
    }
}

fn is_parent_before(x: &Comps, b: &Loc) -> bool
    ensures { result ≡ texts_before (loc_rank (locs.Parent x.now)) (loc_rank b.now) }
{
    match b {
        Loc::Parent(y) => are_before(x.as_slice(), y.as_slice()),
        Loc::Abs(_) | Loc::Here(_) => false,
        Loc::Home(_) | Loc::Http(_) | Loc::Https(_) | Loc::Env(_) | Loc::Missing => true,
    }
}

fn is_home_before(x: &Comps, b: &Loc) -> bool
    ensures { result ≡ texts_before (loc_rank (locs.Home x.now)) (loc_rank b.now) }
{
    match b {
        Loc::Home(y) => are_before(x.as_slice(), y.as_slice()),
        Loc::Abs(_) | Loc::Here(_) | Loc::Parent(_) => false,
        Loc::Http(_) | Loc::Https(_) | Loc::Env(_) | Loc::Missing => true,
    }
}

fn is_http_before(x: &Url, b: &Loc) -> bool
    ensures { result ≡ texts_before (loc_rank (locs.Http x.now)) (loc_rank b.now) }
{
    match b {
        Loc::Http(y) => is_url_before(x, y),
        Loc::Abs(_) | Loc::Here(_) | Loc::Parent(_) | Loc::Home(_) => false,
        Loc::Https(_) | Loc::Env(_) | Loc::Missing => true,
    }
}

fn is_https_before(x: &Url, b: &Loc) -> bool
    ensures { result ≡ texts_before (loc_rank (locs.Https x.now)) (loc_rank b.now) }
{
    match b {
        Loc::Https(y) => is_url_before(x, y),
        Loc::Abs(_) | Loc::Here(_) | Loc::Parent(_) | Loc::Home(_) | Loc::Http(_) => false,
        Loc::Env(_) | Loc::Missing => true,
    }
}

fn is_env_before(x: &Piece, b: &Loc) -> bool
    ensures { result ≡ texts_before (loc_rank (locs.Env x.now)) (loc_rank b.now) }
{
    match b {
        Loc::Env(y) => is_before(x, y),
        Loc::Abs(_) | Loc::Here(_) | Loc::Parent(_) | Loc::Home(_) | Loc::Http(_) | Loc::Https(_) =>
            false,
        Loc::Missing => true,
    }
}

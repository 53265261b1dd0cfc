//! The two tests on an import in a text from the web.

ghost use Rattle.std.specs.Prelude.{◌≡◌, codes};
ghost use Rattle.std.specs.Option.{option_copied, option_map};
ghost use Rattle.dh_syntax.specs.Imports.Locations as spec;
ghost use Rattle.dh_syntax.specs.Expressions.Numbers.{bytes_eq};
ghost use Rattle.dh_paths.specs.Inside.Origins.{origin_text, scheme_text};

use dh_syntax::{Bytes, Loc, Mode};

/// Whether a text at this parent may import the child ("Import resolution", referential sanity): a text from the web
/// may not look at files, at the home folder or at environment variables, but may tell their locations.
pub fn sane(parent: Option<&Loc>, child: &Loc, mode: Mode) -> bool
    ensures { result ≡ spec.sane (option_copied parent.entry) child.now mode }
{
    match parent {
        Some(parent) => !(is_remote(parent) && !is_location(mode) && is_private(child)),
        None => true,
    }
}

/// Whether a text at this parent may read what was fetched at the child ("Import resolution", CORS). `allow` is the
/// origin that the child's server allows.
pub fn cors(parent: Option<&Loc>, child: &Loc, allow: Option<&Bytes>) -> bool
    ensures { result ≡ spec.cors (option_copied parent.entry) child.now (option_copied allow.entry) }
{
    match parent {
        Some(parent) => cors_between(origin(parent), origin(child), allow),
        None => true,
    }
}

// The scheme and the host of a URL.
#[derive(Clone, Copy)]
struct WebOrigin<'a> {
    secure: bool,
    host: &'a str,
}

fn origin(loc: &Loc) -> Option<WebOrigin<'_>>
    ensures { option_map origin_text result ≡ spec.origin loc.now }
{
    match loc {
        Loc::Http(url) => Some(WebOrigin {
            secure: false,
            host: url.host.as_str(),
        }),
        Loc::Https(url) => Some(WebOrigin {
            secure: true,
            host: url.host.as_str(),
        }),
        Loc::Abs(_) | Loc::Here(_) | Loc::Parent(_) | Loc::Home(_) => None,
        Loc::Env(_) | Loc::Missing => None,
    }
}

fn cors_between(
    parent: Option<WebOrigin<'_>>,
    child: Option<WebOrigin<'_>>,
    allow: Option<&Bytes>,
) -> bool
    ensures { result ≡ spec.cors_between (option_map origin_text parent.entry) (option_map origin_text child.entry)
        (option_copied allow.entry) }
{
    match (parent, child) {
        (Some(parent), Some(child)) => same_origin(parent, child) || allows(allow, parent),
        (Some(_), None) | (None, Some(_)) | (None, None) => true,
    }
}

fn same_origin(a: WebOrigin<'_>, b: WebOrigin<'_>) -> bool
    ensures { result ≡ bytes_eq (origin_text a.entry) (origin_text b.entry) }
{
    a.secure == b.secure && a.host == b.host
}

fn allows(allow: Option<&Bytes>, origin: WebOrigin<'_>) -> bool
    ensures { result ≡ spec.allows (option_copied allow.entry) (origin_text origin.entry) }
{
    match allow {
        Some(allowed) => is_any(allowed.as_slice()) || names(allowed.as_slice(), origin),
        None => false,
    }
}

fn is_any(bytes: &[u8]) -> bool
    ensures { result ≡ bytes_eq bytes.now (codes "*") }
{
    bytes == b"*".as_slice()
}

fn names(bytes: &[u8], origin: WebOrigin<'_>) -> bool
    ensures { result ≡ bytes_eq bytes.now (origin_text origin.entry) }
{
    match bytes.strip_prefix(scheme(origin.secure).as_bytes()) {
        Some(host) => host == origin.host.as_bytes(),
        None => false,
    }
}

fn scheme(secure: bool) -> &'static str
    ensures { result.now ≡ scheme_text secure }
{
    if secure { "https://" } else { "http://" }
}

fn is_remote(loc: &Loc) -> bool
    ensures { result ≡ spec.is_remote loc.now }
{
    match loc {
        Loc::Http(_) | Loc::Https(_) => true,
        Loc::Abs(_) | Loc::Here(_) | Loc::Parent(_) | Loc::Home(_) => false,
        Loc::Env(_) | Loc::Missing => false,
    }
}

fn is_private(loc: &Loc) -> bool
    ensures { result ≡ spec.is_private loc.now }
{
    match loc {
        Loc::Abs(_) | Loc::Home(_) | Loc::Env(_) => true,
        Loc::Here(_) | Loc::Parent(_) | Loc::Http(_) | Loc::Https(_) | Loc::Missing => false,
    }
}

fn is_location(mode: Mode) -> bool
    ensures { result ≡ spec.is_location mode }
{
    match mode {
        Mode::Location => true,
        Mode::Code | Mode::Text => false,
    }
}

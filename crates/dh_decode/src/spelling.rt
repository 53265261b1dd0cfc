//! Which texts may stand for labels, components and the other names of the binary form.
ghost use Rattle.std.specs.Prelude.{◌≡◌, [], ◌∷◌, List, ℕ};
ghost use Rattle.std.specs.List.{list_all};
ghost use Rattle.dh_syntax.specs.Expressions.Spellable.{is_label, is_component, is_environment, is_encoded, is_host, is_query, after_letter, after_dot};
ghost use Rattle.dh_syntax.specs.Imports.Locations.{is_kept_in_url};
ghost use Rattle.dh_syntax.specs.Text.Characters.{is_printable, is_quoted_label_byte, is_quoted_path_byte, is_quoted_environment_byte, is_query_byte};
ghost use Rattle.dh_binary.specs.Machine.{is_named};
ghost use Rattle.dh_decode.specs.Inside.States.{test_of};
ghost use Rattle.dh_decode.specs.Inside.Spelling.{host_from, host_next, url_class, encoded_next};

use crate::places::Test;

/// Printable ASCII.
fn is_printable(b: u8) -> bool
    ensures { result ≡ is_printable b }
{
    (0x20..=0x7e).contains(&b)
}

fn is_label_byte(b: u8) -> bool
    ensures { result ≡ is_quoted_label_byte b }
{
    is_printable(b) && b != b'`'
}

fn is_path_byte(b: u8) -> bool
    ensures { result ≡ is_quoted_path_byte b }
{
    is_printable(b) && b != b'"' && b != b'/'
}

fn is_environment_byte(b: u8) -> bool
    ensures { result ≡ is_quoted_environment_byte b }
{
    is_printable(b) && b != b'"' && b != b'\\' && b != b'='
}

/// A byte that stands for itself in the path of a URL.
fn is_segment_byte(b: u8) -> bool
    ensures { result ≡ is_kept_in_url b }
{
    b.is_ascii_alphanumeric()
        || matches!(
            b,
            b'-' | b'.'
                | b'_'
                | b'~'
                | b'!'
                | b'$'
                | b'&'
                | b'\''
                | b'*'
                | b'+'
                | b';'
                | b'='
                | b':'
                | b'@'
        )
}

fn is_query_byte(b: u8) -> bool
    ensures { result ≡ is_query_byte b }
{
    is_segment_byte(b) || b == b'/' || b == b'?'
}

/// A label, as it can stand between backticks.
pub fn is_label(text: &[u8]) -> bool
    ensures { result ≡ is_label text.now }
{
    text.iter().all(|b| is_label_byte(*b))
}

/// A label other than `_`.
fn is_named(text: &[u8]) -> bool
    ensures { result ≡ is_named text.now }
{
    is_label(text) && text != b"_".as_slice()
}

fn has_path_bytes(text: &[u8]) -> bool
    ensures { result ≡ list_all is_quoted_path_byte text.now }
{
    text.iter().all(|b| is_path_byte(*b))
}

/// A component of a path, as it can stand between double quotes.
fn is_component(text: &[u8]) -> bool
    ensures { result ≡ is_component text.now }
{
    !text.is_empty() && has_path_bytes(text)
}

fn has_environment_bytes(text: &[u8]) -> bool
    ensures { result ≡ list_all is_quoted_environment_byte text.now }
{
    text.iter().all(|b| is_environment_byte(*b))
}

/// The name of an environment variable, as it can stand between double quotes.
fn is_environment(text: &[u8]) -> bool
    ensures { result ≡ is_environment text.now }
{
    !text.is_empty() && has_environment_bytes(text)
}

impl Test {
    /// Whether a text passes the test.
    pub fn passes(self, text: &str) -> bool
        ensures { result ≡ test_of self text.now }
    {
        match self {
            Test::Named => is_named(text.as_bytes()),
            Test::Label => is_label(text.as_bytes()),
            Test::Utf8 => true,
            Test::Component => is_component(text.as_bytes()),
            Test::Host => is_host(text.as_bytes()),
            Test::Segment => is_encoded(text.as_bytes(), false),
            Test::Environment => is_environment(text.as_bytes()),
        }
    }
}

/// What stands before a place of a host.
#[derive(Clone, Copy, Debug, PartialEq, Eq)]
enum HostPlace {
    Start,
    Letter,
    Hyphen,
    Dot,
    Port,
}

/// The place behind a letter or a digit and a byte.
fn after_letter(b: u8) -> Option<HostPlace>
    ensures { (bs : List ℕ) → after_letter (b ∷ bs) ≡ host_next result bs }
{
    match b {
        b'-' => Some(HostPlace::Hyphen),
        b'.' => Some(HostPlace::Dot),
        b':' => Some(HostPlace::Port),
        _ if b.is_ascii_alphanumeric() => Some(HostPlace::Letter),
        _ => None,
    }
}

/// The place behind a dot and a byte.
fn after_dot(b: u8) -> Option<HostPlace>
    ensures { (bs : List ℕ) → after_dot (b ∷ bs) ≡ host_next result bs }
{
    match b {
        b':' => Some(HostPlace::Port),
        _ if b.is_ascii_alphanumeric() => Some(HostPlace::Letter),
        _ => None,
    }
}

impl HostPlace {
    /// The place behind a byte, if it may stand there.
    fn after(self, b: u8) -> Option<HostPlace>
        ensures { (bs : List ℕ) → host_from self (b ∷ bs) ≡ host_next result bs }
    {
        match self {
            HostPlace::Start | HostPlace::Hyphen if b.is_ascii_alphanumeric() => {
                Some(HostPlace::Letter)
            }
            HostPlace::Hyphen if b == b'-' => Some(HostPlace::Hyphen),
            HostPlace::Start | HostPlace::Hyphen => None,
            HostPlace::Dot => after_dot(b),
            HostPlace::Letter => after_letter(b),
            HostPlace::Port if b.is_ascii_digit() => Some(HostPlace::Port),
            HostPlace::Port => None,
        }
    }

    /// Whether a host may end here.
    fn may_end(self) -> bool
        ensures { result ≡ host_from self [] }
    {
        match self {
            HostPlace::Start | HostPlace::Hyphen => false,
            HostPlace::Letter | HostPlace::Dot | HostPlace::Port => true,
        }
    }
}

/// A host and its port.
fn is_host(text: &[u8]) -> bool
    ensures { result ≡ is_host text.now }
{
    let mut place = HostPlace::Start;
    for b in text {
        match place.after(*b) {
            Some(next) => place = next,
            None => return false,
        }
    }
    place.may_end()
}

/// Whether a byte stands for itself in the path of a URL, or in its query.
fn is_url_byte(b: u8, in_query: bool) -> bool
    ensures { result ≡ url_class in_query b }
{
    if in_query {
        is_query_byte(b)
    } else {
        is_segment_byte(b)
    }
}

/// How many hexadecimal digits must come behind a byte, where so many must come before it, if it may stand there.
fn encoded_after(digits: u8, b: u8, in_query: bool) -> Option<u8>
    ensures { (bs : List ℕ) → is_encoded (url_class in_query) digits (b ∷ bs) ≡ encoded_next (url_class in_query) result bs }
{
    if digits > 0 {
        if b.is_ascii_hexdigit() {
            Some(digits - 1)
        } else {
            None
        }
    } else if b == b'%' {
        Some(2)
    } else if is_url_byte(b, in_query) {
        Some(0)
    } else {
        None
    }
}

/// A component of the path of a URL, or its query.
fn is_encoded(text: &[u8], in_query: bool) -> bool
    ensures { result ≡ is_encoded (url_class in_query) 0 text.now }
{
    let mut digits = 0;
    for b in text {
        match encoded_after(digits, *b, in_query) {
            Some(next) => digits = next,
            None => return false,
        }
    }
    digits == 0
}

/// What stands behind the `?` of a URL.
pub fn is_query(text: &[u8]) -> bool
    ensures { result ≡ is_query text.now }
{
    is_encoded(text, true)
}

//! Classes of bytes, and how long the run of one of them at the front is.
ghost use Rattle.std.specs.Prelude.{◌≡◌, ◌≤◌, length, take};
ghost use Rattle.std.specs.List.{prefix_len};
ghost use Rattle.std.specs.Str.{IsAscii};
ghost use Rattle.dh_syntax.specs.Text.Characters.{is_printable, is_segment_byte};
ghost use Rattle.dh_syntax.specs.Imports.Locations.{is_path_character};
ghost use Rattle.dh_tokens.specs.Inside.Classes.{has};

/// The classes of bytes of which a token has a run.
#[derive(Clone, Copy, Debug)]
pub enum Class {
    Name,
    QuotedLabel,
    Digit,
    HexDigit,
    Path,
    QuotedPath,
    Host,
    Environment,
    QuotedEnvironment,
}

/// Printable ASCII.
fn is_printable(b: u8) -> bool
    ensures { result ≡ is_printable b }
{
    (0x20..=0x7e).contains(&b)
}

/// A byte of an unquoted path component.
fn is_path_byte(b: u8) -> bool
    ensures { result ≡ is_path_character b }
{
    matches!(b, b'!' | b'$'..=b'\'' | b'*'..=b'+' | b'-'..=b'.' | b'0'..=b';' | b'=' | b'@'..=b'Z' | b'^'..=b'z' | b'|' | b'~')
}

/// A byte that stands for itself in the path of a URL.
pub fn is_segment_byte(b: u8) -> bool
    ensures { result ≡ is_segment_byte b }
{
    b.is_ascii_alphanumeric()
        || matches!(
            b,
            b'-' | b'.'
                | b'_'
                | b'~'
                | b'!'
                | b'$'
                | b'&'
                | b'\''
                | b'*'
                | b'+'
                | b';'
                | b'='
                | b':'
                | b'@'
        )
}

impl Class {
    fn has(self, b: u8) -> bool
        ensures { result ≡ has self b }
    {
        match self {
            Class::Name => b.is_ascii_alphanumeric() || b == b'-' || b == b'/' || b == b'_',
            Class::QuotedLabel => is_printable(b) && b != b'`',
            Class::Digit => b.is_ascii_digit(),
            Class::HexDigit => b.is_ascii_hexdigit(),
            Class::Path => is_path_byte(b),
            Class::QuotedPath => is_printable(b) && b != b'"' && b != b'/',
            Class::Host => b.is_ascii_alphanumeric() || b == b'-',
            Class::Environment => b.is_ascii_alphanumeric() || b == b'_',
            Class::QuotedEnvironment => is_printable(b) && b != b'"' && b != b'\\' && b != b'=',
        }
    }
}

/// How many bytes at the front are in a class.
pub fn run_len(rest: &[u8], class: Class) -> usize
    ensures value { result ≡ prefix_len (has class) rest.now }
    ensures within { result ≤ length rest.now }
    ensures ascii { IsAscii (take result rest.now) }
{
    let mut n = 0;
    for b in rest {
        if !class.has(*b) {
            break;
        }
        n += 1;
    }
    n
}

/// The text of ASCII bytes.
pub fn ascii_text(bytes: &[u8]) -> &str
    requires { IsAscii bytes.now }
    ensures { result.now ≡ bytes.now }
{
    str::from_utf8(bytes).unwrap()
}

/// The bytes at the front that are in a class, as a text.
pub fn run(rest: &[u8], class: Class) -> &str
    ensures { result.now ≡ take (prefix_len (has class) rest.now) rest.now }
{
    ascii_text(&rest[..run_len(rest, class)])
}

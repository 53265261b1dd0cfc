//! The fields of a head by their names.

ghost use Rattle.std.specs.Prelude.{◌≡◌, ◌++◌, [], ◌∷◌, ◌≤◌, ℕ, List, length, map, All, IfSome, IsTrue, ◌↔◌};
ghost use Rattle.std.specs.Option.{option_copied};
ghost use Rattle.std.specs.Str.{str_eq_ignore_ascii_case};
ghost use Rattle.httparse.specs.Spans.{IsHeaderWithin, header_bytes};
ghost use Rattle.dh_http.specs.Fields.{Named, values, framing, allowed, is_length};
ghost use Rattle.dh_http.specs.Only.{Shows, NumberOf};

use crate::framings::Framing;
use httparse::spans::HeaderSpan;

/// The values of the fields of one name.
#[derive(Clone, Copy, Debug)]
pub(crate) enum Only<'b> {
    Nothing,
    One(&'b [u8]),
    Several,
}

impl<'b> Only<'b> {
    /// With one value more.
    fn and(self, value: &'b [u8]) -> Only<'b>
        ensures { (vs : List (List ℕ)) → Shows self.entry vs → Shows result (vs ++ value.now ∷ []) }
    {
        match self {
            Only::Nothing => Only::One(value),
            Only::One(_) | Only::Several => Only::Several,
        }
    }
}

/// Whether two texts differ in the case of letters alone.
fn are_alike(a: &[u8], b: &[u8]) -> bool
    ensures { result ≡ str_eq_ignore_ascii_case a.now b.now }
{
    a.eq_ignore_ascii_case(b)
}

/// The values so far, and that of one field more, where it has this name.
fn with_field<'b>(found: Only<'b>, buf: &'b [u8], header: &HeaderSpan, name: &[u8]) -> Only<'b>
    requires within { IsHeaderWithin (length buf.now) header.now }
    ensures { (fs : List Named) → Shows found.entry (values name.now fs)
        → Shows result (values name.now (fs ++ header_bytes buf.now header.now ∷ [])) }
{
    if are_alike(header.name.of(buf), name) {
        return found.and(header.value.of(buf));
    }
    found
}

/// The values of the fields of this name, in any case.
pub(crate) fn values_of<'b>(buf: &'b [u8], headers: &[HeaderSpan], name: &[u8]) -> Only<'b>
    requires within { All (IsHeaderWithin (length buf.now)) headers.now }
    ensures { Shows result (values name.now (map (header_bytes buf.now) headers.now)) }
{
    let mut found = Only::Nothing;
    for header in headers {
        found = with_field(found, buf, header, name);
    }
    found
}

/// The number that from 1 to 18 digits write.
pub(crate) fn number_of(value: &[u8]) -> Option<u64>
    ensures { NumberOf value.now result }
{
    if value.is_empty() || value.len() > 18 {
        return None;
    }
    let mut number = 0;
    for digit in value {
        if !digit.is_ascii_digit() {
            return None;
        }
        number = number * 10 + u64::from(*digit - b'0');
    }
    Some(number)
}

/// How the body stands in the stream.
pub(crate) fn framing_of(buf: &[u8], headers: &[HeaderSpan]) -> Framing
    requires within { All (IsHeaderWithin (length buf.now)) headers.now }
    ensures { result ≡ framing (map (header_bytes buf.now) headers.now) }
{
    let coding = values_of(buf, headers, b"transfer-encoding");
    let size = values_of(buf, headers, b"content-length");
    match (coding, size) {
        (Only::Nothing, Only::Nothing) => Framing::ToEnd,
        (Only::One(coding), Only::Nothing) if are_alike(coding, b"chunked") => { Framing::Chunked }
        (Only::Nothing, Only::One(size)) => match number_of(size) {
            Some(number) => Framing::Stated(number),
            None => Framing::Unclear,
        },
        _ => Framing::Unclear,
    }
}

/// The origin that may read the body, where one is told.
pub(crate) fn allowed_of<'b>(buf: &'b [u8], headers: &[HeaderSpan]) -> Option<&'b [u8]>
    requires within { All (IsHeaderWithin (length buf.now)) headers.now }
    ensures { option_copied result ≡ allowed (map (header_bytes buf.now) headers.now) }
{
    match values_of(buf, headers, b"access-control-allow-origin") {
        Only::One(origin) => Some(origin),
        Only::Nothing | Only::Several => None,
    }
}

//! The character at the front of bytes.
ghost use Rattle.std.specs.Prelude.{◌≡◌, ℕ, ◌+◌, ◌-◌, ◌*◌, ◌^◌, ◌<◌, ◌≤◌, length, take, drop, slice_index, if◌then◌else◌};
ghost use Rattle.std.specs.Str.{continuation_len};
ghost use Rattle.dh_syntax.specs.Text.Characters.{line_end_len, char_len, code_at, code_after};
ghost use Rattle.dh_syntax.specs.Text.Stretches.{Faults, good_character, itself};

/// The byte at an index, 0 where there is none.
pub fn byte_at(rest: &[u8], at: usize) -> u8
    ensures { result ≡ slice_index rest.now at }
{
    rest.get(at).copied().unwrap_or(0)
}

/// What stands after so many bytes.
pub fn after(rest: &[u8], n: usize) -> &[u8]
    requires { n ≤ length rest.now }
    ensures { result.now ≡ drop n rest.now }
{
    &rest[n..]
}

/// The first bytes, at most so many.
pub fn up_to(rest: &[u8], n: usize) -> &[u8]
    ensures { result.now ≡ take n rest.now }
{
    &rest[..rest.len().min(n)]
}

/// How many bytes the line end at the front takes, 0 where there is none.
pub fn line_end_len(rest: &[u8]) -> usize
    ensures value { result ≡ line_end_len rest.now }
    ensures within { result ≤ length rest.now }
{
    match byte_at(rest, 0) {
        b'\n' => 1,
        b'\r' if byte_at(rest, 1) == b'\n' => 2,
        _ => 0,
    }
}

/// How many bytes follow a character's first byte.
fn continuation_len(lead: u8) -> usize
    ensures value { result ≡ continuation_len lead }
    ensures few { result ≤ 3 }
{
    if lead < 128 {
        0
    } else if lead < 224 {
        1
    } else if lead < 240 {
        2
    } else {
        3
    }
}

/// How many bytes the character at the front takes.
pub fn char_len(rest: &[u8]) -> usize
    ensures value { result ≡ char_len rest.now }
    ensures some { 0 < result }
    ensures few { result ≤ 4 }
{
    1 + continuation_len(byte_at(rest, 0))
}

/// The character whose bytes so far have the value `code`, where so many more follow.
fn code_after(count: usize, code: u32, rest: &[u8]) -> u32
    requires few { count ≤ 3 }
    requires small { code < 2 ^ (32 - 8 * count) }
    ensures { result ≡ code_after count code rest.now }
{
    if count == 0 || rest.is_empty() {
        return code;
    }
    let bits = u32::from(rest[0].saturating_sub(128));
    code_after(count - 1, code * 64 + bits, after(rest, 1))
}

/// The number of the character at the front, 0 where there is none.
pub fn code_at(rest: &[u8]) -> u32
    ensures { result ≡ code_at rest.now }
{
    if rest.is_empty() {
        return 0;
    }
    let lead = rest[0];
    let bits = if lead < 128 {
        lead
    } else if lead < 224 {
        lead.saturating_sub(192)
    } else if lead < 240 {
        lead - 224
    } else {
        lead - 240
    };
    code_after(continuation_len(lead), u32::from(bits), after(rest, 1))
}

/// Whether the character at the front may stand in texts and comments: it is no control character and no
/// non-character.
pub fn is_good(rest: &[u8]) -> bool
    ensures { good_character rest.now ≡ (if result then itself rest.now else Faults) }
{
    byte_at(rest, 0) >= 0x20 && code_at(rest) % 0x1_0000 < 0xfffe
}

//! Offsets of tokens by their numbers.
ghost use Rattle.std.specs.Prelude.{◌≡◌, suc};
ghost use Rattle.dh_syntax.specs.Text.Noting.{begins_at, ends_before};

use dh_syntax::Token;

/// Where the token of this number begins.
pub fn begin_of(tokens: &[Token], number: u32) -> u32
    ensures { result ≡ begins_at tokens.now number }
{
    match tokens.get(number as usize) {
        Some(token) => token.from,
        None => 0,
    }
}

/// Where the token of this number ends.
pub fn end_of(tokens: &[Token], number: u32) -> u32
    ensures { result ≡ ends_before tokens.now (suc number) }
{
    match tokens.get(number as usize) {
        Some(token) => token.to,
        None => 0,
    }
}

/// Where the token before the one of this number ends.
pub fn end_before(tokens: &[Token], number: u32) -> u32
    ensures { result ≡ ends_before tokens.now number }
{
    match number.checked_sub(1) {
        Some(number) => end_of(tokens, number),
        None => 0,
    }
}

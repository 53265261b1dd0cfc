//! Numbers, digests and codes of the leaves.
ghost use Rattle.std.specs.Prelude.{◌≡◌, ◌≤◌, ◌^◌, Some, None, IfSome, IfNone};
ghost use Rattle.dh_syntax.specs.Bytes.BinaryHeads.{big_endian};
ghost use Rattle.dh_syntax.specs.Bytes.BinaryLeaves.{bignum, hash_of, mode_by};
ghost use Rattle.dh_syntax.specs.Bytes.BinaryRead.{operator};
ghost use Rattle.dh_decode.specs.Inside.Takings.{TakesNumber};

use crate::stops::Stop;
use dh_syntax::{BinOp, Digest, Mode};

/// The operator of a code.
pub fn operator(code: u64) -> Option<BinOp>
    ensures { result ≡ operator code }
{
    match code {
        0 => Some(BinOp::Or),
        1 => Some(BinOp::And),
        2 => Some(BinOp::Equal),
        3 => Some(BinOp::NotEqual),
        4 => Some(BinOp::Plus),
        5 => Some(BinOp::Times),
        6 => Some(BinOp::TextAppend),
        7 => Some(BinOp::ListAppend),
        8 => Some(BinOp::Combine),
        9 => Some(BinOp::Prefer),
        10 => Some(BinOp::CombineTypes),
        11 => Some(BinOp::Fallback),
        12 => Some(BinOp::Equivalent),
        13 => Some(BinOp::Complete),
        _ => None,
    }
}

/// The mode of an import, by its code.
pub fn mode_by(code: u64) -> Option<Mode>
    ensures { result ≡ mode_by code }
{
    match code {
        0 => Some(Mode::Code),
        1 => Some(Mode::Text),
        2 => Some(Mode::Location),
        _ => None,
    }
}

/// The number that these bytes say, the high ones first, if it has at most 128 bits.
fn big_endian(bytes: &[u8]) -> Option<u128>
    ensures some { IfSome result (λ n. n ≡ big_endian bytes.now) }
    ensures none { IfNone result (2 ^ 128 ≤ big_endian bytes.now) }
{
    let mut value: u128 = 0;
    for byte in bytes {
        if value >= 1 << 120 {
            return None;
        }
        value = 256 * value + u128::from(*byte);
    }
    Some(value)
}

/// The number of a bignum's bytes below a bound.
pub fn bignum(bound: u128, bytes: &[u8]) -> Result<u128, Stop>
    ensures { TakesNumber (λ b. bignum b bound bytes.now) result }
{
    match big_endian(bytes) {
        Some(n) if n < bound && bytes.len() <= 16 => Ok(n),
        Some(n) if n < bound => Err(Stop::Misfit),
        Some(_) => Err(Stop::Wide),
        None => Err(Stop::Wide),
    }
}

/// The number of a bignum's bytes, of 128 bits.
pub fn natural(bytes: &[u8]) -> Result<u128, Stop>
    ensures { TakesNumber (λ b. bignum b (2 ^ 128) bytes.now) result }
{
    match big_endian(bytes) {
        Some(n) if bytes.len() <= 16 => Ok(n),
        Some(_) => Err(Stop::Misfit),
        None => Err(Stop::Wide),
    }
}

/// The digest of a multihash (SHA-256, 32 bytes).
pub fn hash_of(bytes: &[u8]) -> Option<Digest>
    ensures some { IfSome result (λ d. hash_of bytes.now ≡ Some (Some d)) }
    ensures none { IfNone result (hash_of bytes.now ≡ None) }
{
    if bytes.len() != 34 || bytes[0] != 0x12 || bytes[1] != 0x20 {
        return None;
    }
    let mut digest = [0; 32];
    digest.copy_from_slice(&bytes[2..]);
    Some(Digest(digest))
}

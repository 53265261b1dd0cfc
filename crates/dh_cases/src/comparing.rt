//! What came of a run beside what is wanted.

ghost use Rattle.std.specs.Prelude.{◌≡◌, ◌↔◌, IsTrue, IfSome, map};
ghost use Rattle.dh_cases.specs.Agreeing.{pair_of, HasKept, Agrees};

use crate::answers::Ran;
use crate::cases::{Case, Entry, Row};
use std::alloc::{AllocError, Global};

/// Whether the two are the same entry.
fn is_same(one: &Entry, other: &Entry) -> bool
    ensures { IsTrue result ↔ (pair_of one.now ≡ pair_of other.now) }
{
    one.digest == other.digest && one.bytes.as_slice() == other.bytes.as_slice()
}

/// Whether the entries are the same, in the same order.
fn are_same(wanted: &[Entry], came: &[Entry]) -> bool
    ensures { IsTrue result ↔ (map pair_of wanted.now ≡ map pair_of came.now) }
{
    if wanted.len() != came.len() {
        return false;
    }
    for i in 0..wanted.len() {
        if !is_same(&wanted[i], &came[i]) {
            return false;
        }
    }
    true
}

/// Whether what the desks kept is wanted.
fn is_kept(case: &Case, kept: &Vec<Entry>) -> bool
    ensures { IsTrue result ↔ HasKept case.now kept.now.items }
{
    match case.keeps {
        Some(count) => kept.len() as u64 == count,
        None => are_same(case.kept.as_slice(), kept.as_slice()),
    }
}

/// Whether so many texts were to be asked for.
fn is_asked(wanted: Option<u64>, came: u64) -> bool
    ensures { IsTrue result ↔ IfSome wanted (λ count. count ≡ came) }
{
    match wanted {
        Some(count) => count == came,
        None => true,
    }
}

/// Whether a run did all that is wanted of it.
pub fn agrees(case: &Case, row: &Row, ran: &Ran) -> bool
    ensures { IsTrue result ↔ Agrees case.now row.now ran.now }
{
    ran.status == row.status
        && ran.out.as_slice() == row.out.as_slice()
        && ran.err.as_slice() == row.err.as_slice()
        && is_asked(case.asked, ran.asked)
        && is_kept(case, &ran.kept)
}

/// How many bytes of a value are shown.
const MOST_SHOWN: usize = 400;

/// The front of these bytes, as text or in hexadecimal.
fn shown(alloc: Global, bytes: &[u8]) -> Result<String, AllocError> {
    let count = bytes.len();
    let front = &bytes[..count.min(MOST_SHOWN)];
    match str::from_utf8(front) {
        Ok(text) => format!(in alloc; "{count} bytes {text:?}"),
        Err(_) => {
            let digits = hex::encode(alloc, front)?;
            format!(in alloc; "{count} bytes hex {digits}")
        }
    }
}

/// Two lines where two values differ.
fn value_lines(
    alloc: Global,
    what: &str,
    wanted: &[u8],
    came: &[u8],
) -> Result<String, AllocError> {
    if wanted == came {
        return Ok(String::new(alloc));
    }
    let (wanted, came) = (shown(alloc, wanted)?, shown(alloc, came)?);
    format!(in alloc; "  {what}: wanted {wanted}\n  {what}: came   {came}\n")
}

/// A line where two numbers differ.
fn number_line(alloc: Global, what: &str, wanted: u64, came: u64) -> Result<String, AllocError> {
    if wanted == came {
        return Ok(String::new(alloc));
    }
    format!(in alloc; "  {what}: wanted {wanted}, came {came}\n")
}

/// A line for each of these entries.
fn entry_lines(alloc: Global, what: &str, entries: &[Entry]) -> Result<String, AllocError> {
    let mut lines = String::new(alloc);
    for entry in entries {
        let digest = hex::encode(alloc, entry.digest.as_slice())?;
        let bytes = hex::encode(alloc, entry.bytes.as_slice())?;
        let line = format!(in alloc; "  kept: {what} {digest} {bytes}\n")?;
        lines.push_str(line.as_str())?;
    }
    Ok(lines)
}

/// The lines of what was kept, where it is not what is wanted.
fn kept_lines(alloc: Global, case: &Case, kept: &Vec<Entry>) -> Result<String, AllocError> {
    if is_kept(case, kept) {
        return Ok(String::new(alloc));
    }
    let came = entry_lines(alloc, "came  ", kept.as_slice())?;
    match case.keeps {
        Some(count) => format!(in alloc; "  kept: wanted {count}\n{came}"),
        None => {
            let wanted = entry_lines(alloc, "wanted", case.kept.as_slice())?;
            format!(in alloc; "{wanted}{came}")
        }
    }
}

/// A line or two for each thing that a run did otherwise than wanted.
pub(crate) fn differences(
    alloc: Global,
    case: &Case,
    row: &Row,
    ran: &Ran,
) -> Result<String, AllocError> {
    let status = number_line(
        alloc,
        "status",
        u64::from(row.status),
        u64::from(ran.status),
    )?;
    let out = value_lines(alloc, "out", row.out.as_slice(), ran.out.as_slice())?;
    let err = value_lines(alloc, "err", row.err.as_slice(), ran.err.as_slice())?;
    let wanted = case.asked.unwrap_or(ran.asked);
    let asked = number_line(alloc, "asked", wanted, ran.asked)?;
    let kept = kept_lines(alloc, case, &ran.kept)?;
    format!(in alloc; "{status}{out}{err}{asked}{kept}")
}

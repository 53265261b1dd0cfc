//! What an atom gives where an item is wanted.
ghost use Rattle.dh_cbor.specs.Readings.{the_atom};
ghost use Rattle.dh_binary.specs.Machine as machine;
ghost use Rattle.dh_binary.specs.Stubs.{stubs};
ghost use Rattle.dh_decode.specs.Inside.States.{test_of};
ghost use Rattle.dh_decode.specs.Inside.Takings.{Takes, builtin_value};

use crate::nodes::{bool_part, builtin_part, variable};
use crate::numbers::{bignum, hash_of, mode_by, natural, operator};
use crate::places::{Test, Value};
use crate::rows::{row_at, scheme_fits};
use crate::stops::Stop;
use crate::texts::{builtin_of, query, spelled};
use dh_cbor::Atom;
use std::alloc::Global;

/// The greatest index of a variable.
const MOST_INDEX: u64 = dh_syntax::MOST_INDEX as u64;

/// A text that passes a test.
pub fn called<'a>(test: Test, atom: Atom<'a>) -> Result<Value<'a>, Stop>
    ensures { Takes (λ b. machine.called_by stubs (test_of test) (the_atom atom.entry)) result }
{
    match atom {
        Atom::Characters(text) => match spelled(test, text) {
            Some(text) => Ok(Value::Called(text)),
            None => Err(Stop::Misfit),
        },
        Atom::Unsigned(_) | Atom::Negative(_) => Err(Stop::Misfit),
        Atom::Octets(_) | Atom::Simple(_) => Err(Stop::Misfit),
    }
}

/// A built-in by its name.
fn builtin<'a>(alloc: Global, name: &[u8]) -> Result<Value<'a>, Stop>
    ensures { Takes (λ b. builtin_value name.now) result }
{
    match builtin_of(name) {
        Some(builtin) => match builtin_part(alloc, builtin) {
            Ok(part) => Ok(Value::Holds(part)),
            Err(_) => Err(Stop::Memory),
        },
        None => Err(Stop::Misfit),
    }
}

/// An expression.
pub fn term<'a>(alloc: Global, atom: Atom<'a>) -> Result<Value<'a>, Stop>
    ensures { Takes (λ b. machine.term_atom stubs b (the_atom atom.entry)) result }
{
    match atom {
        Atom::Unsigned(n) if n <= MOST_INDEX => {
            Ok(Value::Holds(variable(alloc, "_", n as u32)?))
        }
        Atom::Unsigned(_) => Err(Stop::Wide),
        Atom::Characters(text) => builtin(alloc, text),
        Atom::Simple(20) => Ok(Value::Holds(bool_part(alloc, false)?)),
        Atom::Simple(21) => Ok(Value::Holds(bool_part(alloc, true)?)),
        Atom::Simple(_) => Err(Stop::Misfit),
        Atom::Negative(_) | Atom::Octets(_) => Err(Stop::Misfit),
    }
}

/// The first item of an array, with so many behind it.
pub fn opening<'a>(alloc: Global, items: u128, atom: Atom<'a>) -> Result<Value<'a>, Stop>
    ensures { Takes (λ b. machine.opening_atom stubs items (the_atom atom.entry)) result }
{
    match atom {
        Atom::Unsigned(code) => match row_at(alloc, code, items) {
            Some(_) => Ok(Value::Coded(code, items)),
            None => Err(Stop::Misfit),
        },
        Atom::Characters(_) if items == 1 => called(Test::Named, atom),
        Atom::Characters(_) => Err(Stop::Misfit),
        Atom::Negative(_) | Atom::Octets(_) | Atom::Simple(_) => Err(Stop::Misfit),
    }
}

/// Null, or what the atom gives otherwise.
pub fn nullable<'a>(alloc: Global, atom: Atom<'a>) -> Result<Value<'a>, Stop>
    ensures { Takes (λ b. machine.or_null stubs machine.nothing (the_atom atom.entry) (machine.term_atom stubs b (the_atom atom.entry))) result }
{
    match atom {
        Atom::Simple(22) => Ok(Value::Nothing),
        Atom::Simple(_) | Atom::Unsigned(_) | Atom::Negative(_) => term(alloc, atom),
        Atom::Octets(_) | Atom::Characters(_) => term(alloc, atom),
    }
}

/// Null.
pub fn null<'a>(atom: Atom<'a>) -> Result<Value<'a>, Stop>
    ensures { Takes (λ b. machine.atom_as stubs b machine.null (the_atom atom.entry)) result }
{
    match atom {
        Atom::Simple(22) => Ok(Value::Nothing),
        Atom::Simple(_) => Err(Stop::Misfit),
        Atom::Unsigned(_) | Atom::Negative(_) => Err(Stop::Misfit),
        Atom::Octets(_) | Atom::Characters(_) => Err(Stop::Misfit),
    }
}

/// The index of a variable.
pub fn index<'a>(atom: Atom<'a>) -> Result<Value<'a>, Stop>
    ensures { Takes (λ b. machine.atom_as stubs b machine.index (the_atom atom.entry)) result }
{
    match atom {
        Atom::Unsigned(n) if n <= MOST_INDEX => Ok(Value::Indexed(n as u32)),
        Atom::Unsigned(_) => Err(Stop::Wide),
        Atom::Negative(_) | Atom::Octets(_) => Err(Stop::Misfit),
        Atom::Characters(_) | Atom::Simple(_) => Err(Stop::Misfit),
    }
}

/// The code of an operator.
pub fn operator_code<'a>(atom: Atom<'a>) -> Result<Value<'a>, Stop>
    ensures { Takes (λ b. machine.atom_as stubs b machine.operator_code (the_atom atom.entry)) result }
{
    match atom {
        Atom::Unsigned(n) => match operator(n) {
            Some(operator) => Ok(Value::By(operator)),
            None => Err(Stop::Misfit),
        },
        Atom::Negative(_) | Atom::Octets(_) => Err(Stop::Misfit),
        Atom::Characters(_) | Atom::Simple(_) => Err(Stop::Misfit),
    }
}

/// The digest of an import, or null.
pub fn digest<'a>(alloc: Global, atom: Atom<'a>) -> Result<Value<'a>, Stop>
    ensures { Takes (λ b. machine.atom_as stubs b machine.digest (the_atom atom.entry)) result }
{
    match atom {
        Atom::Simple(22) => Ok(Value::Hashed(None)),
        Atom::Simple(_) => Err(Stop::Misfit),
        Atom::Octets(bytes) => match hash_of(bytes) {
            Some(digest) => Ok(Value::Hashed(Some(Box::new(alloc, digest)?))),
            None => Err(Stop::Misfit),
        },
        Atom::Unsigned(_) | Atom::Negative(_) => Err(Stop::Misfit),
        Atom::Characters(_) => Err(Stop::Misfit),
    }
}

/// The mode of an import.
pub fn mode<'a>(atom: Atom<'a>) -> Result<Value<'a>, Stop>
    ensures { Takes (λ b. machine.atom_as stubs b machine.mode (the_atom atom.entry)) result }
{
    match atom {
        Atom::Unsigned(n) => match mode_by(n) {
            Some(mode) => Ok(Value::Taken(mode)),
            None => Err(Stop::Misfit),
        },
        Atom::Negative(_) | Atom::Octets(_) => Err(Stop::Misfit),
        Atom::Characters(_) | Atom::Simple(_) => Err(Stop::Misfit),
    }
}

/// The scheme of a location, with so many items behind it.
pub fn scheme<'a>(items: u128, atom: Atom<'a>) -> Result<Value<'a>, Stop>
    ensures { Takes (λ b. machine.atom_as stubs b (machine.scheme items) (the_atom atom.entry)) result }
{
    match atom {
        Atom::Unsigned(n) if scheme_fits(n, items) => Ok(Value::Counted(u128::from(n))),
        Atom::Unsigned(_) => Err(Stop::Misfit),
        Atom::Negative(_) | Atom::Octets(_) => Err(Stop::Misfit),
        Atom::Characters(_) | Atom::Simple(_) => Err(Stop::Misfit),
    }
}

/// The query of a URL, or null.
pub fn query_item<'a>(atom: Atom<'a>) -> Result<Value<'a>, Stop>
    ensures { Takes (λ b. machine.atom_as stubs b machine.query (the_atom atom.entry)) result }
{
    match atom {
        Atom::Simple(22) => Ok(Value::Queried(None)),
        Atom::Simple(_) => Err(Stop::Misfit),
        Atom::Characters(bytes) => match query(bytes) {
            Some(text) => Ok(Value::Queried(Some(text))),
            None => Err(Stop::Misfit),
        },
        Atom::Unsigned(_) | Atom::Negative(_) => Err(Stop::Misfit),
        Atom::Octets(_) => Err(Stop::Misfit),
    }
}

/// A natural number of 64 bits.
pub fn natural_item<'a>(atom: Atom<'a>) -> Result<Value<'a>, Stop>
    ensures { Takes (λ b. machine.atom_as stubs b machine.natural (the_atom atom.entry)) result }
{
    match atom {
        Atom::Unsigned(n) => Ok(Value::Counted(u128::from(n))),
        Atom::Negative(_) | Atom::Octets(_) => Err(Stop::Misfit),
        Atom::Characters(_) | Atom::Simple(_) => Err(Stop::Misfit),
    }
}

/// An integer of 65 bits.
pub fn integer_item<'a>(atom: Atom<'a>) -> Result<Value<'a>, Stop>
    ensures { Takes (λ b. machine.atom_as stubs b machine.integer (the_atom atom.entry)) result }
{
    match atom {
        Atom::Unsigned(n) => Ok(Value::Signed(i128::from(n))),
        Atom::Negative(n) => Ok(Value::Signed(-1 - i128::from(n))),
        Atom::Octets(_) | Atom::Characters(_) => Err(Stop::Misfit),
        Atom::Simple(_) => Err(Stop::Misfit),
    }
}

/// The string of a natural number.
pub fn big_natural<'a>(atom: Atom<'a>) -> Result<Value<'a>, Stop>
    ensures { Takes (λ b. machine.atom_as stubs b machine.big_natural (the_atom atom.entry)) result }
{
    match atom {
        Atom::Octets(bytes) => {
            let n = natural(bytes)?;
            Ok(Value::Counted(n))
        }
        Atom::Unsigned(_) | Atom::Negative(_) => Err(Stop::Misfit),
        Atom::Characters(_) | Atom::Simple(_) => Err(Stop::Misfit),
    }
}

/// The string of an integer with this tag.
pub fn big_integer<'a>(tag: u64, atom: Atom<'a>) -> Result<Value<'a>, Stop>
    ensures { Takes (λ b. machine.atom_as stubs b (machine.big_integer tag) (the_atom atom.entry)) result }
{
    match atom {
        Atom::Octets(bytes) if tag == 2 => {
            let n = bignum(1 << 127, bytes)?;
            Ok(Value::Signed(n as i128))
        }
        Atom::Octets(bytes) if tag == 3 => {
            let n = bignum(1 << 127, bytes)?;
            Ok(Value::Signed(-1 - n as i128))
        }
        Atom::Octets(_) => Err(Stop::Misfit),
        Atom::Unsigned(_) | Atom::Negative(_) => Err(Stop::Misfit),
        Atom::Characters(_) | Atom::Simple(_) => Err(Stop::Misfit),
    }
}

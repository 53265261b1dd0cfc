//! Reading an expression from its bytes.
ghost use Rattle.std.specs.Prelude.{◌≡◌, ◌≢◌, ◌<◌, ◌≤◌, ◌^◌, ℕ, List, nat_lt, length, drop, if◌then◌else◌, IfOk, IfErr, Ok, Err};
ghost use Rattle.dh_cbor.specs.Readings.{reason, place, the_mark};
ghost use Rattle.dh_syntax.specs.declared.faults.DecodeFault.TheVariants.{Memory};
ghost use Rattle.dh_syntax.specs.Bytes.BinaryFaults.{DecodesTo};
ghost use Rattle.dh_syntax.specs.Expressions.Arity.{IsWellFormed};
ghost use Rattle.dh_syntax.specs.Expressions.Bridge.{term};
ghost use Rattle.dh_syntax.specs.Expressions.Nesting.{nesting};
ghost use Rattle.dh_syntax.specs.Limits.{most_open_items};
ghost use Rattle.dh_binary.specs.Machine.{Frame};
ghost use Rattle.dh_binary.specs.Verdict.{head_fault, opens_with};
ghost use Rattle.dh_binary.specs.Stubs as stubs;
ghost use Rattle.dh_binary.specs.Stubs.{Kept, decide_kept, finish_kept};
ghost use Rattle.dh_decode.specs.Inside.States.{state_of, outcome_of};
ghost use Rattle.dh_decode.specs.Inside.Steps.{Decides, IsReached};
ghost use Rattle.dh_decode.specs.Inside.Views.{value_of};

use crate::parts::Held;
use crate::places::Value;
use crate::reading::Reader;
use crate::stops::Stop;
use dh_cbor::{CborFault, Mark, mark_at};
use dh_syntax::{DecodeFault, Expr, MOST_NESTING, MOST_OPEN_ITEMS};
use std::alloc::Global;

/// The fault of a head that cannot be read.
fn fault_of(fault: CborFault) -> DecodeFault
    ensures same { result ≡ head_fault (reason fault) (place fault) }
{
    match fault {
        CborFault::Cut(at) => DecodeFault::Cut(at),
        CborFault::Indefinite(at) => DecodeFault::Indefinite(at),
        CborFault::Float(at) => DecodeFault::Float(at),
        CborFault::Tag(at) => DecodeFault::Tag(at),
        CborFault::Wide(at) => DecodeFault::Wide(at),
    }
}

/// The expression of the whole, behind which these bytes begin.
fn finish(bytes: &[u8], at: usize, value: Value<'_>) -> Result<Expr, DecodeFault>
    requires small { length bytes.now < 2 ^ 32 }
    requires within { at ≤ length bytes.now }
    ensures ok { IfOk result (λ e. finish_kept bytes.now (drop at bytes.now) (value_of value.entry) ≡ Ok (term e)) }
    ensures err { IfErr result (λ f. f ≢ Memory → finish_kept bytes.now (drop at bytes.now) (value_of value.entry) ≡ Err f) }
{
    match value {
        Value::Holds(part) => {
            let Held { expression, nests } = part.into_held();
            if at < bytes.len() {
                return Err(DecodeFault::Rest(at as u32));
            }
            if nests > MOST_NESTING {
                return Err(DecodeFault::TooNested);
            }
            Ok(expression)
        }
        _ => Err(DecodeFault::Memory),
    }
}

/// What a head leads to: the offset of the next one, and the value of the whole where it is read.
#[derive(Drop)]
struct Step<'a> {
    next: usize,
    value: Option<Value<'a>>,
}

/// The fault of a head that fits nowhere, or whose number is too wide. A bignum is at fault from its tag on.
fn refusal(is_big: bool, from: usize, at: usize, stop: Stop) -> DecodeFault
    requires before { from < 2 ^ 32 }
    requires here { at < 2 ^ 32 }
    ensures misfit { stop ≡ Stop.Misfit → result ≡ DecodeFault.Shape at }
    ensures wide { stop ≡ Stop.Wide → result ≡ DecodeFault.Wide (if is_big then from else at) }
    ensures memory { stop ≡ Stop.Memory → result ≡ DecodeFault.Memory }
{
    match stop {
        Stop::Misfit => DecodeFault::Shape(at as u32),
        Stop::Wide if is_big => DecodeFault::Wide(from as u32),
        Stop::Wide => DecodeFault::Wide(at as u32),
        Stop::Memory => DecodeFault::Memory,
    }
}

/// Whether a head opens one more array or map than may stand open, where so many do.
fn is_over(frames: usize, mark: &Mark<'_>) -> bool
    ensures { (st : List (Frame Kept)) → length st ≡ frames → result ≡ nat_lt most_open_items (opens_with (the_mark mark.now) st) }
{
    match mark {
        Mark::Array(_) | Mark::Map(_) => frames >= MOST_OPEN_ITEMS as usize,
        Mark::Atom(_) | Mark::Tag(_) => false,
    }
}

impl<'a> Reader<'a> {
    /// Takes the head at an offset, where the head before stands at `from`.
    fn step(
        &mut self,
        alloc: Global,
        bytes: &'a [u8],
        from: usize,
        at: usize,
    ) -> Result<Step<'a>, DecodeFault>
        requires small { length bytes.now < 2 ^ 32 }
        requires before { from ≤ length bytes.now }
        requires within { at ≤ length bytes.now }
        requires reached { IsReached (state_of self.old.want self.old.frames) }
        ensures goes_on { IfOk result (λ s. (at < s.next) × (s.next ≤ length bytes.now)) }
        ensures reached { IfOk result (λ s. IsReached (outcome_of s.value self.new.want self.new.frames)) }
        ensures ok { IfOk result (λ s. Decides bytes.now from at (state_of self.old.want self.old.frames)
            (λ k. decide_kept k bytes.now at (drop s.next bytes.now) (outcome_of s.value self.new.want self.new.frames))) }
        ensures err { IfErr result (λ f. f ≢ Memory → Decides bytes.now from at (state_of self.old.want self.old.frames) (λ k. Err f)) }
    {
        let marked = match mark_at(bytes, at) {
            Ok(marked) => marked,
            Err(fault) => return Err(fault_of(fault)),
        };
        let is_big = self.want.is_big();
        let is_over = is_over(self.frames.len(), &marked.mark);
        match self.take(alloc, marked.mark) {
            Ok(_) if is_over => Err(DecodeFault::TooNested),
            Ok(value) => Ok(Step {
                next: marked.next,
                value,
            }),
            Err(stop) => Err(refusal(is_big, from, at, stop)),
        }
    }
}

/// The expression that the bytes are in the binary form.
///
/// The offset in a fault is that of the first head after which no bytes make an expression, where all heads before fit.
/// Bytes behind the expression are at fault only then, and an expression that nests too deep last. There must be fewer
/// than 2^32 bytes. The result is well formed and nests at most 500.
pub fn decode(alloc: Global, bytes: &[u8]) -> Result<Expr, DecodeFault>
    requires { length bytes.now < 2 ^ 32 }
    ensures read { IfOk result (λ e. DecodesTo bytes.now (Ok (term e))) }
    ensures refused { IfErr result (λ f. f ≢ Memory → DecodesTo bytes.now (Err f)) }
    ensures well_formed { IfOk result (λ e. IsWellFormed (term e)) }
    ensures shallow { IfOk result (λ e. nesting (term e) ≤ 500) }
{
    decoded(alloc, bytes)
}

/// The expression of the bytes, as the machine with stubs reads it.
fn decoded(alloc: Global, bytes: &[u8]) -> Result<Expr, DecodeFault>
    requires { length bytes.now < 2 ^ 32 }
    ensures ok { IfOk result (λ e. stubs.decoded bytes.now ≡ Ok (term e)) }
    ensures err { IfErr result (λ f. f ≢ Memory → stubs.decoded bytes.now ≡ Err f) }
{
    let mut reader = Reader::new(alloc);
    let mut from = 0;
    let mut at = 0;
    loop {
        let step = reader.step(alloc, bytes, from, at)?;
        from = at;
        at = step.next;
        match step.value {
            Some(value) => return finish(bytes, at, value),
            None => {}
        }
    }
}

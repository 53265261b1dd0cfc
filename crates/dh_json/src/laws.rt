//! Laws of JSON values.

ghost use Rattle.dh_json.specs.JsonLaws.{FaultIsFirst, NoFloat, SameHaveSame, ValueHasCases};

/// Names of binders change no value: expressions that differ in them alone have one value, or the same first place without one.
pub fn same_have_same()
    ensures { SameHaveSame }
{}

/// A value holds no float: each number in it is an integer, which its text has digit by digit.
pub fn no_float()
    ensures { NoFloat }
{}

/// Where a well-formed expression has a value, no place that the cases name is without a case.
pub fn value_has_cases()
    ensures { ValueHasCases }
{}

/// Where it has none, the place that is answered is the first in pre-order, of those that the cases name, that fits no case.
pub fn fault_is_first()
    ensures { FaultIsFirst }
{}

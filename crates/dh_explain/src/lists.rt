//! The list of the rules of typing.

ghost use Rattle.std.specs.Prelude.{◌≡◌};
ghost use Rattle.dh_explain.specs.RuleTexts.{rule_list};

/// The number and the name of each rule of typing, a line each.
pub fn rule_list() -> &'static str
    ensures { result.now ≡ rule_list }
{
    "1: unbound variable\n\
     2: Sort has no type\n\
     3: domain of a function\n\
     4: body of a function\n\
     5: domain of a function type\n\
     6: range of a function type\n\
     7: no function\n\
     8: wrong argument\n\
     9: annotation of a let\n\
     10: condition no Bool\n\
     11: branches no values\n\
     12: branches differ\n\
     13: left side of an operator\n\
     14: right side of an operator\n\
     15: annotation of an empty list\n\
     16: elements no values\n\
     17: elements differ\n\
     18: Some of no value\n\
     19: field of a record type\n\
     20: field of type Sort\n\
     21: alternative of a union\n\
     22: nothing to select\n\
     23: projection of no record\n\
     24: projection lacks a field\n\
     25: projection by a type, of no record\n\
     26: projection by no record type\n\
     27: projection by another type\n\
     28: left side no record\n\
     29: right side no record\n\
     30: fields collide\n\
     31: left side no record type\n\
     32: right side no record type\n\
     33: field types collide\n\
     34: handlers no record\n\
     35: merge of no union\n\
     36: labels of the handlers\n\
     37: handler no function\n\
     38: type of a result depends\n\
     39: results of the handlers differ\n\
     40: annotation of a merge\n\
     41: merge without a type\n\
     42: toMap of no record\n\
     43: fields of a toMap differ\n\
     44: toMap without a type\n\
     45: annotation of a toMap\n\
     46: interpolation no Text\n\
     47: assertion of no type\n\
     48: assertion of no equivalence\n\
     49: assertion fails\n\
     50: sides of an equivalence differ\n\
     51: sides of an equivalence no values\n\
     52: annotation differs\n\
     53: completion has no type\n\
     54: update of no record\n\
     55: update of type Sort\n\
     56: not resolved\n"
}

//! The explanations of the rules of typing, by their numbers.

ghost use Rattle.std.specs.Prelude.{◌≡◌, ◌≤◌, Some, option_map};
ghost use Rattle.dh_explain.specs.RuleTexts.{explanation};

/// The explanations of variables, `Sort` and functions.
fn of_names_and_functions(rule: u32) -> &'static str
    requires { (1 ≤ rule) × (rule ≤ 4) }
    ensures { explanation rule ≡ Some result.now }
{
    match rule {
        1 => {
            "type rule 1: unbound variable\n\
             A variable must be bound around where it stands, by `\\`, `forall` or `let`.\n\
             `x@1` is the second `x` from within, so two binders of `x` must stand around it.\n\
             fails: x\n\
             types: let x = 1 in x\n"
        }
        2 => {
            "type rule 2: Sort has no type\n\
             `Type` has the type `Kind`, and `Kind` has the type `Sort`. `Sort` has no type.\n\
             So it can stand only as an annotation, where it is not typed itself.\n\
             fails: Sort\n\
             types: Kind : Sort\n"
        }
        3 => {
            "type rule 3: domain of a function\n\
             In `\\(x : A) -> b` the domain `A` must be a type, a kind or a sort.\n\
             Its own type must be `Type`, `Kind` or `Sort`, so a value such as `1` is none.\n\
             fails: \\(x : 1) -> x\n\
             types: \\(x : Bool) -> x\n"
        }
        _ => {
            "type rule 4: body of a function\n\
             In `\\(x : A) -> b` the type of the body `b` must not be `Sort`.\n\
             The type of the function would end in `Sort`, and so have no type itself. `Kind` has the type `Sort`.\n\
             fails: \\(x : Bool) -> Kind\n\
             types: \\(x : Bool) -> Type\n"
        }
    }
}

/// The explanations of function types, applications and `let`.
fn of_function_types(rule: u32) -> &'static str
    requires { (5 ≤ rule) × (rule ≤ 9) }
    ensures { explanation rule ≡ Some result.now }
{
    match rule {
        5 => {
            "type rule 5: domain of a function type\n\
             In `A -> B` and in `forall (x : A) -> B` the domain `A` must be a type, a kind or a sort.\n\
             Its own type must be `Type`, `Kind` or `Sort`, so a value such as `1` is none.\n\
             fails: 1 -> Bool\n\
             types: Bool -> Bool\n"
        }
        6 => {
            "type rule 6: range of a function type\n\
             In `A -> B` and in `forall (x : A) -> B` the range `B` must be a type, a kind or a sort.\n\
             Its own type must be `Type`, `Kind` or `Sort`, so a value such as `1` is none.\n\
             fails: Bool -> 1\n\
             types: Bool -> Bool\n"
        }
        7 => {
            "type rule 7: no function\n\
             In `f a` the part `f` must be a function: its type must be a `forall`.\n\
             Two expressions side by side are an application, also where a comma or an operator was forgotten between them.\n\
             fails: 1 2\n\
             types: Natural/show 2\n"
        }
        8 => {
            "type rule 8: wrong argument\n\
             In `f a` the type of the argument `a` must be the domain of the function `f`.\n\
             Nothing is converted: where a `Text` is wanted, a `Natural` is an argument of `Natural/show` first.\n\
             fails: Natural/show True\n\
             types: Natural/show 1\n"
        }
        _ => {
            "type rule 9: annotation of a let\n\
             In `let x : A = a in b` the type of `a` must be `A`.\n\
             Without `: A` the variable has the type of `a`, whatever that is.\n\
             fails: let x : Bool = 1 in x\n\
             types: let x : Natural = 1 in x\n"
        }
    }
}

/// The explanations of `if` and of operators.
fn of_operators(rule: u32) -> &'static str
    requires { (10 ≤ rule) × (rule ≤ 14) }
    ensures { explanation rule ≡ Some result.now }
{
    match rule {
        10 => {
            "type rule 10: condition no Bool\n\
             In `if c then a else b` the condition `c` must be a `Bool`.\n\
             No number, text or list counts as true or false.\n\
             fails: if 1 then 2 else 3\n\
             types: if True then 2 else 3\n"
        }
        11 => {
            "type rule 11: branches no values\n\
             In `if c then a else b` both branches must be values: the type of their type must be `Type`.\n\
             A type is none, and neither is a record that holds one.\n\
             fails: if True then Bool else Bool\n\
             types: if True then True else False\n"
        }
        12 => {
            "type rule 12: branches differ\n\
             In `if c then a else b` both branches must have one type.\n\
             Values of two types become one as alternatives of a union.\n\
             fails: if True then 1 else False\n\
             types: if True then 1 else 2\n"
        }
        13 => {
            "type rule 13: left side of an operator\n\
             The left side of `+` and `*` must be a `Natural`, that of `++` a `Text`, and that of `||`, `&&`, `==` and `!=` a `Bool`.\n\
             The left side of `#` must be a list.\n\
             fails: True + 1\n\
             types: 2 + 1\n"
        }
        _ => {
            "type rule 14: right side of an operator\n\
             The right side of `+` and `*` must be a `Natural`, that of `++` a `Text`, and that of `||`, `&&`, `==` and `!=` a `Bool`.\n\
             The right side of `#` must be a list of the same type as the left side.\n\
             A number with a sign, as `+1`, is an `Integer` and no `Natural`.\n\
             fails: 1 + True\n\
             types: 1 + 2\n"
        }
    }
}

/// The explanations of lists and `Some`.
fn of_lists(rule: u32) -> &'static str
    requires { (15 ≤ rule) × (rule ≤ 18) }
    ensures { explanation rule ≡ Some result.now }
{
    match rule {
        15 => {
            "type rule 15: annotation of an empty list\n\
             In `[] : T` the annotation `T` must be the type of the list, which is `List` with the type of the elements.\n\
             fails: [] : Bool\n\
             types: [] : List Bool\n"
        }
        16 => {
            "type rule 16: elements no values\n\
             The elements of a list must be values: the type of the type of the first one must be `Type`.\n\
             A type is none, and neither is a record that holds one.\n\
             fails: [ Bool ]\n\
             types: [ True ]\n"
        }
        17 => {
            "type rule 17: elements differ\n\
             Each element of a list must have the type of the first one.\n\
             Values of several types stand in one list as alternatives of a union.\n\
             fails: [ 1, True ]\n\
             types: [ 1, 2 ]\n"
        }
        _ => {
            "type rule 18: Some of no value\n\
             In `Some a` the part `a` must be a value: the type of its type must be `Type`.\n\
             `Some` takes the value alone, and `None` takes a type.\n\
             fails: Some Bool\n\
             types: Some True\n"
        }
    }
}

/// The explanations of record types, records, unions and selections.
fn of_fields(rule: u32) -> &'static str
    requires { (19 ≤ rule) × (rule ≤ 22) }
    ensures { explanation rule ≡ Some result.now }
{
    match rule {
        19 => {
            "type rule 19: field of a record type\n\
             In a record type `{ x : A }` each `A` must be a type, a kind or a sort: its own type must be `Type`, `Kind` or `Sort`.\n\
             A value stands after `=`, in a record.\n\
             fails: { a : 1 }\n\
             types: { a : Bool }\n"
        }
        20 => {
            "type rule 20: field of type Sort\n\
             No field of a record may have the type `Sort`, as `Kind` has.\n\
             The type of the record would hold `Sort`, and so have no type itself.\n\
             fails: { a = Kind }\n\
             types: { a = Type }\n"
        }
        21 => {
            "type rule 21: alternative of a union\n\
             In a union `< x : A | y >` each `A` must be a type, a kind or a sort: its own type must be `Type`, `Kind` or `Sort`.\n\
             An alternative without a value has no colon.\n\
             fails: < a : 1 >\n\
             types: < a : Bool >\n"
        }
        _ => {
            "type rule 22: nothing to select\n\
             In `e.x` the part `e` must be a record with the field `x`, or a union with the alternative `x`.\n\
             An alternative is selected from the union, which is a type, and not from a value of it.\n\
             fails: { a = 1 }.b\n\
             types: { a = 1 }.a\n"
        }
    }
}

/// The explanations of projections.
fn of_projections(rule: u32) -> &'static str
    requires { (23 ≤ rule) × (rule ≤ 27) }
    ensures { explanation rule ≡ Some result.now }
{
    match rule {
        23 => {
            "type rule 23: projection of no record\n\
             In `e.{ x, y }` the part `e` must be a record.\n\
             A record type is none.\n\
             fails: True.{ a }\n\
             types: { a = True }.{ a }\n"
        }
        24 => {
            "type rule 24: projection lacks a field\n\
             In `e.{ x, y }` the record `e` must have each field that is named.\n\
             Its other fields are left out.\n\
             fails: { a = 1 }.{ b }\n\
             types: { a = 1, b = 2 }.{ b }\n"
        }
        25 => {
            "type rule 25: projection by a type, of no record\n\
             In `e.(T)` the part `e` must be a record.\n\
             It is narrowed to the fields of the record type `T`.\n\
             fails: True.({ a : Bool })\n\
             types: { a = True }.({ a : Bool })\n"
        }
        26 => {
            "type rule 26: projection by no record type\n\
             In `e.(T)` the normal form of `T` must be a record type.\n\
             A projection by names has braces in place of the brackets, as `e.{ x, y }`.\n\
             fails: { a = 1 }.(Bool)\n\
             types: { a = 1 }.({ a : Natural })\n"
        }
        _ => {
            "type rule 27: projection by another type\n\
             In `e.(T)` the record `e` must have each field of the record type `T`, and with the type that `T` says.\n\
             Its other fields are left out.\n\
             fails: { a = 1 }.({ a : Bool })\n\
             types: { a = 1, b = 2 }.({ a : Natural })\n"
        }
    }
}

/// The explanations of the operators on records and record types.
fn of_joins(rule: u32) -> &'static str
    requires { (28 ≤ rule) × (rule ≤ 33) }
    ensures { explanation rule ≡ Some result.now }
{
    match rule {
        28 => {
            "type rule 28: left side no record\n\
             The left side of `//` and of `/\\` must be a record. For record types there is `//\\\\`.\n\
             A record that names a field twice joins both values by `/\\`, so there this rule is told of the field.\n\
             fails: 1 // {=}\n\
             types: { a = 1 } // {=}\n"
        }
        29 => {
            "type rule 29: right side no record\n\
             The right side of `//` and of `/\\` must be a record. For record types there is `//\\\\`.\n\
             fails: {=} // 1\n\
             types: {=} // { a = 1 }\n"
        }
        30 => {
            "type rule 30: fields collide\n\
             In `l /\\ r` a field of both sides must be a record on both sides, and so on with the fields of these.\n\
             `l // r` takes such a field from the right side, whatever it is.\n\
             fails: { a = 1 } /\\ { a = 2 }\n\
             types: { a = 1 } /\\ { b = 2 }\n"
        }
        31 => {
            "type rule 31: left side no record type\n\
             The left side of `//\\\\` must be a record type. For records there are `/\\` and `//`.\n\
             fails: Bool //\\\\ {}\n\
             types: { a : Bool } //\\\\ {}\n"
        }
        32 => {
            "type rule 32: right side no record type\n\
             The right side of `//\\\\` must be a record type. For records there are `/\\` and `//`.\n\
             fails: {} //\\\\ Bool\n\
             types: {} //\\\\ { a : Bool }\n"
        }
        _ => {
            "type rule 33: field types collide\n\
             In `l //\\\\ r` a field of both sides must be a record type on both sides, and so on with the fields of these.\n\
             Two equal types are refused, too.\n\
             fails: { a : Bool } //\\\\ { a : Bool }\n\
             types: { a : Bool } //\\\\ { b : Bool }\n"
        }
    }
}

/// The explanations of `merge`: its parts and handlers.
fn of_handlers(rule: u32) -> &'static str
    requires { (34 ≤ rule) × (rule ≤ 38) }
    ensures { explanation rule ≡ Some result.now }
{
    match rule {
        34 => {
            "type rule 34: handlers no record\n\
             In `merge h u` the handlers `h` must be a record, with a field for each alternative of the union.\n\
             fails: merge 1 < a >.a\n\
             types: merge { a = 1 } < a >.a\n"
        }
        35 => {
            "type rule 35: merge of no union\n\
             In `merge h u` the part `u` must be a value of a union, or an `Optional`.\n\
             A union itself is none: it is a type, and `< a >.a` is a value of it.\n\
             fails: merge {=} 1\n\
             types: merge { None = 1, Some = \\(n : Natural) -> n } (Some 2)\n"
        }
        36 => {
            "type rule 36: labels of the handlers\n\
             In `merge h u` the record `h` must have a handler for each alternative of the union, and no others.\n\
             The handlers of an `Optional` are `None` and `Some`.\n\
             fails: merge { b = 1 } < a >.a\n\
             types: merge { a = 1, b = 2 } < a | b >.a\n"
        }
        37 => {
            "type rule 37: handler no function\n\
             In `merge h u` the handler of an alternative with a value must be a function from the type of that value.\n\
             The handler of an alternative without a value is the result alone.\n\
             fails: merge { a = 1 } (< a : Bool >.a True)\n\
             types: merge { a = \\(x : Bool) -> 1 } (< a : Bool >.a True)\n"
        }
        _ => {
            "type rule 38: type of a result depends\n\
             In `merge h u` the type of the result of a handler must not mention the argument of the handler.\n\
             It is the type of the whole, where that argument is not bound.\n\
             fails: merge { a = \\(t : Type) -> [] : List t } (< a : Type >.a Bool)\n\
             types: merge { a = \\(t : Type) -> [] : List Bool } (< a : Type >.a Bool)\n"
        }
    }
}

/// The explanations of `merge`: its type.
fn of_merges(rule: u32) -> &'static str
    requires { (39 ≤ rule) × (rule ≤ 41) }
    ensures { explanation rule ≡ Some result.now }
{
    match rule {
        39 => {
            "type rule 39: results of the handlers differ\n\
             In `merge h u` all handlers must give results of one type, which is the type of the whole.\n\
             fails: merge { a = 1, b = True } < a | b >.a\n\
             types: merge { a = 1, b = 2 } < a | b >.a\n"
        }
        40 => {
            "type rule 40: annotation of a merge\n\
             In `merge h u : T` the handlers must give results of the type `T`.\n\
             fails: merge { a = 1 } < a >.a : Bool\n\
             types: merge { a = 1 } < a >.a : Natural\n"
        }
        _ => {
            "type rule 41: merge without a type\n\
             In `merge h u` a union without alternatives has no handler that would tell the type of the whole.\n\
             So there it must be told by an annotation.\n\
             fails: \\(x : <>) -> merge {=} x\n\
             types: \\(x : <>) -> merge {=} x : Bool\n"
        }
    }
}

/// The explanations of `toMap` and of texts.
fn of_maps(rule: u32) -> &'static str
    requires { (42 ≤ rule) × (rule ≤ 46) }
    ensures { explanation rule ≡ Some result.now }
{
    match rule {
        42 => {
            "type rule 42: toMap of no record\n\
             In `toMap e` the part `e` must be a record.\n\
             It becomes a list with an entry for each field.\n\
             fails: toMap 1\n\
             types: toMap { a = 1 }\n"
        }
        43 => {
            "type rule 43: fields of a toMap differ\n\
             In `toMap e` all fields of `e` must have one type, and be values: the type of their type must be `Type`.\n\
             They become the elements of one list.\n\
             fails: toMap { a = 1, b = True }\n\
             types: toMap { a = 1, b = 2 }\n"
        }
        44 => {
            "type rule 44: toMap without a type\n\
             In `toMap e` a record without fields does not tell the type of the list.\n\
             So there it must be told by an annotation.\n\
             fails: toMap {=}\n\
             types: toMap {=} : List { mapKey : Text, mapValue : Bool }\n"
        }
        45 => {
            "type rule 45: annotation of a toMap\n\
             In `toMap e : T` the annotation `T` must be `List { mapKey : Text, mapValue : V }`, where `V` is the type of the fields of `e`.\n\
             fails: toMap { a = 1 } : List Bool\n\
             types: toMap { a = 1 } : List { mapKey : Text, mapValue : Natural }\n"
        }
        _ => {
            "type rule 46: interpolation no Text\n\
             In `\"${e}\"` the part `e` must be a `Text`.\n\
             `Natural/show` and `Integer/show` make one of a number.\n\
             fails: \"${1}\"\n\
             types: \"${Natural/show 1}\"\n"
        }
    }
}

/// The explanations of assertions and equivalences.
fn of_equivalences(rule: u32) -> &'static str
    requires { (47 ≤ rule) × (rule ≤ 51) }
    ensures { explanation rule ≡ Some result.now }
{
    match rule {
        47 => {
            "type rule 47: assertion of no type\n\
             In `assert : T` the part `T` must be a type: its own type must be `Type`.\n\
             An equivalence `a === b` is one.\n\
             fails: assert : 1\n\
             types: assert : 1 === 1\n"
        }
        48 => {
            "type rule 48: assertion of no equivalence\n\
             In `assert : T` the normal form of `T` must be an equivalence `a === b`.\n\
             A test such as `a == b` gives a `Bool`, which is asserted by `a == b === True`.\n\
             fails: assert : Bool\n\
             types: assert : True === True\n"
        }
        49 => {
            "type rule 49: assertion fails\n\
             In `assert : a === b` both sides must have one normal form, but for the names of bound variables.\n\
             So here the program does not do what it asserts.\n\
             fails: assert : 1 === 2\n\
             types: assert : 1 + 1 === 2\n"
        }
        50 => {
            "type rule 50: sides of an equivalence differ\n\
             In `a === b` both sides must have one type.\n\
             They need not have one value: only `assert` asks for that.\n\
             fails: 1 === True\n\
             types: 1 === 2\n"
        }
        _ => {
            "type rule 51: sides of an equivalence no values\n\
             In `a === b` both sides must be values: the type of their type must be `Type`.\n\
             A type is none, and neither is a record that holds one.\n\
             fails: Bool === Bool\n\
             types: True === True\n"
        }
    }
}

/// The explanations of annotations, completions, updates and imports.
fn of_annotations(rule: u32) -> &'static str
    requires { (52 ≤ rule) × (rule ≤ 56) }
    ensures { explanation rule ≡ Some result.now }
{
    match rule {
        52 => {
            "type rule 52: annotation differs\n\
             In `e : T` the type of `e` must be `T`.\n\
             Both are compared by their normal forms, in which the names of bound variables do not matter.\n\
             fails: 1 : Bool\n\
             types: 1 : Natural\n"
        }
        53 => {
            "type rule 53: completion has no type\n\
             `T::r` stands for `(T.default // r) : T.Type`, which must have a type.\n\
             So `T` must be a record with the fields `Type` and `default`, and `r` a record.\n\
             Both together must have just the fields that `T.Type` says, with their types.\n\
             fails: { Type = {}, default = {=} }::{ b = 1 }\n\
             types: { Type = { b : Natural }, default = {=} }::{ b = 1 }\n"
        }
        54 => {
            "type rule 54: update of no record\n\
             In `e with x.y = v` the part `e` must be a record, and so must each field on the path but the last.\n\
             A field that is not there is made.\n\
             fails: { a = 1 } with a.b = 2\n\
             types: { a = {=} } with a.b = 2\n"
        }
        55 => {
            "type rule 55: update of type Sort\n\
             In `e with x = v` the type of the new value `v` must not be `Sort`, as that of `Kind` is.\n\
             The type of the record would hold `Sort`, and so have no type itself.\n\
             fails: {=} with a = Kind\n\
             types: {=} with a = Type\n"
        }
        _ => {
            "type rule 56: not resolved\n\
             An import has no type, and neither has `l ? r`. Before a text is typed, each of them has its value in its place.\n\
             So no text fails by this rule. Only an entry of the cache can hold a `?`, if another program wrote it so.\n\
             types: missing ? 1\n"
        }
    }
}

/// What a rule of typing wants, by its number: its name, sentences, a text that fails by it and one that has a type, a line each.
/// There is none where no rule has the number.
pub fn explanation(rule: u32) -> Option<&'static str>
    ensures { option_map (λ text. text.now) result ≡ explanation rule }
{
    match rule {
        1..=4 => Some(of_names_and_functions(rule)),
        5..=9 => Some(of_function_types(rule)),
        10..=14 => Some(of_operators(rule)),
        15..=18 => Some(of_lists(rule)),
        19..=22 => Some(of_fields(rule)),
        23..=27 => Some(of_projections(rule)),
        28..=33 => Some(of_joins(rule)),
        34..=38 => Some(of_handlers(rule)),
        39..=41 => Some(of_merges(rule)),
        42..=46 => Some(of_maps(rule)),
        47..=51 => Some(of_equivalences(rule)),
        52..=56 => Some(of_annotations(rule)),
        _ => None,
    }
}

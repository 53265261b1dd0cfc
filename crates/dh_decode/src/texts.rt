//! Texts that items give, and the names that they stand for.
ghost use Rattle.std.specs.Prelude.{◌≡◌, Some, None, IfSome, IfNone, IfOk};
ghost use Rattle.dh_syntax.specs.Bytes.BinaryLeaves.{check};
ghost use Rattle.dh_syntax.specs.Expressions.Builtins.{builtin_of};
ghost use Rattle.dh_syntax.specs.Expressions.Numbers.{bytes_eq};
ghost use Rattle.dh_syntax.specs.Expressions.Spellable.{is_query};
ghost use Rattle.dh_decode.specs.Inside.Names.{builtin_in};
ghost use Rattle.dh_decode.specs.Inside.States.{test_of};

use crate::places::Test;
use crate::spelling::is_query;
use dh_syntax::Builtin;
use std::str;

/// The text of these bytes, if it passes a test.
pub fn spelled<'a>(test: Test, bytes: &'a [u8]) -> Option<&'a str>
    ensures some { IfSome result (λ t. check (test_of test) bytes.now ≡ Some t.now) }
    ensures none { IfNone result (check (test_of test) bytes.now ≡ None) }
{
    match str::from_utf8(bytes) {
        Ok(text) if test.passes(text) => Some(text),
        Ok(_) => None,
        Err(_) => None,
    }
}

/// The text of these bytes, if it may stand behind the `?` of a URL.
pub fn query<'a>(bytes: &'a [u8]) -> Option<&'a str>
    ensures some { IfSome result (λ t. check is_query bytes.now ≡ Some t.now) }
    ensures none { IfNone result (check is_query bytes.now ≡ None) }
{
    match str::from_utf8(bytes) {
        Ok(text) if is_query(text.as_bytes()) => Some(text),
        Ok(_) => None,
        Err(_) => None,
    }
}

/// The names of the built-ins.
static BUILTINS: [(&str, Builtin); 30] = [
    ("Type", Builtin::TypeConst),
    ("Kind", Builtin::Kind),
    ("Sort", Builtin::Sort),
    ("Bool", Builtin::Bool),
    ("Natural", Builtin::Natural),
    ("Integer", Builtin::Integer),
    ("Text", Builtin::Text),
    ("List", Builtin::List),
    ("Optional", Builtin::Optional),
    ("None", Builtin::None),
    ("Natural/fold", Builtin::NaturalFold),
    ("Natural/build", Builtin::NaturalBuild),
    ("Natural/isZero", Builtin::NaturalIsZero),
    ("Natural/even", Builtin::NaturalEven),
    ("Natural/odd", Builtin::NaturalOdd),
    ("Natural/toInteger", Builtin::NaturalToInteger),
    ("Natural/show", Builtin::NaturalShow),
    ("Natural/subtract", Builtin::NaturalSubtract),
    ("Integer/show", Builtin::IntegerShow),
    ("Integer/negate", Builtin::IntegerNegate),
    ("Integer/clamp", Builtin::IntegerClamp),
    ("List/build", Builtin::ListBuild),
    ("List/fold", Builtin::ListFold),
    ("List/length", Builtin::ListLength),
    ("List/head", Builtin::ListHead),
    ("List/last", Builtin::ListLast),
    ("List/indexed", Builtin::ListIndexed),
    ("List/reverse", Builtin::ListReverse),
    ("Text/show", Builtin::TextShow),
    ("Text/replace", Builtin::TextReplace),
];

fn is_name(spelling: &str, name: &[u8]) -> bool
    ensures { result ≡ bytes_eq spelling.now name.now }
{
    spelling.as_bytes() == name
}

/// The built-in of a name by a table of names.
fn builtin_in(table: &[(&str, Builtin)], name: &[u8]) -> Option<Builtin>
    ensures { result ≡ builtin_in table.now name.now }
{
    for (spelling, builtin) in table {
        if is_name(spelling, name) {
            return Some(*builtin);
        }
    }
    None
}

/// The built-in of a name.
pub fn builtin_of(name: &[u8]) -> Option<Builtin>
    ensures { result ≡ builtin_of name.now }
{
    builtin_in(&BUILTINS, name)
}

//! Functions, applications and lets in the binary form.

ghost use Rattle.std.specs.Prelude.{◌≡◌, ◌++◌, ◌∷◌, [], ◌≤◌, ◌+◌, ◌*◌, length, true, OnOk, IsTrue};
ghost use Rattle.std.specs.List.{concat};
ghost use Rattle.dh_syntax.specs.Bytes.Binary.{enc, form, node, forms};
ghost use Rattle.dh_syntax.specs.Expressions.Arity.{fits, plain, binding};
ghost use Rattle.dh_syntax.specs.Expressions.Bridge.{term, row_of};
ghost use Rattle.dh_syntax.specs.Expressions.Tree.{Node};
ghost use Rattle.dh_syntax.specs.Expressions.Nesting.{parts_nesting};
ghost use Rattle.dh_encode.specs.Inside.Items.{CanEncode, CanEncodeAll, abstraction_bytes, let_head};

use crate::names::is_underscore;
use crate::parts::{as_application, as_let, scope_of, two};
use crate::writer::Writer;
use dh_syntax::{Expr, Kid, Label, Op};
use std::alloc::AllocError;

impl Writer {
    /// A function or a function type. The name `_` is left out.
    #[cycle(expression)]
    pub(crate) fn push_abstraction(&mut self, code: u32, kids: &[Kid]) -> Result<(), AllocError>
        requires fit { binding 1 (row_of kids.now) ≡ true }
        requires parts { CanEncodeAll (row_of kids.now) }
        ensures { OnOk result (self.new ≡ self.old ++ abstraction_bytes code (row_of kids.now)) }
    {
        let name = scope_of(kids).name;
        if is_underscore(name) {
            return self.push_coded(code, kids);
        }
        self.push_head(4, 4)?;
        self.push_code(code)?;
        self.push_label(name)?;
        self.push_expressions(kids)
    }

    /// An application with all of its arguments.
    #[cycle(expression)]
    pub(crate) fn push_application(&mut self, kids: &[Kid]) -> Result<(), AllocError>
        requires fit { plain 2 (row_of kids.now) ≡ true }
        requires parts { CanEncodeAll (row_of kids.now) }
        ensures { OnOk result (self.new ≡ self.old ++ enc (Node Op.App (row_of kids.now))) }
    {
        self.push_head(4, 1 + count_arguments(kids))?;
        self.push_code(0)?;
        self.push_arguments(kids)
    }

    /// The items of an application: the function behind all of its arguments, and these.
    #[cycle(expression)]
    fn push_arguments(&mut self, kids: &[Kid]) -> Result<(), AllocError>
        requires fit { plain 2 (row_of kids.now) ≡ true }
        requires parts { CanEncodeAll (row_of kids.now) }
        ensures { OnOk result (self.new ≡ self.old ++ concat (node Op.App (forms (row_of kids.now))).applied) }
    {
        let (function, argument) = two(kids);
        self.push_applied(function)?;
        self.push_expression(argument)
    }

    /// The items of an expression that is applied: of an application its own items.
    #[cycle(expression)]
    fn push_applied(&mut self, e: &Expr) -> Result<(), AllocError>
        requires { CanEncode (term e.now) }
        ensures { OnOk result (self.new ≡ self.old ++ concat (form (term e.now)).applied) }
    {
        match as_application(e) {
            Some(kids) => self.push_arguments(kids),
            None => self.push_expression(e),
        }
    }

    /// A let, with the lets that are its body.
    #[cycle(expression)]
    pub(crate) fn push_let(&mut self, typed: bool, kids: &[Kid]) -> Result<(), AllocError>
        requires fit { IsTrue (fits (Op.Let typed) (row_of kids.now)) }
        requires parts { CanEncodeAll (row_of kids.now) }
        ensures { OnOk result (self.new ≡ self.old ++ enc (Node (Op.Let typed) (row_of kids.now))) }
    {
        self.push_head(4, 1 + count_bindings(typed, kids))?;
        self.push_code(25)?;
        self.push_bindings(typed, kids)
    }

    /// The items of a let: its variable, its type or null, its value, and those of its body.
    #[cycle(expression)]
    fn push_bindings(&mut self, typed: bool, kids: &[Kid]) -> Result<(), AllocError>
        requires fit { IsTrue (fits (Op.Let typed) (row_of kids.now)) }
        requires parts { CanEncodeAll (row_of kids.now) }
        ensures { OnOk result (self.new ≡ self.old ++ concat (node (Op.Let typed) (forms (row_of kids.now))).bound) }
    {
        let scope = scope_of(kids);
        self.push_variable_of_let(typed, scope.name)?;
        self.push_expressions(scope.front)?;
        self.push_bound(scope.body)
    }

    /// The items of the body of a let: of a let its own items.
    #[cycle(expression)]
    fn push_bound(&mut self, e: &Expr) -> Result<(), AllocError>
        requires { CanEncode (term e.now) }
        ensures { OnOk result (self.new ≡ self.old ++ concat (form (term e.now)).bound) }
    {
        match as_let(e) {
            Some((typed, kids)) => self.push_bindings(typed, kids),
            None => self.push_expression(e),
        }
    }

    /// The variable of a let, and null where it has no written type.
    fn push_variable_of_let(&mut self, typed: bool, name: &Label) -> Result<(), AllocError>
        ensures { OnOk result (self.new ≡ self.old ++ concat (let_head typed name.now)) }
    {
        if typed {
            return self.push_label(name);
        }
        self.push_label(name)?;
        self.push_null()
    }
}

/// How many items an application has: one for the function behind all of its arguments, and one for each of these.
fn count_arguments(kids: &[Kid]) -> u64
    requires fit { plain 2 (row_of kids.now) ≡ true }
    requires parts { CanEncodeAll (row_of kids.now) }
    ensures count { result ≡ length (node Op.App (forms (row_of kids.now))).applied }
    ensures few { result ≤ parts_nesting (row_of kids.now) + 1 }
{
    match as_application(two(kids).0) {
        Some(inner) => 1 + count_arguments(inner),
        None => 2,
    }
}

/// How many items a let has: three for each let of the chain, and one for the body behind them.
fn count_bindings(typed: bool, kids: &[Kid]) -> u64
    requires fit { IsTrue (fits (Op.Let typed) (row_of kids.now)) }
    requires parts { CanEncodeAll (row_of kids.now) }
    ensures count { result ≡ length (node (Op.Let typed) (forms (row_of kids.now))).bound }
    ensures few { result ≤ 3 * parts_nesting (row_of kids.now) + 1 }
{
    match as_let(scope_of(kids).body) {
        Some((typed, inner)) => 3 + count_bindings(typed, inner),
        None => 4,
    }
}

//! Expressions in the binary form.

ghost use Rattle.std.specs.Prelude.{◌≡◌, ◌++◌, ◌∷◌, OnOk, IsTrue};
ghost use Rattle.std.specs.List.{concat};
ghost use Rattle.dh_syntax.specs.Bytes.Cbor.{array, head, null};
ghost use Rattle.dh_syntax.specs.Bytes.Binary.{enc};
ghost use Rattle.dh_syntax.specs.Expressions.Arity.{fits};
ghost use Rattle.dh_syntax.specs.Expressions.Bridge.{term, row_of};
ghost use Rattle.dh_syntax.specs.Expressions.Tree.{Node};
ghost use Rattle.dh_encode.specs.Inside.Items.{row_items, CanEncode, CanEncodeAll};

use crate::names::code_of;
use crate::parts::one;
use crate::writer::Writer;
use dh_syntax::{BinOp, Expr, Kid, Op};
use std::alloc::AllocError;

impl Writer {
    /// An expression by itself.
    #[cycle(expression)]
    pub(crate) fn push_expression(&mut self, e: &Expr) -> Result<(), AllocError>
        requires { CanEncode (term e.now) }
        ensures { OnOk result (self.new ≡ self.old ++ enc (term e.now)) }
    {
        match e {
            Expr::Var(name, index) => self.push_variable(name, *index),
            Expr::Node(op, kids) => self.push_node(op, kids.as_slice()),
        }
    }

    /// Expressions, one after the other.
    #[cycle(expression)]
    pub(crate) fn push_expressions(&mut self, kids: &[Kid]) -> Result<(), AllocError>
        requires { CanEncodeAll (row_of kids.now) }
        ensures { OnOk result (self.new ≡ self.old ++ concat (row_items (row_of kids.now))) }
    {
        for kid in kids {
            self.push_expression(&kid.body)?;
        }
        Ok(())
    }

    /// A node with its parts.
    #[cycle(expression)]
    fn push_node(&mut self, op: &Op, kids: &[Kid]) -> Result<(), AllocError>
        requires fit { IsTrue (fits op.now (row_of kids.now)) }
        requires parts { CanEncodeAll (row_of kids.now) }
        ensures { OnOk result (self.new ≡ self.old ++ enc (Node op.now (row_of kids.now))) }
    {
        match op {
            Op::Builtin(builtin) => self.push_text(builtin.name()),
            Op::Bool(value) => self.push_truth(*value),
            Op::Nat(n) => self.push_natural_literal(*n),
            Op::Int(n) => self.push_integer_literal(*n),
            Op::Text(pieces) => self.push_text_literal(pieces.as_slice(), kids),
            Op::Import(import) => self.push_import(import.get()),
            Op::Lam => self.push_abstraction(1, kids),
            Op::Pi => self.push_abstraction(2, kids),
            Op::Let(typed) => self.push_let(*typed, kids),
            Op::App => self.push_application(kids),
            Op::If => self.push_coded(14, kids),
            Op::Bin(operator) => self.push_operation(*operator, kids),
            Op::EmptyList => self.push_empty_list(one(kids)),
            Op::List => self.push_coded_null(4, kids),
            Op::Some => self.push_coded_null(5, kids),
            Op::Merge(_) => self.push_coded(6, kids),
            Op::RecordType(labels) => self.push_fields(7, labels.as_slice(), kids),
            Op::Record(labels) => self.push_fields(8, labels.as_slice(), kids),
            Op::Field(label) => self.push_selection(label, kids),
            Op::Project(labels) => self.push_projection(labels.as_slice(), kids),
            Op::ProjectType => self.push_projection_by_type(kids),
            Op::Union(alts) => self.push_union(alts.as_slice(), kids),
            Op::Assert => self.push_coded(19, kids),
            Op::Annot => self.push_coded(26, kids),
            Op::ToMap(_) => self.push_coded(27, kids),
            Op::With(path) => self.push_update(path.as_slice(), kids),
        }
    }

    /// An array of a code and the parts.
    #[cycle(expression)]
    pub(crate) fn push_coded(&mut self, code: u32, kids: &[Kid]) -> Result<(), AllocError>
        requires { CanEncodeAll (row_of kids.now) }
        ensures { OnOk result (self.new ≡ self.old ++ array (head 0 code ∷ row_items (row_of kids.now))) }
    {
        self.push_head(4, 1 + kids.len() as u64)?;
        self.push_code(code)?;
        self.push_expressions(kids)
    }

    /// An array of a code, null and the parts.
    #[cycle(expression)]
    fn push_coded_null(&mut self, code: u32, kids: &[Kid]) -> Result<(), AllocError>
        requires { CanEncodeAll (row_of kids.now) }
        ensures { OnOk result (self.new ≡ self.old ++ array (head 0 code ∷ null ∷ row_items (row_of kids.now))) }
    {
        self.push_head(4, 2 + kids.len() as u64)?;
        self.push_code(code)?;
        self.push_null()?;
        self.push_expressions(kids)
    }

    /// An operator between two expressions.
    #[cycle(expression)]
    fn push_operation(&mut self, operator: BinOp, kids: &[Kid]) -> Result<(), AllocError>
        requires { CanEncodeAll (row_of kids.now) }
        ensures { OnOk result (self.new ≡ self.old ++ enc (Node (Op.Bin operator) (row_of kids.now))) }
    {
        self.push_head(4, 2 + kids.len() as u64)?;
        self.push_code(3)?;
        self.push_code(code_of(operator))?;
        self.push_expressions(kids)
    }
}

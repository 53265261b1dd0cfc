//! Texts, lists, records and unions in the binary form.

ghost use Rattle.std.specs.Prelude.{◌≡◌, ◌++◌, ◌∷◌, [], ◌<◌, ◌+◌, length, true, false, map, OnOk, IfSome, IfNone, IsTrue};
ghost use Rattle.std.specs.List.{concat};
ghost use Rattle.dh_syntax.specs.Bytes.Cbor.{array, head, map_of};
ghost use Rattle.dh_syntax.specs.Bytes.Binary.{enc, form, pairs, alternatives, interleaved, empty_list};
ghost use Rattle.dh_syntax.specs.Expressions.Arity.{fits, plain, typed_count, IsWellFormed};
ghost use Rattle.dh_syntax.specs.Expressions.Bridge.{term, row_of};
ghost use Rattle.dh_syntax.specs.Expressions.Nesting.{nesting};
ghost use Rattle.dh_syntax.specs.Expressions.Tree.{Node};
ghost use Rattle.dh_encode.specs.Inside.Items.{row_items, CanEncode, CanEncodeAll, is_list};

use crate::parts::{as_application, two};
use crate::writer::Writer;
use dh_syntax::{Alt, Builtin, Expr, Kid, Label, Op, Piece};
use std::alloc::AllocError;

impl Writer {
    /// The pieces of a text with the interpolations between them.
    #[cycle(expression)]
    pub(crate) fn push_text_literal(
        &mut self,
        pieces: &[Piece],
        kids: &[Kid],
    ) -> Result<(), AllocError>
        requires fit { IsTrue (fits (Op.Text pieces.now) (row_of kids.now)) }
        requires parts { CanEncodeAll (row_of kids.now) }
        ensures { OnOk result (self.new ≡ self.old ++ enc (Node (Op.Text pieces.now) (row_of kids.now))) }
    {
        self.push_head(4, 1 + pieces.len() as u64 + kids.len() as u64)?;
        self.push_code(18)?;
        self.push_text(pieces[0].as_str())?;
        for (i, kid) in kids.iter().enumerate() {
            self.push_expression(&kid.body)?;
            self.push_text(pieces[i + 1].as_str())?;
        }
        Ok(())
    }

    /// The empty list, by the type of its elements where its own type is `List` applied to that type.
    #[cycle(expression)]
    pub(crate) fn push_empty_list(&mut self, list_type: &Expr) -> Result<(), AllocError>
        requires { CanEncode (term list_type.now) }
        ensures { OnOk result (self.new ≡ self.old ++ empty_list (form (term list_type.now))) }
    {
        self.push_head(4, 2)?;
        match element_type(list_type) {
            Some(element) => {
                self.push_code(4)?;
                self.push_expression(element)
            }
            None => {
                self.push_code(28)?;
                self.push_expression(list_type)
            }
        }
    }

    /// A record or a record type: a map from each label to its part.
    #[cycle(expression)]
    pub(crate) fn push_fields(
        &mut self,
        code: u32,
        labels: &[Label],
        kids: &[Kid],
    ) -> Result<(), AllocError>
        requires fit { length labels.now ≡ length kids.now }
        requires parts { CanEncodeAll (row_of kids.now) }
        ensures { OnOk result (self.new ≡ self.old ++ array (head 0 code ∷ map_of (length labels.now) (pairs labels.now (row_items (row_of kids.now))) ∷ [])) }
    {
        self.push_head(4, 2)?;
        self.push_code(code)?;
        self.push_head(5, labels.len() as u64)?;
        for (i, label) in labels.iter().enumerate() {
            self.push_label(label)?;
            self.push_expression(&kids[i].body)?;
        }
        Ok(())
    }

    /// A union type: a map from each label to its type, or to null.
    #[cycle(expression)]
    pub(crate) fn push_union(&mut self, alts: &[Alt], kids: &[Kid]) -> Result<(), AllocError>
        requires fit { typed_count alts.now ≡ length kids.now }
        requires parts { CanEncodeAll (row_of kids.now) }
        ensures { OnOk result (self.new ≡ self.old ++ array (head 0 11 ∷ map_of (length alts.now) (alternatives alts.now (row_items (row_of kids.now))) ∷ [])) }
    {
        self.push_head(4, 2)?;
        self.push_code(11)?;
        self.push_head(5, alts.len() as u64)?;
        let mut next = 0;
        for alt in alts {
            self.push_label(&alt.label)?;
            if alt.typed {
                self.push_expression(&kids[next].body)?;
                next += 1;
            } else {
                self.push_null()?;
            }
        }
        Ok(())
    }

    /// A field of a record.
    #[cycle(expression)]
    pub(crate) fn push_selection(&mut self, label: &Label, kids: &[Kid]) -> Result<(), AllocError>
        requires { CanEncodeAll (row_of kids.now) }
        ensures { OnOk result (self.new ≡ self.old ++ enc (Node (Op.Field label.now) (row_of kids.now))) }
    {
        self.push_head(4, 2 + kids.len() as u64)?;
        self.push_code(9)?;
        self.push_expressions(kids)?;
        self.push_label(label)
    }

    /// Fields of a record by their labels.
    #[cycle(expression)]
    pub(crate) fn push_projection(
        &mut self,
        labels: &[Label],
        kids: &[Kid],
    ) -> Result<(), AllocError>
        requires { CanEncodeAll (row_of kids.now) }
        ensures { OnOk result (self.new ≡ self.old ++ enc (Node (Op.Project labels.now) (row_of kids.now))) }
    {
        self.push_head(4, 1 + kids.len() as u64 + labels.len() as u64)?;
        self.push_code(10)?;
        self.push_expressions(kids)?;
        self.push_labels(labels)
    }

    /// Fields of a record by a record type, which stands in an array of its own.
    #[cycle(expression)]
    pub(crate) fn push_projection_by_type(&mut self, kids: &[Kid]) -> Result<(), AllocError>
        requires fit { plain 2 (row_of kids.now) ≡ true }
        requires parts { CanEncodeAll (row_of kids.now) }
        ensures { OnOk result (self.new ≡ self.old ++ enc (Node Op.ProjectType (row_of kids.now))) }
    {
        let (record, fields) = two(kids);
        self.push_head(4, 3)?;
        self.push_code(10)?;
        self.push_expression(record)?;
        self.push_head(4, 1)?;
        self.push_expression(fields)
    }

    /// A record with a new value at a path.
    #[cycle(expression)]
    pub(crate) fn push_update(&mut self, path: &[Label], kids: &[Kid]) -> Result<(), AllocError>
        requires fit { plain 2 (row_of kids.now) ≡ true }
        requires parts { CanEncodeAll (row_of kids.now) }
        ensures { OnOk result (self.new ≡ self.old ++ enc (Node (Op.With path.now) (row_of kids.now))) }
    {
        let (record, value) = two(kids);
        self.push_head(4, 4)?;
        self.push_code(29)?;
        self.push_expression(record)?;
        self.push_head(4, path.len() as u64)?;
        self.push_labels(path)?;
        self.push_expression(value)
    }
}

/// The type of the elements, where a type is `List` applied to it.
fn element_type(list_type: &Expr) -> Option<&Expr>
    requires { IsWellFormed (term list_type.now) }
    ensures argument { IfSome result (λ x. empty_list (form (term list_type.now)) ≡ array (head 0 4 ∷ enc (term x.now) ∷ [])) }
    ensures formed { IfSome result (λ x. IsWellFormed (term x.now)) }
    ensures smaller { IfSome result (λ x. nesting (term x.now) < nesting (term list_type.now)) }
    ensures other { IfNone result (empty_list (form (term list_type.now)) ≡ array (head 0 28 ∷ enc (term list_type.now) ∷ [])) }
{
    match as_application(list_type) {
        Some(kids) => {
            let (function, argument) = two(kids);
            if is_list(function) {
                Some(argument)
            } else {
                None
            }
        }
        None => None,
    }
}

/// Whether an expression is `List`.
fn is_list(e: &Expr) -> bool
    ensures { result ≡ is_list (term e.now) }
{
    match e {
        Expr::Node(op, _) => match op {
            Op::Builtin(builtin) => matches!(builtin, Builtin::List),
            _ => false,
        },
        Expr::Var(_, _) => false,
    }
}

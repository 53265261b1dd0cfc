//! Operands without parts: literals, built-ins, variables and imports.
ghost use Rattle.std.specs.Prelude.{◌≡◌, false, None, Some, IfOk, []};
ghost use Rattle.dh_grammar.specs.Stubs.{stubs, at, node, kept};
ghost use Rattle.dh_operands.specs.Operands.{operand_of};
ghost use Rattle.dh_making.specs.Words.{word_of, source_of};
ghost use Rattle.dh_syntax.specs.Text.Meaning.{variable_term};

use crate::gathering::kept;
use crate::nodes::leaf;
use crate::operands::Operand;
use dh_making::{Source, Word};
use dh_syntax::{BoxedImport, Builtin, Digest, Expr, Import, Kids, Label, Many, Mode, Op};
use std::alloc::{AllocError, Global};

impl Operand {
    pub fn natural(alloc: Global, n: u128) -> Operand
        ensures { operand_of result ≡ stubs.natural n }
    {
        primitive(alloc, Op::Nat(n))
    }

    pub fn integer(alloc: Global, z: i128) -> Operand
        ensures { operand_of result ≡ stubs.integer z }
    {
        primitive(alloc, Op::Int(z))
    }

    pub fn truth(alloc: Global, value: bool) -> Operand
        ensures { operand_of result ≡ stubs.truth value }
    {
        primitive(alloc, Op::Bool(value))
    }

    pub fn builtin(alloc: Global, builtin: Builtin) -> Operand
        ensures { operand_of result ≡ stubs.builtin builtin }
    {
        primitive(alloc, Op::Builtin(builtin))
    }

    /// `< >`
    pub fn empty_union(alloc: Global) -> Operand
        ensures { operand_of result ≡ stubs.union_none false }
    {
        primitive(alloc, Op::Union(Many::new(alloc)))
    }

    /// `{ }`
    pub fn empty_record_type(alloc: Global) -> Operand
        ensures { operand_of result ≡ stubs.record_type_none false }
    {
        primitive(alloc, Op::RecordType(Many::new(alloc)))
    }

    /// `{ = }`
    pub fn empty_record(alloc: Global) -> Operand
        ensures { operand_of result ≡ stubs.record_none false false }
    {
        primitive(alloc, Op::Record(Many::new(alloc)))
    }

    /// A name alone.
    pub fn variable(alloc: Global, word: Word) -> Operand
        ensures { operand_of result ≡ stubs.variable (word_of word) None }
    {
        variable_of(alloc, word.into_label(), 0)
    }

    /// `x@n`
    pub fn indexed(alloc: Global, word: Word, index: u32) -> Operand
        ensures { operand_of result ≡ stubs.variable (word_of word) (Some index) }
    {
        variable_of(alloc, word.into_label(), index)
    }

    /// An import.
    pub fn import(
        alloc: Global,
        source: Source,
        digest: Option<Digest>,
        mode: Mode,
    ) -> Result<Operand, AllocError>
        ensures { IfOk result (λ o. operand_of o ≡ stubs.import (source_of source) digest mode) }
    {
        let import = Import {
            loc: source.into_location(),
            mode,
            digest,
        };
        let import = BoxedImport::new(alloc, import)?;
        let expression = Expr::Node(Op::Import(import), Kids::new(alloc));
        Ok(Operand {
            part: kept(alloc, expression, 0),
            level: 15,
        })
    }
}

fn primitive(alloc: Global, op: Op) -> Operand
    ensures { operand_of result ≡ at 17 (node op []) }
{
    Operand {
        part: leaf(alloc, op),
        level: 17,
    }
}

fn variable_of(alloc: Global, label: Label, index: u32) -> Operand
    ensures { operand_of result ≡ at 17 (kept (variable_term label (Some index)) 0) }
{
    Operand {
        part: kept(alloc, Expr::Var(label, index), 0),
        level: 17,
    }
}

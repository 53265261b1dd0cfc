//! Operands made of others: operators, applications, functions, conditions and annotations.
ghost use Rattle.std.specs.Prelude.{◌≡◌, false, IfOk};
ghost use Rattle.dh_grammar.specs.Stubs.{stubs};
ghost use Rattle.dh_operands.specs.Operands.{operand_of};
ghost use Rattle.dh_making.specs.Words.{word_of, keys_of};

use crate::nodes::{one, three, two};
use crate::operands::{Operand, level_of};
use dh_making::{Keys, Word};
use dh_syntax::{BinOp, Label, Op};
use std::alloc::{AllocError, Global};

impl Operand {
    /// `left operator right`
    pub fn operation(
        alloc: Global,
        operator: BinOp,
        left: Operand,
        right: Operand,
    ) -> Result<Operand, AllocError>
        ensures { IfOk result (λ x. operand_of x ≡ stubs.operation operator (operand_of left) (operand_of right)) }
    {
        let part = two(alloc, Op::Bin(operator), left.part, None, right.part)?;
        Ok(Operand {
            part,
            level: level_of(operator),
        })
    }

    /// `function argument`
    pub fn application(
        alloc: Global,
        function: Operand,
        argument: Operand,
    ) -> Result<Operand, AllocError>
        ensures { IfOk result (λ x. operand_of x ≡ stubs.application (operand_of function) (operand_of argument)) }
    {
        let part = two(alloc, Op::App, function.part, None, argument.part)?;
        Ok(Operand { part, level: 14 })
    }

    /// `merge handlers union`
    pub fn merging(alloc: Global, handlers: Operand, union: Operand) -> Result<Operand, AllocError>
        ensures { IfOk result (λ x. operand_of x ≡ stubs.merging (operand_of handlers) (operand_of union)) }
    {
        let part = two(alloc, Op::Merge(false), handlers.part, None, union.part)?;
        Ok(Operand { part, level: 14 })
    }

    /// `Some value`
    pub fn some_of(alloc: Global, value: Operand) -> Result<Operand, AllocError>
        ensures { IfOk result (λ x. operand_of x ≡ stubs.some_of (operand_of value)) }
    {
        let part = one(alloc, Op::Some, value.part)?;
        Ok(Operand { part, level: 14 })
    }

    /// `toMap value`
    pub fn to_map(alloc: Global, value: Operand) -> Result<Operand, AllocError>
        ensures { IfOk result (λ x. operand_of x ≡ stubs.to_map (operand_of value)) }
    {
        let part = one(alloc, Op::ToMap(false), value.part)?;
        Ok(Operand { part, level: 14 })
    }

    /// `whole with keys = value`
    pub fn updating(
        alloc: Global,
        whole: Operand,
        keys: Keys,
        value: Operand,
    ) -> Result<Operand, AllocError>
        ensures { IfOk result (λ x.
            operand_of x ≡ stubs.updating (operand_of whole) (keys_of keys) (operand_of value)) }
    {
        let op = Op::With(keys.into_labels(alloc)?);
        let part = two(alloc, op, whole.part, None, value.part)?;
        Ok(Operand { part, level: 0 })
    }

    /// `λ(word : domain) → body`, or `∀`
    pub fn quantified(
        alloc: Global,
        is_lambda: bool,
        word: Word,
        domain: Operand,
        body: Operand,
    ) -> Result<Operand, AllocError>
        ensures { IfOk result (λ x.
            operand_of x ≡ stubs.quantify is_lambda (word_of word) (operand_of domain) (operand_of body)) }
    {
        let op = if is_lambda { Op::Lam } else { Op::Pi };
        let binder = Some(word.into_label());
        let part = two(alloc, op, domain.part, binder, body.part)?;
        Ok(Operand { part, level: 0 })
    }

    /// `domain → codomain`
    pub fn arrow(alloc: Global, domain: Operand, codomain: Operand) -> Result<Operand, AllocError>
        ensures { IfOk result (λ x. operand_of x ≡ stubs.arrow (operand_of domain) (operand_of codomain)) }
    {
        let binder = Some(Label::new(alloc, "_")?);
        let part = two(alloc, Op::Pi, domain.part, binder, codomain.part)?;
        Ok(Operand { part, level: 0 })
    }

    /// `if condition then yes else no`
    pub fn choice(
        alloc: Global,
        condition: Operand,
        if_true: Operand,
        if_false: Operand,
    ) -> Result<Operand, AllocError>
        ensures { IfOk result (λ x.
            operand_of x ≡ stubs.choice (operand_of condition) (operand_of if_true) (operand_of if_false)) }
    {
        let part = three(
            alloc,
            Op::If,
            condition.part,
            if_true.part,
            None,
            if_false.part,
        )?;
        Ok(Operand { part, level: 0 })
    }

    /// `[] : annotation`
    pub fn empty_list(alloc: Global, annotation: Operand) -> Result<Operand, AllocError>
        ensures { IfOk result (λ x. operand_of x ≡ stubs.empty_list false (operand_of annotation)) }
    {
        let part = one(alloc, Op::EmptyList, annotation.part)?;
        Ok(Operand { part, level: 0 })
    }

    /// `assert : annotation`
    pub fn assertion(alloc: Global, annotation: Operand) -> Result<Operand, AllocError>
        ensures { IfOk result (λ x. operand_of x ≡ stubs.assertion (operand_of annotation)) }
    {
        let part = one(alloc, Op::Assert, annotation.part)?;
        Ok(Operand { part, level: 0 })
    }
}

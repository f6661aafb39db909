//! Copies of expressions, and chains made from lists.

ghost use Rattle.std.specs.Prelude.{◌≡◌, IfOk};
ghost use Rattle.aqe_expr.specs.Chains.{in_front, pairs_in_front};

use crate::{CasePairs, Expr, Operands};
use aqe_boxes::{all_three, both};
use aqe_values::Memory;
use std::alloc::Global;

impl Expr {
    /// An expression equal to this one.
    #[cycle(copy)]
    pub fn copy(&self, alloc: Global) -> Result<Expr, Memory>
        ensures { IfOk result (λ e. e ≡ self.now) }
    {
        match self {
            Expr::Column(n) => Ok(Expr::Column(*n)),
            Expr::Literal(value) => {
                let value = value.copy(alloc)?;
                Ok(Expr::Literal(value))
            }
            Expr::Unary { op, arg } => {
                let arg = arg.get().copy(alloc)?;
                Expr::unary(alloc, *op, arg)
            }
            Expr::Binary { op, left, right } => {
                let (left, right) = both(left.get().copy(alloc), right.get().copy(alloc))?;
                Expr::binary(alloc, *op, left, right)
            }
            Expr::Between { value, low, high } => {
                let (value, low, high) = all_three(
                    value.get().copy(alloc),
                    low.get().copy(alloc),
                    high.get().copy(alloc),
                )?;
                Expr::between(alloc, value, low, high)
            }
            Expr::OneOf { value, list } => {
                let (value, list) = both(value.get().copy(alloc), list.copy(alloc))?;
                Expr::one_of(alloc, value, list)
            }
            Expr::Case { pairs, otherwise } => {
                let (pairs, otherwise) = both(pairs.copy(alloc), otherwise.get().copy(alloc))?;
                Expr::case_of(alloc, pairs, otherwise)
            }
            Expr::Switch {
                operand,
                pairs,
                otherwise,
            } => {
                let (operand, pairs, otherwise) = all_three(
                    operand.get().copy(alloc),
                    pairs.copy(alloc),
                    otherwise.get().copy(alloc),
                )?;
                Expr::switch(alloc, operand, pairs, otherwise)
            }
            Expr::Coalesce(list) => {
                let list = list.copy(alloc)?;
                Ok(Expr::Coalesce(list))
            }
        }
    }
}

impl Operands {
    /// A chain equal to this one.
    #[cycle(copy)]
    pub fn copy(&self, alloc: Global) -> Result<Operands, Memory>
        ensures { IfOk result (λ l. l ≡ self.now) }
    {
        let mut items = Vec::new(alloc);
        let mut rest = self;
        'walk: while let Operands::More { item, rest: more } = rest {
            let item = item.get().copy(alloc)?;
            items.push(item)?;
            rest = more.get();
        }
        Operands::from_vec(alloc, items)
    }

    /// The chain of the expressions of a list, in their order.
    #[tactic(auto, using(crate::proofs::InFront::in_front_push))]
    pub fn from_vec(alloc: Global, items: Vec<Expr>) -> Result<Operands, Memory>
        ensures { IfOk result (λ l. l ≡ in_front items.items Operands.End) }
    {
        let mut items = items;
        let mut chain = Operands::End;
        'items: while let Some(item) = items.pop() {
            chain = Operands::more(alloc, item, chain)?;
        }
        Ok(chain)
    }
}

impl CasePairs {
    /// A chain equal to this one.
    #[cycle(copy)]
    pub fn copy(&self, alloc: Global) -> Result<CasePairs, Memory>
        ensures { IfOk result (λ l. l ≡ self.now) }
    {
        let mut items = Vec::new(alloc);
        let mut rest = self;
        'walk: while let CasePairs::More {
            test,
            gives,
            rest: more,
        } = rest
        {
            let (test, gives) = both(test.get().copy(alloc), gives.get().copy(alloc))?;
            items.push((test, gives))?;
            rest = more.get();
        }
        CasePairs::from_vec(alloc, items)
    }

    /// The chain of the pairs of a list, in their order.
    #[tactic(auto, using(crate::proofs::InFront::pairs_in_front_push))]
    pub fn from_vec(alloc: Global, items: Vec<(Expr, Expr)>) -> Result<CasePairs, Memory>
        ensures { IfOk result (λ l. l ≡ pairs_in_front items.items CasePairs.End) }
    {
        let mut items = items;
        let mut chain = CasePairs::End;
        'pairs: while let Some((test, gives)) = items.pop() {
            chain = CasePairs::more(alloc, test, gives, chain)?;
        }
        Ok(chain)
    }
}

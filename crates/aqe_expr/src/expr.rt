//! The tree of an expression.

ghost use Rattle.std.specs.Prelude.{◌≡◌, IfOk};

use aqe_boxes::{boxed_pair, boxed_three};
use aqe_values::{Memory, Value};
use sqlite_items::Boxed;
use std::alloc::Global;

/// An expression over the columns of a row.
#[cycle(expr)]
#[derive(Drop)]
pub enum Expr {
    /// The column with this number, from 0; NULL where the row has no such column.
    Column(u32),
    /// A value.
    Literal(Value),
    /// An operation on one value.
    Unary {
        op: UnaryOp,
        arg: Boxed<Expr>,
    },
    /// An operation on two values.
    Binary {
        op: BinaryOp,
        left: Boxed<Expr>,
        right: Boxed<Expr>,
    },
    /// `value BETWEEN low AND high`
    Between {
        value: Boxed<Expr>,
        low: Boxed<Expr>,
        high: Boxed<Expr>,
    },
    /// `value IN (list)`
    OneOf {
        value: Boxed<Expr>,
        list: Operands,
    },
    /// CASE without an operand: pairs of a condition and a result, and the ELSE.
    Case {
        pairs: CasePairs,
        otherwise: Boxed<Expr>,
    },
    /// CASE with an operand: pairs of a value that it is compared with and a result, and the ELSE.
    Switch {
        operand: Boxed<Expr>,
        pairs: CasePairs,
        otherwise: Boxed<Expr>,
    },
    /// The first value that is not NULL.
    Coalesce(Operands),
}

/// The operations on one value.
#[derive(Clone, Copy, Debug, PartialEq, Eq, Drop)]
pub enum UnaryOp {
    /// `- a`
    Neg,
    /// `NOT a`
    Not,
    /// `a IS NULL`
    IsNull,
    /// `a IS TRUE`
    IsTrue,
    /// `a IS FALSE`
    IsFalse,
    /// The number of characters.
    Length,
    /// CAST AS INT.
    CastInt,
    /// CAST AS BIGINT.
    CastBigInt,
    /// CAST AS STRING.
    CastText,
    /// CAST AS BOOLEAN.
    CastBoolean,
}

/// The operations on two values.
#[derive(Clone, Copy, Debug, PartialEq, Eq, Drop)]
pub enum BinaryOp {
    /// `a + b`
    Add,
    /// `a - b`
    Sub,
    /// `a * b`
    Mul,
    /// `a % b`
    Rem,
    /// `a DIV b`
    Div,
    /// `a = b`
    Eq,
    /// `a <=> b`
    Same,
    /// `a <> b`
    Ne,
    /// `a < b`
    Lt,
    /// `a <= b`
    Le,
    /// `a > b`
    Gt,
    /// `a >= b`
    Ge,
    /// `a AND b`
    And,
    /// `a OR b`
    Or,
    /// `a LIKE b`
    Like,
}

/// A chain of expressions, which may be long.
#[cycle(expr)]
pub enum Operands {
    /// No further expression.
    End,
    /// An expression, and those behind it.
    More {
        item: Boxed<Expr>,
        rest: Boxed<Operands>,
    },
}

/// A chain of pairs of expressions, which may be long.
#[cycle(expr)]
pub enum CasePairs {
    /// No further pair.
    End,
    /// A condition or a value to compare with, its result, and the pairs behind it.
    More {
        test: Boxed<Expr>,
        gives: Boxed<Expr>,
        rest: Boxed<CasePairs>,
    },
}

impl Drop for Operands {
    #[cycle(expr)]
    fn drop(mut self) {
        loop {
            match self {
                Operands::End => return,
                Operands::More { item, rest } => {
                    drop(item);
                    self = rest.into_inner();
                }
            }
        }
    }
}

impl Drop for CasePairs {
    #[cycle(expr)]
    fn drop(mut self) {
        loop {
            match self {
                CasePairs::End => return,
                CasePairs::More { test, gives, rest } => {
                    drop(test);
                    drop(gives);
                    self = rest.into_inner();
                }
            }
        }
    }
}

impl Operands {
    /// The expression in front of the chain.
    pub fn more(alloc: Global, item: Expr, rest: Operands) -> Result<Operands, Memory>
        ensures { IfOk result (λ e. e ≡ Operands.More item rest) }
    {
        let (item, rest) = boxed_pair(alloc, item, rest)?;
        Ok(Operands::More { item, rest })
    }
}

impl CasePairs {
    /// The pair in front of the chain.
    pub fn more(
        alloc: Global,
        test: Expr,
        gives: Expr,
        rest: CasePairs,
    ) -> Result<CasePairs, Memory>
        ensures { IfOk result (λ e. e ≡ CasePairs.More test gives rest) }
    {
        let (test, gives, rest) = boxed_three(alloc, test, gives, rest)?;
        Ok(CasePairs::More { test, gives, rest })
    }
}

impl Expr {
    /// The operation on the value of `arg`.
    pub fn unary(alloc: Global, op: UnaryOp, arg: Expr) -> Result<Expr, Memory>
        ensures { IfOk result (λ e. e ≡ Expr.Unary op arg) }
    {
        let arg = Boxed::new(alloc, arg)?;
        Ok(Expr::Unary { op, arg })
    }

    /// The operation on the values of `left` and `right`.
    pub fn binary(alloc: Global, op: BinaryOp, left: Expr, right: Expr) -> Result<Expr, Memory>
        ensures { IfOk result (λ e. e ≡ Expr.Binary op left right) }
    {
        let (left, right) = boxed_pair(alloc, left, right)?;
        Ok(Expr::Binary { op, left, right })
    }

    /// `value BETWEEN low AND high`
    pub fn between(alloc: Global, value: Expr, low: Expr, high: Expr) -> Result<Expr, Memory>
        ensures { IfOk result (λ e. e ≡ Expr.Between value low high) }
    {
        let (value, low, high) = boxed_three(alloc, value, low, high)?;
        Ok(Expr::Between { value, low, high })
    }

    /// `value IN (list)`
    pub fn one_of(alloc: Global, value: Expr, list: Operands) -> Result<Expr, Memory>
        ensures { IfOk result (λ e. e ≡ Expr.OneOf value list) }
    {
        let value = Boxed::new(alloc, value)?;
        Ok(Expr::OneOf { value, list })
    }

    /// `CASE WHEN .. THEN .. ELSE otherwise END`
    pub fn case_of(alloc: Global, pairs: CasePairs, otherwise: Expr) -> Result<Expr, Memory>
        ensures { IfOk result (λ e. e ≡ Expr.Case pairs otherwise) }
    {
        let otherwise = Boxed::new(alloc, otherwise)?;
        Ok(Expr::Case { pairs, otherwise })
    }

    /// `CASE operand WHEN .. THEN .. ELSE otherwise END`
    pub fn switch(
        alloc: Global,
        operand: Expr,
        pairs: CasePairs,
        otherwise: Expr,
    ) -> Result<Expr, Memory>
        ensures { IfOk result (λ e. e ≡ Expr.Switch operand pairs otherwise) }
    {
        let (operand, otherwise) = boxed_pair(alloc, operand, otherwise)?;
        Ok(Expr::Switch {
            operand,
            pairs,
            otherwise,
        })
    }
}

//! Equal expressions.

ghost use Rattle.std.specs.Prelude.{◌≡◌};
ghost use Rattle.aqe_rules.specs.Equality as spec;

use aqe_expr::{CasePairs, Expr, Operands};

/// Whether both are the same operations on the same columns and literals, operand by operand.
#[cycle(same)]
#[tactic(auto, using(crate::proofs::Forms::forms))]
pub fn same_expr(a: &Expr, b: &Expr) -> bool
    ensures { result ≡ spec.same_expr a.now b.now }
{
    match a {
        Expr::Column(m) => match b {
            Expr::Column(n) => m == n,
            _ => false,
        },
        Expr::Literal(v) => match b {
            Expr::Literal(w) => v == w,
            _ => false,
        },
        Expr::Unary { op, arg } => match b {
            Expr::Unary {
                op: other,
                arg: second,
            } => { op == other && same_expr(arg.get(), second.get()) }
            _ => false,
        },
        Expr::Binary { op, left, right } => match b {
            Expr::Binary {
                op: other,
                left: first,
                right: second,
            } => {
                op == other
                    && (same_expr(left.get(), first.get()) && same_expr(right.get(), second.get()))
            }
            _ => false,
        },
        Expr::Between { value, low, high } => match b {
            Expr::Between {
                value: other,
                low: from,
                high: to,
            } => {
                same_expr(value.get(), other.get())
                    && (same_expr(low.get(), from.get()) && same_expr(high.get(), to.get()))
            }
            _ => false,
        },
        Expr::OneOf { value, list } => match b {
            Expr::OneOf {
                value: other,
                list: more,
            } => same_expr(value.get(), other.get()) && same_list(list, more),
            _ => false,
        },
        Expr::Case { pairs, otherwise } => match b {
            Expr::Case {
                pairs: more,
                otherwise: other,
            } => same_pairs(pairs, more) && same_expr(otherwise.get(), other.get()),
            _ => false,
        },
        Expr::Switch {
            operand,
            pairs,
            otherwise,
        } => match b {
            Expr::Switch {
                operand: asked,
                pairs: more,
                otherwise: other,
            } => {
                same_expr(operand.get(), asked.get())
                    && (same_pairs(pairs, more) && same_expr(otherwise.get(), other.get()))
            }
            _ => false,
        },
        Expr::Coalesce(list) => match b {
            Expr::Coalesce(more) => same_list(list, more),
            _ => false,
        },
    }
}

/// Whether two chains have the same expressions in the same order.
#[cycle(same)]
fn same_list(a: &Operands, b: &Operands) -> bool
    ensures { result ≡ spec.same_list a.now b.now }
{
    let mut left = a;
    let mut right = b;
    'items: while let Operands::More { item, rest } = left {
        let Operands::More {
            item: other,
            rest: more,
        } = right
        else {
            return false;
        };
        if !same_expr(item.get(), other.get()) {
            return false;
        }
        left = rest.get();
        right = more.get();
    }
    matches!(right, Operands::End)
}

/// Whether two chains have the same pairs in the same order.
#[cycle(same)]
fn same_pairs(a: &CasePairs, b: &CasePairs) -> bool
    ensures { result ≡ spec.same_pairs a.now b.now }
{
    let mut left = a;
    let mut right = b;
    'pairs: while let CasePairs::More { test, gives, rest } = left {
        let CasePairs::More {
            test: asked,
            gives: given,
            rest: more,
        } = right
        else {
            return false;
        };
        if !same_expr(test.get(), asked.get()) {
            return false;
        }
        if !same_expr(gives.get(), given.get()) {
            return false;
        }
        left = rest.get();
        right = more.get();
    }
    matches!(right, CasePairs::End)
}

//! Expressions over the rows of groups: keys take the place of what they equal.

ghost use Rattle.aqe_rules.specs.Faults.{Says};
ghost use Rattle.aqe_rules.specs.Grouping as spec;
ghost use Rattle.aqe_rules.specs.Selects.{built_of_groups};
ghost use Rattle.aqe_grouping.specs.Keys.{exprs_of, names_of};

use crate::chains::{case_pairs, operands, with_one};
use crate::groups::{Groups, call_column, group_column, key_place};
use crate::parts::{between, binary, case_of, coalesce, literal, one_of, switch, unary};
use aqe_base::Listing;
use aqe_expr::{CasePairs, Expr, Operands};
use aqe_rules::{AnalysisFault, Typed};
use aqe_sources::both_of;
use std::alloc::Global;

/// The expression over the rows of the groups.
///
/// A key stands for each part that equals it, the largest such part first; the other parts are rewritten form by form.
#[cycle(grouped)]
#[tactic(auto, using(crate::proofs::FormSteps::form_steps))]
fn grouped(alloc: Global, groups: &Groups, expr: &Expr) -> Result<Expr, AnalysisFault>
    ensures { Says result (spec.grouped (exprs_of groups.now.keys.now) (names_of groups.now.columns.now) expr.now) }
{
    if let Some(place) = key_place(groups.keys, expr) {
        return group_column(place);
    }
    match expr {
        Expr::Column(n) => call_column(alloc, groups, *n as usize),
        Expr::Literal(value) => literal(alloc, value),
        Expr::Unary { op, arg } => unary(alloc, *op, grouped(alloc, groups, arg.get())),
        Expr::Binary { op, left, right } => {
            let left = grouped(alloc, groups, left.get());
            let right = grouped(alloc, groups, right.get());
            binary(alloc, *op, both_of(left, right))
        }
        Expr::Between { value, low, high } => {
            let value = grouped(alloc, groups, value.get());
            let low = grouped(alloc, groups, low.get());
            let high = grouped(alloc, groups, high.get());
            between(alloc, both_of(value, both_of(low, high)))
        }
        Expr::OneOf { value, list } => {
            let value = grouped(alloc, groups, value.get());
            let list = grouped_list(alloc, groups, list);
            one_of(alloc, both_of(value, list))
        }
        Expr::Case { pairs, otherwise } => {
            let pairs = grouped_pairs(alloc, groups, pairs);
            let otherwise = grouped(alloc, groups, otherwise.get());
            case_of(alloc, both_of(pairs, otherwise))
        }
        Expr::Switch {
            operand,
            pairs,
            otherwise,
        } => {
            let operand = grouped(alloc, groups, operand.get());
            let pairs = grouped_pairs(alloc, groups, pairs);
            let otherwise = grouped(alloc, groups, otherwise.get());
            switch(alloc, both_of(operand, both_of(pairs, otherwise)))
        }
        Expr::Coalesce(list) => coalesce(grouped_list(alloc, groups, list)),
    }
}

/// The chain of the expressions over the rows of the groups.
#[cycle(grouped)]
fn grouped_list(alloc: Global, groups: &Groups, list: &Operands) -> Result<Operands, AnalysisFault>
    ensures { Says result (spec.grouped_list (exprs_of groups.now.keys.now) (names_of groups.now.columns.now) list.now) }
{
    let mut made = Ok(Listing::new(alloc));
    let mut rest = list;
    'walk: while let Operands::More { item, rest: more } = rest {
        made = with_one(made, grouped(alloc, groups, item.get()));
        rest = more.get();
    }
    operands(alloc, made)
}

/// The chain of the pairs over the rows of the groups.
#[cycle(grouped)]
fn grouped_pairs(
    alloc: Global,
    groups: &Groups,
    pairs: &CasePairs,
) -> Result<CasePairs, AnalysisFault>
    ensures { Says result (spec.grouped_pairs (exprs_of groups.now.keys.now) (names_of groups.now.columns.now) pairs.now) }
{
    let mut made = Ok(Listing::new(alloc));
    let mut rest = pairs;
    'walk: while let CasePairs::More {
        test,
        gives,
        rest: more,
    } = rest
    {
        let test = grouped(alloc, groups, test.get());
        let gives = grouped(alloc, groups, gives.get());
        made = with_one(made, both_of(test, gives));
        rest = more.get();
    }
    case_pairs(alloc, made)
}

/// The expression over the rows of the groups, or the first column that is not grouped.
#[tactic(auto, using(crate::proofs::FormSteps::built_steps))]
pub fn built(alloc: Global, groups: &Groups, value: Typed) -> Result<Typed, AnalysisFault>
    ensures { Says result (built_of_groups groups.now.keys.now groups.now.columns.now value) }
{
    let expr = grouped(alloc, groups, &value.expr)?;
    Ok(Typed {
        expr,
        kind: value.kind,
    })
}

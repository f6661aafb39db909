//! Large trees, built in boxes out of the readers' frames: those are alive while what stands further in is read.

ghost use Rattle.std.specs.Prelude.{◌≡◌, IfOk};
ghost use Rattle.aqe_trees.specs.Shapes.{or_tree, and_tree, not_tree, predicate_tree, comparison_tree, arm};
ghost use Rattle.aqe_trees.specs.declared.expression.Test;

use aqe_trees::{
    AndTree, Arm, CompareOp, ComparisonTree, NotTree, OrTree, PredicateTree, SumTree, Test,
};
use sqlite_items::{Boxed, Items};
use std::alloc::{AllocError, Global};

/// The operands of OR.
#[inline(never)]
pub(crate) fn or_of(
    alloc: Global,
    first: Boxed<AndTree>,
    rest: Items<AndTree>,
) -> Result<Boxed<OrTree>, AllocError>
    ensures { IfOk result (λ t. t ≡ or_tree first rest) }
{
    Boxed::new(alloc, OrTree::new(first.into_inner(), rest))
}

/// The operands of AND.
#[inline(never)]
pub(crate) fn and_of(
    alloc: Global,
    first: Boxed<NotTree>,
    rest: Items<NotTree>,
) -> Result<Boxed<AndTree>, AllocError>
    ensures { IfOk result (λ t. t ≡ and_tree first rest) }
{
    Boxed::new(alloc, AndTree::new(first.into_inner(), rest))
}

/// The predicate under so many NOTs.
#[inline(never)]
pub(crate) fn not_of(
    alloc: Global,
    count: u64,
    operand: Boxed<PredicateTree>,
) -> Result<Boxed<NotTree>, AllocError>
    ensures { IfOk result (λ t. t ≡ not_tree count operand) }
{
    Boxed::new(alloc, NotTree::new(count, operand.into_inner()))
}

/// A value and what is asked of it.
#[inline(never)]
pub(crate) fn predicate_of(
    alloc: Global,
    value: Boxed<ComparisonTree>,
    test: Boxed<Test>,
) -> Result<Boxed<PredicateTree>, AllocError>
    ensures { IfOk result (λ t. t ≡ predicate_tree value test) }
{
    Boxed::new(
        alloc,
        PredicateTree::new(value.into_inner(), test.into_inner()),
    )
}

/// `[NOT] BETWEEN low AND high`
#[inline(never)]
pub(crate) fn between_of(
    alloc: Global,
    negated: bool,
    low: Boxed<ComparisonTree>,
    high: Boxed<ComparisonTree>,
) -> Result<Boxed<Test>, AllocError>
    ensures { IfOk result (λ t. t ≡ Test.Between negated low high) }
{
    Boxed::new(
        alloc,
        Test::between(negated, low.into_inner(), high.into_inner()),
    )
}

/// `[NOT] LIKE pattern`
#[inline(never)]
pub(crate) fn like_of(
    alloc: Global,
    negated: bool,
    pattern: Boxed<ComparisonTree>,
) -> Result<Boxed<Test>, AllocError>
    ensures { IfOk result (λ t. t ≡ Test.Like negated pattern) }
{
    Boxed::new(alloc, Test::like(negated, pattern.into_inner()))
}

/// `[NOT] IN ( or {, or} )`
#[inline(never)]
pub(crate) fn one_of_list(
    alloc: Global,
    negated: bool,
    list: Items<OrTree>,
) -> Result<Boxed<Test>, AllocError>
    ensures { IfOk result (λ t. t ≡ Test.OneOf negated list) }
{
    Boxed::new(alloc, Test::one_of(negated, list))
}

/// Operands with the comparisons between them.
#[inline(never)]
pub(crate) fn comparison_of(
    alloc: Global,
    first: SumTree,
    rest: Items<(CompareOp, SumTree)>,
) -> Result<Boxed<ComparisonTree>, AllocError>
    ensures { IfOk result (λ t. t ≡ comparison_tree first rest) }
{
    Boxed::new(alloc, ComparisonTree::new(first, rest))
}

/// `WHEN when THEN gives`
#[inline(never)]
pub(crate) fn arm_of(
    alloc: Global,
    when: Boxed<OrTree>,
    gives: Boxed<OrTree>,
) -> Result<Boxed<Arm>, AllocError>
    ensures { IfOk result (λ t. t ≡ arm when gives) }
{
    Boxed::new(alloc, Arm::new(when.into_inner(), gives.into_inner()))
}

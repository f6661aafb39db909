//! The parts of the trees that have one form.

ghost use Rattle.std.specs.Prelude.{◌≡◌};
ghost use Rattle.aqe_trees.specs.Shapes.{or_tree, and_tree, not_tree, predicate_tree, comparison_tree, sum_tree, product_tree, sign_tree, arm, query_tree, union_tree, select_tree, joined_tree, join_step, sort_tree};

use aqe_base::JoinKind;
use aqe_trees::{
    AndTree, Arm, CompareOp, ComparisonTree, CoreTree, ItemTree, JoinStep, JoinedTree, NotTree,
    OrTree, PredicateTree, PrimaryTree, ProductOp, ProductTree, QueryTree, SelectTree, Sign,
    SignTree, SortTree, SourceTree, SumTree, Test, UnionTree,
};

/// The operands of OR.
pub fn or_parts(tree: &OrTree) -> (&AndTree, &[AndTree])
    ensures { tree.now ≡ or_tree result.0.now result.1.now }
{
    (&tree.first, tree.rest.as_slice())
}

/// The operands of AND.
pub fn and_parts(tree: &AndTree) -> (&NotTree, &[NotTree])
    ensures { tree.now ≡ and_tree result.0.now result.1.now }
{
    (&tree.first, tree.rest.as_slice())
}

/// How many NOTs, and what stands under them.
pub fn not_parts(tree: &NotTree) -> (u64, &PredicateTree)
    ensures { tree.now ≡ not_tree result.0 result.1.now }
{
    (tree.count, &tree.operand)
}

/// A value and what is asked of it.
pub fn predicate_parts(tree: &PredicateTree) -> (&ComparisonTree, &Test)
    ensures { tree.now ≡ predicate_tree result.0.now result.1.now }
{
    (&tree.value, &tree.test)
}

/// Sums, the first one and each further one with its comparison.
pub fn comparison_parts(tree: &ComparisonTree) -> (&SumTree, &[(CompareOp, SumTree)])
    ensures { tree.now ≡ comparison_tree result.0.now result.1.now }
{
    (&tree.first, tree.rest.as_slice())
}

/// Products, the first one and each further one with its sign.
pub fn sum_parts(tree: &SumTree) -> (&ProductTree, &[(Sign, ProductTree)])
    ensures { tree.now ≡ sum_tree result.0.now result.1.now }
{
    (&tree.first, tree.rest.as_slice())
}

/// Signed operands, the first one and each further one with its operator.
pub fn product_parts(tree: &ProductTree) -> (&SignTree, &[(ProductOp, SignTree)])
    ensures { tree.now ≡ product_tree result.0.now result.1.now }
{
    (&tree.first, tree.rest.as_slice())
}

/// The signs of an operand, and the operand.
pub fn sign_parts(tree: &SignTree) -> (&[Sign], &PrimaryTree)
    ensures { tree.now ≡ sign_tree result.0.now result.1.now }
{
    (tree.signs.as_slice(), &tree.operand)
}

/// What stands behind WHEN and behind THEN.
pub fn arm_parts(pair: &Arm) -> (&OrTree, &OrTree)
    ensures { pair.now ≡ arm result.0.now result.1.now }
{
    (&pair.when, &pair.gives)
}

/// A body with its ORDER BY, LIMIT and OFFSET.
pub fn query_parts(tree: &QueryTree) -> (&UnionTree, &[SortTree], Option<u64>, Option<u64>)
    ensures { tree.now ≡ query_tree result.0.now result.1.now result.2 result.3 }
{
    (&tree.body, tree.order.as_slice(), tree.limit, tree.offset)
}

/// Cores, the first one and each further one with whether equal rows count once.
pub fn union_parts(tree: &UnionTree) -> (&CoreTree, &[(bool, CoreTree)])
    ensures { tree.now ≡ union_tree result.0.now result.1.now }
{
    (&tree.first, tree.rest.as_slice())
}

/// The parts of a SELECT.
pub fn select_parts(
    tree: &SelectTree,
) -> (
    bool,
    &[ItemTree],
    &[JoinedTree],
    &Option<OrTree>,
    &[OrTree],
    &Option<OrTree>,
)
    ensures { tree.now ≡ select_tree result.0 result.1.now result.2.now result.3.now result.4.now result.5.now }
{
    (
        tree.distinct,
        tree.items.as_slice(),
        tree.from.as_slice(),
        &tree.filter,
        tree.group.as_slice(),
        &tree.having,
    )
}

/// A source and what is joined to it.
pub fn joined_parts(tree: &JoinedTree) -> (&SourceTree, &[JoinStep])
    ensures { tree.now ≡ joined_tree result.0.now result.1.now }
{
    (&tree.first, tree.rest.as_slice())
}

/// The kind of a join, the source and the condition.
pub fn step_parts(tree: &JoinStep) -> (JoinKind, &SourceTree, &Option<OrTree>)
    ensures { tree.now ≡ join_step result.0 result.1.now result.2.now }
{
    (tree.kind, &tree.source, &tree.on)
}

/// A key of ORDER BY, whether it is descending, and whether NULLs stand last.
pub fn sort_parts(tree: &SortTree) -> (&OrTree, bool, bool)
    ensures { tree.now ≡ sort_tree result.0.now result.1 result.2 }
{
    (&tree.value, tree.descending, tree.nulls_last)
}

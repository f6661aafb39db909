//! The trees of expressions, one type for each level of the grammar from OR down.
//!
//! An operator chain is its first operand and then pairs of an operator and an operand; it groups to the left.

ghost use Rattle.std.specs.Prelude.{◌≡◌, IfOk};
ghost use Rattle.aqe_trees.specs.Shapes.{or_tree, and_tree, not_tree, predicate_tree, comparison_tree, sum_tree, product_tree, sign_tree, arm};
ghost use Rattle.aqe_trees.specs.declared.expression.Test;
ghost use Rattle.aqe_trees.specs.declared.expression.PrimaryTree;

use aqe_base::Memory;
use aqe_values::{SqlType, Text};
use sqlite_items::{Boxed, Items};
use std::alloc::Global;

/// `and {OR and}`
#[cycle(expression)]
#[derive(Drop)]
pub struct OrTree {
    pub first: AndTree,
    pub rest: Items<AndTree>,
}

/// `not {AND not}`
#[cycle(expression)]
#[derive(Drop)]
pub struct AndTree {
    pub first: NotTree,
    pub rest: Items<NotTree>,
}

/// `{NOT} predicate`: a run of NOTs is its length.
#[cycle(expression)]
#[derive(Drop)]
pub struct NotTree {
    pub count: u64,
    pub operand: PredicateTree,
}

/// `comparison [test]`
#[cycle(expression)]
#[derive(Drop)]
pub struct PredicateTree {
    pub value: ComparisonTree,
    pub test: Test,
}

/// What a predicate asks of its value.
#[cycle(expression)]
#[derive(Drop)]
pub enum Test {
    /// No test.
    Plain,
    /// `[NOT] BETWEEN low AND high`
    Between {
        negated: bool,
        low: ComparisonTree,
        high: ComparisonTree,
    },
    /// `[NOT] IN ( or {, or} )`
    OneOf {
        negated: bool,
        list: Items<OrTree>,
    },
    /// `[NOT] LIKE pattern`
    Like {
        negated: bool,
        pattern: ComparisonTree,
    },
    /// `IS [NOT] (NULL | TRUE | FALSE)`
    Is {
        negated: bool,
        truth: Truth,
    },
}

/// What IS asks for.
#[derive(Clone, Copy, Debug, PartialEq, Eq, Drop)]
pub enum Truth {
    Null,
    True,
    False,
}

/// An operator that compares.
#[derive(Clone, Copy, Debug, PartialEq, Eq, Drop)]
pub enum CompareOp {
    /// `=` or `==`
    Equal,
    /// `<=>`
    Same,
    /// `<>` or `!=`
    NotEqual,
    /// `<`
    Less,
    /// `<=`
    AtMost,
    /// `>`
    Greater,
    /// `>=`
    AtLeast,
}

/// `sum {operator sum}`
#[cycle(expression)]
#[derive(Drop)]
pub struct ComparisonTree {
    pub first: SumTree,
    pub rest: Items<(CompareOp, SumTree)>,
}

/// `+` or `-`, between operands or before one.
#[derive(Clone, Copy, Debug, PartialEq, Eq, Drop)]
pub enum Sign {
    Plus,
    Minus,
}

/// `product {(+ | -) product}`
#[cycle(expression)]
#[derive(Drop)]
pub struct SumTree {
    pub first: ProductTree,
    pub rest: Items<(Sign, ProductTree)>,
}

/// An operator that binds as `*` does.
#[derive(Clone, Copy, Debug, PartialEq, Eq, Drop)]
pub enum ProductOp {
    /// `*`
    Times,
    /// `%`
    Remainder,
    /// `DIV`
    Divide,
}

/// `sign {(* | % | DIV) sign}`
#[cycle(expression)]
#[derive(Drop)]
pub struct ProductTree {
    pub first: SignTree,
    pub rest: Items<(ProductOp, SignTree)>,
}

/// `{- | +} primary`: the run of signs from the outermost inwards.
#[cycle(expression)]
#[derive(Drop)]
pub struct SignTree {
    pub signs: Items<Sign>,
    pub operand: PrimaryTree,
}

/// An operand without an operator outside of parentheses.
#[cycle(expression)]
#[derive(Drop)]
pub enum PrimaryTree {
    /// A number with the `-` that belongs to it, and whether it ends in the letter of BIGINT.
    Number {
        negative: bool,
        value: u64,
        long: bool,
    },
    /// The content of a string.
    Literal(Text),
    /// TRUE or FALSE.
    Boolean(bool),
    /// NULL.
    Null,
    /// `name`
    Column(Text),
    /// `table . name`
    TableColumn {
        table: Text,
        name: Text,
    },
    /// `( or )`
    Paren(Boxed<OrTree>),
    /// `CAST ( value AS kind )`
    Cast {
        value: Boxed<OrTree>,
        kind: SqlType,
    },
    /// `CASE [operand] WHEN or THEN or {WHEN or THEN or} [ELSE otherwise] END`
    Case {
        operand: Option<Boxed<OrTree>>,
        arms: Items<Arm>,
        otherwise: Option<Boxed<OrTree>>,
    },
    /// `count ( * )`
    CountAll,
    /// `name ( or {, or} )`
    Call {
        name: Text,
        arguments: Items<OrTree>,
    },
}

/// `WHEN when THEN gives`
#[cycle(expression)]
#[derive(Drop)]
pub struct Arm {
    pub when: OrTree,
    pub gives: OrTree,
}

impl OrTree {
    /// The disjunction of the operands.
    pub fn new(first: AndTree, rest: Items<AndTree>) -> OrTree
        ensures { result ≡ or_tree first rest }
    {
        OrTree { first, rest }
    }
}

impl AndTree {
    /// The conjunction of the operands.
    pub fn new(first: NotTree, rest: Items<NotTree>) -> AndTree
        ensures { result ≡ and_tree first rest }
    {
        AndTree { first, rest }
    }
}

impl NotTree {
    /// The predicate under so many NOTs.
    pub fn new(count: u64, operand: PredicateTree) -> NotTree
        ensures { result ≡ not_tree count operand }
    {
        NotTree { count, operand }
    }
}

impl PredicateTree {
    /// The value under the test.
    pub fn new(value: ComparisonTree, test: Test) -> PredicateTree
        ensures { result ≡ predicate_tree value test }
    {
        PredicateTree { value, test }
    }
}

impl Test {
    /// `[NOT] BETWEEN low AND high`
    pub fn between(negated: bool, low: ComparisonTree, high: ComparisonTree) -> Test
        ensures { result ≡ Test.Between negated low high }
    {
        Test::Between { negated, low, high }
    }

    /// `[NOT] IN ( or {, or} )`
    pub fn one_of(negated: bool, list: Items<OrTree>) -> Test
        ensures { result ≡ Test.OneOf negated list }
    {
        Test::OneOf { negated, list }
    }

    /// `[NOT] LIKE pattern`
    pub fn like(negated: bool, pattern: ComparisonTree) -> Test
        ensures { result ≡ Test.Like negated pattern }
    {
        Test::Like { negated, pattern }
    }
}

impl ComparisonTree {
    /// The operands with the operators between them.
    pub fn new(first: SumTree, rest: Items<(CompareOp, SumTree)>) -> ComparisonTree
        ensures { result ≡ comparison_tree first rest }
    {
        ComparisonTree { first, rest }
    }
}

impl SumTree {
    /// The operands with the operators between them.
    pub fn new(first: ProductTree, rest: Items<(Sign, ProductTree)>) -> SumTree
        ensures { result ≡ sum_tree first rest }
    {
        SumTree { first, rest }
    }
}

impl ProductTree {
    /// The operands with the operators between them.
    pub fn new(first: SignTree, rest: Items<(ProductOp, SignTree)>) -> ProductTree
        ensures { result ≡ product_tree first rest }
    {
        ProductTree { first, rest }
    }
}

impl SignTree {
    /// The operand under the signs.
    pub fn new(signs: Items<Sign>, operand: PrimaryTree) -> SignTree
        ensures { result ≡ sign_tree signs operand }
    {
        SignTree { signs, operand }
    }
}

impl PrimaryTree {
    /// `( or )`
    pub fn paren(alloc: Global, value: OrTree) -> Result<PrimaryTree, Memory>
        ensures { IfOk result (λ t. t ≡ PrimaryTree.Paren value) }
    {
        let value = Boxed::new(alloc, value)?;
        Ok(PrimaryTree::Paren(value))
    }

    /// `CAST ( value AS kind )`
    pub fn cast(alloc: Global, value: OrTree, kind: SqlType) -> Result<PrimaryTree, Memory>
        ensures { IfOk result (λ t. t ≡ PrimaryTree.Cast value kind) }
    {
        let value = Boxed::new(alloc, value)?;
        Ok(PrimaryTree::Cast { value, kind })
    }

    /// `CASE [operand] arms [ELSE otherwise] END`
    pub fn case(
        operand: Option<Boxed<OrTree>>,
        arms: Items<Arm>,
        otherwise: Option<Boxed<OrTree>>,
    ) -> PrimaryTree
        ensures { result ≡ PrimaryTree.Case operand arms otherwise }
    {
        PrimaryTree::Case {
            operand,
            arms,
            otherwise,
        }
    }

    /// `name ( or {, or} )`
    pub fn call(name: Text, arguments: Items<OrTree>) -> PrimaryTree
        ensures { result ≡ PrimaryTree.Call name arguments }
    {
        PrimaryTree::Call { name, arguments }
    }
}

impl Arm {
    /// `WHEN when THEN gives`
    pub fn new(when: OrTree, gives: OrTree) -> Arm
        ensures { result ≡ arm when gives }
    {
        Arm { when, gives }
    }
}

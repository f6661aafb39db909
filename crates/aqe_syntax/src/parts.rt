//! The parts of a query that hold no query.

ghost use Rattle.std.specs.Prelude.{◌≡◌, ◌<◌, MatchResult};
ghost use Rattle.aqe_trees.specs.declared.query.ItemTree;
ghost use Rattle.aqe_trees.specs.Shapes.{sort_tree};
ghost use Rattle.aqe_trees.specs.Follow.{key_binds};
ghost use Rattle.aqe_trees.specs.Lists.{Listed, IsClause, IsBound, IsAlias, IsDistinct};
ghost use Rattle.aqe_trees.specs.Queries.{IsItem, IsWay, IsNulls, IsSort, IsOrder, IsGroup};
ghost use Rattle.aqe_reader.specs.Reading.{Read, Refuses, Part, IsRefusal};
ghost use Rattle.aqe_syntax.specs.Parts.{IsTail, IsConditions, KeyPart, NoKeyPart};

use crate::words::{copied, is_word, name_star, number, word};
use aqe_reader::cursor::{eat, expect, name};
use aqe_reader::pieces::{beside, plain_more};
use aqe_reader::{ReadFault, boxed_expression, expressions};
use aqe_trees::{ItemTree, Key, OrTree, SortTree, Terminal};
use aqe_values::Text;
use sqlite_items::{Boxed, Items};
use std::alloc::Global;

/// The largest number of LIMIT and OFFSET.
const LARGEST_BOUND: u64 = 9_223_372_036_854_775_807;

/// `[ALL | DISTINCT]`: whether equal rows count once, which is as given where neither is written.
pub fn distinct(terminals: &[Terminal], usual: bool) -> (bool, &[Terminal])
    ensures { Part (IsDistinct usual) 21 terminals.now result.0 result.1.now }
{
    if let Some(rest) = eat(terminals, Key::All) {
        return (false, rest);
    }
    if let Some(rest) = eat(terminals, Key::Distinct) {
        return (true, rest);
    }
    (usual, terminals)
}

/// `[ASC | DESC]`: whether the order is descending.
pub fn way(terminals: &[Terminal]) -> (bool, &[Terminal])
    ensures { Part IsWay 13 terminals.now result.0 result.1.now }
{
    if let Some(rest) = eat(terminals, Key::Asc) {
        return (false, rest);
    }
    if let Some(rest) = eat(terminals, Key::Desc) {
        return (true, rest);
    }
    (false, terminals)
}

/// `[NULLS (FIRST | LAST)]`: whether NULLs stand last, which is as given where it is not written.
pub fn nulls(terminals: &[Terminal], usual: bool) -> Result<(bool, &[Terminal]), ReadFault>
    ensures { MatchResult result
        (λ x. Part (IsNulls usual) 12 terminals.now x.0 x.1.now)
        (λ e. IsRefusal e → Refuses (IsNulls usual) 12 terminals.now) }
{
    let Some(after) = eat(terminals, Key::Nulls) else {
        return Ok((usual, terminals));
    };
    let Some((place, rest)) = word(after) else {
        return Err(ReadFault::at(after));
    };
    if is_word(place, "first") {
        return Ok((false, rest));
    }
    if is_word(place, "last") {
        return Ok((true, rest));
    }
    Err(ReadFault::at(after))
}

/// `[LIMIT number]` or `[OFFSET number]`, by its word.
pub fn bound(terminals: &[Terminal], key: Key) -> Result<(Option<u64>, &[Terminal]), ReadFault>
    ensures { MatchResult result
        (λ x. KeyPart IsBound key terminals.now x.0 x.1.now)
        (λ e. IsRefusal e → NoKeyPart IsBound key terminals.now) }
{
    let Some(after) = eat(terminals, key) else {
        return Ok((None, terminals));
    };
    let Some((value, _, rest)) = number(after) else {
        return Err(ReadFault::at(after));
    };
    if value > LARGEST_BOUND {
        return Err(ReadFault::at(after));
    }
    Ok((Some(value), rest))
}

/// `[[AS] name]`
pub fn alias(
    alloc: Global,
    terminals: &[Terminal],
) -> Result<(Option<Text>, &[Terminal]), ReadFault>
    ensures { MatchResult result
        (λ x. Part IsAlias 12 terminals.now x.0 x.1.now)
        (λ e. IsRefusal e → Refuses IsAlias 12 terminals.now) }
{
    if let Some((text, _, rest)) = name(terminals) {
        return Ok((Some(copied(alloc, text)?), rest));
    }
    let Some(after) = eat(terminals, Key::As) else {
        return Ok((None, terminals));
    };
    let Some((text, _, rest)) = name(after) else {
        return Err(ReadFault::at(after));
    };
    Ok((Some(copied(alloc, text)?), rest))
}

/// `[KEY or]`, by its word.
pub fn clause(
    alloc: Global,
    terminals: &[Terminal],
    key: Key,
) -> Result<(Option<Boxed<OrTree>>, &[Terminal]), ReadFault>
    requires { key_binds key < 14 }
    ensures { MatchResult result
        (λ x. KeyPart IsClause key terminals.now x.0 x.1.now)
        (λ e. IsRefusal e → NoKeyPart IsClause key terminals.now) }
{
    let Some(after) = eat(terminals, key) else {
        return Ok((None, terminals));
    };
    let (value, rest) = boxed_expression(alloc, after)?;
    Ok((Some(value), rest))
}

/// A value under its alias.
fn one(value: Boxed<OrTree>, alias: Option<Text>) -> ItemTree
    ensures { result ≡ ItemTree.One value alias }
{
    let value = value.into_inner();
    ItemTree::One { value, alias }
}

/// `* | name . * | or [[AS] name]`
pub fn item(alloc: Global, terminals: &[Terminal]) -> Result<(ItemTree, &[Terminal]), ReadFault>
    ensures { MatchResult result
        (λ x. Read IsItem 10 terminals.now x.0 x.1.now)
        (λ e. IsRefusal e → Refuses IsItem 10 terminals.now) }
{
    if let Some(rest) = eat(terminals, Key::Star) {
        return Ok((ItemTree::All, rest));
    }
    if let Some((table, _, rest)) = name_star(terminals) {
        return Ok((ItemTree::AllOf(copied(alloc, table)?), rest));
    }
    let (value, rest) = boxed_expression(alloc, terminals)?;
    let (value, (name, left)) = beside(value, alias(alloc, rest))?;
    Ok((one(value, name), left))
}

/// `item {, item}`
pub fn items(
    alloc: Global,
    terminals: &[Terminal],
) -> Result<(Items<ItemTree>, &[Terminal]), ReadFault>
    ensures { MatchResult result
        (λ x. Read (Listed IsItem) 9 terminals.now x.0 x.1.now)
        (λ e. IsRefusal e → Refuses (Listed IsItem) 9 terminals.now) }
{
    let (mut items, mut rest) = plain_more(Items::new(alloc), item(alloc, terminals))?;
    'more: while let Some(after) = eat(rest, Key::Comma) {
        (items, rest) = plain_more(items, item(alloc, after))?;
    }
    Ok((items, rest))
}

/// A key of ORDER BY.
fn sort_by(value: Boxed<OrTree>, descending: bool, nulls_last: bool) -> SortTree
    ensures { result ≡ sort_tree value descending nulls_last }
{
    let value = value.into_inner();
    SortTree {
        value,
        descending,
        nulls_last,
    }
}

/// `or [ASC | DESC] [NULLS (FIRST | LAST)]`
pub fn sort(alloc: Global, terminals: &[Terminal]) -> Result<(SortTree, &[Terminal]), ReadFault>
    ensures { MatchResult result
        (λ x. Read IsSort 10 terminals.now x.0 x.1.now)
        (λ e. IsRefusal e → Refuses IsSort 10 terminals.now) }
{
    let (value, rest) = boxed_expression(alloc, terminals)?;
    let (descending, rest) = way(rest);
    let (value, (nulls_last, rest)) = beside(value, nulls(rest, descending))?;
    Ok((sort_by(value, descending, nulls_last), rest))
}

/// `sort {, sort}`
pub fn sorts(
    alloc: Global,
    terminals: &[Terminal],
) -> Result<(Items<SortTree>, &[Terminal]), ReadFault>
    ensures { MatchResult result
        (λ x. Read (Listed IsSort) 9 terminals.now x.0 x.1.now)
        (λ e. IsRefusal e → Refuses (Listed IsSort) 9 terminals.now) }
{
    let (mut sorts, mut rest) = plain_more(Items::new(alloc), sort(alloc, terminals))?;
    'more: while let Some(after) = eat(rest, Key::Comma) {
        (sorts, rest) = plain_more(sorts, sort(alloc, after))?;
    }
    Ok((sorts, rest))
}

/// `[ORDER BY sort {, sort}]`
pub fn order(
    alloc: Global,
    terminals: &[Terminal],
) -> Result<(Items<SortTree>, &[Terminal]), ReadFault>
    ensures { MatchResult result
        (λ x. Part IsOrder 3 terminals.now x.0 x.1.now)
        (λ e. IsRefusal e → Refuses IsOrder 3 terminals.now) }
{
    let Some(by) = eat(terminals, Key::Order) else {
        return Ok((Items::new(alloc), terminals));
    };
    let after = expect(by, Key::By)?;
    let (sorts, rest) = sorts(alloc, after)?;
    Ok((sorts, rest))
}

/// `[GROUP BY or {, or}]`
pub fn group(
    alloc: Global,
    terminals: &[Terminal],
) -> Result<(Items<OrTree>, &[Terminal]), ReadFault>
    ensures { MatchResult result
        (λ x. Part IsGroup 6 terminals.now x.0 x.1.now)
        (λ e. IsRefusal e → Refuses IsGroup 6 terminals.now) }
{
    let Some(by) = eat(terminals, Key::Group) else {
        return Ok((Items::new(alloc), terminals));
    };
    let after = expect(by, Key::By)?;
    let (keys, rest) = expressions(alloc, after)?;
    Ok((keys, rest))
}

/// The conditions of a SELECT: of WHERE, the keys of GROUP BY, and of HAVING.
pub type Conditions = (Option<Boxed<OrTree>>, Items<OrTree>, Option<Boxed<OrTree>>);

/// `[WHERE or] [GROUP BY or {, or}] [HAVING or]`
pub fn conditions(
    alloc: Global,
    terminals: &[Terminal],
) -> Result<(Conditions, &[Terminal]), ReadFault>
    ensures { MatchResult result
        (λ x. Part IsConditions 5 terminals.now x.0 x.1.now)
        (λ e. IsRefusal e → Refuses IsConditions 5 terminals.now) }
{
    let (filter, rest) = clause(alloc, terminals, Key::Where)?;
    let (filter, (keys, rest)) = beside(filter, group(alloc, rest))?;
    let ((filter, keys), (having, rest)) = beside(
        (filter, keys),
        clause(alloc, rest, Key::Having),
    )?;
    Ok(((filter, keys, having), rest))
}

/// What stands behind the cores of a query: the keys of ORDER BY, and the numbers of LIMIT and OFFSET.
pub type Tail = (Items<SortTree>, Option<u64>, Option<u64>);

/// `[ORDER BY sort {, sort}] [LIMIT number] [OFFSET number]`
pub fn tail(alloc: Global, terminals: &[Terminal]) -> Result<(Tail, &[Terminal]), ReadFault>
    ensures { MatchResult result
        (λ x. Part IsTail 1 terminals.now x.0 x.1.now)
        (λ e. IsRefusal e → Refuses IsTail 1 terminals.now) }
{
    let (sorts, rest) = order(alloc, terminals)?;
    let (sorts, (limit, rest)) = beside(sorts, bound(rest, Key::Limit))?;
    let (sorts, (offset, rest)) = beside(sorts, bound(rest, Key::Offset))?;
    Ok(((sorts, limit, offset), rest))
}

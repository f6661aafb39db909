//! Parts of a query without a query in them.

ghost use Rattle.std.specs.Prelude.{◌∷◌, List, OnOk};
ghost use Rattle.aqe_trees.specs.declared.terminal.Terminal.{Terminal};
ghost use Rattle.aqe_trees.specs.declared.terminal.Terminal.TheVariants.{Fixed};
ghost use Rattle.aqe_trees.specs.declared.terminal.Key.TheVariants as k;
ghost use Rattle.aqe_trees.specs.Lists.{IsAlias, IsBound, IsClause, Listed};
ghost use Rattle.aqe_trees.specs.Queries.{IsItem, IsSort, IsOrder, IsGroup, IsKind};
ghost use Rattle.aqe_phrases.specs.Written.{Adds, Sound, Spelled};
ghost use Rattle.aqe_spell.specs.Clauses.{all_before, distinct_before, way_before, nulls_before};

use aqe_base::JoinKind;
use aqe_phrases::expression::or;
use aqe_phrases::word::{fixed, name, number, word};
use aqe_script::parts::sort_parts;
use aqe_trees::{ItemTree, Key, OrTree, SortTree};
use aqe_values::Text;
use std::alloc::AllocError;

/// Writes AS and a name, where there is one.
pub(crate) fn alias(out: &mut Vec<u8>, named: &Option<Text>) -> Result<(), AllocError>
    ensures { OnOk result (Spelled IsAlias named.now out.old.items out.new.items) }
{
    match named {
        Some(text) => {
            fixed(out, Key::As)?;
            name(out, text)?;
            Ok(())
        }
        None => Ok(()),
    }
}

/// Writes a word and an expression, where there is one.
pub(crate) fn clause(out: &mut Vec<u8>, key: Key, value: &Option<OrTree>) -> Result<(), AllocError>
    requires { Sound (Fixed key) }
    ensures { OnOk result (Spelled (IsClause key) value.now out.old.items out.new.items) }
{
    match value {
        Some(tree) => {
            fixed(out, key)?;
            or(out, tree)?;
            Ok(())
        }
        None => Ok(()),
    }
}

/// Writes a word and a number, where there is one.
pub(crate) fn bound(out: &mut Vec<u8>, key: Key, value: Option<u64>) -> Result<(), AllocError>
    requires { Sound (Fixed key) }
    ensures { OnOk result (Spelled (IsBound key) value out.old.items out.new.items) }
{
    match value {
        Some(count) => {
            fixed(out, key)?;
            number(out, count, false)?;
            Ok(())
        }
        None => Ok(()),
    }
}

/// Writes ALL behind UNION where equal rows do not count once.
pub(crate) fn all(out: &mut Vec<u8>, distinct: bool) -> Result<(), AllocError>
    ensures { OnOk result (Adds (all_before distinct) out.old.items out.new.items) }
{
    if !distinct {
        fixed(out, Key::All)?;
    }
    Ok(())
}

/// Writes DISTINCT behind SELECT where equal rows count once.
pub(crate) fn distinct(out: &mut Vec<u8>, distinct: bool) -> Result<(), AllocError>
    ensures { OnOk result (Adds (distinct_before distinct) out.old.items out.new.items) }
{
    if distinct {
        fixed(out, Key::Distinct)?;
    }
    Ok(())
}

/// Writes one item of a select list.
fn item(out: &mut Vec<u8>, tree: &ItemTree) -> Result<(), AllocError>
    ensures { OnOk result (Spelled IsItem tree.now out.old.items out.new.items) }
{
    match tree {
        ItemTree::All => {
            fixed(out, Key::Star)?;
            Ok(())
        }
        ItemTree::AllOf(table) => {
            name(out, table)?;
            fixed(out, Key::Dot)?;
            fixed(out, Key::Star)?;
            Ok(())
        }
        ItemTree::One {
            value,
            alias: named,
        } => {
            or(out, value)?;
            alias(out, named)?;
            Ok(())
        }
    }
}

/// Writes a select list.
pub(crate) fn items(out: &mut Vec<u8>, items: &[ItemTree]) -> Result<(), AllocError>
    ensures { OnOk result (Spelled (Listed IsItem) items.now out.old.items out.new.items) }
{
    let Some((first, rest)) = items.split_first() else {
        return Ok(());
    };
    item(out, first)?;
    'more: for next in rest {
        fixed(out, Key::Comma)?;
        item(out, next)?;
    }
    Ok(())
}

/// Writes GROUP BY and its keys.
pub(crate) fn group(out: &mut Vec<u8>, keys: &[OrTree]) -> Result<(), AllocError>
    ensures { OnOk result (Spelled IsGroup keys.now out.old.items out.new.items) }
{
    match keys.split_first() {
        None => Ok(()),
        Some((first, rest)) => {
            fixed(out, Key::Group)?;
            fixed(out, Key::By)?;
            or(out, first)?;
            'more: for next in rest {
                fixed(out, Key::Comma)?;
                or(out, next)?;
            }
            Ok(())
        }
    }
}

/// Writes DESC where the order is descending.
fn way(out: &mut Vec<u8>, descending: bool) -> Result<(), AllocError>
    ensures { OnOk result (Adds (way_before descending) out.old.items out.new.items) }
{
    if descending {
        fixed(out, Key::Desc)?;
    }
    Ok(())
}

/// Writes where NULLs stand, unless it is where they stand unsaid.
fn nulls(out: &mut Vec<u8>, descending: bool, last: bool) -> Result<(), AllocError>
    ensures { OnOk result (Adds (nulls_before descending last) out.old.items out.new.items) }
{
    match (descending, last) {
        (false, true) => {
            fixed(out, Key::Nulls)?;
            word(out, "LAST")?;
            Ok(())
        }
        (true, false) => {
            fixed(out, Key::Nulls)?;
            word(out, "FIRST")?;
            Ok(())
        }
        (false, false) => Ok(()),
        (true, true) => Ok(()),
    }
}

/// Writes a key of ORDER BY.
fn sort(out: &mut Vec<u8>, tree: &SortTree) -> Result<(), AllocError>
    ensures { OnOk result (Spelled IsSort tree.now out.old.items out.new.items) }
{
    let (value, descending, last) = sort_parts(tree);
    or(out, value)?;
    way(out, descending)?;
    nulls(out, descending, last)?;
    Ok(())
}

/// Writes ORDER BY and its keys.
pub(crate) fn order(out: &mut Vec<u8>, keys: &[SortTree]) -> Result<(), AllocError>
    ensures { OnOk result (Spelled IsOrder keys.now out.old.items out.new.items) }
{
    match keys.split_first() {
        None => Ok(()),
        Some((first, rest)) => {
            fixed(out, Key::Order)?;
            fixed(out, Key::By)?;
            sort(out, first)?;
            'more: for next in rest {
                fixed(out, Key::Comma)?;
                sort(out, next)?;
            }
            Ok(())
        }
    }
}

/// The word of a join.
fn kind_key(kind: JoinKind) -> Key
    ensures sound { Sound (Fixed result) }
    ensures kind { (us : List Terminal) → IsKind kind (Fixed result ∷ Fixed k.Join ∷ us) us }
{
    match kind {
        JoinKind::Inner => Key::Inner,
        JoinKind::Cross => Key::Cross,
        JoinKind::LeftOuter => Key::Left,
        JoinKind::RightOuter => Key::Right,
        JoinKind::FullOuter => Key::Full,
        JoinKind::LeftSemi => Key::Semi,
        JoinKind::LeftAnti => Key::Anti,
    }
}

/// Writes the words of a join.
pub(crate) fn kind(out: &mut Vec<u8>, kind: JoinKind) -> Result<(), AllocError>
    ensures { OnOk result (Spelled IsKind kind out.old.items out.new.items) }
{
    fixed(out, kind_key(kind))?;
    fixed(out, Key::Join)?;
    Ok(())
}

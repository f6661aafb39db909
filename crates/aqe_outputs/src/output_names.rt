//! The names of output columns.

ghost use Rattle.std.specs.Prelude.{◌≡◌, ◌++◌, codes};
ghost use Rattle.std.specs.Fmt.{decimal};
ghost use Rattle.aqe_expr.specs.declared.expr.Expr.{Column};
ghost use Rattle.aqe_rules.specs.Expressions.{alone_of};
ghost use Rattle.aqe_rules.specs.Looks.{Alone};
ghost use Rattle.aqe_trees.specs.declared.expression.OrTree.{OrTree};
ghost use Rattle.aqe_typing.specs.Alone.{is_a_column};
ghost use Rattle.aqe_rules.specs.Selects as spec;
ghost use Rattle.aqe_sources.specs.Given.{Gives};

use aqe_expr::Expr;
use aqe_rules::{AnalysisFault, Named, Typed};
use aqe_values::Text;
use itoa::Buffer;
use std::alloc::Global;

/// `_c` and the place, in decimal.
fn name_of_place(alloc: Global, place: usize) -> Result<Text, AnalysisFault>
    ensures { Gives result (λ name. name ≡ codes "_c" ++ decimal place) }
{
    let mut buffer = Buffer::new();
    let mut name = String::new(alloc);
    name.push_str("_c")?;
    name.push_str(buffer.format(place))?;
    let name = Text::copy_of(alloc, name.as_str())?;
    Ok(name)
}

/// The name of the column at a place; empty where there is none.
fn name_at(alloc: Global, columns: &[Named], place: usize) -> Result<Text, AnalysisFault>
    ensures { Gives result (λ name. name ≡ spec.name_of_column columns.now (Column place)) }
{
    if place < columns.len() {
        let name = Text::copy_of(alloc, columns[place].name.as_str())?;
        return Ok(name);
    }
    let name = Text::copy_of(alloc, "")?;
    Ok(name)
}

/// The name of the column that the expression is; empty where it is none.
#[tactic(auto, using(crate::proofs::NameSteps::name_steps))]
fn name_of_column(alloc: Global, columns: &[Named], expr: &Expr) -> Result<Text, AnalysisFault>
    ensures { Gives result (λ name. name ≡ spec.name_of_column columns.now expr.now) }
{
    match expr {
        Expr::Column(place) => name_at(alloc, columns, *place as usize),
        _ => {
            let name = Text::copy_of(alloc, "")?;
            Ok(name)
        }
    }
}

/// The name of an output column without alias.
#[tactic(auto, using(crate::proofs::NameSteps::name_steps))]
fn own_name(
    alloc: Global,
    is_column: bool,
    place: usize,
    columns: &[Named],
    value: &Typed,
) -> Result<Text, AnalysisFault>
    ensures { (alone : Alone) → is_column ≡ is_a_column alone → Gives result (λ name. name ≡ spec.own_name columns.now place alone value.now) }
{
    if is_column {
        name_of_column(alloc, columns, &value.expr)
    } else {
        name_of_place(alloc, place)
    }
}

/// The name of an output column: its alias, else the name of the column that it is, else one of its place.
pub(crate) fn output_name(
    alloc: Global,
    alias: &Option<Text>,
    is_column: bool,
    place: usize,
    columns: &[Named],
    value: &Typed,
) -> Result<Text, AnalysisFault>
    ensures { (tree : OrTree) → is_column ≡ is_a_column (alone_of tree) →
        Gives result (λ name. name ≡ spec.output_name columns.now place alias.now tree value.now) }
{
    match alias {
        Some(alias) => {
            let name = Text::copy_of(alloc, alias.as_str())?;
            Ok(name)
        }
        None => own_name(alloc, is_column, place, columns, value),
    }
}

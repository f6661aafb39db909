//! Operands and tests without an expression in them, and what stands before operands.

ghost use Rattle.std.specs.Prelude.{◌≡◌, ◌∷◌, false, OnOk, IsTrue};
ghost use Rattle.aqe_trees.specs.declared.expression.PrimaryTree.TheVariants as primary;
ghost use Rattle.aqe_trees.specs.declared.expression.Test.TheVariants as test;
ghost use Rattle.aqe_trees.specs.declared.terminal.Terminal.TheVariants.{Name};
ghost use Rattle.aqe_trees.specs.Expressions.{IsPrimary, IsTest};
ghost use Rattle.aqe_phrases.specs.Written.{Adds, Spelled, minus_before, not_before, nots_before, signs_before};
ghost use Rattle.aqe_phrases.specs.Written as written;
ghost use Rattle.aqe_phrases.specs.Texts.{is_bare};

use crate::operator::{sign_key, truth_key};
use crate::word::{fixed, literal, name, number, word};
use aqe_trees::{Key, Sign, Truth};
use aqe_values::{SqlType, Text};
use std::alloc::AllocError;

/// Writes NOT where the test is negated.
pub(crate) fn negation(out: &mut Vec<u8>, negated: bool) -> Result<(), AllocError>
    ensures { OnOk result (Adds (not_before negated) out.old.items out.new.items) }
{
    if negated {
        fixed(out, Key::Not)?;
    }
    Ok(())
}

/// Writes NOT so many times.
pub(crate) fn nots(out: &mut Vec<u8>, count: u64) -> Result<(), AllocError>
    ensures { OnOk result (Adds (nots_before count) out.old.items out.new.items) }
{
    'nots: for _turn in 0..count {
        fixed(out, Key::Not)?;
    }
    Ok(())
}

/// Writes the signs.
pub(crate) fn signs(out: &mut Vec<u8>, signs: &[Sign]) -> Result<(), AllocError>
    ensures { OnOk result (Adds (signs_before signs.now) out.old.items out.new.items) }
{
    'signs: for sign in signs {
        fixed(out, sign_key(*sign))?;
    }
    Ok(())
}

/// Writes IS and what it asks for.
pub(crate) fn is_truth(out: &mut Vec<u8>, negated: bool, truth: Truth) -> Result<(), AllocError>
    ensures { OnOk result (Spelled IsTest (test.Is negated truth) out.old.items out.new.items) }
{
    fixed(out, Key::Is)?;
    negation(out, negated)?;
    fixed(out, truth_key(truth))?;
    Ok(())
}

/// Writes the `-` of a negative number.
fn minus(out: &mut Vec<u8>, negative: bool) -> Result<(), AllocError>
    ensures { OnOk result (Adds (minus_before negative) out.old.items out.new.items) }
{
    if negative {
        fixed(out, Key::Minus)?;
    }
    Ok(())
}

/// Writes a number with the `-` that belongs to it.
pub(crate) fn signed_number(
    out: &mut Vec<u8>,
    negative: bool,
    value: u64,
    long: bool,
) -> Result<(), AllocError>
    ensures { OnOk result (Spelled IsPrimary (primary.Number negative value long) out.old.items out.new.items) }
{
    minus(out, negative)?;
    number(out, value, long)?;
    Ok(())
}

/// Writes a string.
pub(crate) fn string(out: &mut Vec<u8>, text: &Text) -> Result<(), AllocError>
    ensures { OnOk result (Spelled IsPrimary (primary.Literal text.now) out.old.items out.new.items) }
{
    literal(out, text)?;
    Ok(())
}

/// Writes TRUE or FALSE.
pub(crate) fn boolean(out: &mut Vec<u8>, truth: bool) -> Result<(), AllocError>
    ensures { OnOk result (Spelled IsPrimary (primary.Boolean truth) out.old.items out.new.items) }
{
    if truth {
        fixed(out, Key::True)?;
    } else {
        fixed(out, Key::False)?;
    }
    Ok(())
}

/// Writes NULL.
pub(crate) fn null(out: &mut Vec<u8>) -> Result<(), AllocError>
    ensures { OnOk result (Spelled IsPrimary primary.Null out.old.items out.new.items) }
{
    fixed(out, Key::Null)?;
    Ok(())
}

/// Writes the name of a column.
pub(crate) fn column(out: &mut Vec<u8>, column: &Text) -> Result<(), AllocError>
    ensures { OnOk result (Spelled IsPrimary (primary.Column column.now) out.old.items out.new.items) }
{
    name(out, column)?;
    Ok(())
}

/// Writes the name of a column behind that of its table.
pub(crate) fn table_column(out: &mut Vec<u8>, table: &Text, column: &Text) -> Result<(), AllocError>
    ensures { OnOk result (Spelled IsPrimary (primary.TableColumn table.now column.now) out.old.items out.new.items) }
{
    name(out, table)?;
    fixed(out, Key::Dot)?;
    name(out, column)?;
    Ok(())
}

/// Writes the count of all rows.
pub(crate) fn count_all(out: &mut Vec<u8>) -> Result<(), AllocError>
    ensures { OnOk result (Spelled IsPrimary primary.CountAll out.old.items out.new.items) }
{
    word(out, "count")?;
    fixed(out, Key::Open)?;
    fixed(out, Key::Star)?;
    fixed(out, Key::Close)?;
    Ok(())
}

/// The word of a type.
fn type_text(kind: SqlType) -> &'static str
    ensures { result.now ≡ written.type_text kind }
{
    match kind {
        SqlType::NullType => "NULL",
        SqlType::Boolean => "BOOLEAN",
        SqlType::Int => "INT",
        SqlType::BigInt => "BIGINT",
        SqlType::Text => "STRING",
    }
}

/// Writes the word of a type.
pub fn type_word(out: &mut Vec<u8>, kind: SqlType) -> Result<(), AllocError>
    ensures { OnOk result (IsTrue (is_bare (written.type_text kind))
        → Adds (λ us. Name (written.type_text kind) false ∷ us) out.old.items out.new.items) }
{
    word(out, type_text(kind))?;
    Ok(())
}

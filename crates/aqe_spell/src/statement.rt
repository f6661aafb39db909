//! Statements and whole scripts.

ghost use Rattle.std.specs.Prelude.{◌≡◌, ◌∷◌, ◌++◌, [], OnOk, IfOk};
ghost use Rattle.aqe_trees.specs.declared.statement.Stmt.TheVariants as stmt;
ghost use Rattle.aqe_spell.specs.Tokens.{Writable, AllWritable, StatementText, ScriptText, IsSpelling};

use crate::query::query;
use crate::table::table;
use aqe_base::{Bytes, Memory};
use aqe_phrases::word::{fixed, literal};
use aqe_trees::{Key, Script, SetForm, Stmt};
use std::alloc::{AllocError, Global};

/// Writes SET, its key and its value as a string.
fn set(out: &mut Vec<u8>, form: &SetForm) -> Result<(), AllocError>
    ensures { OnOk result (Writable (stmt.Set form.now)
        → StatementText (stmt.Set form.now) out.old.items out.new.items) }
{
    fixed(out, Key::Set)?;
    out.extend_from_slice(form.key.as_str().as_bytes())?;
    out.push(b' ')?;
    fixed(out, Key::Equal)?;
    literal(out, &form.value)?;
    Ok(())
}

/// Writes a statement.
fn statement(out: &mut Vec<u8>, stmt: &Stmt) -> Result<(), AllocError>
    ensures { OnOk result (Writable stmt.now → StatementText stmt.now out.old.items out.new.items) }
{
    match stmt {
        Stmt::CreateTable(form) => {
            table(out, form)?;
            Ok(())
        }
        Stmt::Set(form) => {
            set(out, form)?;
            Ok(())
        }
        Stmt::Query(tree) => {
            query(out, tree)?;
            Ok(())
        }
    }
}

/// Ends a statement and its line.
fn end(out: &mut Vec<u8>) -> Result<(), AllocError>
    ensures { OnOk result (out.new.items ≡ out.old.items ++ 59 ∷ 10 ∷ []) }
{
    out.push(b';')?;
    out.push(b'\n')?;
    Ok(())
}

/// The statements, each on a line.
fn lines(alloc: Global, script: &[Stmt]) -> Result<Vec<u8>, AllocError>
    ensures { IfOk result (λ out. AllWritable script.now → ScriptText script.now [] out.items) }
{
    let mut out = Vec::new(alloc);
    'statements: for next in script {
        statement(&mut out, next)?;
        end(&mut out)?;
    }
    Ok(out)
}

/// A text whose tokens are the script, where some source has the script.
///
/// Each statement stands on a line of its own and ends in `;`. Words that are reserved are written in capitals, and a
/// name between backquotes only where it would be read otherwise without them. A script that no source has, as one
/// with an empty name, gives some text.
pub fn spell(alloc: Global, script: &Script) -> Result<Bytes, Memory>
    ensures { IfOk result (λ text. IsSpelling script.now text) }
{
    match lines(alloc, script.slice()) {
        Ok(text) => Ok(Bytes::from_vec(text)),
        Err(_) => Err(Memory),
    }
}

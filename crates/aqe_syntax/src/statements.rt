//! Statements, and what the parts of a script add to it.

ghost use Rattle.std.specs.Prelude.{◌≡◌, ◌≤◌, [], length, ◌↔◌, All, IsTrue, MatchResult};
ghost use Rattle.aqe_script.specs.SettingSteps as set_fault;
ghost use Rattle.aqe_values.specs.Bounds.{text_limit};
ghost use Rattle.aqe_lexer.specs.Spans.{StandsIn, InOrder};
ghost use Rattle.aqe_trees.specs.Queries.{IsQuery};
ghost use Rattle.aqe_reader.specs.Reading.{IsRefusal};
ghost use Rattle.aqe_script.specs.Statements.{IsStatement};
ghost use Rattle.aqe_syntax.specs.Sentences.{BeginsSet, IsSentence, Adds, HasNone};

use crate::queries::query;
use crate::tables::create;
use aqe_lexer::Token;
use aqe_reader::ReadFault;
use aqe_reader::cursor::eat;
use aqe_script::{SetFault, key_of, read_setting, terminals_of};
use aqe_trees::{Key, QueryTree, Script, Stmt, Terminal};
use std::alloc::Global;

/// The query that the terminals spell, all of them.
fn whole_query(alloc: Global, terminals: &[Terminal]) -> Result<QueryTree, ReadFault>
    ensures { MatchResult result
        (λ tree. IsQuery tree terminals.now [])
        (λ e. IsRefusal e → (tree : _) → IsQuery tree terminals.now [] → ⊥) }
{
    let (tree, rest) = query(alloc, terminals)?;
    if rest.is_empty() {
        Ok(tree)
    } else {
        Err(ReadFault::at(rest))
    }
}

/// The CREATE TABLE or the query that the terminals spell, all of them.
fn sentence(alloc: Global, terminals: &[Terminal]) -> Result<Stmt, ReadFault>
    ensures { MatchResult result
        (λ one. IsSentence one terminals.now)
        (λ e. IsRefusal e → (one : _) → IsSentence one terminals.now → ⊥) }
{
    if let Some(_) = eat(terminals, Key::Create) {
        let form = create(alloc, terminals)?;
        return Ok(Stmt::CreateTable(form));
    }
    let tree = whole_query(alloc, terminals)?;
    Ok(Stmt::Query(tree))
}

/// Whether the tokens begin with SET.
fn begins_set(source: &str, tokens: &[Token]) -> bool
    requires { All (StandsIn source.now) tokens.now }
    ensures { IsTrue result ↔ BeginsSet source.now tokens.now }
{
    match tokens {
        [] => false,
        [first, ..] => matches!(key_of(source, *first), Some(Key::Set)),
    }
}

/// The fault of a SET as that of a reader.
fn read_fault(fault: SetFault) -> ReadFault
    ensures { IsRefusal result → set_fault.IsRefusal fault }
{
    match fault {
        SetFault::Refused { left } => ReadFault::Refused { left },
        SetFault::Memory => ReadFault::Memory,
    }
}

/// The statement that the tokens are, all of them.
fn statement(alloc: Global, source: &str, tokens: &[Token]) -> Result<Stmt, ReadFault>
    requires stand { All (StandsIn source.now) tokens.now }
    requires order { InOrder 0 tokens.now }
    requires size { length source.now ≤ text_limit }
    ensures { MatchResult result
        (λ one. IsStatement source.now one tokens.now)
        (λ e. IsRefusal e → (one : _) → IsStatement source.now one tokens.now → ⊥) }
{
    if begins_set(source, tokens) {
        return match read_setting(alloc, source, tokens) {
            Ok(form) => Ok(Stmt::Set(form)),
            Err(fault) => Err(read_fault(fault)),
        };
    }
    let terminals = terminals_of(alloc, source, tokens)?;
    sentence(alloc, terminals.as_slice())
}

/// Adds the statement that the part is, or nothing where it has no tokens.
pub fn add(
    alloc: Global,
    source: &str,
    part: &[Token],
    script: &mut Script,
) -> Result<(), ReadFault>
    requires stand { All (StandsIn source.now) part.now }
    requires order { InOrder 0 part.now }
    requires size { length source.now ≤ text_limit }
    ensures { MatchResult result
        (λ _. Adds source.now script.old script.new part.now)
        (λ e. IsRefusal e → HasNone source.now part.now) }
{
    if part.is_empty() {
        return Ok(());
    }
    let one = statement(alloc, source, part)?;
    script.push(one)?;
    Ok(())
}

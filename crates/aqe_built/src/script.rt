//! Scripts that are carried out so far.

ghost use Rattle.std.specs.Prelude.{◌≡◌, IsTrue, IsFalse, MatchOption};
ghost use Rattle.aqe_built.specs.Built.{is_script_built};
ghost use Rattle.aqe_built.specs.Forms.{of_options, of_statement, first_of};

use crate::form::Form;
use aqe_trees::{OptionForms, Script, Stmt};

/// The form of a table with these options that is not carried out so far.
fn form_of_options(options: &OptionForms) -> Option<Form>
    ensures { result ≡ of_options options.now }
{
    match options.slice() {
        [] => None,
        _ => Some(Form::Options),
    }
}

/// The form of a statement that is not carried out so far.
fn form_of_statement(statement: &Stmt) -> Option<Form>
    ensures { result ≡ of_statement statement.now }
{
    match statement {
        Stmt::CreateTable(table) => form_of_options(&table.options),
        Stmt::Set(_) => Some(Form::Set),
        Stmt::Query(_) => None,
    }
}

/// The first form of a script that is not carried out so far; none where all are.
pub fn form_not_built(script: &Script) -> Option<Form>
    ensures first { result ≡ first_of script.now }
    ensures built { MatchOption result (IsTrue (is_script_built script.now)) (λ form. IsFalse (is_script_built script.now)) }
{
    'script: for statement in script.slice() {
        if let Some(form) = form_of_statement(statement) {
            return Some(form);
        }
    }
    None
}

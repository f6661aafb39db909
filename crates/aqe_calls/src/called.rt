//! One aggregate call: whether it can be made, and whether it is there already.

ghost use Rattle.std.specs.Prelude.{◌≡◌, ◌∷◌, [], IfOk, OnOk, Ok};
ghost use Rattle.std.specs.List.{list_any};
ghost use Rattle.aqe_logical.specs.declared.plan.AggFun.TheVariants.{Count};
ghost use Rattle.aqe_rules.specs.Expressions.{read};
ghost use Rattle.aqe_rules.specs.Readings as readings;
ghost use Rattle.aqe_typing.specs.Calls.{call_seen, is_call};
ghost use Rattle.aqe_calls.specs.Added.{Added, seen_if_any};
ghost use Rattle.aqe_calls.specs.Calls.{place_of, call_of_arguments};

use crate::scope::Scope;
use aqe_base::{Listing, Memory};
use aqe_logical::AggFun;
use aqe_rules::{AnalysisFault, Typed};
use aqe_same::same_call;
use aqe_trees::OrTree;
use aqe_typing::{Call, call_of, counted, takes, value_with_aliases};
use std::alloc::Global;

/// Whether the call is among those that are there.
fn is_there(call: &Call, calls: &[Call]) -> bool
    ensures { result ≡ list_any (is_call call.now) calls.now }
{
    calls.iter().any(|other| same_call(&other.call, &call.call))
}

/// Adds the call behind the others, unless it is there.
#[tactic(auto, using(crate::proofs::AddedSteps::add_steps))]
pub(crate) fn add(call: Call, calls: &mut Listing<Call>) -> Result<(), Memory>
    ensures { OnOk result (Added calls.old calls.new (call_seen call ∷ [])) }
{
    if is_there(&call, calls.slice()) {
        return Ok(());
    }
    calls.push(call)
}

/// The call of the function with the argument, where it takes the argument's type.
fn taken(fun: AggFun, argument: Typed) -> Option<Call>
    ensures { seen_if_any result ≡ readings.call_made fun (Ok argument) }
{
    if takes(fun, argument.kind) {
        Some(call_of(fun, argument))
    } else {
        None
    }
}

/// Adds `count(*)`.
#[tactic(auto, using(crate::proofs::AddedSteps::count_steps))]
pub(crate) fn count_all(calls: &mut Listing<Call>) -> Result<(), Memory>
    ensures { OnOk result (Added calls.old calls.new (readings.call_of Count readings.counted ∷ [])) }
{
    add(call_of(AggFun::Count, counted()), calls)
}

/// The call of the function, where its argument has a meaning and it takes that.
fn made(
    alloc: Global,
    fun: AggFun,
    argument: &OrTree,
    scope: &Scope,
) -> Result<Option<Call>, Memory>
    ensures { IfOk result (λ call. seen_if_any call ≡ readings.call_made fun (read argument.now (place_of scope.now)).value) }
{
    match value_with_aliases(alloc, argument, scope.columns, scope.list) {
        Ok(value) => Ok(taken(fun, value)),
        Err(AnalysisFault::Memory) => Err(Memory),
        Err(_) => Ok(None),
    }
}

/// Adds the call where there is one.
fn add_if_any(call: Option<Call>, calls: &mut Listing<Call>) -> Result<(), Memory>
    ensures { OnOk result (Added calls.old calls.new (seen_if_any call)) }
{
    match call {
        Some(call) => add(call, calls),
        None => Ok(()),
    }
}

/// Adds the call of the function with its arguments, where there is one alone, it has a meaning, and the function takes that.
#[tactic(auto, using(crate::proofs::AddedSteps::argument_steps))]
pub(crate) fn add_call(
    alloc: Global,
    fun: AggFun,
    arguments: &[OrTree],
    scope: &Scope,
    calls: &mut Listing<Call>,
) -> Result<(), Memory>
    ensures { OnOk result (Added calls.old calls.new (call_of_arguments fun arguments.now (place_of scope.now))) }
{
    if arguments.len() != 1 {
        return Ok(());
    }
    let call = made(alloc, fun, &arguments[0], scope)?;
    add_if_any(call, calls)
}

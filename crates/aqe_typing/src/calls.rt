//! Calls of functions, over what their arguments came to.

ghost use Rattle.std.specs.Prelude.{◌≡◌, ◌≤◌, ◌+◌, List, IfOk, codes, length, position};
ghost use Rattle.aqe_values.specs.Bounds.{text_limit};
ghost use Rattle.aqe_expr.specs.declared.expr.Expr.{Column};
ghost use Rattle.aqe_logical.specs.declared.plan.AggFun.TheVariants.{Count};
ghost use Rattle.aqe_rules.specs.Operations as operations;
ghost use Rattle.aqe_rules.specs.Outcomes.{Outcome, upon};
ghost use Rattle.aqe_rules.specs.Readings as readings;
ghost use Rattle.aqe_rules.specs.declared.typed.Typed.{Typed};
ghost use Rattle.aqe_rules.specs.Faults.{Says};
ghost use Rattle.aqe_typing.specs.Calls as spec;
ghost use Rattle.aqe_typing.specs.Calls.{call_seen, calls_seen};
ghost use Rattle.aqe_typing.specs.Values.{SaysAll};

use crate::literals::number;
use aqe_base::AnalysisKind;
use aqe_expr::Expr;
use aqe_logical::{AggCall, AggFun};
use aqe_rules::{AnalysisFault, Typed, coalesce, length_of, mismatch, refused};
use aqe_same::same_call;
use aqe_values::{Memory, SqlType, Text};
use std::alloc::Global;

/// An aggregate call, and the type of its values.
#[derive(Drop)]
pub struct Call {
    pub call: AggCall,
    pub kind: SqlType,
}

/// The aggregate function with the name, where ASCII case does not count; none where no aggregate function has it.
pub fn aggregate_named(name: &Text) -> Option<AggFun>
    ensures { result ≡ readings.aggregate_named name.now }
{
    let name = name.as_str();
    if name.eq_ignore_ascii_case("count") {
        Some(AggFun::Count)
    } else if name.eq_ignore_ascii_case("sum") {
        Some(AggFun::Sum)
    } else if name.eq_ignore_ascii_case("min") {
        Some(AggFun::Min)
    } else if name.eq_ignore_ascii_case("max") {
        Some(AggFun::Max)
    } else {
        None
    }
}

/// Whether the aggregate function takes values of the type: sum wants a number, the others take each type.
pub fn takes(fun: AggFun, kind: SqlType) -> bool
    ensures { result ≡ readings.takes fun kind }
{
    match fun {
        AggFun::Sum => matches!(kind, SqlType::NullType | SqlType::Int | SqlType::BigInt),
        AggFun::Count | AggFun::Min | AggFun::Max => true,
    }
}

/// The argument, where it is the only one.
#[tactic(auto, using(crate::proofs::CallSteps::argument_steps))]
fn the_argument(alloc: Global, name: &Text, arguments: Vec<Typed>) -> Result<Typed, AnalysisFault>
    ensures { Says result (readings.the_argument name.now arguments.items) }
{
    let mut arguments = arguments;
    let Some(argument) = arguments.pop() else {
        return Err(refused(alloc, AnalysisKind::NoSuchColumn, name.as_str()));
    };
    if !arguments.is_empty() {
        return Err(refused(alloc, AnalysisKind::NoSuchColumn, name.as_str()));
    }
    Ok(argument)
}

/// `length(..)`
#[tactic(auto, using(crate::proofs::StepLemmas::steps))]
fn length_call(alloc: Global, name: &Text, arguments: Vec<Typed>) -> Result<Typed, AnalysisFault>
    ensures { Says result (spec.length_call name.now arguments.items) }
{
    length_of(alloc, the_argument(alloc, name, arguments)?)
}

/// A call of a function that is no aggregate function.
#[tactic(auto, using(crate::proofs::CallSteps::function_steps))]
fn function(alloc: Global, name: &Text, arguments: Vec<Typed>) -> Result<Typed, AnalysisFault>
    ensures { Says result (readings.function_value name.now arguments.items) }
{
    if arguments.is_empty() {
        return Err(refused(alloc, AnalysisKind::NoSuchColumn, name.as_str()));
    }
    if name.as_str().eq_ignore_ascii_case("coalesce") {
        return coalesce(alloc, arguments);
    }
    if name.as_str().eq_ignore_ascii_case("length") {
        return length_call(alloc, name, arguments);
    }
    Err(refused(alloc, AnalysisKind::NoSuchColumn, name.as_str()))
}

/// The type of an aggregate function's values, by the type of its argument.
fn gives(fun: AggFun, kind: SqlType) -> SqlType
    ensures { result ≡ readings.gives fun kind }
{
    match fun {
        AggFun::Count | AggFun::Sum => SqlType::BigInt,
        AggFun::Min | AggFun::Max => kind,
    }
}

/// The call of the function with the argument, and the type of its values.
pub fn call_of(fun: AggFun, argument: Typed) -> Call
    ensures { call_seen result ≡ readings.call_of fun argument }
{
    Call {
        kind: gives(fun, argument.kind),
        call: AggCall {
            fun,
            arg: argument.expr,
        },
    }
}

/// The place of the call among those that may stand here.
fn place_of(call: &Call, calls: &[Call]) -> Option<usize>
    ensures { result ≡ position (spec.is_call call.now) calls.now }
{
    calls
        .iter()
        .position(|other| same_call(&other.call, &call.call))
}

/// The column with the values of a call, at its place behind so many columns. Places above 4,294,967,295 find no memory.
fn column(columns: usize, place: usize, kind: SqlType) -> Result<Typed, Memory>
    ensures { IfOk result (λ t. t ≡ operations.typed (Column (columns + place)) kind) }
{
    let Some(column) = columns.checked_add(place) else {
        return Err(Memory);
    };
    match u32::try_from(column) {
        Ok(column) => Ok(Typed {
            expr: Expr::Column(column),
            kind,
        }),
        Err(_) => Err(Memory),
    }
}

/// What the call means: the column at its place among the calls that may stand here, behind so many columns.
#[tactic(auto, using(crate::proofs::CallSteps::value_steps))]
fn value_of_call(
    alloc: Global,
    name: &str,
    call: &Call,
    columns: usize,
    calls: &[Call],
) -> Result<Typed, AnalysisFault>
    requires { length name.now ≤ text_limit }
    ensures { Says result (readings.value_of_call name.now (call_seen call.now) columns (calls_seen calls.now)) }
{
    match place_of(call, calls) {
        Some(place) => {
            let value = column(columns, place, call.kind)?;
            Ok(value)
        }
        None => Err(refused(alloc, AnalysisKind::NestedAggregate, name)),
    }
}

/// An aggregate call: its argument is looked at first, and then whether it may stand here.
#[tactic(auto, using(crate::proofs::CallSteps::aggregate_steps))]
fn aggregate_call(
    alloc: Global,
    name: &str,
    fun: AggFun,
    argument: Typed,
    columns: usize,
    calls: &[Call],
) -> Result<Typed, AnalysisFault>
    requires { length name.now ≤ text_limit }
    ensures { Says result (spec.aggregate_call name.now fun columns (calls_seen calls.now) argument) }
{
    if !takes(fun, argument.kind) {
        return Err(mismatch(alloc));
    }
    let call = call_of(fun, argument);
    value_of_call(alloc, name, &call, columns, calls)
}

/// What `count(*)` counts: a literal that is not NULL.
pub fn counted() -> Typed
    ensures { result ≡ readings.counted }
{
    number(false, 1, false)
}

/// `count(*)`
pub(crate) fn counted_rows(
    alloc: Global,
    columns: usize,
    calls: &[Call],
) -> Result<Typed, AnalysisFault>
    ensures { Says result (spec.aggregate_call (codes "count") Count columns (calls_seen calls.now) readings.counted) }
{
    aggregate_call(alloc, "count", AggFun::Count, counted(), columns, calls)
}

/// The aggregate calls that may stand in the arguments of a call.
pub(crate) fn calls_within<'a>(fun: Option<AggFun>, calls: &'a [Call]) -> &'a [Call]
    ensures { result.now ≡ spec.calls_within fun calls.now }
{
    match fun {
        Some(_) => &[],
        None => calls,
    }
}

/// A call of an aggregate function with its arguments.
#[tactic(auto, using(crate::proofs::StepLemmas::steps))]
fn aggregate(
    alloc: Global,
    name: &Text,
    fun: AggFun,
    arguments: Vec<Typed>,
    columns: usize,
    calls: &[Call],
) -> Result<Typed, AnalysisFault>
    ensures { Says result (upon (readings.the_argument name.now arguments.items) (spec.aggregate_call name.now fun columns (calls_seen calls.now))) }
{
    let argument = the_argument(alloc, name, arguments)?;
    aggregate_call(alloc, name.as_str(), fun, argument, columns, calls)
}

/// A call of an aggregate function or of another one, behind so many columns.
#[tactic(auto, using(crate::proofs::CallSteps::call_steps))]
pub(crate) fn called(
    alloc: Global,
    name: &Text,
    fun: Option<AggFun>,
    arguments: Result<Vec<Typed>, AnalysisFault>,
    columns: usize,
    calls: &[Call],
) -> Result<Typed, AnalysisFault>
    ensures { (p : Outcome (List Typed)) → SaysAll arguments p
        → Says result (spec.called name.now fun columns (calls_seen calls.now) p) }
{
    let arguments = arguments?;
    match fun {
        Some(fun) => aggregate(alloc, name, fun, arguments, columns, calls),
        None => function(alloc, name, arguments),
    }
}

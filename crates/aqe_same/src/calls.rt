//! Equal aggregate calls.

ghost use Rattle.std.specs.Prelude.{◌≡◌};
ghost use Rattle.aqe_rules.specs.Readings as spec;

use crate::exprs::same_expr;
use aqe_logical::{AggCall, AggFun};

/// Whether both are the same function.
fn same_fun(a: AggFun, b: AggFun) -> bool
    ensures { result ≡ spec.same_fun a b }
{
    match (a, b) {
        (AggFun::Count, AggFun::Count) => true,
        (AggFun::Sum, AggFun::Sum) => true,
        (AggFun::Min, AggFun::Min) => true,
        (AggFun::Max, AggFun::Max) => true,
        _ => false,
    }
}

/// Whether both are the same function of the same argument.
pub fn same_call(a: &AggCall, b: &AggCall) -> bool
    ensures { result ≡ spec.same_call a.now b.now }
{
    same_fun(a.fun, b.fun) && same_expr(&a.arg, &b.arg)
}

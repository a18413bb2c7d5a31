ghost use Rattle.std.specs.Prelude.{◌≡◌, ℤ, ◌+ℤ◌, ◌-ℤ◌};
ghost use Rattle.site.specs.Operators.{Outcome, number64, plus, minus, less, equal, range, operator_of, on_numbers};

use crate::expr::Operator;
use crate::value::{Failure, SiteValue};

/// An operator on numbers, which wants a number on either side.
fn on_numbers<F: FnOnce(i64, i64) -> Result<SiteValue, Failure>>(
    left: SiteValue,
    right: SiteValue,
    f: F,
) -> Result<SiteValue, Failure>
    requires { F.IsAlwaysCallable f }
    ensures { (g : ℤ → ℤ → Outcome) → ((x y : ℤ) (r : Outcome) → F.post f x y r → r ≡ g x y) → result ≡ on_numbers g left right }
{
    match (left, right) {
        (SiteValue::Number(x), SiteValue::Number(y)) => f(x, y),
        _ => Err(Failure::WrongKind),
    }
}

pub(crate) fn add(left: SiteValue, right: SiteValue) -> Result<SiteValue, Failure>
    ensures { result ≡ plus left right }
{
    on_numbers(
        left,
        right,
        |x, y|
            ensures { result ≡ number64 (x +ℤ y) }
        {
            x.checked_add(y)
                .map(SiteValue::Number)
                .ok_or(Failure::Overflow)
        },
    )
}

pub(crate) fn subtract(left: SiteValue, right: SiteValue) -> Result<SiteValue, Failure>
    ensures { result ≡ minus left right }
{
    on_numbers(
        left,
        right,
        |x, y|
            ensures { result ≡ number64 (x -ℤ y) }
        {
            x.checked_sub(y)
                .map(SiteValue::Number)
                .ok_or(Failure::Overflow)
        },
    )
}

fn less(left: SiteValue, right: SiteValue) -> Result<SiteValue, Failure>
    ensures { result ≡ less left right }
{
    on_numbers(left, right, |x, y| Ok(SiteValue::Truth(x < y)))
}

fn range(left: SiteValue, right: SiteValue) -> Result<SiteValue, Failure>
    ensures { result ≡ range left right }
{
    on_numbers(left, right, |x, y| Ok(SiteValue::Range(x, y)))
}

/// Equality wants two values of one kind.
fn equal(left: SiteValue, right: SiteValue) -> Result<SiteValue, Failure>
    ensures { result ≡ equal left right }
{
    match (left, right) {
        (SiteValue::Unit, SiteValue::Unit)
        | (SiteValue::Truth(_), SiteValue::Truth(_))
        | (SiteValue::Number(_), SiteValue::Number(_))
        | (SiteValue::Range(_, _), SiteValue::Range(_, _)) => Ok(SiteValue::Truth(left == right)),
        _ => Err(Failure::WrongKind),
    }
}

pub(crate) fn operate(op: Operator, left: SiteValue, right: SiteValue) -> Result<SiteValue, Failure>
    ensures { result ≡ operator_of op left right }
{
    match op {
        Operator::Add => add(left, right),
        Operator::Subtract => subtract(left, right),
        Operator::Less => less(left, right),
        Operator::Equal => equal(left, right),
        Operator::Range => range(left, right),
    }
}

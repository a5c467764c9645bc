// Arithmetic on 64 bits: the exact result, or the reason why there is none. What a value holds is looked at here.
#![tactic(auto)]

ghost use Rattle.std.specs.Prelude.{◌≡◌, ◌-◌, ◌≤◌, get_or, MatchOption};
ghost use Rattle.errors.specs.Meaning.{number_of as number_of_reason};
ghost use Rattle.ir.specs.Ir.{BinaryOp};
ghost use Rattle.ir.specs.Layout.{operations};
ghost use Rattle.interpreter.specs.Arithmetic.{bits, value, fault, checked_left_shift, checked_right_shift, align_up};
ghost use Rattle.interpreter.specs.Arithmetic.{operate as operation};
ghost use Rattle.value.specs.Number.{number_of};
ghost use Rattle.interpreter_arithmetic.specs.Num.{result_of};

use errors::Reason;
use value::Value;

// The value of a number, or the reason why there is none.
fn given(n: Option<u64>, otherwise: Reason) -> Result<Value, Reason>
    ensures { MatchOption n (result_of result ≡ fault (number_of_reason otherwise)) (λ x. result_of result ≡ value x) }
{
    Ok(Value::of(n.ok_or(otherwise)?))
}

// A left shift that loses no bit, as std's `checked_shl` may. By 64 to 127 only 0 stays below 2^64; by 128 and above nothing is shifted.
fn checked_left_shift(left: u64, right: u64) -> Result<Value, Reason>
    ensures { result_of result ≡ checked_left_shift bits left right }
{
    if 128 <= right {
        return Err(Reason::ArithmeticOverflow);
    }
    if 64 <= right {
        if left == 0 {
            return Ok(Value::of(0));
        }
        return Err(Reason::ResultTooLarge);
    }
    if left <= u64::MAX >> right {
        Ok(Value::of(left << right))
    } else {
        Err(Reason::ResultTooLarge)
    }
}

// The amounts that the operator does not take come first: 128 and above, then 64 to 127, which leave no bit.
fn checked_right_shift(left: u64, right: u64) -> Result<Value, Reason>
    ensures { result_of result ≡ checked_right_shift left right }
{
    if 128 <= right {
        Err(Reason::ArithmeticOverflow)
    } else if 64 <= right {
        Ok(Value::of(0))
    } else {
        Ok(Value::of(left >> right))
    }
}

pub fn align_up(v: Value, alignment: u64) -> Result<Value, Reason>
    ensures { result_of result ≡ align_up bits (number_of v) alignment }
{
    if alignment <= 1 {
        return Ok(v);
    }
    let n = v.low();
    let remainder = n % alignment;
    if remainder == 0 {
        return Ok(v);
    }
    given(n.checked_add(alignment - remainder), Reason::ResultTooLarge)
}

// The operation of a node of kind 134, AddChecked, to 143, RightShift.
// The kind stays the number that the layout has: an enum would be made of it only to be matched here.
pub fn operate(kind: usize, a: Value, b: Value) -> Result<Value, Reason>
    requires { (134 ≤ kind) × (kind ≤ 143) }
    ensures { result_of result ≡ operation bits (get_or operations (kind - 134) BinaryOp.AddChecked) (number_of a) (number_of b) }
{
    let left = a.low();
    let right = b.low();
    match kind {
        134 => given(left.checked_add(right), Reason::ResultTooLarge),
        135 => given(left.checked_sub(right), Reason::ArithmeticOverflow),
        136 => given(left.checked_mul(right), Reason::ResultTooLarge),
        137 => given(left.checked_div(right), Reason::ArithmeticOverflow),
        138 => given(left.checked_rem(right), Reason::ArithmeticOverflow),
        139 => Ok(Value::of(left & right)),
        140 => Ok(Value::of(left | right)),
        141 => Ok(Value::of(left ^ right)),
        142 => checked_left_shift(left, right),
        _ => checked_right_shift(left, right),
    }
}

// Finishing: the number that an accumulator stands for, m × 2^e rounded once.
#![tactic(auto)]

ghost use Rattle.std.specs.Prelude.{◌≡◌, true, false};
ghost use Rattle.std.specs.Float.{fin};
ghost use Rattle.floats.specs.Magnitude.{in_unit, factor_at};
ghost use Rattle.accumulator.specs.Joining.{within_limit};
ghost use Rattle.finishing.specs.Once.{past_largest, from_least_normal, rounded_once};
ghost use Rattle.finishing.specs.Finishing.{IsFinished};

use accumulator::StableProductFloatAcc;
use refusals::Refusal;

// Exponent fields 1 and 2046: 2^-1022 and 2^1023.
const TWO_POW_M1022: u64 = 1u64 << 52;

const TWO_POW_1023: u64 = 2046u64 << 52;

// 2^e, of an exponent from -1022 to 1023: the field is e + 1023, the fraction 0.
fn power_of_two(e: i64) -> f64
    requires { (past_largest e ≡ false) × (from_least_normal e ≡ true) }
    ensures { result ≡ fin false 1 e }
{
    f64::from_bits(((e + 1023) as u64) << 52)
}

// m × 2^e, rounded once: the products are exact until the last. The loops go by whole powers, not by ones, and end as soon as m saturates.
fn f64_ldexp(m: f64, e: i64) -> f64
    requires { (in_unit m ≡ true) × (within_limit e ≡ true) }
    ensures { result ≡ rounded_once (factor_at 52 m e) }
{
    let mut x = m;
    let mut k = e;
    while k > 1023 {
        x *= f64::from_bits(TWO_POW_1023);
        k -= 1023;
        if x.is_infinite() {
            return x;
        }
    }
    while k < -1022 {
        x *= f64::from_bits(TWO_POW_M1022);
        k += 1022;
        if x == 0.0 {
            return x;
        }
    }
    x * power_of_two(k)
}

// Finishes an answer: a refusal comes out unchanged; 9; else the NaN of a bad mark, or m × 2^e rounded once.
pub fn finish<E: From<Refusal>>(answer: Result<StableProductFloatAcc, E>) -> Result<f64, E>
    ensures { IsFinished E.from_gives answer result }
{
    let a = answer?;
    if !accumulator::in_limits(a) {
        return Err(E::from(Refusal::AccumulatorOutOfRange));
    }
    if a.bad {
        return Ok(f64::NAN);
    }
    Ok(f64_ldexp(a.m, a.e))
}

// The accumulator of a stable product, and joining two of them.
#![tactic(auto)]

ghost use Rattle.std.specs.Prelude.{◌≡◌, true, ◌^◌, ◌≤◌, nat_abs};
ghost use Rattle.floats.specs.Magnitude.{in_unit, two_or_more};
ghost use Rattle.accumulator.specs.Joining.{identity_acc, combined, within_limit, in_limits, answer_of, joined};

use refusals::Refusal;

// The largest exponent, either way, of an accumulator that is given or answered: 2^52.
const LIMIT: i64 = 4503599627370496;

// A signed m with |m| in [1, 2), the exact exponent, and whether a bad factor entered.
#[derive(Clone, Copy)]
pub struct StableProductFloatAcc {
    pub m: f64,
    pub e: i64,
    pub bad: bool,
}

impl StableProductFloatAcc {
    // Lanes of a piece, and the values of a block that is multiplied unsplit.
    pub const LANES: usize = 8;

    pub const BLOCK: usize = 64;

    pub fn identity() -> StableProductFloatAcc
        ensures { result ≡ identity_acc }
    {
        StableProductFloatAcc {
            m: 1.0,
            e: 0,
            bad: false,
        }
    }
}

// 2 <= |m|, by two comparisons: abs would ask for the sign and for a zero first.
fn two_or_more(m: f64) -> bool
    ensures { result ≡ two_or_more m }
{
    m <= -2.0 || m >= 2.0
}

// 1 <= |m| < 2
fn in_unit(m: f64) -> bool
    ensures { result ≡ in_unit m }
{
    if m < 0.0 {
        m <= -1.0 && m > -2.0
    } else {
        m >= 1.0 && m < 2.0
    }
}

// |e| <= 2^52, -2^63 included among the others.
fn within_limit(e: i64) -> bool
    ensures { result ≡ within_limit e }
{
    -LIMIT <= e && e <= LIMIT
}

// What refusal 9 asks of a given accumulator, bad or not.
pub fn in_limits(a: StableProductFloatAcc) -> bool
    ensures { result ≡ in_limits a }
{
    in_unit(a.m) && within_limit(a.e)
}

// Joins two accumulators with one rounding step. The exponents are far from the ends of i64, so that their sum cannot wrap.
pub fn stable_float_combine(
    lhs: StableProductFloatAcc,
    rhs: StableProductFloatAcc,
) -> StableProductFloatAcc
    requires { (nat_abs lhs.e ≤ 2 ^ 61) × (nat_abs rhs.e ≤ 2 ^ 61) }
    ensures { result ≡ combined lhs rhs }
{
    if lhs.bad | rhs.bad {
        return StableProductFloatAcc {
            m: lhs.m,
            e: lhs.e,
            bad: true,
        };
    }
    let m = lhs.m * rhs.m;
    let e = lhs.e + rhs.e;
    if two_or_more(m) {
        let carried = e + 1;
        StableProductFloatAcc {
            m: m * 0.5,
            e: carried,
            bad: false,
        }
    } else {
        StableProductFloatAcc { m, e, bad: false }
    }
}

// The same join of two whose m lies in [1, 2): the product is split, so that no branch waits for it.
pub fn combine_units(
    lhs: StableProductFloatAcc,
    rhs: StableProductFloatAcc,
) -> StableProductFloatAcc
    requires { (nat_abs lhs.e ≤ 2 ^ 61) × (nat_abs rhs.e ≤ 2 ^ 61) × (in_unit lhs.m ≡ true) × (in_unit rhs.m ≡ true) }
    ensures { result ≡ combined lhs rhs }
{
    if lhs.bad | rhs.bad {
        let mut kept = lhs;
        kept.bad = true;
        return kept;
    }
    let p = floats::split_fields(lhs.m * rhs.m);
    let e = lhs.e + rhs.e;
    let raised = e + p.e;
    StableProductFloatAcc {
        m: p.m,
        e: raised,
        bad: false,
    }
}

// Joins two accumulators, the first on the left.
pub fn join(
    a: StableProductFloatAcc,
    b: StableProductFloatAcc,
) -> Result<StableProductFloatAcc, Refusal>
    ensures { answer_of result ≡ joined a b }
{
    if !(in_limits(a) && in_limits(b)) {
        return Err(Refusal::AccumulatorOutOfRange);
    }
    let r = stable_float_combine(a, b);
    if within_limit(r.e) {
        Ok(r)
    } else {
        Err(Refusal::ExponentOutOfRange)
    }
}

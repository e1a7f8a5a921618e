// The lanes of a piece: a value split into its lane, and lanes brought back to [1, 2).
ghost use Rattle.std.specs.Prelude.{◌≡◌, ◌^◌, ◌≤◌, ◌<◌, nat_abs, false};
ghost use Rattle.kernels.specs.Blocks.{start_lanes, m_of, split_step, renorm_lane, renorm};
ghost use Rattle.floats.specs.InnerKinds.{is_subnormal};
ghost use Rattle.kernels.specs.InnerLanes.{SmallLanes, NoneSubnormal, split_into};

use accumulator::StableProductFloatAcc;
use floats::Split;

const LANES: usize = StableProductFloatAcc::LANES;

// The lanes of a piece worked in blocks: each lane's m and e, and whether a bad value entered.
// Two arrays, and not one of pairs, since eight of m are multiplied at once.
#[derive(Clone, Copy)]
pub struct Lanes {
    pub m: [f64; LANES],
    pub e: [i64; LANES],
    pub bad: bool,
}

pub fn start_lanes() -> Lanes
    ensures { result ≡ start_lanes }
{
    Lanes {
        m: [1.0; LANES],
        e: [0; LANES],
        bad: false,
    }
}

// A value that was split, put into a lane.
pub fn put_split(s: Lanes, lane: usize, p: Split) -> Lanes
    requires { (lane < 8) × SmallLanes (2 ^ 61) s × (nat_abs p.e ≤ 2 ^ 61) }
    ensures { result ≡ split_into lane s p }
{
    let mut t = s;
    t.m[lane] = t.m[lane] * p.m;
    t.e[lane] = t.e[lane] + p.e;
    t.bad = t.bad | p.bad;
    t
}

// Value i of a block or a rest, split into its lane.
pub fn split_step(s: Lanes, i: usize, value: f64) -> Lanes
    requires { SmallLanes (2 ^ 60) s }
    ensures { result ≡ split_step i s value }
{
    put_split(s, i % LANES, floats::split_f64(value))
}

fn renorm_lane(s: Lanes, k: usize) -> Lanes
    requires { (k < 8) × SmallLanes (2 ^ 61) s × (is_subnormal (m_of s k) ≡ false) }
    ensures { result ≡ renorm_lane k s }
{
    let mut t = s;
    let p = floats::split_fields(t.m[k]);
    t.m[k] = p.m;
    t.e[k] = t.e[k] + p.e;
    t
}

// Brings each lane back to [1, 2), what that takes going to its exponent. Lanes are never subnormal, so their fields will do.
pub fn stable_renorm(s: Lanes) -> Lanes
    requires { SmallLanes (2 ^ 60) s × NoneSubnormal s }
    ensures { result ≡ renorm s }
{
    let mut t = s;
    for k in 0..LANES {
        t = renorm_lane(t, k);
    }
    t
}

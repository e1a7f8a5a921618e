// An axis of a traversal.
ghost use Rattle.std.specs.Prelude.{◌≡◌, true, cond, neg_ℤ};
ghost use Rattle.layout.specs.Axes.{PLACES, no_axis, span, axis_of, reset_fits};

// How many axes a layout may have, and a table holds.
pub const PLACES: usize = 16;

#[derive(Clone, Copy)]
pub struct ReduceOuterAxis {
    pub extent: u64,
    pub source_step: i64,
    pub source_reset: i64,
}

pub fn no_axis() -> ReduceOuterAxis
    ensures { result ≡ no_axis }
{
    ReduceOuterAxis {
        extent: 0,
        source_step: 0,
        source_reset: 0,
    }
}

// An axis with its reset, where rule L3 holds: nothing is left to check.
pub fn with_reset(extent: u64, step: i64) -> ReduceOuterAxis
    requires { reset_fits extent step ≡ true }
    ensures { result ≡ axis_of extent step }
{
    let last = extent.saturating_sub(1);
    let span = step * (last as i64);
    ReduceOuterAxis {
        extent,
        source_step: step,
        source_reset: -span,
    }
}

// Rule L3: what brings the offset from the axis's last element back to its first.
pub fn checked_reduce_reset(extent: u64, step: i64) -> Option<i64>
    ensures { result ≡ cond (reset_fits extent step) (Some (neg_ℤ (span extent step))) None }
{
    let last = extent.saturating_sub(1);
    if (i64::MAX as u64) < last {
        return None;
    }
    let span = integers::checked_mul_i64(step, last)?;
    span.checked_neg()
}

// An axis with its reset, unless rule L3 fails.
pub fn checked_axis(extent: u64, step: i64) -> Option<ReduceOuterAxis>
    ensures { result ≡ cond (reset_fits extent step) (Some (axis_of extent step)) None }
{
    let source_reset = checked_reduce_reset(extent, step)?;
    Some(ReduceOuterAxis {
        extent,
        source_step: step,
        source_reset,
    })
}

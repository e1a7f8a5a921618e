// Refusal 7: whether every element of a layout lies inside the values.
ghost use Rattle.std.specs.Prelude.{◌≡◌, ◌≤◌, ◌<◌, ◌^◌, length};
ghost use Rattle.layout.specs.Axes.{axes_in};
ghost use Rattle.layout.specs.InnerTables.{elements};
ghost use Rattle.offsets.specs.Elements.{all_inside};
ghost use Rattle.offsets.specs.InnerBounds.{widened, stay_inside};
ghost use Rattle.offsets.specs.InnerCursors.{Axes};

// The smallest and the largest offset so far.
#[derive(Clone, Copy)]
pub struct Span {
    pub low: u64,
    pub high: u64,
}

// The span with one more axis, known by its reset; none where it leaves 0 to last.
fn widen(s: Span, reset: i64, last: u64) -> Option<Span>
    requires { (s.high ≤ last) × (last < 2 ^ 63) }
    ensures { result ≡ widened s reset last }
{
    let p = reset.unsigned_abs();
    if 0 < reset {
        if s.low < p {
            return None;
        }
        return Some(Span {
            low: s.low - p,
            high: s.high,
        });
    }
    if last - s.high < p {
        return None;
    }
    Some(Span {
        low: s.low,
        high: s.high + p,
    })
}

fn inside_from(sizes: &[u64], strides: &[i64], base: u64, last: u64) -> bool
    requires { (length sizes.now ≡ length strides.now) × Axes (axes_in sizes.now strides.now) × (base ≤ last) × (last < 2 ^ 63) }
    ensures { result ≡ stay_inside (axes_in sizes.now strides.now) base base last }
{
    let mut span = Span {
        low: base,
        high: base,
    };
    for (size, stride) in sizes.iter().zip(strides) {
        let axis = layout::axis::with_reset(*size, *stride);
        let Some(wider) = widen(span, axis.source_reset, last) else {
            return false;
        };
        span = wider;
    }
    true
}

// Whether every element lies from 0 on, before 2^63 and inside the length.
pub fn inside(sizes: &[u64], strides: &[i64], base: i64, len: u64) -> bool
    requires { (length sizes.now ≡ length strides.now) × Axes (axes_in sizes.now strides.now) }
    ensures { result ≡ all_inside (axes_in sizes.now strides.now)
        (elements (axes_in sizes.now strides.now)) base len }
{
    if base < 0 {
        return false;
    }
    let b = base as u64;
    if len <= b {
        return false;
    }
    inside_from(sizes, strides, b, (len - 1).min(i64::MAX as u64))
}

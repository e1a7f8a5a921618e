// ReduceOuterCursor: the offset of a run's first element, with the digits of the run's number.
ghost use Rattle.std.specs.Prelude.{◌≡◌, ◌≤◌, length, take};
ghost use Rattle.layout.specs.Axes.{PLACES};
ghost use Rattle.offsets.specs.InnerCursors.{Axes, Bounded, AtElement, cursor_at, advanced};

use layout::axis::{PLACES, ReduceOuterAxis};

// The axes are handed in as a table and a count: of a slice of the layout's table the whole is copied at each call.
#[derive(Clone, Copy)]
pub struct ReduceOuterCursor {
    pub source_offset: i64,
    pub digits: [u64; PLACES],
}

impl ReduceOuterCursor {
    pub fn decode(index: u64, base: i64, count: usize, axes: [ReduceOuterAxis; PLACES]) -> Self
        requires { (length axes ≡ PLACES) × (count ≤ PLACES) × Axes (take count axes) × Bounded (take count axes) base }
        ensures { result ≡ cursor_at (take count axes) base index }
    {
        let mut c = ReduceOuterCursor {
            source_offset: base,
            digits: [0u64; PLACES],
        };
        let mut rest = index;
        for i in 0..count {
            let a = axes[i];
            let d = rest % a.extent;
            rest = rest / a.extent;
            c.digits[i] = d;
            c.source_offset = c.source_offset + a.source_step * (d as i64);
        }
        c
    }

    // To the next run: a step, or a reset with carry to the next axis.
    pub fn advance(self, count: usize, axes: [ReduceOuterAxis; PLACES]) -> Self
        requires { (length axes ≡ PLACES) × (count ≤ PLACES) × AtElement (take count axes) self }
        ensures { result ≡ advanced (take count axes) self }
    {
        let mut c = self;
        for i in 0..count {
            let a = axes[i];
            let d = c.digits[i] + 1;
            if d < a.extent {
                c.digits[i] = d;
                c.source_offset = c.source_offset + a.source_step;
                return c;
            }
            c.digits[i] = 0;
            c.source_offset = c.source_offset + a.source_reset;
        }
        c
    }

    // The same, with the first two axes by themselves: where the table is gone through place by place it is copied, and most advances end before that.
    pub fn to_next_run(self, count: usize, axes: [ReduceOuterAxis; PLACES]) -> Self
        requires { (length axes ≡ PLACES) × (count ≤ PLACES) × AtElement (take count axes) self }
        ensures { result ≡ advanced (take count axes) self }
    {
        if 0 < count {
            let mut c = self;
            let first = axes[0];
            let d = c.digits[0] + 1;
            if d < first.extent {
                c.digits[0] = d;
                c.source_offset = c.source_offset + first.source_step;
                return c;
            }
            if 1 < count {
                c.digits[0] = 0;
                c.source_offset = c.source_offset + first.source_reset;
                let second = axes[1];
                let e = c.digits[1] + 1;
                if e < second.extent {
                    c.digits[1] = e;
                    c.source_offset = c.source_offset + second.source_step;
                    return c;
                }
            }
        }
        self.advance(count, axes)
    }
}

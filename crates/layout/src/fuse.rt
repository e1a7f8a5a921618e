// Rule L4: axes that meet become one.
ghost use Rattle.std.specs.Prelude.{◌≡◌, ◌≤◌, ◌<◌, take, IfSome, option_map};
ghost use Rattle.layout.specs.Axes.{PLACES};
ghost use Rattle.layout.specs.Fuse.{join_of, fuse};
ghost use Rattle.layout.specs.InnerAnswers.{next_from};

use crate::axis::{PLACES, ReduceOuterAxis};

#[derive(Clone, Copy)]
pub enum Joined {
    One(ReduceOuterAxis),
    Two,
}

// What two neighbours become, unless a check fails.
fn join_axes(a: ReduceOuterAxis, b: ReduceOuterAxis) -> Option<Joined>
    ensures { result ≡ join_of a b }
{
    let reach = integers::checked_mul_i64(a.source_step, a.extent)?;
    if reach != b.source_step {
        return Some(Joined::Two);
    }
    let extent = integers::checked_mul_u64(a.extent, b.extent)?;
    let c = crate::axis::checked_axis(extent, a.source_step)?;
    Some(Joined::One(c))
}

// How many axes are done, and the axis so far.
#[derive(Clone, Copy)]
pub struct Fusing {
    pub done: usize,
    pub last: ReduceOuterAxis,
}

// The next axis joins the axis so far, or follows it.
fn fuse_next(f: Fusing, b: ReduceOuterAxis) -> Option<Fusing>
    requires { f.done < PLACES }
    ensures { result ≡ option_map (next_from f.done b) (join_of f.last b) }
{
    let fused = match join_axes(f.last, b)? {
        Joined::One(c) => Fusing {
            done: f.done,
            last: c,
        },
        Joined::Two => Fusing {
            done: f.done + 1,
            last: b,
        },
    };
    Some(fused)
}

// The fused axes take the first places: each time the axis so far is put behind those that are done. Answers how many there are.
pub fn compress_reduce_outer_axes(
    axes: &mut [ReduceOuterAxis; PLACES],
    count: usize,
) -> Option<usize>
    requires { count ≤ PLACES }
    ensures axes_after { fuse (take count axes.old) ≡ option_map (λ n. take n axes.new) result }
    ensures count_bound { IfSome result (λ n. n ≤ PLACES) }
{
    if count == 0 {
        return Some(0);
    }
    let mut f = Fusing {
        done: 0,
        last: axes[0],
    };
    for i in 1..count {
        f = fuse_next(f, axes[i])?;
        axes[f.done] = f.last;
    }
    Some(f.done + 1)
}

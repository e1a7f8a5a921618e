// The ordered product of a range (OrderedProductKernel): from 1.0, every visited value multiplied in from the right, in visiting order, one accumulator
// carried through all runs. Nothing is split and nothing is put off, so zeros, subnormals and infinities are what IEEE 754 makes of them.
#![tactic(auto)]

ghost use Rattle.std.specs.Prelude.{◌≡◌, true, false, ◌∷◌, ℕ, ◌-◌, ◌^◌, ◌≤◌, ◌<◌, length, pos, ◌+ℤ◌, ◌*ℤ◌};
ghost use Rattle.std.specs.Float.{fin};
ghost use Rattle.offsets.specs.Elements.{inside_values, all_inside};
ghost use Rattle.offsets.specs.InnerCursors.{Bounded, Traversal};
ghost use Rattle.offsets.specs.InnerLists.{steps};
ghost use Rattle.offsets.specs.Pieces.{run_of, outer_of};
ghost use Rattle.offsets.specs.Lists.{offsets_from};
ghost use Rattle.finishing.specs.Finishing.{final_answer_of};
ghost use Rattle.ordered.specs.InnerFolds.{fold_places, fold_runs};
ghost use Rattle.ordered.specs.Ranges.{ordered_of};

use layout::traversal::FullTraversal;
use refusals::Refusal;

// `len` values from `first` on, a stride apart, multiplied in one after another. The stride is not added after the last: that sum may not fit.
fn fold_run_ordered(acc: f64, values: &[f64], first: i64, stride: i64, len: usize) -> f64
    requires { (i : ℕ) → i < len → inside_values (length values.now) (first +ℤ stride *ℤ pos i) ≡ true }
    ensures { result ≡ fold_places values.now acc (steps first stride len) }
{
    let mut product = acc;
    let mut at = first;
    for left in (0..len).rev() {
        let index = at as usize;
        product = product * values[index];
        at = integers::next_place(at, stride, left);
    }
    product
}

// `count` runs of `len` values that begin `step` apart, one after another. No place past the last run's is formed.
fn fold_strip_ordered(
    acc: f64,
    values: &[f64],
    first: i64,
    step: i64,
    stride: i64,
    len: usize,
    count: u64,
) -> f64
    requires { (1 ≤ len) × ((j : ℕ) → j < count → (i : ℕ) → i < len
        → inside_values (length values.now) (first +ℤ step *ℤ pos j +ℤ stride *ℤ pos i) ≡ true) }
    ensures { result ≡ fold_runs values.now stride len acc (steps first step count) }
{
    let mut product = acc;
    let mut at = first;
    for j in 0..count {
        if 0 < j {
            at += step;
        }
        product = fold_run_ordered(product, values, at, stride, len);
    }
    product
}

// A NaN that a product made has a sign and digits that the machine chose. It is handed out as the one that is written here.
fn one_nan(x: f64) -> f64
    ensures { result ≡ x }
{
    if x.is_nan() {
        return f64::NAN;
    }
    x
}

// The values of elements start to end - 1, strip by strip.
pub fn ordered_full_range(l: FullTraversal, base: i64, start: u64, end: u64, values: &[f64]) -> f64
    requires { Traversal l × Bounded (run_of l ∷ outer_of l) base × (start < end) × (end ≤ l.total)
        × (l.total ≤ 2 ^ 40) × (all_inside (run_of l ∷ outer_of l) l.total base (length values.now) ≡ true) }
    ensures { result ≡ fold_places values.now (fin false 1 (pos 0)) (offsets_from (run_of l ∷ outer_of l) base start (end - start)) }
{
    let stride = l.run_stride;
    let mut product = 1.0;
    let mut c = offsets::pieces::begin(l, base, start);
    while c.at < end {
        let s = offsets::pieces::next_strip(l, end, c);
        product = fold_strip_ordered(
            product,
            values,
            s.first,
            s.step,
            stride,
            s.len as usize,
            s.count,
        );
        c = s.next;
    }
    one_nan(product)
}

// The ordered product of elements start to end - 1 of a layout over the lent values, or one of refusals 1 to 7.
pub fn ordered_product(
    sizes: &[u64],
    strides: &[i64],
    base: i64,
    start: u64,
    end: u64,
    values: &[f64],
) -> Result<f64, Refusal>
    ensures { final_answer_of result ≡ ordered_of sizes.now strides.now base start end values.now }
{
    let mut l = layout::traversal::empty();
    l.compile_in_place(sizes, strides)?;
    let length = values.len() as u64;
    offsets::list::check_range(l.total, sizes, strides, base, start, end, length)?;
    Ok(ordered_full_range(l, base, start, end, values))
}

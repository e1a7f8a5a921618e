// The figure of a range: a number even where a rate is bad.
#![tactic(auto)]

ghost use Rattle.std.specs.Prelude.{◌≡◌};
ghost use Rattle.finishing.specs.Finishing.{final_answer_of};
ghost use Rattle.figures.specs.Figures.{figure_of};

use refusals::Refusal;

// The finished number of the reduction, or where its mark is bad the ordered product of the same range; or one of refusals 1 to 7. The layout is compiled
// and tested once for both.
pub fn figure(
    sizes: &[u64],
    strides: &[i64],
    base: i64,
    start: u64,
    end: u64,
    values: &[f64],
) -> Result<f64, Refusal>
    ensures { final_answer_of result ≡ figure_of sizes.now strides.now base start end values.now }
{
    let length = values.len() as u64;
    let mut l = layout::traversal::empty();
    l.compile_in_place(sizes, strides)?;
    offsets::list::check_range(l.total, sizes, strides, base, start, end, length)?;
    let acc = reduction::full::reduce_full_range(l, base, start, end, values);
    if acc.bad {
        return Ok(ordered::ordered_full_range(l, base, start, end, values));
    }
    finishing::finish(Ok(acc))
}

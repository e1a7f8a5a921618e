// The calls over a range that give a number, on typed slices, for the benchmark and the comparison with the Rust. They are a library of their own: in one with
// `probe_reduce` the reduction has two callers and is compiled into neither, and a call of 8 values takes a sixth longer.
#![tactic(auto)]

ghost use Rattle.std.specs.Prelude.{◌≡◌};
ghost use Rattle.finishing.specs.Finishing.{final_answer_of};
ghost use Rattle.ordered.specs.Ranges.{ordered_of};
ghost use Rattle.figures.specs.Figures.{figure_of};
ghost use Rattle.handed.specs.Answers.{number_code, number_given};

use refusals::Refusal;

// A number into its place, and 0; or the number of a refusal, with the place as it was.
fn hand_out(answer: Result<f64, Refusal>, number: &mut f64) -> u32
    ensures value { result ≡ number_code (final_answer_of answer) }
    ensures number_after { number.new ≡ number_given number.old (final_answer_of answer) }
{
    match answer {
        Ok(x) => {
            *number = x;
            0
        }
        Err(refusal) => u32::from(refusal),
    }
}

// 0 with the ordered product in number, or the number of a refusal with nothing written.
#[unsafe(no_mangle)]
pub extern "C" fn probe_ordered(
    sizes: &[u64],
    strides: &[i64],
    base: i64,
    start: u64,
    end: u64,
    values: &[f64],
    number: &mut f64,
) -> u32
    ensures value { result ≡ number_code (ordered_of sizes.now strides.now base start end values.now) }
    ensures number_after { number.new
        ≡ number_given number.old (ordered_of sizes.now strides.now base start end values.now) }
{
    let answer = ordered::ordered_product(sizes, strides, base, start, end, values);
    hand_out(answer, &mut *number)
}

// 0 with the figure in number, or the number of a refusal with nothing written.
#[unsafe(no_mangle)]
pub extern "C" fn probe_figure(
    sizes: &[u64],
    strides: &[i64],
    base: i64,
    start: u64,
    end: u64,
    values: &[f64],
    number: &mut f64,
) -> u32
    ensures value { result ≡ number_code (figure_of sizes.now strides.now base start end values.now) }
    ensures number_after { number.new
        ≡ number_given number.old (figure_of sizes.now strides.now base start end values.now) }
{
    let answer = figures::figure(sizes, strides, base, start, end, values);
    hand_out(answer, &mut *number)
}

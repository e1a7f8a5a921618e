// A moving stretch of days: the product of each w rates in a row.
#![tactic(auto)]

ghost use Rattle.std.specs.Prelude.{◌≡◌, ◌+◌, ◌-◌, ◌%◌, ◌^◌, ◌≤◌, length, IfSome};
ghost use Rattle.refusals.specs.Codes.{code_of};
ghost use Rattle.kernels.specs.Blocks.{contiguous};
ghost use Rattle.kernels.specs.InnerLanes.{window};
ghost use Rattle.windows.specs.Windows.{windows_code, windows_answer, window_ms, window_es, window_bads};
ghost use Rattle.windows.specs.InnerEight.{EightWindows};

pub mod eight;

use accumulator::StableProductFloatAcc;
use refusals::Refusal;
use vectors::vector::Vector;

const LANES: usize = StableProductFloatAcc::LANES;

// A window has at most so many rates, as a layout has elements.
const MOST_RATES: u64 = 1 << 40;

// Refusals 17, 4 and 16, in this order.
fn check_window(len: u64, w: u64, ms: u64, es: u64, bads: u64) -> Result<(), Refusal>
    ensures { code_of result ≡ windows_code len w ms es bads }
{
    if w == 0 || len < w {
        return Err(Refusal::NoWindow);
    }
    if MOST_RATES < w {
        return Err(Refusal::TooManyElements);
    }
    let last = len - w;
    if ms <= last || es <= last || bads <= last {
        return Err(Refusal::AnswerBufferTooShort);
    }
    Ok(())
}

// The product of the window at i: one of eight that were had together, or worked by itself.
fn window_at(values: &[f64], i: usize, w: usize, eight: Option<Vector>) -> StableProductFloatAcc
    requires { (1 ≤ w) × (w ≤ 2 ^ 40) × (i + w ≤ length values.now) × IfSome eight (λ c. EightWindows values.now w (i - i % 8) c.v) }
    ensures { result ≡ contiguous (window values.now i w) }
{
    if let Some(c) = eight {
        let q = floats::split_f64(c.v[i % LANES]);
        return StableProductFloatAcc {
            m: q.m,
            e: q.e,
            bad: false,
        };
    }
    vectors::piece::stable_float_contiguous(&values[i..i + w])
}

// The product of each w rates in a row, in order in the first places of three buffers: m, e and the mark as a byte, 0 or 1; or one of refusals 17, 4 and 16
// with nothing written.
pub fn reduce_windows(
    values: &[f64],
    w: u64,
    ms: &mut [f64],
    es: &mut [i64],
    bads: &mut [u8],
) -> Result<(), Refusal>
    ensures value { code_of result ≡ windows_answer values.now w ms.old es.old bads.old }
    ensures ms_after { ms.new ≡ window_ms values.now w ms.old es.old bads.old }
    ensures es_after { es.new ≡ window_es values.now w ms.old es.old bads.old }
    ensures bads_after { bads.new ≡ window_bads values.now w ms.old es.old bads.old }
{
    check_window(
        values.len() as u64,
        w,
        ms.len() as u64,
        es.len() as u64,
        bads.len() as u64,
    )?;
    let width = w as usize;
    let count = values.len() - width + 1;
    let mut eight = None;
    // A place in each of three buffers: they are the caller's, as C has them.
    for i in 0..count {
        if i % LANES == 0 {
            eight = crate::eight::eight_at(values, i, width);
        }
        let acc = window_at(values, i, width, eight);
        ms[i] = acc.m;
        es[i] = acc.e;
        bads[i] = u8::from(acc.bad);
    }
    Ok(())
}

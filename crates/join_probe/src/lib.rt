// Joining and finishing for a C host, whose workers' accumulators come from several calls. A library of its own: in one with a reduction, joining would have
// two callers.
#![tactic(auto)]

ghost use Rattle.std.specs.Prelude.{◌≡◌};
ghost use Rattle.accumulator.specs.Joining.{accumulator, joined};
ghost use Rattle.finishing.specs.Finishing.{finished_of};
ghost use Rattle.handed.specs.Answers.{handed_in, code_given, m_given, e_given, bad_given, number_code, number_given};

use accumulator::StableProductFloatAcc;
use refusals::Refusal;

// 0 with the left accumulator joined with the right one in m, e and bad, or the number of a refusal with nothing written.
#[unsafe(no_mangle)]
pub extern "C" fn probe_join(
    left_m: f64,
    left_e: i64,
    left_bad: bool,
    right_m: f64,
    right_e: i64,
    right_bad: bool,
    m: &mut f64,
    e: &mut i64,
    bad: &mut bool,
) -> u32
    ensures value { result ≡ code_given (joined (handed_in left_m left_e left_bad) (handed_in right_m right_e right_bad)) }
    ensures m_after { m.new ≡ m_given m.old
        (joined (handed_in left_m left_e left_bad) (handed_in right_m right_e right_bad)) }
    ensures e_after { e.new ≡ e_given e.old
        (joined (handed_in left_m left_e left_bad) (handed_in right_m right_e right_bad)) }
    ensures bad_after { bad.new ≡ bad_given bad.old
        (joined (handed_in left_m left_e left_bad) (handed_in right_m right_e right_bad)) }
{
    let left = StableProductFloatAcc {
        m: left_m,
        e: left_e,
        bad: left_bad,
    };
    let right = StableProductFloatAcc {
        m: right_m,
        e: right_e,
        bad: right_bad,
    };
    match accumulator::join(left, right) {
        Ok(a) => {
            let exponent = a.e;
            *m = a.m;
            *e = exponent;
            *bad = a.bad;
            0
        }
        Err(refusal) => u32::from(refusal),
    }
}

// 0 with the finished number of an accumulator in number, or the number of a refusal with nothing written.
#[unsafe(no_mangle)]
pub extern "C" fn probe_finish(m: f64, e: i64, bad: bool, number: &mut f64) -> u32
    ensures value { result ≡ number_code (finished_of (accumulator m e bad)) }
    ensures number_after { number.new ≡ number_given number.old (finished_of (accumulator m e bad)) }
{
    let acc = StableProductFloatAcc { m, e, bad };
    match finishing::finish::<Refusal>(Ok(acc)) {
        Ok(x) => {
            *number = x;
            0
        }
        Err(refusal) => u32::from(refusal),
    }
}

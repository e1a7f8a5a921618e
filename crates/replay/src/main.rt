// Answers each line of standard input, a call of the engine, with a line on standard output.
#![tactic(auto)]

mod acc;
mod answer;
mod buffers;
mod input;
mod job;
mod many;
mod moving;
mod product;
mod range;
mod step;

fn main(rt: HostRuntime) {
    let mut space = [0u8; 131073];
    let mut out = answer::Answer::new();
    input::answer_all(&rt, &mut rt.stdin(), &mut space, &mut out);
}

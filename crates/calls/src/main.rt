// Calls of the port's operations, as plain words on standard input; what each answers, as words on standard output. The input comes in
// blocks of 32,768 words. A call is the number of its words after this one, the function's number, and its arguments, all in one block; a
// block ends at its end, or at a call of no words. words.rt and values.rt say how a value goes over, each subject's file which functions
// it has, and answers.rt what they answer. The program ends with the last whole block, and reads no more than 4,294,967,295.
#![tactic(auto)]

mod answers;
mod changes;
mod heaps;
mod polytopes;
mod projections;
mod roots;
mod shapes;
mod simplices;
mod values;
mod vectors;
mod words;

use answers::Answer;
use std::io::Read;
use words::{Args, Output, ToWords};

fn main(rt: HostRuntime) {
    let mut stdin = rt.stdin();
    let mut block = [0; 131_072];
    let mut out = Output::new(rt.stdout());
    for _ in 0..u32::MAX {
        if stdin.read_exact(&mut block).is_err() {
            return;
        }
        answer_block(&block, &mut out);
    }
}

// What is answered is written before more is read.
fn answer_block(block: &[u8], out: &mut Output) {
    let mut rest = block;
    while let [a, b, c, d, call @ ..] = rest {
        let words = u32::from_le_bytes([*a, *b, *c, *d]) as usize;
        if words == 0 {
            break;
        }
        answer_call(call, out);
        rest = call.get(words * 4..).unwrap_or(&[]);
    }
    out.flush();
}

// A function goes by its number, which is all that a call has of it.
fn answer_call(call: &[u8], out: &mut Output) {
    let mut words = Args::new(call);
    let function: u32 = words.read();
    let args = words.begun();
    match function {
        0..=59 => answered(function, args).put(out),
        60..=70 => changes::change(function, args).put(out),
        71..=73 => heaps::answer(function, args, out),
        74 | 75 => polytopes::answer(function == 75, args, out),
        76 => roots::range(args, out),
        _ => roots::chain(args).put(out),
    }
}

fn answered(function: u32, args: Args) -> Answer {
    match function {
        0..=30 => vectors::answer(function, args),
        31..=36 => shapes::supported(function, args),
        37..=42 => shapes::vertex(function, args),
        43..=49 => projections::answer(function, args),
        _ => simplices::answer(function, args),
    }
}

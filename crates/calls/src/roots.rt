// The root of patterns. Function 76 has a first pattern and a count, and answers the bits of the root of each from the first on. Function 77
// is for the root's time alone: a first pattern, a step, a count and a mask; each root waits for the one before it, as its bits under the
// mask alter the next pattern. The mask is 0, which neither compiler nor processor knows. It answers the last root's bits.
use crate::words::{Args, Output, ToWords};

fn root_bits(pattern: u32) -> u32 {
    number::to_bits(number::sqrt(number::from_bits(pattern)))
}

pub fn range(mut args: Args, out: &mut Output) {
    let first: u32 = args.read();
    let n: u32 = args.read();
    for i in 0..n {
        root_bits(first.wrapping_add(i)).put(out);
    }
}

pub fn chain(mut args: Args) -> u32 {
    let mut pattern: u32 = args.read();
    let step: u32 = args.read();
    let n: u32 = args.read();
    let mask: u32 = args.read();
    let mut last = 0;
    for _ in 0..n {
        last = root_bits(pattern ^ (last & mask));
        pattern = pattern.wrapping_add(step);
    }
    last
}

// Cases of the checker on standard input, a line for each on standard output: the number of the answer, 0, 9, 10 or 11, in two places.
// A case is numbers of four bytes, lowest byte first: how many numbers the first hull has and how many the second, the direction, then
// the numbers of both. A case with more than 256 numbers in a hull, or cut off, ends the program. No more than 4,294,967,295 are read.
#![tactic(auto)]

ghost use Rattle.std.specs.Prelude.{◌+◌, ◌≤◌, length, IfOk};

use certificate::{Declined, GridVector};
use std::io::Read;

// Why no answer is given, and the program ends.
#[derive(Clone, Copy)]
enum Ended {
    TooLong,
    CutOff,
}

fn main(rt: HostRuntime) {
    for _ in 0..u32::MAX {
        if answer_case(&rt).is_err() {
            return;
        }
    }
}

// Reads a case and prints its answer.
fn answer_case(rt: &HostRuntime) -> Result<(), Ended> {
    let mut head = [0; 20];
    read(rt, &mut head)?;
    let first = count(&head, 0)?;
    let second = count(&head, 4)?;
    let direction = GridVector {
        x: number(&head, 8),
        y: number(&head, 12),
        z: number(&head, 16),
    };
    answer_numbers(rt, first, second, direction)
}

// Reads the numbers of both hulls, which stand one after the other, and prints the answer.
fn answer_numbers(
    rt: &HostRuntime,
    first: usize,
    second: usize,
    direction: GridVector,
) -> Result<(), Ended>
    requires first_fits { first ≤ 256 }
    requires second_fits { second ≤ 256 }
{
    let mut body = [0; 2048];
    let both = first + second;
    read(rt, &mut body[..both * 4])?;
    let mut numbers = [0; 512];
    let hulls = &mut numbers[..both];
    for (i, n) in hulls.iter_mut().enumerate() {
        *n = number(&body, i * 4);
    }
    print_answer(
        rt,
        certificate::certify(&numbers[..first], &numbers[first..both], direction),
    );
    Ok(())
}

fn print_answer(rt: &HostRuntime, answer: Result<(), Declined>) {
    let line = match answer {
        Ok(()) => b" 0\n",
        Err(Declined::BadLength) => b" 9\n",
        Err(Declined::OutOfRange) => b"10\n",
        Err(Declined::NotSeparated) => b"11\n",
    };
    let _ = rt.write_all(line);
}

fn read(rt: &HostRuntime, bytes: &mut [u8]) -> Result<(), Ended> {
    rt.stdin().read_exact(bytes).map_err(|_| Ended::CutOff)
}

// How many numbers a hull has.
fn count(head: &[u8; 20], at: usize) -> Result<usize, Ended>
    requires { at ≤ 16 }
    ensures { IfOk result (λ n. n ≤ 256) }
{
    match usize::try_from(number(head, at)) {
        Ok(n) if n <= 256 => Ok(n),
        _ => Err(Ended::TooLong),
    }
}

// The number whose four bytes, lowest first, begin at a place.
fn number(bytes: &[u8], at: usize) -> i32
    requires { at + 4 ≤ length bytes.now }
{
    i32::from_le_bytes([bytes[at], bytes[at + 1], bytes[at + 2], bytes[at + 3]])
}

// The lines that a program prints: its first, one for each record, and its last. Floats are eight hexadecimal digits,
// all NaNs alike, and counts and record numbers decimal.
ghost use Rattle.std.specs.Prelude.{◌≡◌, ◌+◌, ◌++◌, ◌<◌, ◌≤◌, length};
ghost use Rattle.std.specs.Float.{binary32};
ghost use Rattle.lines.specs.Text.{after, place_of};
ghost use Rattle.lines.specs.Lines.{float_text, vector_text, three_text, count_text, counts_text, letter_of, floats_text_of, counts_text_of};
ghost use Rattle.lines.specs.Lines.{line_of, first_line, bad_line, last_line, maybe_text};

use crate::text;
use crate::text::{DRAFT_BYTES, Draft};
use counts::Counts;
use refusal::NoRoom;
use vector::Vec3;

// What a record's line tells, with its letter.
#[derive(Clone, Copy)]
pub enum Outcome {
    // D: two points and a direction
    ClosestPoints(Vec3, Vec3, Vec3),
    // M: a direction
    Proximity(Vec3),
    // S: a direction
    NoIntersection(Vec3),
    // P: two points and a normal
    Penetration(Vec3, Vec3, Vec3, Counts),
    // N: refusal 1
    NoAnswer(Counts),
    // X: refusal 2
    Panic,
    // R: refusal 3
    NoPlace(Counts),
}

// ---- floats

// A space, and the number's bits.
#[tactic(auto, using(crate::proofs::Lengths::parts), unfolding(crate::specs::Lines::float_text))]
fn put_float(line: &mut Draft, x: f32)
    requires { length line.old + 9 ≤ DRAFT_BYTES }
    ensures { line.new ≡ line.old ++ float_text binary32 x }
{
    line.push(b' ');
    line.push_hex(number::to_bits(x));
}

#[tactic(auto, using(crate::proofs::Lengths::parts), unfolding(crate::specs::Lines::vector_text))]
fn put_vector(line: &mut Draft, v: Vec3)
    requires { length line.old + 27 ≤ DRAFT_BYTES }
    ensures { line.new ≡ line.old ++ vector_text binary32 v }
{
    put_float(line, v.x);
    put_float(line, v.y);
    put_float(line, v.z);
}

#[tactic(auto, using(crate::proofs::Lengths::parts), unfolding(crate::specs::Lines::three_text))]
fn put_three(line: &mut Draft, a: Vec3, b: Vec3, c: Vec3)
    requires { length line.old + 81 ≤ DRAFT_BYTES }
    ensures { line.new ≡ line.old ++ three_text binary32 a b c }
{
    put_vector(line, a);
    put_vector(line, b);
    put_vector(line, c);
}

#[tactic(auto, using(crate::proofs::Lengths::parts), unfolding(crate::specs::Lines::floats_text_of))]
fn put_floats(line: &mut Draft, outcome: Outcome)
    requires { length line.old + 81 ≤ DRAFT_BYTES }
    ensures { line.new ≡ line.old ++ floats_text_of binary32 outcome }
{
    match outcome {
        Outcome::ClosestPoints(a, b, n) | Outcome::Penetration(a, b, n, _) => {
            put_three(line, a, b, n)
        }
        Outcome::Proximity(v) | Outcome::NoIntersection(v) => put_vector(line, v),
        Outcome::NoAnswer(_) | Outcome::Panic | Outcome::NoPlace(_) => (),
    }
}

// ---- counts

// A space, and the count.
#[tactic(auto, using(crate::proofs::Lengths::parts), unfolding(crate::specs::Lines::count_text))]
fn put_count(line: &mut Draft, n: usize)
    requires { length line.old + 21 ≤ DRAFT_BYTES }
    ensures { line.new ≡ line.old ++ count_text n }
{
    line.push(b' ');
    line.push_decimal(n as u64);
}

#[tactic(auto, using(crate::proofs::Lengths::parts), unfolding(crate::specs::Lines::counts_text))]
fn put_five(line: &mut Draft, c: Counts)
    requires { length line.old + 105 ≤ DRAFT_BYTES }
    ensures { line.new ≡ line.old ++ counts_text c }
{
    put_count(line, c.expansions);
    put_count(line, c.made);
    put_count(line, c.live);
    put_count(line, c.edges);
    put_count(line, c.missed);
}

// The counts that an outcome carries.
#[tactic(auto, unfolding(crate::specs::Lines::counts_text_of, crate::specs::Lines::maybe_text))]
fn counts_of(outcome: Outcome) -> Option<Counts>
    ensures { maybe_text result ≡ counts_text_of outcome }
{
    match outcome {
        Outcome::Penetration(_, _, _, c) | Outcome::NoAnswer(c) | Outcome::NoPlace(c) => Some(c),
        Outcome::ClosestPoints(_, _, _)
        | Outcome::Proximity(_)
        | Outcome::NoIntersection(_)
        | Outcome::Panic => None,
    }
}

// One call of `put_five`, so that the program has its code once: with one in each arm of a `match` on the outcome LLVM copies
// it three times, and the program passes the limit of docs/DECISIONS.md, section 17.
#[tactic(auto, using(crate::proofs::Lengths::parts), unfolding(crate::specs::Lines::maybe_text))]
fn put_counts(line: &mut Draft, outcome: Outcome)
    requires { length line.old + 105 ≤ DRAFT_BYTES }
    ensures { line.new ≡ line.old ++ counts_text_of outcome }
{
    if let Some(c) = counts_of(outcome) {
        put_five(line, c);
    }
}

// ---- lines

// The letter that a record's line has.
pub fn letter(outcome: Outcome) -> u8
    ensures { result ≡ letter_of outcome }
{
    match outcome {
        Outcome::ClosestPoints(_, _, _) => b'D',
        Outcome::Proximity(_) => b'M',
        Outcome::NoIntersection(_) => b'S',
        Outcome::Penetration(_, _, _, _) => b'P',
        Outcome::NoAnswer(_) => b'N',
        Outcome::Panic => b'X',
        Outcome::NoPlace(_) => b'R',
    }
}

// A record's line: its number from 1, the letter, floats and counts.
#[tactic(auto, using(crate::proofs::Lengths::parts), unfolding(crate::specs::Lines::line_of))]
pub fn write_line(out: &mut [u8], at: usize, number: u64, outcome: Outcome) -> Result<usize, NoRoom>
    ensures { after out.new result ≡ place_of out.old at (line_of binary32 number outcome) }
{
    let mut line = Draft::new();
    line.push_decimal(number);
    line.push(b' ');
    line.push(letter(outcome));
    put_floats(&mut line, outcome);
    put_counts(&mut line, outcome);
    line.push(b'\n');
    text::place(out, at, line.bytes())
}

// The first line: `separation 1`.
#[tactic(auto, unfolding(crate::specs::Lines::first_line))]
pub fn write_first(out: &mut [u8], at: usize) -> Result<usize, NoRoom>
    ensures { after out.new result ≡ place_of out.old at first_line }
{
    text::place(out, at, b"separation 1\n")
}

// In place of a record's line where it is malformed: `bad`, and the offset. It has 25 bytes at most, and room for so many is asked.
#[tactic(auto, using(crate::proofs::Lengths::parts), unfolding(crate::specs::Lines::bad_line))]
pub fn put_bad(line: &mut Draft, offset: u64)
    ensures fits { length line.old + 25 ≤ DRAFT_BYTES → line.new ≡ line.old ++ bad_line offset }
    ensures full { DRAFT_BYTES < length line.old + 25 → line.new ≡ line.old }
{
    if line.bytes().len() <= DRAFT_BYTES - 25 {
        line.push_all(b"bad ");
        line.push_decimal(offset);
        line.push(b'\n');
    }
}

pub fn write_bad(out: &mut [u8], at: usize, offset: u64) -> Result<usize, NoRoom>
    ensures { after out.new result ≡ place_of out.old at (bad_line offset) }
{
    let mut line = Draft::new();
    put_bad(&mut line, offset);
    text::place(out, at, line.bytes())
}

// The last line: `cases`, and how many records were finished.
#[tactic(auto, using(crate::proofs::Lengths::parts), unfolding(crate::specs::Lines::last_line))]
pub fn write_last(out: &mut [u8], at: usize, cases: u64) -> Result<usize, NoRoom>
    ensures { after out.new result ≡ place_of out.old at (last_line cases) }
{
    let mut line = Draft::new();
    line.push_all(b"cases ");
    line.push_decimal(cases);
    line.push(b'\n');
    text::place(out, at, line.bytes())
}

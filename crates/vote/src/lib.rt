// The vote of three channels: two answers out of three that agree. What each function returns is a definition
// of specs/Vote.antt, which carries document 01's rule as tickets 3 and 4 have it.
#![tactic(auto)]

ghost use Rattle.std.specs.Prelude.{◌≡◌};
ghost use Rattle.std.specs.Float.{binary32};
ghost use Rattle.number.specs.Told.{Told};
ghost use Rattle.vote.specs.Vote.{agree, same_bits, same_bits_v, vote_of, verdict_number, verdict_values};

use counts::Counts;
use vector::Vec3;

// What a channel answers. Floats and counts that the outcome hasn't got are zero.
#[repr(C)]
#[derive(Clone, Copy)]
pub struct Answer {
    // its letter, of D M S P N X R, a byte since C is told it so; the vote asks only whether two are the same
    pub outcome: u8,
    pub point1: Vec3,
    pub point2: Vec3,
    pub normal: Vec3,
    pub counts: Counts,
}

// What two channels that agree answer, and the number of the odd one, 0 where there is none.
#[derive(Clone, Copy)]
pub struct Agreed {
    pub answer: Answer,
    // a number and no Option: document 01 gives the odd channel's number, or 0
    pub odd: usize,
}

// Refusal 5: no two agree.
#[derive(Clone, Copy, Debug, PartialEq, Eq)]
pub struct NoAgreement;

// Whether the bits are the same, all NaNs counting as one, as `to_bits` writes them. Unlike `==`, a NaN agrees with a NaN,
// and -0 not with +0.
fn same_bits(a: f32, b: f32) -> bool
    ensures { result ≡ same_bits binary32 a b }
{
    number::to_bits(a) == number::to_bits(b)
}

fn same_vectors(a: Vec3, b: Vec3) -> bool
    ensures { result ≡ same_bits_v binary32 a b }
{
    same_bits(a.x, b.x) & same_bits(a.y, b.y) & same_bits(a.z, b.z)
}

// Whether outcome and counts are the same and each float agrees.
// A hint, without which LLVM makes it a call, both answers copied, and the vote takes a third longer (docs/DESIGN-PASS.md, "Speed").
#[inline(always)]
pub fn agree(a: Answer, b: Answer) -> bool
    ensures { result ≡ agree binary32 a b }
{
    let points = same_vectors(a.point1, b.point1) & same_vectors(a.point2, b.point2);
    let floats = points & same_vectors(a.normal, b.normal);
    (a.outcome == b.outcome) & (a.counts == b.counts) & floats
}

// The answers of channels 1, 2 and 3: the first of 1 and 2, 1 and 3, 2 and 3 that agree decides.
pub fn vote(a: Answer, b: Answer, c: Answer) -> Result<Agreed, NoAgreement>
    ensures answer { result ≡ vote_of binary32 a b c }
    ensures told { Told verdict_number verdict_values result (vote_of binary32 a b c) }
{
    let first_last = agree(a, c);
    if agree(a, b) {
        let odd = if first_last { 0 } else { 3 };
        return Ok(Agreed { answer: a, odd });
    }
    if first_last {
        return Ok(Agreed { answer: a, odd: 2 });
    }
    if agree(b, c) {
        Ok(Agreed { answer: b, odd: 1 })
    } else {
        Err(NoAgreement)
    }
}

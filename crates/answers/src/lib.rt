// Shapes, answers and verdicts as plain records, for a caller in another language.
#![tactic(auto)]

ghost use Rattle.std.specs.Prelude.{◌≡◌};
ghost use Rattle.answers.specs.Answers.{shape_of, answer_with, answer_of, malformed, voted_of};

use counts::Counts;
use lines::Outcome;
use shape::Shape;
use vector::Vec3;
use vote::{Agreed, Answer, NoAgreement};

// Document 01's kind of a shape, a number since C gives it so, and its numbers in their order; those that the kind hasn't got are not read.
#[repr(C)]
#[derive(Clone, Copy)]
pub struct ShapeRecord {
    pub kind: u32,
    pub p: Vec3,
    pub q: Vec3,
    pub r: Vec3,
}

// Of three answers: document 01's number, 0 or 5, the odd channel's number, and the answer. Numbers, since C is told them so.
#[repr(C)]
#[derive(Clone, Copy)]
pub struct Voted {
    pub number: u32,
    pub odd: usize,
    pub answer: Answer,
}

// None of a kind above 3.
pub fn shape_of(g: ShapeRecord) -> Option<Shape>
    ensures { result ≡ shape_of g }
{
    let ShapeRecord { kind, p, q, r } = g;
    match kind {
        0 => Some(Shape::Ball(p.x)),
        1 => Some(Shape::Cuboid(p.x, p.y, p.z)),
        2 => Some(Shape::Capsule(p.x, p.y, p.z, q.x, q.y, q.z, r.x)),
        3 => Some(Shape::Triangle(p.x, p.y, p.z, q.x, q.y, q.z, r.x, r.y, r.z)),
        _ => None,
    }
}

fn answer_with(outcome: u8, point1: Vec3, point2: Vec3, normal: Vec3, counts: Counts) -> Answer
    ensures { result ≡ answer_with outcome point1 point2 normal counts }
{
    Answer {
        outcome,
        point1,
        point2,
        normal,
        counts,
    }
}

// The letter of the outcome's line, and its values. A direction alone stands where the normal does.
pub fn answer_of(outcome: Outcome) -> Answer
    ensures { result ≡ answer_of outcome }
{
    let zero = Vec3::ZERO;
    match outcome {
        Outcome::ClosestPoints(a, b, n) => answer_with(b'D', a, b, n, Counts::NONE),
        Outcome::Proximity(n) => answer_with(b'M', zero, zero, n, Counts::NONE),
        Outcome::NoIntersection(n) => answer_with(b'S', zero, zero, n, Counts::NONE),
        Outcome::Penetration(a, b, n, c) => answer_with(b'P', a, b, n, c),
        Outcome::NoAnswer(c) => answer_with(b'N', zero, zero, zero, c),
        Outcome::Panic => answer_with(b'X', zero, zero, zero, Counts::NONE),
        Outcome::NoPlace(c) => answer_with(b'R', zero, zero, zero, c),
    }
}

// The answer to a kind above 3, with the first letter of the line `bad`; no channel gives it.
pub fn malformed_answer() -> Answer
    ensures { result ≡ malformed }
{
    answer_with(b'B', Vec3::ZERO, Vec3::ZERO, Vec3::ZERO, Counts::NONE)
}

// The verdict of a vote as a record. Where no two agree its answer is zeros, whose outcome, 0, is no letter.
pub fn voted_of(verdict: Result<Agreed, NoAgreement>) -> Voted
    ensures { result ≡ voted_of verdict }
{
    match verdict {
        Ok(Agreed { answer, odd }) => Voted {
            number: 0,
            odd,
            answer,
        },
        Err(NoAgreement) => Voted {
            number: 5,
            odd: 0,
            answer: answer_with(0, Vec3::ZERO, Vec3::ZERO, Vec3::ZERO, Counts::NONE),
        },
    }
}

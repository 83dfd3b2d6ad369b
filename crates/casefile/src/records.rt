// Records of a case file: a record's numbers are read one after the other, and the first that is refused ends the record.
ghost use Rattle.std.specs.Prelude.{◌≡◌, ◌≤◌};
ghost use Rattle.std.specs.Float.{binary32};
ghost use Rattle.number.specs.Told.{Told};
ghost use Rattle.casefile.specs.Records.{number_at, small_at, numbers_at, first_words};
ghost use Rattle.casefile.specs.Records.{float_of, vector_of, size_of, shape_in, pose_of, shape_at, read_case, case_number, case_value};

use crate::numbers;
use crate::numbers::{Got, NumberError};
use shape::Shape;
use vector::{Pose, Rotation, Vec3};

// Two shapes, the pose of the second, the start direction, the largest distance and the exact flag.
#[derive(Clone, Copy)]
pub struct Case {
    pub g1: Shape,
    pub g2: Shape,
    pub pos12: Pose,
    pub dir: Vec3,
    pub max_dist: f32,
    pub exact: bool,
}

// Why no record was read.
#[derive(Clone, Copy)]
pub enum CaseError {
    // Refusal 4: the number that starts at this place is malformed, or a kind above 3, or a flag above 1.
    Malformed(usize),
    // The bytes end inside the record.
    Ended,
}

// ---- numbers

#[tactic(auto, unfolding(crate::specs::Records::number_at))]
fn number_at(bytes: &[u8], at: usize) -> Result<Got<u32>, CaseError>
    ensures { result ≡ number_at bytes.now at }
{
    match numbers::read_number(bytes, at) {
        Ok(number) => Ok(number),
        Err(NumberError::Malformed) => Err(CaseError::Malformed(at)),
        Err(NumberError::Ended) => Err(CaseError::Ended),
    }
}

// A number that is malformed above `top`.
#[tactic(auto, unfolding(crate::specs::Records::small_at))]
fn small_at(bytes: &[u8], top: u32, at: usize) -> Result<Got<u32>, CaseError>
    ensures { result ≡ small_at top bytes.now at }
{
    let number = number_at(bytes, at)?;
    if top < number.value {
        return Err(CaseError::Malformed(at));
    }
    Ok(number)
}

// The next `count` numbers, in the first places.
fn numbers_at(bytes: &[u8], at: usize, count: usize) -> Result<Got<[u32; 11]>, CaseError>
    requires { count ≤ 11 }
    ensures { first_words count result ≡ numbers_at count bytes.now at }
{
    let mut words = [0u32; 11];
    let mut next = at;
    for i in 0..count {
        let number = number_at(bytes, next)?;
        words[i] = number.value;
        next = number.next;
    }
    Ok(Got { value: words, next })
}

// ---- what words stand for

fn float_of(words: [u32; 11], i: usize) -> f32
    requires { i ≤ 10 }
    ensures { result ≡ float_of binary32 words i }
{
    number::from_bits(words[i])
}

fn vector_of(words: [u32; 11], i: usize) -> Vec3
    requires { i ≤ 8 }
    ensures { result ≡ vector_of binary32 words i }
{
    let x = float_of(words, i);
    let y = float_of(words, i + 1);
    let z = float_of(words, i + 2);
    Vec3::new(x, y, z)
}

// How many numbers a shape has.
fn size_of(kind: u32) -> usize
    ensures { result ≡ size_of kind }
{
    match kind {
        0 => 1,
        1 => 3,
        2 => 7,
        _ => 9,
    }
}

fn shape_of(kind: u32, words: [u32; 11]) -> Shape
    ensures { result ≡ shape_in binary32 kind words }
{
    if kind == 0 {
        return Shape::Ball(float_of(words, 0));
    }
    let a = vector_of(words, 0);
    if kind == 1 {
        return Shape::Cuboid(a.x, a.y, a.z);
    }
    let b = vector_of(words, 3);
    if kind == 2 {
        return Shape::Capsule(a.x, a.y, a.z, b.x, b.y, b.z, float_of(words, 6));
    }
    let c = vector_of(words, 6);
    Shape::Triangle(a.x, a.y, a.z, b.x, b.y, b.z, c.x, c.y, c.z)
}

fn pose_of(words: [u32; 11]) -> Pose
    ensures { result ≡ pose_of binary32 words }
{
    let v = vector_of(words, 0);
    let rotation = Rotation {
        x: v.x,
        y: v.y,
        z: v.z,
        w: float_of(words, 3),
    };
    Pose {
        rotation,
        translation: vector_of(words, 4),
    }
}

// ---- records

// A shape: its kind, and its numbers.
fn shape_at(bytes: &[u8], at: usize) -> Result<Got<Shape>, CaseError>
    ensures { result ≡ shape_at binary32 bytes.now at }
{
    let kind = small_at(bytes, 3, at)?;
    let numbers = numbers_at(bytes, kind.next, size_of(kind.value))?;
    Ok(Got {
        value: shape_of(kind.value, numbers.value),
        next: numbers.next,
    })
}

// The record that starts at `at`: its numbers are at most 32, in at most 160 bytes.
pub fn read_case(bytes: &[u8], at: usize) -> Result<Got<Case>, CaseError>
    ensures answer { result ≡ read_case binary32 bytes.now at }
    ensures told { Told case_number (case_value bytes.now) result (read_case binary32 bytes.now at) }
{
    let first = shape_at(bytes, at)?;
    let second = shape_at(bytes, first.next)?;
    let numbers = numbers_at(bytes, second.next, 11)?;
    let flag = small_at(bytes, 1, numbers.next)?;
    let words = numbers.value;
    let case = Case {
        g1: first.value,
        g2: second.value,
        pos12: pose_of(words),
        dir: vector_of(words, 7),
        max_dist: float_of(words, 10),
        exact: flag.value == 1,
    };
    Ok(Got {
        value: case,
        next: flag.next,
    })
}

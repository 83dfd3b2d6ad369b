// A record, written: a case's numbers in their order, each float by its bits, all NaNs alike.
ghost use Rattle.std.specs.Prelude.{◌≡◌, [], ◌∷◌, ◌++◌, ◌+◌, ◌≤◌, length};
ghost use Rattle.std.specs.Float.{binary32};
ghost use Rattle.lines.specs.Text.{after, place_of};
ghost use Rattle.casefile.specs.Records.{encode_all, bits_of, vector_words, pose_words, shape_words, shape_numbers, words_of, numbers_of, flag_of, encode_case};

use crate::numbers;
use casefile::Case;
use lines::{DRAFT_BYTES, Draft};
use refusal::NoRoom;
use shape::Shape;
use vector::{Pose, Vec3};

#[tactic(auto, unfolding(casefile::specs::Records::encode_all))]
fn put_word(draft: &mut Draft, word: u32)
    requires { length draft.old + 5 ≤ DRAFT_BYTES }
    ensures { draft.new ≡ draft.old ++ encode_all (word ∷ []) }
{
    numbers::put_number(draft, word);
}

fn put_float(draft: &mut Draft, x: f32)
    requires { length draft.old + 5 ≤ DRAFT_BYTES }
    ensures { draft.new ≡ draft.old ++ encode_all (bits_of binary32 x ∷ []) }
{
    put_word(draft, number::to_bits(x));
}

#[tactic(auto, using(crate::proofs::Encodings::parts))]
fn put_vector(draft: &mut Draft, v: Vec3)
    requires { length draft.old + 15 ≤ DRAFT_BYTES }
    ensures { draft.new ≡ draft.old ++ encode_all (vector_words binary32 v) }
{
    put_float(draft, v.x);
    put_float(draft, v.y);
    put_float(draft, v.z);
}

#[tactic(auto, using(crate::proofs::Encodings::parts), unfolding(casefile::specs::Records::shape_words))]
fn put_shape(draft: &mut Draft, shape: Shape)
    requires { length draft.old + 50 ≤ DRAFT_BYTES }
    ensures { draft.new ≡ draft.old ++ encode_all (shape_numbers (shape_words binary32 shape)) }
{
    match shape {
        Shape::Ball(radius) => {
            put_word(draft, 0);
            put_float(draft, radius);
        }
        Shape::Cuboid(x, y, z) => {
            put_word(draft, 1);
            put_vector(draft, Vec3::new(x, y, z));
        }
        Shape::Capsule(ax, ay, az, bx, by, bz, radius) => {
            put_word(draft, 2);
            put_vector(draft, Vec3::new(ax, ay, az));
            put_vector(draft, Vec3::new(bx, by, bz));
            put_float(draft, radius);
        }
        Shape::Triangle(ax, ay, az, bx, by, bz, cx, cy, cz) => {
            put_word(draft, 3);
            put_vector(draft, Vec3::new(ax, ay, az));
            put_vector(draft, Vec3::new(bx, by, bz));
            put_vector(draft, Vec3::new(cx, cy, cz));
        }
    }
}

#[tactic(auto, using(crate::proofs::Encodings::parts))]
fn put_pose(draft: &mut Draft, pose: Pose)
    requires { length draft.old + 35 ≤ DRAFT_BYTES }
    ensures { draft.new ≡ draft.old ++ encode_all (pose_words binary32 pose) }
{
    let q = pose.rotation;
    put_float(draft, q.x);
    put_float(draft, q.y);
    put_float(draft, q.z);
    put_float(draft, q.w);
    put_vector(draft, pose.translation);
}

#[tactic(auto, using(crate::proofs::Encodings::parts))]
fn put_case(draft: &mut Draft, case: Case)
    requires { length draft.old + 160 ≤ DRAFT_BYTES }
    ensures { draft.new ≡ draft.old ++ encode_all (numbers_of (words_of binary32 case)) }
{
    put_shape(draft, case.g1);
    put_shape(draft, case.g2);
    put_pose(draft, case.pos12);
    put_vector(draft, case.dir);
    put_float(draft, case.max_dist);
    put_word(draft, u32::from(case.exact));
}

// The record goes to the places from `at` on, where it has room there.
#[tactic(auto, unfolding(casefile::specs::Records::encode_case))]
pub fn write_case(out: &mut [u8], at: usize, case: Case) -> Result<usize, NoRoom>
    ensures { after out.new result ≡ place_of out.old at (encode_case (words_of binary32 case)) }
{
    let mut draft = Draft::new();
    put_case(&mut draft, case);
    lines::place(out, at, draft.bytes())
}

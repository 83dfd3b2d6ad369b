// The channel, the vote, the cast (impact.rt) and the checker of a separating direction (certify.rt) under C names, for a caller in another language
// (include/separation.h). Each is lent what it needs: nothing is allocated and nothing kept. Stores of any lengths are taken; a kind of shape above 3 is answered as malformed.
#![tactic(auto)]

ghost use Rattle.std.specs.Prelude.{◌≡◌};
ghost use Rattle.std.specs.Float.{binary32};
ghost use Rattle.vote.specs.Vote.{vote_of};
ghost use Rattle.epa.specs.Final.{Ends};
ghost use Rattle.epa_lent.specs.Lent.{records_lent, on_first};
ghost use Rattle.answers.specs.Answers.{shape_of, voted_of, number_of};
ghost use Rattle.embedding.specs.Embedding.{ran};

mod certify;
mod impact;

use answers::{ShapeRecord, Voted, answer_of, malformed_answer, shape_of, voted_of};
use edges::Edge;
use vector::{Pose, Vec3};
use vote::Answer;

// The channel's answer for C. A kind above 3 is answered as malformed, and the stores stay as they are. What stands one by one here does so in C.
#[unsafe(no_mangle)]
pub extern "C" fn separation_run(
    pos12: Pose,
    g1: ShapeRecord,
    g2: ShapeRecord,
    dir: Vec3,
    max_dist: f32,
    exact: bool,
    vertices: &mut [f32],
    ids: &mut [usize],
    floats: &mut [f32],
    deleted: &mut [u8],
    edges: &mut [Edge],
    heap_ids: &mut [usize],
    heap_keys: &mut [f32],
    pending: &mut [usize],
) -> Answer
    ensures { Ends (on_first (ran binary32 pos12 (shape_of g1) (shape_of g2) dir max_dist exact)) result
        (λ m. records_lent m vertices ids floats deleted edges heap_ids heap_keys pending) }
{
    let Some(first) = shape_of(g1) else {
        return malformed_answer();
    };
    let Some(second) = shape_of(g2) else {
        return malformed_answer();
    };
    answer_of(channel_lent::separate(
        pos12, first, second, dir, max_dist, exact, vertices, ids, floats, deleted, edges,
        heap_ids, heap_keys, pending,
    ))
}

// Two out of three.
#[unsafe(no_mangle)]
pub extern "C" fn separation_vote(a: Answer, b: Answer, c: Answer) -> Voted
    ensures { result ≡ voted_of (vote_of binary32 a b c) }
{
    voted_of(vote::vote(a, b, c))
}

// Document 01's number of an answer, by its outcome: 0 of D, M, S and P, 1 to 3 of the refusals, 4 of a malformed record, and 5 of
// what is no letter, as the zeros that a vote gives where no two agree.
#[unsafe(no_mangle)]
pub extern "C" fn separation_number(outcome: u8) -> u32
    ensures { result ≡ number_of outcome }
{
    match outcome {
        b'D' | b'M' | b'S' | b'P' => 0,
        b'N' => 1,
        b'X' => 2,
        b'R' => 3,
        b'B' => 4,
        _ => 5,
    }
}

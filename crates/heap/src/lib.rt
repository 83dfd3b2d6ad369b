// The queue of faces by their keys, the greatest first: Rust's `BinaryHeap<FaceId>`, with the entries in two slices that the
// caller lends, a face and its key at the same place, and the count beside them.
// Two slices and a count they stay, since the C interface lends them so (`separation_stores`), and nothing here allocates.
// Carries alloc's `BinaryHeap::push`, `peek` and `pop` as rustc 1.95 has them; specs/Heap.antt is what they compute.
// The store is as long as the shorter slice. No call returns a count above that. If one is passed all the same, the call
// answers `NoRoom` and writes nothing. A pop zeroes the place that it frees at once, and no call touches a place above its own last.
#![tactic(auto)]

ghost use Rattle.std.specs.Prelude.{◌≡◌};
ghost use Rattle.number.specs.Told.{Told};
ghost use Rattle.heap.specs.Heap.{heap, entry};
ghost use Rattle.heap.specs.Calls.{after, push_of, push_number, push_value, peek_of, peek_number, peek_values, pop_of, pop_number, pop_values};

// Entries change places: private, since these functions ask something of their caller.
mod sift;

use refusal::NoRoom;

// A face and its key.
#[derive(Clone, Copy)]
pub struct Entry {
    pub face: usize,
    pub key: f32,
}

// The entry that went out, and how many are left.
#[derive(Clone, Copy)]
pub struct Popped {
    pub entry: Entry,
    pub count: usize,
}

// An entry goes in, and rises while its parent is less; the answer is how many there are now. Where there is no place
// for it nothing is written.
#[tactic(auto, using(number::proofs::Told::told), unfolding(crate::specs::Calls::push_of, crate::specs::Heap::pushed))]
pub fn push(
    faces: &mut [usize],
    keys: &mut [f32],
    count: usize,
    face: usize,
    key: f32,
) -> Result<usize, NoRoom>
    ensures answer { after faces.new keys.new result ≡ push_of (heap faces.old keys.old count) (entry face key) }
    ensures told { Told push_number push_value result (push_of (heap faces.old keys.old count) (entry face key)).answer }
{
    if count < sift::places(faces, keys) {
        faces[count] = face;
        keys[count] = key;
        sift::rise(faces, keys, count);
        Ok(count + 1)
    } else {
        Err(NoRoom)
    }
}

// The entry that a pop would take out; none of an empty heap. It is refused where the count tells of entries that the
// store has no place for.
#[tactic(auto, using(number::proofs::Told::told), unfolding(crate::specs::Calls::peek_of, crate::specs::Calls::peek_in))]
pub fn peek(faces: &[usize], keys: &[f32], count: usize) -> Result<Option<Entry>, NoRoom>
    ensures answer { result ≡ peek_of (heap faces.now keys.now count) }
    ensures told { Told peek_number peek_values result (peek_of (heap faces.now keys.now count)) }
{
    if count == 0 {
        return Ok(None);
    }
    if sift::places(faces, keys) < count {
        return Err(NoRoom);
    }
    Ok(Some(Entry {
        face: faces[0],
        key: keys[0],
    }))
}

// The first entry goes out; the last takes its place, sinks to the bottom and rises again. The place that
// it leaves becomes zero. Where there is no entry nothing is written.
#[tactic(auto, using(number::proofs::Told::told, crate::proofs::Answers::first_out, crate::proofs::Answers::none_out, crate::proofs::Answers::refused_out))]
pub fn pop(faces: &mut [usize], keys: &mut [f32], count: usize) -> Result<Option<Popped>, NoRoom>
    ensures answer { after faces.new keys.new result ≡ pop_of (heap faces.old keys.old count) }
    ensures told { Told pop_number pop_values result (pop_of (heap faces.old keys.old count)).answer }
{
    let Some(entry) = peek(faces, keys, count)? else {
        return Ok(None);
    };
    let last = count - 1;
    sift::take_last(faces, keys, last);
    Ok(Some(Popped { entry, count: last }))
}

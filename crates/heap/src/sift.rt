// How entries change places in a heap.
ghost use Rattle.std.specs.Prelude.{◌≡◌, ℕ, ◌+◌, ◌<◌, ◌≤◌, min, length};
ghost use Rattle.heap.specs.Heap.{heap, placed, swap as swapped, rise as risen, greater as greater_of, sink as sunk, popped};

// How many entries have a place in both slices.
pub(crate) fn places(faces: &[usize], keys: &[f32]) -> usize
    ensures { result ≡ min (length faces.now) (length keys.now) }
{
    faces.len().min(keys.len())
}

// The entries at i and j change places.
#[tactic(auto, unfolding(crate::specs::Heap::swap))]
fn swap(faces: &mut [usize], keys: &mut [f32], i: usize, j: usize)
    requires { (i < min (length faces.old) (length keys.old)) × (j < min (length faces.old) (length keys.old)) }
    ensures { (n : ℕ) → heap faces.new keys.new n ≡ swapped (heap faces.old keys.old n) i j }
{
    faces.swap(i, j);
    keys.swap(i, j);
}

// The entry at `from` rises while its parent is strictly less: `sift_up`.
pub(crate) fn rise(faces: &mut [usize], keys: &mut [f32], from: usize)
    requires { from < min (length faces.old) (length keys.old) }
    ensures { (n : ℕ) → heap faces.new keys.new n ≡ risen (heap faces.old keys.old n) from }
{
    let mut at = from;
    while 0 < at {
        let parent = (at - 1) / 2;
        if keys[parent] < keys[at] {
            swap(faces, keys, at, parent);
            at = parent;
        } else {
            return;
        }
    }
}

// The greater of the children at `child` and after it, the right one where neither is.
#[tactic(auto, unfolding(crate::specs::Heap::greater))]
fn greater(keys: &[f32], child: usize) -> usize
    requires { child + 1 < length keys.now }
    ensures { result ≡ greater_of keys.now child }
{
    let right = child + 1;
    if keys[right] < keys[child] {
        child
    } else {
        right
    }
}

// The first of `count` entries sinks to the bottom, whatever its key: it changes with the greater child, or
// with an only child. What it returns is where the entry came to rest.
fn sink(faces: &mut [usize], keys: &mut [f32], count: usize) -> usize
    requires { (0 < count) × (count ≤ min (length faces.old) (length keys.old)) }
    ensures { placed (heap faces.new keys.new count) result ≡ sunk (heap faces.old keys.old count) 0 }
{
    let mut at = 0;
    let mut child = 1;
    while child + 1 < count {
        child = greater(keys, child);
        swap(faces, keys, at, child);
        at = child;
        child = at * 2 + 1;
    }
    if child < count {
        swap(faces, keys, at, child);
        return child;
    }
    at
}

// The last of `last` + 1 entries leaves its place, which becomes zero, for that of the first, if it is not the
// first itself; there it sinks, and rises again: `sift_down_to_bottom`.
pub(crate) fn take_last(faces: &mut [usize], keys: &mut [f32], last: usize)
    requires { last < min (length faces.old) (length keys.old) }
    ensures { heap faces.new keys.new last ≡ popped (heap faces.old keys.old (last + 1)) last }
{
    let face = faces[last];
    let key = keys[last];
    faces[last] = 0;
    keys[last] = 0.0;
    if 0 < last {
        faces[0] = face;
        keys[0] = key;
        let at = sink(faces, keys, last);
        rise(faces, keys, at);
    }
}

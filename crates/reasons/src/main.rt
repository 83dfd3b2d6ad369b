// Why the run of each record ended: a case file on standard input, and on standard output a line for each record that reached
// the polytope (document 02, ticket 5). What is read and written for a record is `reason::reason_next`, and what moves the
// bytes is `pipes`. The stores are those that `separation` lends.
#![tactic(auto)]

use epa_stores::Stores;
use pipes::{End, Run};

// `reason_next` takes no more than 4,294,967,295 records; the loop goes one further and so ends by itself.
const MOST_TURNS: u64 = 4_294_967_296;

fn main(rt: HostRuntime) {
    let mut input = [0u8; 65_536];
    let mut out = [0u8; 65_536];
    let mut vertices = [0.0f32; 945];
    let mut ids = [0usize; 6000];
    let mut floats = [0.0f32; 6000];
    let mut deleted = [0u8; 1000];
    let mut edges = [0usize; 412];
    let mut heap_ids = [0usize; 1000];
    let mut heap_keys = [0.0f32; 1000];
    let mut pending = [0usize; 412];
    let mut stores = Stores {
        vertices: &mut vertices,
        ids: &mut ids,
        floats: &mut floats,
        deleted: &mut deleted,
        edges: &mut edges,
        heap_ids: &mut heap_ids,
        heap_keys: &mut heap_keys,
        pending: &mut pending,
    };
    let mut state = Ok(Run {
        window: pipes::start(),
        place: 0,
    });
    for n in 0..MOST_TURNS {
        state = turn(&rt, state, n + 1, &mut input, &mut out, &mut stores);
        if let Err(end) = state {
            finish(&rt, end, &out);
            return;
        }
    }
    if let Ok(run) = state {
        close(&rt, &out, run.place);
    }
}

// The record `number` is run, where there is one.
// Inlined like `reason_next`, and for its reason.
#[inline(always)]
fn turn(
    rt: &HostRuntime,
    state: Result<Run, End>,
    number: u64,
    input: &mut [u8],
    out: &mut [u8],
    stores: &mut Stores<'_>,
) -> Result<Run, End> {
    let run = pipes::make_ready(&mut rt.stdin(), &mut rt.stdout(), state, input, out)?;
    let answer = reason::reason_next(
        &input[..run.window.until],
        run.window.from,
        run.window.base,
        number,
        out,
        run.place,
        stores,
    );
    pipes::after(answer, run.window, run.place)
}

// All lines that are not written yet.
fn finish(rt: &HostRuntime, end: End, out: &[u8]) {
    match end {
        End::Done(place) => close(rt, out, place),
        End::Failed(place) => {
            let _ = pipes::flushed(&mut rt.stdout(), out, place);
            pipes::complain(&mut rt.stderr(), b"reasons: a read or a write failed\n");
        }
    }
}

// What each program says at its end and at a failure is its own; what the programs share is `pipes`.
fn close(rt: &HostRuntime, out: &[u8], place: usize) {
    if pipes::flushed(&mut rt.stdout(), out, place).is_err() {
        pipes::complain(&mut rt.stderr(), b"reasons: a write failed\n");
    }
}

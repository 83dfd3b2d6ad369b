// The separation channel over case files: standard input to standard output, as document 01 has it ("Case file and
// vote"). What is read and written for a record is `stream::answer_next`, and what moves the bytes is `pipes`.
// A read that fails, unlike the file's end, ends the run without the last line, and so does a write that fails.
#![tactic(auto)]

use epa_stores::Stores;
use pipes::{End, Failed, Run};

// `stream` answers no more than 4,294,967,295 records; the loop goes one further and so ends by itself.
const MOST_TURNS: u64 = 4_294_967_296;

fn main(rt: HostRuntime) {
    let mut input = [0u8; 65_536];
    let mut out = [0u8; 65_536];
    let mut vertices = [0.0f32; 945];
    let mut ids = [0usize; 6000];
    let mut floats = [0.0f32; 6000];
    let mut deleted = [0u8; 1000];
    let mut edges = [0usize; 412];
    let mut heap_ids = [0usize; 1000];
    let mut heap_keys = [0.0f32; 1000];
    let mut pending = [0usize; 412];
    let mut stores = Stores {
        vertices: &mut vertices,
        ids: &mut ids,
        floats: &mut floats,
        deleted: &mut deleted,
        edges: &mut edges,
        heap_ids: &mut heap_ids,
        heap_keys: &mut heap_keys,
        pending: &mut pending,
    };
    let mut state = begun(&mut out);
    for n in 0..MOST_TURNS {
        state = turn(&rt, state, n + 1, &mut input, &mut out, &mut stores);
        if let Err(end) = state {
            finish(&rt, end, n, &mut out);
            return;
        }
    }
    if let Ok(run) = state {
        close(&rt, MOST_TURNS, &mut out, run.place);
    }
}

// The first line is in the output, and nothing was read.
fn begun(out: &mut [u8]) -> Result<Run, End> {
    match lines::write_first(out, 0) {
        Ok(place) => Ok(Run {
            window: pipes::start(),
            place,
        }),
        Err(_) => Err(End::Failed(0)),
    }
}

// The record `number` is answered, where there is one.
// Inlined like `answer_next`, and for its reason.
#[inline(always)]
fn turn(
    rt: &HostRuntime,
    state: Result<Run, End>,
    number: u64,
    input: &mut [u8],
    out: &mut [u8],
    stores: &mut Stores<'_>,
) -> Result<Run, End> {
    let run = pipes::make_ready(&mut rt.stdin(), &mut rt.stdout(), state, input, out)?;
    let answer = stream::answer_next(
        &input[..run.window.until],
        run.window.from,
        run.window.base,
        number,
        out,
        run.place,
        stores,
    );
    pipes::after(answer, run.window, run.place)
}

// The last line, after n records, and all that is not written yet.
fn finish(rt: &HostRuntime, end: End, n: u64, out: &mut [u8]) {
    match end {
        End::Done(place) => close(rt, n, out, place),
        End::Failed(place) => {
            let _ = pipes::flushed(&mut rt.stdout(), out, place);
            pipes::complain(&mut rt.stderr(), b"separation: a read or a write failed\n");
        }
    }
}

// What each program says at its end and at a failure is its own; what the programs share is `pipes`.
fn close(rt: &HostRuntime, n: u64, out: &mut [u8], at: usize) {
    if closed(rt, n, out, at).is_err() {
        pipes::complain(&mut rt.stderr(), b"separation: a write failed\n");
    }
}

fn closed(rt: &HostRuntime, n: u64, out: &mut [u8], at: usize) -> Result<(), Failed> {
    let place = pipes::with_room(&mut rt.stdout(), out, at)?;
    match lines::write_last(out, place, n) {
        Ok(end) => pipes::flushed(&mut rt.stdout(), out, end),
        Err(_) => Ok(()),
    }
}

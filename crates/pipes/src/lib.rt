// What moves the bytes of a program over case files: standard input through one buffer, lines through another to standard
// output, so that memory does not grow with the file. What is read and written for a record is the program's own.
// A read that fails, unlike the file's end, ends a run as failed, and so does a write that fails.
// Contracts say how the window and the places of a run move, which bytes stay, and, of a reader and a writer whose bytes
// are known, that what comes into the buffer is what the reader then has no more, and that what is written is the lines.
#![tactic(auto)]

ghost use Rattle.std.specs.Prelude.{◌≡◌};
ghost use Rattle.std.specs.Result.{is_ok};
ghost use Rattle.pipes.specs.Bytes.{Gone, TakenBy, Drawn, Gained, Drained, Passed};
ghost use Rattle.pipes.specs.Pipes.{start_window, enough_of, Kept, Brought, ReadOn, Read, Filled, Written, Roomy, after_turn, Readied};

use std::io::{Read, Write};
use window::{Turn, Window};

// So many bytes always decide a record.
const RECORD_BYTES: usize = 160;

// The output has room for any line, of 209 bytes at most, while its place is here or before.
const NEARLY_FULL: usize = 65_327;

// A read or a write failed.
#[derive(Clone, Copy)]
pub struct Failed;

// A run that goes on: the window on the file, and the place of the next line in the output.
#[derive(Clone, Copy)]
pub struct Run {
    pub window: Window,
    pub place: usize,
}

// Why a run does not go on, and up to which place in the output it left lines.
#[derive(Clone, Copy)]
pub enum End {
    // The file's end, or a line after which nothing is read.
    Done(usize),
    // A read or a write failed.
    Failed(usize),
}

// ---- input

// Nothing was read.
pub fn start() -> Window
    ensures { result ≡ start_window }
{
    Window {
        base: 0,
        from: 0,
        until: 0,
        ended: false,
    }
}

// One read into the buffer from `at` on: more bytes and their end, or the file's end.
fn read_from<R: Read>(stdin: &mut R, input: &mut [u8], at: usize) -> Result<Option<usize>, Failed>
    ensures brought { Brought at result }
    ensures gone { Gone (R.remaining stdin.old) (R.remaining stdin.new) at input.new result }
    ensures kept { Kept at input.old input.new }
{
    if input.len() <= at {
        return Err(Failed);
    }
    match stdin.read(&mut input[at..]) {
        Err(_) => Err(Failed),
        Ok(0) => Ok(None),
        Ok(n) => Ok(Some(at + n)),
    }
}

// The window with what one read brings.
fn read_on<R: Read>(stdin: &mut R, input: &mut [u8], w: Window) -> Result<Window, Failed>
    ensures read_on { ReadOn w result }
    ensures taken { TakenBy (R.remaining stdin.old) (R.remaining stdin.new) w input.new result }
    ensures kept { Kept w.until input.old input.new }
{
    let got = read_from(stdin, input, w.until)?;
    let seen = match got {
        Some(until) => Window {
            until,
            ended: false,
            ..w
        },
        None => Window { ended: true, ..w },
    };
    Ok(seen)
}

// Whether the window has what decides a record.
fn has_enough(w: Window) -> bool
    ensures { result ≡ enough_of w }
{
    w.ended || RECORD_BYTES <= window::rest_of(w.from, w.until)
}

// At least 160 bytes from the buffer's start on, or the file's rest. Each read brings a byte at least.
fn read_enough<R: Read>(stdin: &mut R, input: &mut [u8], w: Window) -> Result<Window, Failed>
    requires { w.«from» ≡ 0 }
    ensures read { Read w result }
    ensures taken { TakenBy (R.remaining stdin.old) (R.remaining stdin.new) w input.new result }
    ensures kept { Kept w.until input.old input.new }
{
    let mut seen = w;
    for _ in 0..RECORD_BYTES {
        if has_enough(seen) {
            return Ok(seen);
        }
        seen = read_on(stdin, input, seen)?;
    }
    Ok(seen)
}

// The window with what decides the next record: as it is, or moved to the buffer's start and read on.
fn filled<R: Read>(stdin: &mut R, input: &mut [u8], w: Window) -> Result<Window, Failed>
    ensures filled { Filled w input.old input.new result }
    ensures drawn { Drawn (R.remaining stdin.old) (R.remaining stdin.new) w input.new result }
{
    if has_enough(w) {
        return Ok(w);
    }
    window::to_front(input, w.from, w.until);
    read_enough(stdin, input, window::moved(w))
}

// ---- output

// The lines up to `place` are written.
pub fn flushed<W: Write>(stdout: &mut W, out: &[u8], place: usize) -> Result<(), Failed>
    ensures written { Written out.now place (is_ok result) }
    ensures gained { Gained (W.contents stdout.old) (W.contents stdout.new) out.now place (is_ok result) }
{
    if out.len() < place {
        return Err(Failed);
    }
    stdout.write_all(&out[..place]).map_err(|_| Failed)
}

// Where there is room for a line: here, or at the start once what is there is written.
pub fn with_room<W: Write>(stdout: &mut W, out: &[u8], place: usize) -> Result<usize, Failed>
    ensures roomy { Roomy out.now place result }
    ensures drained { Drained (W.contents stdout.old) (W.contents stdout.new) out.now place result }
{
    if place <= NEARLY_FULL {
        return Ok(place);
    }
    flushed(stdout, out, place)?;
    Ok(0)
}

// What failed goes to standard error, where it can. There is nothing to promise: it answers nothing, and writes to nothing
// that it is lent.
pub fn complain<W: Write>(stderr: &mut W, what: &[u8]) {
    let _ = stderr.write_all(what);
}

// ---- a run

// The next record's bytes are there, and there is room for its line. A state that is not open is handed on.
pub fn make_ready<R: Read, W: Write>(
    stdin: &mut R,
    stdout: &mut W,
    state: Result<Run, End>,
    input: &mut [u8],
    out: &[u8],
) -> Result<Run, End>
    ensures readied { Readied state out.now input.old input.new result }
    ensures passed { Passed (R.remaining stdin.old) (R.remaining stdin.new) (W.contents stdout.old) (W.contents stdout.new)
        state out.now input.new result }
{
    let run = state?;
    let Ok(place) = with_room(stdout, out, run.place) else {
        return Err(End::Failed(0));
    };
    let Ok(window) = filled(stdin, input, run.window) else {
        return Err(End::Failed(place));
    };
    if input.len() < window.until {
        return Err(End::Failed(place));
    }
    if window.until <= window.from {
        return Err(End::Done(place));
    }
    Ok(Run { window, place })
}

// Where a run stands after a turn.
pub fn after(answer: Turn, w: Window, place: usize) -> Result<Run, End>
    ensures { result ≡ after_turn answer w place }
{
    match answer {
        Turn::Line {
            next,
            place: following,
        } => {
            let window = Window { from: next, ..w };
            Ok(Run {
                window,
                place: following,
            })
        }
        Turn::Stopped(following) => Err(End::Done(following)),
        Turn::NoRoom => Err(End::Failed(place)),
        Turn::AllRead => Err(End::Done(place)),
    }
}

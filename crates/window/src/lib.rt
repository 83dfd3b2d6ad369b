// The window that a case file is read through, how what is not read of it comes to the start of its buffer, and what a turn did.
#![tactic(auto)]

ghost use Rattle.std.specs.Prelude.{◌≡◌};
ghost use Rattle.window.specs.Window.{offset_of, rest_of, moved_of, front_of, line_turn, bad_turn};

use refusal::NoRoom;

// The part of the file that is in a buffer: the offset of the buffer's first byte in the file, the place of the next
// record, the end of what was read, and whether the file ends there.
#[derive(Clone, Copy)]
pub struct Window {
    pub base: u64,
    pub from: usize,
    pub until: usize,
    pub ended: bool,
}

// The offset in the file of a place in the buffer.
pub fn offset_of(base: u64, place: usize) -> u64
    ensures { result ≡ offset_of base place }
{
    base.wrapping_add(place as u64)
}

// The bytes that are not read yet.
pub fn rest_of(from: usize, until: usize) -> usize
    ensures { result ≡ rest_of «from» until }
{
    until.saturating_sub(from)
}

// The window once those bytes stand at the start of the buffer.
pub fn moved(w: Window) -> Window
    ensures { result ≡ moved_of w }
{
    Window {
        base: offset_of(w.base, w.from),
        from: 0,
        until: rest_of(w.from, w.until),
        ..w
    }
}

// Those bytes are put there, where the window lies in the buffer: each goes to a place before its own, or stays.
#[tactic(auto, unfolding(crate::specs::Window::front_of))]
pub fn to_front(bytes: &mut [u8], from: usize, until: usize)
    ensures { bytes.new ≡ front_of bytes.old «from» until }
{
    if bytes.len() < until || until < from {
        return;
    }
    for i in 0..until - from {
        bytes[i] = bytes[from + i];
    }
}

// What one turn did. No Result: each case is a way that a turn may end, and of each the definition says what is left in the output.
#[derive(Clone, Copy)]
pub enum Turn {
    // A record's line was written: the place of the next record, and of the next line.
    Line { next: usize, place: usize },
    // In its place `bad` was written: the place after it. Reading stops.
    Stopped(usize),
    // The output has no room for the line: nothing was written to it.
    NoRoom,
    // So many records were answered that no more is read: nothing was written.
    AllRead,
}

// A line was written, or had no room.
pub fn line_turn(next: usize, placed: Result<usize, NoRoom>) -> Turn
    ensures { result ≡ line_turn next placed }
{
    match placed {
        Ok(place) => Turn::Line { next, place },
        Err(NoRoom) => Turn::NoRoom,
    }
}

// `bad` was written in place of a record's line, or had no room.
pub fn bad_turn(placed: Result<usize, NoRoom>) -> Turn
    ensures { result ≡ bad_turn placed }
{
    match placed {
        Ok(place) => Turn::Stopped(place),
        Err(NoRoom) => Turn::NoRoom,
    }
}

// A case file read through a window, a record at a time: what one turn puts out. The reading and writing are the program's;
// what a turn reads and writes is here, on slices.
#![tactic(auto)]

ghost use Rattle.std.specs.Prelude.{◌≡◌};
ghost use Rattle.std.specs.Float.{binary32};
ghost use Rattle.epa_stores.specs.Lent.{Kept};
ghost use Rattle.epa.specs.Final.{EndsAll};
ghost use Rattle.stream.specs.Stream.{turn_of};
ghost use Rattle.stream.specs.Reading.{told, read, read_next};

use casefile::{Case, CaseError, Got};
use epa_stores::Stores;
use window::{Turn, bad_turn, line_turn};

// Document 01: after so many records a run stops as at the file's end.
pub const MOST_RECORDS: u64 = 4_294_967_295;

// The record at the place `at` of the bytes, whose first has the offset `base` in the file, is read, or there is none, and the
// answer is the turn: where it is malformed or cut off, `bad` goes to the places of `out` from `place` on. Where the bytes are the file's rest,
// or at least 160 from `at` on, the turn is the whole file's (law `window-turn`).
pub fn read_next(
    bytes: &[u8],
    at: usize,
    base: u64,
    number: u64,
    out: &mut [u8],
    place: usize,
) -> Result<Got<Case>, Turn>
    ensures { read result out.new ≡ read_next binary32 bytes.now at base number out.old place }
{
    if MOST_RECORDS < number {
        return Err(Turn::AllRead);
    }
    match casefile::read_case(bytes, at) {
        Ok(record) => Ok(record),
        Err(CaseError::Malformed(bad)) => {
            let written = lines::write_bad(out, place, window::offset_of(base, bad));
            Err(bad_turn(written))
        }
        Err(CaseError::Ended) => {
            let written = lines::write_bad(out, place, window::offset_of(base, bytes.len()));
            Err(bad_turn(written))
        }
    }
}

// The next record is read and answered, and its line goes to the places of `out` from `place` on.
// A hint, without which LLVM leaves it a call of its own and does not see that the stores are distinct arrays.
#[inline(always)]
pub fn answer_next(
    bytes: &[u8],
    at: usize,
    base: u64,
    number: u64,
    out: &mut [u8],
    place: usize,
    stores: &mut Stores<'_>,
) -> Turn
    ensures answer { EndsAll (turn_of binary32 bytes.now at base number out.old place) (told result out.new) stores }
    ensures kept { Kept stores }
{
    match read_next(bytes, at, base, number, out, place) {
        Ok(Got { value: case, next }) => {
            let outcome = channel::separate(case, stores);
            let written = lines::write_line(out, place, number, outcome);
            line_turn(next, written)
        }
        Err(turn) => turn,
    }
}

// The line of a reason: the record's number, a space and the reason in the words of document 02's ticket 5. It is put together
// in a draft, and placed where the caller's slice has room for all of it.
ghost use Rattle.std.specs.Prelude.{◌≡◌, ◌+◌, ◌++◌, ◌≤◌, length};
ghost use Rattle.lines.specs.Text.{after, place_of};
ghost use Rattle.reason.specs.Words.{words_of, reason_line, reason_placed};

use crate::reasons::Reason;
use lines::{DRAFT_BYTES, Draft};
use refusal::NoRoom;

#[tactic(auto, unfolding(crate::specs::Words::words_of))]
fn put_words(line: &mut Draft, reason: Reason)
    requires { length line.old + 39 ≤ DRAFT_BYTES }
    ensures { line.new ≡ line.old ++ words_of reason }
{
    match reason {
        Reason::PanicSite => line.push_all(b"panic site"),
        Reason::NoRoom => line.push_all(b"no room"),
        Reason::Converged => line.push_all(b"converged"),
        Reason::Stuck => line.push_all(b"stuck"),
        Reason::NearerFace => line.push_all(b"a new face nearer than the current one"),
        Reason::EnoughExpansions => line.push_all(b"101 expansions"),
        Reason::HeapEmpty => line.push_all(b"heap empty"),
        Reason::DegenerateStart => line.push_all(b"degenerate start"),
        Reason::KeyAtStart => line.push_all(b"key refused at the start"),
        Reason::NoneHolds => line.push_all(b"no starting face holding the projection"),
        Reason::NoSilhouette => line.push_all(b"empty silhouette"),
        Reason::AllDeleted => line.push_all(b"all silhouette faces deleted"),
        Reason::KeyLater => line.push_all(b"key refused later"),
    }
}

#[tactic(auto, using(crate::proofs::Lengths::parts), unfolding(crate::specs::Words::reason_line))]
pub fn write_reason(out: &mut [u8], at: usize, number: u64, reason: Reason) -> Result<usize, NoRoom>
    ensures { after out.new result ≡ place_of out.old at (reason_line number reason) }
{
    let mut line = Draft::new();
    line.push_decimal(number);
    line.push(b' ');
    put_words(&mut line, reason);
    line.push(b'\n');
    lines::place(out, at, line.bytes())
}

// Its line, or none: then the place stays.
pub fn write_maybe(
    out: &mut [u8],
    at: usize,
    number: u64,
    reason: Option<Reason>,
) -> Result<usize, NoRoom>
    ensures { after out.new result ≡ reason_placed out.old at number reason }
{
    match reason {
        Some(known) => write_reason(out, at, number, known),
        None => Ok(at),
    }
}

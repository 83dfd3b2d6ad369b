// Numbers of a case file, written: in groups of seven bits, lowest first.
ghost use Rattle.std.specs.Prelude.{◌≡◌, ◌++◌, ◌+◌, ◌<◌, ◌≤◌, length};
ghost use Rattle.casefile.specs.Numbers.{encode_in, encode, limit};
ghost use Rattle.lines.specs.Text.{after, place_of};

use lines::{DRAFT_BYTES, Draft};
use refusal::NoRoom;

// A number's groups, of which `more` may follow the first.
#[tactic(auto, using(crate::proofs::Encodings::groups))]
fn put_groups(draft: &mut Draft, value: u32, more: usize)
    requires few { value < limit more }
    requires room { length draft.old + (more + 1) ≤ DRAFT_BYTES }
    ensures { draft.new ≡ draft.old ++ encode_in more value }
{
    if more == 0 || value < 128 {
        return draft.push(value as u8);
    }
    draft.push((128 + value % 128) as u8);
    put_groups(draft, value / 128, more - 1);
}

#[tactic(auto, unfolding(casefile::specs::Numbers::encode))]
pub(crate) fn put_number(draft: &mut Draft, value: u32)
    requires { length draft.old + 5 ≤ DRAFT_BYTES }
    ensures { draft.new ≡ draft.old ++ encode value }
{
    put_groups(draft, value, 4);
}

// The number goes to the places from `at` on, where it has room there.
pub fn write_number(out: &mut [u8], at: usize, value: u32) -> Result<usize, NoRoom>
    ensures { after out.new result ≡ place_of out.old at (encode value) }
{
    let mut draft = Draft::new();
    put_number(&mut draft, value);
    lines::place(out, at, draft.bytes())
}

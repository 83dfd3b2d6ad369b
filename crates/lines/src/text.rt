// Text: it is put together in a draft, which has room for any text of the programs, and placed in a slice that the caller lends
// where that has room for all of it.
ghost use Rattle.std.specs.Prelude.{◌≡◌, [], ◌∷◌, ◌++◌, ◌+◌, ◌<◌, ◌≤◌, length};
ghost use Rattle.lines.specs.Text.{after, place_of, hex_digit, hex_pair, hex_of, digit as digit_of, decimal_in, decimal_of};

use refusal::NoRoom;
use std::marker::Model;

// How long a draft may get: the longest text, that of a campaign, has 267 bytes.
pub const DRAFT_BYTES: usize = 272;

// A text while it is put together. Contracts see the list of its bytes.
#[derive(Drop)]
pub struct Draft {
    bytes: [u8; DRAFT_BYTES],
    len: usize,
}

impl Model for Draft {
    ghost use Rattle.std.specs.Prelude.{ℕ, List, take, ◌≤◌};

    ghost Value = { List ℕ };

    ghost view = { λ d. take d.len d.bytes };

    ghost invariant = { λ d. d.len ≤ 272 };
}

impl Draft {
    pub fn new() -> Draft
        ensures { result ≡ [] }
    {
        Draft {
            bytes: [0; DRAFT_BYTES],
            len: 0,
        }
    }

    pub fn bytes(&self) -> &[u8]
        ensures { result.now ≡ self.now }
    {
        &self.bytes[..self.len]
    }

    // What has no room in the draft is left out.
    pub fn push(&mut self, byte: u8)
        ensures fits { length self.old < DRAFT_BYTES → self.new ≡ self.old ++ byte ∷ [] }
        ensures full { DRAFT_BYTES ≤ length self.old → self.new ≡ self.old }
    {
        if self.len < DRAFT_BYTES {
            self.bytes[self.len] = byte;
            self.len += 1;
        }
    }

    pub fn push_all(&mut self, text: &[u8])
        ensures fits { length self.old + length text.now ≤ DRAFT_BYTES → self.new ≡ self.old ++ text.now }
        ensures full { DRAFT_BYTES < length self.old + length text.now → self.new ≡ self.old }
    {
        if text.len() <= DRAFT_BYTES - self.len {
            let end = self.len + text.len();
            self.bytes[self.len..end].copy_from_slice(text);
            self.len = end;
        }
    }

    // All eight hexadecimal digits of n.
    #[tactic(auto, unfolding(crate::specs::Text::hex_of))]
    pub fn push_hex(&mut self, n: u32)
        ensures fits { length self.old + 8 ≤ DRAFT_BYTES → self.new ≡ self.old ++ hex_of n }
        ensures full { DRAFT_BYTES < length self.old + 8 → self.new ≡ self.old }
    {
        if self.len <= DRAFT_BYTES - 8 {
            self.push_all(&hex_pair(n / 0x100_0000));
            self.push_all(&hex_pair(n / 0x1_0000));
            self.push_all(&hex_pair(n / 0x100));
            self.push_all(&hex_pair(n));
        }
    }

    // The decimal digits of n, without leading zeros. A number may have twenty, and room for so many is asked.
    #[tactic(auto, unfolding(crate::specs::Text::decimal_of))]
    pub fn push_decimal(&mut self, n: u64)
        ensures fits { length self.old + 20 ≤ DRAFT_BYTES → self.new ≡ self.old ++ decimal_of n }
        ensures full { DRAFT_BYTES < length self.old + 20 → self.new ≡ self.old }
    {
        if self.len <= DRAFT_BYTES - 20 {
            push_digits(self, n, 19);
        }
    }
}

// At most `more` + 1 digits. By hand, as the hexadecimal ones: `write!` would answer a Result here, which is never an Err.
#[tactic(auto, using(crate::proofs::Puts::decimals))]
fn push_digits(draft: &mut Draft, n: u64, more: usize)
    requires { length draft.old + (more + 1) ≤ DRAFT_BYTES }
    ensures { draft.new ≡ draft.old ++ decimal_in more n }
{
    if more == 0 || n < 10 {
        return draft.push(digit(n));
    }
    push_digits(draft, n / 10, more - 1);
    draft.push(digit(n));
}

// The last decimal digit of n.
#[tactic(auto, unfolding(crate::specs::Text::digit))]
fn digit(n: u64) -> u8
    ensures { result ≡ digit_of n }
{
    b'0' + (n % 10) as u8
}

// The last hexadecimal digit of n.
#[tactic(auto, unfolding(crate::specs::Text::hex_digit))]
fn hex_digit(n: u32) -> u8
    ensures { result ≡ hex_digit n }
{
    let d = (n % 16) as u8;
    if d < 10 { b'0' + d } else { b'A' - 10 + d }
}

// The last two.
#[tactic(auto, unfolding(crate::specs::Text::hex_pair))]
fn hex_pair(n: u32) -> [u8; 2]
    ensures { result ≡ hex_pair n }
{
    [hex_digit(n / 16), hex_digit(n)]
}

// The text goes to the places of `out` from `at` on, where all of it has room there; the answer is the place after it.
// Elsewhere nothing is written.
#[tactic(auto, using(crate::proofs::Puts::there, crate::proofs::Puts::no_room))]
pub fn place(out: &mut [u8], at: usize, text: &[u8]) -> Result<usize, NoRoom>
    ensures { after out.new result ≡ place_of out.old at text.now }
{
    if out.len() < text.len() || out.len() - text.len() < at {
        return Err(NoRoom);
    }
    let end = at + text.len();
    out[at..end].copy_from_slice(text);
    Ok(end)
}

// The decimal digits of n.
pub fn write_decimal(out: &mut [u8], at: usize, n: u64) -> Result<usize, NoRoom>
    ensures { after out.new result ≡ place_of out.old at (decimal_of n) }
{
    let mut digits = Draft::new();
    digits.push_decimal(n);
    place(out, at, digits.bytes())
}

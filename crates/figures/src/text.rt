// The lines of a campaign, put together in a draft and placed in a slice that the caller lends.
ghost use Rattle.std.specs.Prelude.{◌≡◌, ◌+◌, ◌++◌, ◌≤◌, length};
ghost use Rattle.lines.specs.Text.{after, place_of};
ghost use Rattle.figures.specs.Campaign.{number_text, letters_text, figures_text, stop_text, campaign_text};

use crate::sums::{Figures, Letters};
use lines::{DRAFT_BYTES, Draft};
use refusal::NoRoom;

// Why no more is read.
#[derive(Clone, Copy)]
pub enum Stop {
    // The file's end, between two records.
    File,
    // Refusal 4: the offset of a malformed number, or of the end of the bytes within the record.
    Bad(u64),
    // Refusal 8: a byte after the last record that is read.
    TooMany,
}

// A number, and the byte after it.
#[tactic(auto, using(crate::proofs::Placing::parts), unfolding(crate::specs::Campaign::number_text))]
fn put_number(text: &mut Draft, n: u64, end: u8)
    requires { length text.old + 21 ≤ DRAFT_BYTES }
    ensures { text.new ≡ text.old ++ number_text n end }
{
    text.push_decimal(n);
    text.push(end);
}

#[tactic(auto, using(crate::proofs::Placing::parts), unfolding(crate::specs::Campaign::letters_text))]
fn put_letters(text: &mut Draft, l: Letters)
    requires { length text.old + 147 ≤ DRAFT_BYTES }
    ensures { text.new ≡ text.old ++ letters_text l }
{
    put_number(text, l.d, b' ');
    put_number(text, l.m, b' ');
    put_number(text, l.s, b' ');
    put_number(text, l.p, b' ');
    put_number(text, l.n, b' ');
    put_number(text, l.x, b' ');
    put_number(text, l.r, b'\n');
}

#[tactic(auto, using(crate::proofs::Placing::parts), unfolding(crate::specs::Campaign::figures_text))]
fn put_figures(text: &mut Draft, g: Figures)
    requires { length text.old + 231 ≤ DRAFT_BYTES }
    ensures { text.new ≡ text.old ++ figures_text g }
{
    put_letters(text, g.letters);
    put_number(text, g.expansions, b'\n');
    put_number(text, g.counted, b'\n');
    put_number(text, g.greatest, b' ');
    put_number(text, g.first, b'\n');
}

#[tactic(auto, unfolding(crate::specs::Campaign::stop_text))]
fn put_stop(text: &mut Draft, stop: Stop)
    requires { length text.old + 25 ≤ DRAFT_BYTES }
    ensures { text.new ≡ text.old ++ stop_text stop }
{
    match stop {
        Stop::File => (),
        Stop::Bad(offset) => lines::put_bad(text, offset),
        Stop::TooMany => text.push_all(b"too many\n"),
    }
}

// `campaign 1`, the four lines of numbers, and why no more was read if it was not the file's end, go to the places of `out` from
// `at` on, where they have room there.
#[tactic(auto, using(crate::proofs::Placing::parts), unfolding(crate::specs::Campaign::campaign_text, crate::specs::Campaign::first_line))]
pub fn write_campaign(
    out: &mut [u8],
    at: usize,
    figures: Figures,
    stop: Stop,
) -> Result<usize, NoRoom>
    ensures { after out.new result ≡ place_of out.old at (campaign_text figures stop) }
{
    let mut text = Draft::new();
    text.push_all(b"campaign 1\n");
    put_figures(&mut text, figures);
    put_stop(&mut text, stop);
    lines::place(out, at, text.bytes())
}

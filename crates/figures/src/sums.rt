// The figures, and how an outcome is counted. Sums are of u64 and never wrap within a campaign (law `sums-fit`).
ghost use Rattle.std.specs.Prelude.{◌≡◌};
ghost use Rattle.figures.specs.Figures.{no_figures, tallied as tallied_of, letters_with, beats as beats_of, with_letter, with_counts, after_outcome};

use counts::Counts;
use lines::Outcome;

// Records per letter of their lines, in the order in which the figures have them.
#[derive(Clone, Copy)]
pub struct Letters {
    pub d: u64,
    pub m: u64,
    pub s: u64,
    pub p: u64,
    pub n: u64,
    pub x: u64,
    pub r: u64,
}

// With them: the sum of expansions, how many records carry counts, the greatest faces made and the first record that had it. Both are zero
// while none carries counts.
#[derive(Clone, Copy)]
pub struct Figures {
    pub letters: Letters,
    pub expansions: u64,
    pub counted: u64,
    pub greatest: u64,
    pub first: u64,
}

// Of no record.
pub fn none() -> Figures
    ensures { result ≡ no_figures }
{
    let letters = Letters {
        d: 0,
        m: 0,
        s: 0,
        p: 0,
        n: 0,
        x: 0,
        r: 0,
    };
    Figures {
        letters,
        expansions: 0,
        counted: 0,
        greatest: 0,
        first: 0,
    }
}

// One more where the letter is this one.
fn tallied(n: u64, letter: u8, this: u8) -> u64
    ensures { result ≡ tallied_of n letter this }
{
    if letter == this { n.wrapping_add(1) } else { n }
}

#[tactic(auto, unfolding(crate::specs::Figures::letters_with))]
fn letters_with(l: Letters, letter: u8) -> Letters
    ensures { result ≡ letters_with letter l }
{
    Letters {
        d: tallied(l.d, letter, b'D'),
        m: tallied(l.m, letter, b'M'),
        s: tallied(l.s, letter, b'S'),
        p: tallied(l.p, letter, b'P'),
        n: tallied(l.n, letter, b'N'),
        x: tallied(l.x, letter, b'X'),
        r: tallied(l.r, letter, b'R'),
    }
}

#[tactic(auto, unfolding(crate::specs::Figures::with_letter))]
fn with_letter(g: Figures, letter: u8) -> Figures
    ensures { result ≡ with_letter letter g }
{
    Figures {
        letters: letters_with(g.letters, letter),
        ..g
    }
}

// Whether a record that made so many faces is the first with the greatest: none carried counts before it, or all made fewer.
fn beats(g: Figures, made: u64) -> bool
    ensures { result ≡ beats_of made g }
{
    g.counted == 0 || g.greatest < made
}

// The counts of the record `number`.
#[tactic(auto, unfolding(crate::specs::Figures::with_counts))]
fn with_counts(g: Figures, number: u64, c: Counts) -> Figures
    ensures { result ≡ with_counts number c g }
{
    let made = c.made as u64;
    let summed = Figures {
        expansions: g.expansions.wrapping_add(c.expansions as u64),
        counted: g.counted.wrapping_add(1),
        ..g
    };
    if beats(g, made) {
        Figures {
            greatest: made,
            first: number,
            ..summed
        }
    } else {
        summed
    }
}

// The figures with the outcome of the record `number`. P, N and R carry counts.
pub fn counted(figures: Figures, number: u64, outcome: Outcome) -> Figures
    ensures { result ≡ after_outcome number outcome figures }
{
    let told = with_letter(figures, lines::letter(outcome));
    match outcome {
        Outcome::Penetration(_, _, _, c) | Outcome::NoAnswer(c) | Outcome::NoPlace(c) => {
            with_counts(told, number, c)
        }
        Outcome::ClosestPoints(_, _, _)
        | Outcome::Proximity(_)
        | Outcome::NoIntersection(_)
        | Outcome::Panic => told,
    }
}

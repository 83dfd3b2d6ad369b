// A run of the polytope, told as the outcome of a record: letters P, N and R with the run's counts, and X.
#![tactic(auto)]

ghost use Rattle.std.specs.Prelude.{◌≡◌};
ghost use Rattle.number.specs.Told.{Told};
ghost use Rattle.lines.specs.Lines.{outcome_number, outcome_values};
ghost use Rattle.outcome.specs.Outcome.{outcome_of};

use epa_polytope::End;
use lines::Outcome;

pub fn outcome_of(answer: epa::Answer) -> Outcome
    ensures answer { result ≡ outcome_of answer }
    ensures told { Told outcome_number outcome_values result (outcome_of answer) }
{
    let counts = answer.counts;
    match answer.end {
        End::Answers(_, p1, p2, normal) => Outcome::Penetration(p1, p2, normal, counts),
        End::Nothing(_) => Outcome::NoAnswer(counts),
        End::Panics(_) => Outcome::Panic,
        End::NoRoom(_) => Outcome::NoPlace(counts),
    }
}

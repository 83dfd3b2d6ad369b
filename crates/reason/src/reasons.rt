// Why a run of the polytope ended: the branch by which it did, in the order of document 02's ticket 5.
ghost use Rattle.std.specs.Prelude.{◌≡◌};
ghost use Rattle.reason.specs.Reasons.{found_reason, lost_reason, reason_of};

use epa_polytope::{End, Found, Lost};

// The words of each stand in words.rt.
#[derive(Clone, Copy)]
pub enum Reason {
    PanicSite,
    NoRoom,
    Converged,
    Stuck,
    NearerFace,
    EnoughExpansions,
    HeapEmpty,
    DegenerateStart,
    KeyAtStart,
    NoneHolds,
    NoSilhouette,
    AllDeleted,
    KeyLater,
}

// Why there is an answer.
fn found_reason(why: Found) -> Reason
    ensures { result ≡ found_reason why }
{
    match why {
        Found::SinglePoint => Reason::DegenerateStart,
        Found::Converged => Reason::Converged,
        Found::Stuck => Reason::Stuck,
        Found::NewFaceNearer => Reason::NearerFace,
        Found::EnoughExpansions => Reason::EnoughExpansions,
        Found::HeapEmpty => Reason::HeapEmpty,
    }
}

// Why there is none.
fn lost_reason(why: Lost) -> Reason
    ensures { result ≡ lost_reason why }
{
    match why {
        Lost::KeyAtStart => Reason::KeyAtStart,
        Lost::NoneHolds => Reason::NoneHolds,
        Lost::NoSilhouette => Reason::NoSilhouette,
        Lost::AllDeleted => Reason::AllDeleted,
        Lost::KeyLater => Reason::KeyLater,
    }
}

pub fn reason_of(end: End) -> Reason
    ensures { result ≡ reason_of end }
{
    match end {
        End::Answers(why, _, _, _) => found_reason(why),
        End::Nothing(why) => lost_reason(why),
        End::Panics(_) => Reason::PanicSite,
        End::NoRoom(_) => Reason::NoRoom,
    }
}

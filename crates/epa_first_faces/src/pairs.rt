// Faces pushed two at a time (`self.faces.push` of epa3.rs, in "Initialization"): either start makes an even number of them.
ghost use Rattle.epa_polytope.specs.Code.{push_two};
ghost use Rattle.epa_stores.specs.Lent.{LeavesAll, Kept};

use epa_polytope::{Finish, Made, Tally, Three};
use epa_pushes::push_face;
use epa_stores::Stores;

// Two faces are pushed, one after the other; the second is left out where the first ends the run.
pub fn push_two(
    stores: &mut Stores<'_>,
    tally: Tally,
    pts1: Three,
    adj1: Three,
    m1: Made,
    pts2: Three,
    adj2: Three,
    m2: Made,
) -> Result<Tally, Finish>
    ensures leaves { LeavesAll (push_two pts1 adj1 m1 pts2 adj2 m2) tally result stores }
    ensures kept { Kept stores }
{
    let next = push_face(stores, tally, pts1, adj1, m1)?;
    push_face(stores, next, pts2, adj2, m2)
}

// One turn of a program that counts the records of a case file, which it reads through a window.
ghost use Rattle.std.specs.Float.{binary32};
ghost use Rattle.epa_stores.specs.Lent.{held, Kept};
ghost use Rattle.epa.specs.Final.{EndsAll};
ghost use Rattle.number.specs.Told.{Told};
ghost use Rattle.figures.specs.Reckoning.{reckon_of, reckoned_number, reckoned_values};

use crate::sums;
use crate::sums::Figures;
use crate::text::Stop;
use casefile::{CaseError, Got};
use epa_stores::Stores;

// A record was counted: the place of the next one, and the figures with it.
#[derive(Clone, Copy)]
pub struct Counted {
    pub next: usize,
    pub figures: Figures,
}

// The record at the place `at` of the bytes, whose first has the offset `base` in the file, is read, answered and counted, or no more is read.
// Where the bytes are the file's rest, or at least 160 from `at` on, the turn is the whole file's (law `window-reckoned`).
// A hint, as at `stream::answer_next`.
#[inline(always)]
pub fn figures_next(
    bytes: &[u8],
    at: usize,
    base: u64,
    number: u64,
    figures: Figures,
    stores: &mut Stores<'_>,
) -> Result<Counted, Stop>
    ensures answer { EndsAll (reckon_of binary32 bytes.now at base number figures) result stores }
    ensures told { Told reckoned_number reckoned_values result (reckon_of binary32 bytes.now at base number figures (held stores.old)).answer }
    ensures kept { Kept stores }
{
    if bytes.len() <= at {
        return Err(Stop::File);
    }
    if stream::MOST_RECORDS < number {
        return Err(Stop::TooMany);
    }
    match casefile::read_case(bytes, at) {
        Ok(Got { value: case, next }) => {
            let outcome = channel::separate(case, stores);
            let with = sums::counted(figures, number, outcome);
            Ok(Counted {
                next,
                figures: with,
            })
        }
        Err(CaseError::Malformed(bad)) => Err(Stop::Bad(window::offset_of(base, bad))),
        Err(CaseError::Ended) => Err(Stop::Bad(window::offset_of(base, bytes.len()))),
    }
}

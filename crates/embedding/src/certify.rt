// The checker of a separating direction, and the proposer, under C names.
ghost use Rattle.std.specs.Prelude.{◌≡◌};
ghost use Rattle.std.specs.Float.{binary32};
ghost use Rattle.certificate.specs.Certificate.{certify, certificate_number};
ghost use Rattle.proposal.specs.Proposal.{proposed};

use certificate::{Declined, GridVector};
use vector::Vec3;

fn certificate_number(answer: Result<(), Declined>) -> u32
    ensures { result ≡ certificate_number answer }
{
    match answer {
        Ok(()) => 0,
        Err(Declined::BadLength) => 9,
        Err(Declined::OutOfRange) => 10,
        Err(Declined::NotSeparated) => 11,
    }
}

// The number of the checker's answer: 0 where the direction separates the hulls, or refusal 9, 10 or 11.
#[unsafe(no_mangle)]
pub extern "C" fn separation_certify(first: &[i32], second: &[i32], direction: GridVector) -> u32
    ensures { result ≡ certificate_number (certify first.now second.now direction) }
{
    certificate_number(certificate::certify(first, second, direction))
}

// A direction of GJK as one that the checker can try.
#[unsafe(no_mangle)]
pub extern "C" fn separation_propose(dir: Vec3) -> GridVector
    ensures { result ≡ proposed binary32 dir }
{
    proposal::propose(dir)
}

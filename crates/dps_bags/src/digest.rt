//! Digests, by which most different things are told apart without a walk.
//!
//! A digest follows from what it is of alone, so equal ones have equal digests, and others seldom do.
ghost use Rattle.std.specs.Prelude.{◌≡◌};
ghost use Rattle.dps_bags.specs.Digest.{numbers_digest};

use dps_terms::mixed;

/// A digest with more numbers.
#[tactic(auto, using(crate::proofs::Digesting::digest_next, crate::proofs::Digesting::digest_done))]
pub fn with_numbers(mut digest: u64, numbers: &[usize]) -> u64
    ensures { result ≡ numbers_digest digest numbers.now }
{
    for number in numbers {
        digest = mixed(digest, *number as u64);
    }
    digest
}

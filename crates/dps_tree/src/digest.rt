//! Digests, by which most different outputs and frames are told apart without a walk.
//!
//! A digest follows from what it is of alone, so equal ones have equal digests, and others seldom do.
use dps_terms::mixed;

/// A digest with more numbers.
pub(crate) fn with_numbers(mut digest: u64, numbers: &[usize]) -> u64 {
    for number in numbers {
        digest = mixed(digest, *number as u64);
    }
    digest
}

//! Where a walk over a term stands.
use dps_terms::TermRef;

/// The nodes of the term from this one on were gone through. They are counted from 0, a root before its arguments, and
/// the walk goes from the last node to the first.
#[derive(Clone, Copy)]
pub(crate) struct Place<'a> {
    pub(crate) term: TermRef<'a>,
    pub(crate) left: usize,
}

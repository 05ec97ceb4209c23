//! Digests, by which most different terms and processes are told apart without a walk.
//!
//! A digest follows from what it is of alone, so equal ones have equal digests, and others seldom do.
ghost use Rattle.std.specs.Prelude.{◌≡◌};
ghost use Rattle.dps_semantics.specs.Digest.{with_term, terms_digest, process_digest};

use dps_process::{Process, ProcessView};
use dps_terms::{Term, mixed};

/// A digest with one more term.
fn with_term(digest: u64, term: &Term) -> u64
    ensures { result ≡ with_term digest term.now }
{
    mixed(digest, term.whole().digest())
}

/// The digest of the terms in turn.
#[tactic(auto, using(crate::proofs::Digesting::terms_next, crate::proofs::Digesting::terms_done))]
pub(crate) fn terms_digest(terms: &[Term]) -> u64
    ensures { result ≡ terms_digest 0 terms.now }
{
    let mut digest = 0;
    for index in 0..terms.len() {
        digest = with_term(digest, &terms[index]);
    }
    digest
}

/// A digest with one more process.
pub(crate) fn with_process(digest: u64, process: &Process) -> u64
    ensures { result ≡ process_digest digest process.now }
{
    match process.view() {
        ProcessView::Nil => mixed(digest, 9),
        ProcessView::Parallel(left, right) => {
            with_process(with_process(mixed(digest, 10), left), right)
        }
        ProcessView::Choice(left, right) => {
            with_process(with_process(mixed(digest, 11), left), right)
        }
        ProcessView::Conditional(left, right, then, other) => {
            let terms = with_term(with_term(mixed(digest, 12), left), right);
            with_process(with_process(terms, then), other)
        }
        ProcessView::Bind(variable, term, then, other) => {
            let head = with_term(mixed(mixed(digest, 13), variable), term);
            with_process(with_process(head, then), other)
        }
        ProcessView::Input(channel, variable, then) => {
            let head = mixed(mixed(mixed(digest, 14), u64::from(channel)), variable);
            with_process(head, then)
        }
        ProcessView::Output(channel, term, then) => {
            let head = with_term(mixed(mixed(digest, 15), u64::from(channel)), term);
            with_process(head, then)
        }
    }
}

// What is kept of the lines of a proof.
use sr_base::{ClauseId, Lit};
use sr_lemma::Lemma;
use sr_wit::Subst;
use std::snapshot::Snapshot;

/// What a line did. Its lemma is seen by contracts alone.
#[derive(Drop)]
pub(crate) enum Event {
    Joined(Snapshot<Lemma>),
    Removed(ClauseId),
    Passed,
}

/// What is kept of a lemma beside its clause: the first literal, and the witness that is written.
#[derive(Drop)]
pub(crate) struct Told {
    pub(crate) pivot: Lit,
    pub(crate) witness: Option<Subst>,
}

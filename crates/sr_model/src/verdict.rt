// The verdict on a proof.
use sr_base::Cause;

/// Where judging stands.
#[derive(Clone, Copy, Debug, PartialEq, Eq)]
pub enum Verdict {
    /// Every item so far is met, and there was no empty clause.
    Going,
    /// Every step up to the first empty clause is met.
    Verified,
    /// The item with this number in front isn't met.
    Rejected { id: u32, cause: Cause },
}

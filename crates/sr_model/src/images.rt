// Images under a substitution.
use sr_base::Lit;

/// What a substitution gives for a literal.
#[derive(Clone, Copy, Debug, PartialEq, Eq)]
pub enum Image {
    /// True.
    Yes,
    /// False.
    No,
    /// A literal.
    To(Lit),
}

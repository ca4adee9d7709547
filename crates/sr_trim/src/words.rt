// What the words of `trim` say.

use sr_base::Form;

/// What the words of `trim` say.
#[derive(Clone, Copy, Debug, PartialEq, Eq)]
pub struct TrimWords<'a> {
    pub formula: &'a str,
    pub proof: &'a str,
    pub proof_form: Form,
    /// Where the trimmed proof goes.
    pub lsr: Option<&'a str>,
    pub lsr_form: Form,
    /// Where the core goes.
    pub core: Option<&'a str>,
    /// Deletions of clauses that have become units are passed over.
    pub keep_units: bool,
    pub stats: bool,
}

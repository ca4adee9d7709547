// What a run counted.

/// What a run counted, for the lines of `--stats`. Each count stays at 2^64 - 1 once it is there.
#[derive(Clone, Copy, Debug, PartialEq, Eq)]
pub struct Counts {
    /// The clauses of the formula.
    pub clauses: u64,
    /// The clauses of the core.
    pub core: u64,
    /// The lemmas that were loaded.
    pub lemmas: u64,
    /// The steps that were met, or are written.
    pub steps: u64,
    /// Their hints in prefixes and groups.
    pub hints: u64,
    /// The deletions that changed nothing.
    pub passed: u64,
}

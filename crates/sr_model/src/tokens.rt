// What the tokens of a file say.

/// What a token says.
#[derive(Clone, Copy, Debug, PartialEq, Eq)]
pub enum Word {
    Number(i64),
    /// The byte that begins a step or a lemma in a binary file.
    Add,
    /// `d`, or the byte that begins a deletion in a binary file.
    Del,
    /// `p`.
    Header,
    /// `cnf`.
    Cnf,
    /// `%`.
    Percent,
    Other,
    /// No token is left.
    End,
}

/// A word with the offset of its first byte, counted from 0; that of the end is the number of bytes.
#[derive(Clone, Copy, Debug, PartialEq, Eq)]
pub struct Token {
    pub place: u64,
    pub word: Word,
}

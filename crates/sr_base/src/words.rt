// Words: numbers of 32 bits that lie in memory as literals do, so that slices of the ones are read as slices of the others.
ghost use Rattle.std.specs.Prelude.{◌≡◌, length, map};
ghost use Rattle.sr_base.specs.Words.{AllLiterals, literal_in, word_of};

use crate::literal::Lit;

/// A number that lies in memory as a literal does. It may be no literal's code.
#[derive(Clone, Copy)]
pub struct Word {
    pub code: u32,
}

/// Words that are codes of literals, read as literals where they lie.
#[inline]
pub fn as_lits(words: &[Word]) -> &[Lit]
    requires { AllLiterals words.now }
    ensures { result.now ≡ map literal_in words.now }
{
    read_as(words, words.len())
}

/// Literals, read as the words of their codes where they lie.
#[inline]
pub fn as_words(lits: &[Lit]) -> &[Word]
    ensures words { result.now ≡ map word_of lits.now }
    ensures all { AllLiterals result.now }
{
    read_codes(lits, lits.len())
}

#[inline]
fn read_as(words: &[Word], count: usize) -> &[Lit]
    requires all { AllLiterals words.now }
    requires len { count ≡ length words.now }
    ensures { result.now ≡ map literal_in words.now }
{
    unsafe { std::slice::from_raw_parts(words.as_ptr() as *const Lit, count) }
}

#[inline]
fn read_codes(lits: &[Lit], count: usize) -> &[Word]
    requires { count ≡ length lits.now }
    ensures { (result.now ≡ map word_of lits.now) × AllLiterals (map word_of lits.now) }
{
    unsafe { std::slice::from_raw_parts(lits.as_ptr() as *const Word, count) }
}

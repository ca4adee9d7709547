// The next token of a file in either form.
ghost use Rattle.std.specs.Prelude.{◌≡◌, ℕ, IfOk};
ghost use Rattle.sr_desk.specs.Next.{Stands, Reads, ForContents};
ghost use Rattle.sr_scan.specs.Left.{is_fault, IsStart, Advances, misplaced};
ghost use Rattle.sr_scan.specs.BinaryLeft.{GivesFront};

use crate::{binary_item, text_item};
use sr_base::{Form, InputError, TextKind};
use sr_desk::{ByteReader, Desk};
use sr_model::{Token, Word};

/// The fault of a token that stands inside an item and isn't what is asked for: `Unended` for the end, and
/// `BadWord` for another.
pub fn misplaced(word: &Word) -> TextKind
    ensures { result ≡ misplaced word.now }
{
    match word {
        Word::End => TextKind::Unended,
        _ => TextKind::BadWord,
    }
}

/// The next token; `at_start` says whether an item begins here, which a binary file doesn't tell.
///
/// # Errors
///
/// As [`text_item`] and [`binary_item`].
#[inline(always)]
pub fn next_token<D: Desk>(
    form: Form,
    at_start: bool,
    reader: &mut ByteReader,
    desk: &mut D,
) -> Result<Token, InputError>
    requires { Stands reader.old (D.outside desk.old) }
    ensures advances { IfOk result (λ t. Advances reader.old reader.new t.word) }
    ensures token { (lists open_lists : ℕ) → IsStart at_start open_lists → ForContents reader.new (D.outside desk.new)
        (λ c. GivesFront form lists open_lists reader.old reader.new c result) }
    ensures reads { Reads reader.old reader.new (D.outside desk.old) (D.outside desk.new) (is_fault result) }
{
    match form {
        Form::Text => text_item(reader, desk),
        Form::Binary => binary_item(reader, desk, at_start),
    }
}

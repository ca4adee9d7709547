// The numbers of a deletion.
ghost use Rattle.std.specs.Prelude.{◌≤◌, IfOk};
ghost use Rattle.sr_desk.specs.Next.{Stands, Reads, ForContents};
ghost use Rattle.sr_scan.specs.Left.{is_fault};
ghost use Rattle.sr_lsr.specs.Reads.{ReadsDrop};
ghost use Rattle.sr_lsr.specs.Frames.{told, IsSmallFrame};
ghost use Rattle.sr_lsr.specs.Written.{IsSmall};

use crate::lists::{ItemFrame, ItemLists};
use crate::sizes::size_within;
use sr_base::{Form, InputError};
use sr_desk::{ByteReader, Desk};
use sr_model::Word;
use sr_scan::{misplaced, next_token};

/// The deletion of the numbers up to `0`, which take the place of those in the lists. The number in front of it is `id`.
pub(crate) fn read_drop<D: Desk>(
    form: Form,
    bound: u32,
    id: u32,
    lists: &mut ItemLists,
    reader: &mut ByteReader,
    desk: &mut D,
) -> Result<ItemFrame, InputError>
    requires stands { Stands reader.old (D.outside desk.old) }
    requires bound { bound ≤ 2147483647 }
    requires id { IsSmall id }
    ensures item { ForContents reader.new (D.outside desk.new)
        (λ c. ReadsDrop form bound id reader.old reader.new c (told lists.new result)) }
    ensures small { IfOk result (λ f. IsSmallFrame f lists.new) }
    ensures reads { Reads reader.old reader.new (D.outside desk.old) (D.outside desk.new) (is_fault result) }
{
    lists.ids.truncate(0);
    'tokens: loop {
        let token = match next_token(form, false, reader, desk) {
            Ok(token) => token,
            Err(error) => return Err(error),
        };
        let Word::Number(x) = token.word else {
            return Err(InputError::Text {
                kind: misplaced(&token.word),
                place: token.place,
            });
        };
        let size = match size_within(x, bound, token.place) {
            Ok(size) => size,
            Err(error) => return Err(error),
        };
        if size == 0 {
            return Ok(ItemFrame::Drop { id });
        }
        if lists.ids.push(size).is_err() {
            return Err(InputError::NoMemory);
        }
    }
}

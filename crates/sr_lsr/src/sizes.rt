// Numbers of clauses.
ghost use Rattle.sr_lsr.specs.Reads.{GivesSize};

use sr_base::{InputError, LimitKind, TextKind};

/// A number that may not be negative, where it is at most the bound.
pub(crate) fn size_within(x: i64, bound: u32, place: u64) -> Result<u32, InputError>
    ensures { GivesSize x bound place result }
{
    if x < 0 {
        return Err(InputError::Text {
            kind: TextKind::BadNumber,
            place,
        });
    }
    let size = x.unsigned_abs();
    if size > u64::from(bound) {
        return Err(InputError::Limit(LimitKind::Ids));
    }
    Ok(size as u32)
}

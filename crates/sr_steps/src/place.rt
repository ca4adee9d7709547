// Where the hints of a group stand among those of all steps. There may be many more groups than steps, so a group takes 12
// bytes: 48 bits for where it starts, 16 for the number of its hints, and 32 for the number of its clause. A number of hints that
// doesn't fit stands before them.
ghost use Rattle.std.specs.Prelude.{◌≡◌, ◌<◌, ◌^◌, length, min, IfOk};
ghost use Rattle.sr_steps.specs.Groups.{start_of, hints_of, group_of, IsWithin, Begins};

use sr_base::{ClauseId, NoMemory};

/// A group starts below this place. So many hints take 2^50 bytes, more than an address space has.
const MOST_PLACES: usize = 281_474_976_710_656;

/// So many hints or more have their number before them.
const MANY: usize = 65_535;

/// The low and the high part of the place where a group starts, the number of its hints, or `MANY`, and the number of its clause.
#[derive(Clone, Copy)]
pub struct GroupPlace {
    low: u32,
    high: u16,
    count: u16,
    pub id: ClauseId,
}

const _: () = prove!(size_of::<GroupPlace>() == 12);

/// Puts the hints of a group after others.
pub fn put_group(
    all: &mut Vec<ClauseId>,
    id: ClauseId,
    hints: &[ClauseId],
) -> Result<GroupPlace, NoMemory>
    requires { length hints.now < 2 ^ 32 }
    ensures before { Begins all.old.items all.new.items }
    ensures within { IfOk result (IsWithin all.new.items) }
    ensures group { IfOk result (λ g. group_of all.new.items g ≡ (id, hints.now)) }
{
    let start = all.len();
    if start >= MOST_PLACES {
        return Err(NoMemory);
    }
    let count = hints.len();
    if count >= MANY && all.push(count as u32).is_err() {
        return Err(NoMemory);
    }
    if all.extend_from_slice(hints).is_err() {
        return Err(NoMemory);
    }
    Ok(place_of(start, count, id))
}

/// The place of a group that starts at a place and has so many hints.
fn place_of(start: usize, count: usize, id: ClauseId) -> GroupPlace
    requires { start < 2 ^ 48 }
    ensures start { start_of result ≡ start }
    ensures count { result.count ≡ min count 65535 }
    ensures id { result.id ≡ id }
{
    GroupPlace {
        low: (start % 4_294_967_296) as u32,
        high: (start / 4_294_967_296) as u16,
        count: count.min(MANY) as u16,
        id,
    }
}

/// The hints of a group.
#[inline]
pub fn hints_at(all: &[ClauseId], group: GroupPlace) -> &[ClauseId]
    requires { IsWithin all.now group }
    ensures { result.now ≡ hints_of all.now group }
{
    let start = group.high as usize * 4_294_967_296 + group.low as usize;
    let count = group.count as usize;
    if count < MANY {
        return &all[start..start + count];
    }
    let first = start + 1;
    let many = all[start] as usize;
    &all[first..first + many]
}

// Compaction in place: the region is walked in order, and each held clause slides down to those before it, with its words,
// so a clause is read before another is written over it.
ghost use Rattle.std.specs.Prelude.{◌≡◌, ◌+◌, ◌-◌, ◌<◌, ◌≤◌, length, vec_len, vec_capacity};
ghost use Rattle.std.specs.List.{copy_within};
ghost use Rattle.sr_arena.specs.Cells.{weights};
ghost use Rattle.sr_arena.specs.Compaction.{IsMoved, moves_of};
ghost use Rattle.sr_arena.specs.Layout.{IsWalk, cells_of};

use sr_base::Word;

/// Slides the held clauses together.
pub fn slide(words: &mut Vec<Word>)
    requires walk { IsWalk 0 words.old.items }
    requires room { length words.old.items < 4294967296 }
    ensures walk { IsWalk 0 words.new.items }
    ensures moved { IsMoved (cells_of words.old.items) (cells_of words.new.items) (moves_of (cells_of words.old.items)) }
    ensures fits { length words.new.items ≤ weights (cells_of words.new.items) }
{
    let mut read = 0;
    let mut place = 0;
    while read < words.len() {
        let size = words[read + 1].code;
        let len = (size / 8) as usize + 2;
        let is_freed = size / 4 % 2 == 1;
        if !is_freed {
            move_down(words, read, len, place);
            place += len;
        }
        read += len;
    }
    words.truncate(place);
}

/// Moves a clause down with its words.
#[inline]
fn move_down(words: &mut Vec<Word>, read: usize, len: usize, place: usize)
    requires within { read + len ≤ length words.old.items }
    requires down { place ≤ read }
    requires room { length words.old.items < 4294967296 }
    ensures { words.new.items ≡ copy_within words.old.items read (read + len) place }
{
    words.copy_within(read..read + len, place);
}

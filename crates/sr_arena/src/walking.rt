// A walk over the region, from clause to clause.
ghost use Rattle.std.specs.Prelude.{◌≡◌, ◌+◌, ◌<◌, ◌≤◌, length, drop};
ghost use Rattle.sr_arena.specs.Cells.{first_held};
ghost use Rattle.sr_arena.specs.Layout.{IsWalk, cells_from};

use sr_base::Word;

/// The place of the first held clause from a place on at which a clause begins; 0 where there is none.
pub fn next_held(words: &[Word], mut read: usize) -> usize
    requires walk { IsWalk 0 (drop read words.now) }
    requires within { read ≤ length words.now }
    requires room { length words.now < 4294967296 }
    ensures value { result ≡ first_held (read + 1) (cells_from 0 (drop read words.now)) }
    ensures fits { result < 4294967296 }
{
    while read < words.len() {
        let size = words[read + 1].code;
        if size / 4 % 2 == 0 {
            return read + 2;
        }
        read += (size / 8) as usize + 2;
    }
    0
}

// The new references that a compaction gives.
ghost use Rattle.std.specs.Prelude.{◌≡◌, ◌<◌, length, IfOk};
ghost use Rattle.sr_arena.specs.Compaction.{moves_of};
ghost use Rattle.sr_arena.specs.Layout.{IsWalk, cells_of};

use crate::moves::Move;
use sr_base::{NoMemory, Word};
use std::alloc::Global;

/// Where each held clause goes: behind those before it.
pub fn moves_of(alloc: Global, words: &[Word]) -> Result<Vec<Move>, NoMemory>
    requires walk { IsWalk 0 words.now }
    requires room { length words.now < 4294967296 }
    ensures { IfOk result (λ moves. moves.items ≡ moves_of (cells_of words.now)) }
{
    let mut moves = Vec::new(alloc);
    let mut read = 0;
    let mut place = 0;
    while read < words.len() {
        let size = words[read + 1].code;
        let len = (size / 8) as usize + 2;
        let is_freed = size / 4 % 2 == 1;
        if !is_freed {
            let from = read as u32 + 2;
            let to = place as u32 + 2;
            if moves.push(Move { from, to }).is_err() {
                return Err(NoMemory);
            }
            place += len;
        }
        read += len;
    }
    Ok(moves)
}

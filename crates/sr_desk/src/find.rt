// Looking a name up.
ghost use Rattle.std.specs.Prelude.{◌≡◌, ◌<◌, IfSome, length};
ghost use Rattle.sr_desk.specs.MemoryParts.{names_of, latest};

use crate::held::Version;

/// The version that was begun last with this name.
pub(crate) fn find(versions: &[Version], name: &[u8]) -> Option<usize>
    ensures latest { result ≡ latest (names_of versions.now) name.now }
    ensures within { IfSome result (λ v. v < length versions.now) }
{
    let mut left = versions.len();
    while left > 0 {
        left -= 1;
        if versions[left].name.as_slice() == name {
            return Some(left);
        }
    }
    None
}

// Single changes of what a desk in memory holds.
ghost use Rattle.std.specs.Prelude.{◌≡◌, ◌++◌, ◌∷◌, [], IsTrue, ◌<◌, ◌≤◌, ◌+◌, length, take, drop, IfOk, OnOk, OnErr, Ok, Err, is_ok, if◌then◌else◌};
ghost use Rattle.sr_desk.specs.MemoryParts.{Raises, names_of, texts_of, text_at, fits, more_texts, more_out};

use crate::held::{Usage, Version};
use crate::{CallError, Slot};
use sr_base::NoMemory;
use std::alloc::Global;

/// Counts a fault of a slot.
pub(crate) fn raise(faults: &mut [u64; 9], slot: Slot) -> CallError
    ensures { Raises slot.number faults.old faults.new }
{
    let n = slot.number as usize;
    faults[n] = faults[n].saturating_add(1);
    CallError
}

/// Adds a version of a file, and says which it is.
pub(crate) fn add(
    alloc: Global,
    versions: &mut Vec<Version>,
    name: &[u8],
    bytes: &[u8],
) -> Result<usize, NoMemory>
    ensures place { IfOk result (λ v. v ≡ length (texts_of versions.old.items)) }
    ensures names { OnOk result (names_of versions.new.items ≡ names_of versions.old.items ++ name.now ∷ []) }
    ensures texts { OnOk result (texts_of versions.new.items ≡ texts_of versions.old.items ++ bytes.now ∷ []) }
    ensures err_names { OnErr result (names_of versions.new.items ≡ names_of versions.old.items) }
    ensures err_texts { OnErr result (texts_of versions.new.items ≡ texts_of versions.old.items) }
{
    let version = versions.as_slice().len();
    let name = match Vec::from_slice(alloc, name) {
        Ok(name) => name,
        Err(_) => return Err(NoMemory),
    };
    let bytes = match Vec::from_slice(alloc, bytes) {
        Ok(bytes) => bytes,
        Err(_) => return Err(NoMemory),
    };
    if versions.push(Version { name, bytes }).is_err() {
        return Err(NoMemory);
    }
    Ok(version)
}

/// The bytes of a version.
pub(crate) fn text(versions: &[Version], version: usize) -> &[u8]
    requires { version < length versions.now }
    ensures { result.now ≡ text_at (texts_of versions.now) version }
{
    let held = &versions[version];
    held.bytes.as_slice()
}

/// How long a text is.
pub(crate) fn text_len(versions: &[Version], version: usize) -> usize
    requires { version < length versions.now }
    ensures { result ≡ length (text_at (texts_of versions.now) version) }
{
    let held = &versions[version];
    held.bytes.as_slice().len()
}

/// Copies a part of a text to the front of a buffer.
pub(crate) fn copy_text(
    versions: &[Version],
    version: usize,
    place: usize,
    count: usize,
    buf: &mut [u8],
)
    requires version { version < length versions.now }
    requires part { place + count ≤ length (text_at (texts_of versions.now) version) }
    requires room { count ≤ length buf.old }
    ensures { buf.new ≡ take count (drop place (text_at (texts_of versions.now) version)) ++ drop count buf.old }
{
    let held = &versions[version];
    let text = held.bytes.as_slice();
    let part = &text[place..place + count];
    buf[..count].copy_from_slice(part);
}

/// Appends a piece to what a slot writes.
pub(crate) fn append(
    versions: &mut Vec<Version>,
    out: &mut Vec<u8>,
    usage: Usage,
    piece: &[u8],
) -> Result<(), NoMemory>
    requires { IsTrue (fits (texts_of versions.old.items) usage) }
    ensures names { names_of versions.new.items ≡ names_of versions.old.items }
    ensures texts { texts_of versions.new.items ≡ (if is_ok result then more_texts (texts_of versions.old.items) usage piece.now
        else texts_of versions.old.items) }
    ensures out { out.new.items ≡ (if is_ok result then more_out out.old.items usage piece.now else out.old.items) }
{
    match usage {
        Usage::Writing { version } => {
            let text = &mut versions[version];
            if text.bytes.extend_from_slice(piece).is_err() {
                return Err(NoMemory);
            }
            Ok(())
        }
        Usage::Output => {
            if out.extend_from_slice(piece).is_err() {
                return Err(NoMemory);
            }
            Ok(())
        }
        _ => Err(NoMemory),
    }
}

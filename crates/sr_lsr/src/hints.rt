// The hints of a step: its prefix, and groups, each of which a negative number begins.
//
// Nearly all of them stand whole in the reader's buffer, so a run of them is read there by one loop; what ends the run is
// read as a token.
ghost use Rattle.std.specs.Prelude.{◌≡◌, ◌≢◌, ◌≤◌, [], unsigned_abs, IfOk, IfSome, OnOk};
ghost use Rattle.sr_base.specs.declared.names.Form.TheVariants.{Text, Binary};
ghost use Rattle.sr_desk.specs.Next.{Stands, Reads, ForContents};
ghost use Rattle.sr_scan.specs.Machine.{Skips};
ghost use Rattle.sr_scan.specs.Left.{is_fault};
ghost use Rattle.sr_lsr.specs.Reads.{ReadsHints};
ghost use Rattle.sr_lsr.specs.Told.{hints_told, hint_number, SpellsMore, KeepsSmall, AreSmall, IsHintOf, LeadsHint, TakesHints, IsFresh};

use sr_base::{Form, IdList, InputError, LimitKind, NoMemory};
use sr_desk::{ByteReader, Desk};
use sr_model::Word;
use sr_scan::{misplaced, next_token, short_value, text_number};
use sr_wit::GroupList;

/// A hint as its number spells it: a negative one begins a group.
#[derive(Clone, Copy)]
struct Hint {
    size: u32,
    begins_group: bool,
}

/// A hint at the front of some bytes, and how many of them spell it.
#[derive(Clone, Copy)]
struct LeadingHint {
    len: usize,
    hint: Hint,
}

/// The hints of a step: its prefix, and groups.
#[derive(Drop)]
pub(crate) struct Hints {
    pub prefix: IdList,
    pub groups: GroupList,
}

impl Hints {
    /// Removes all hints.
    fn clear(&mut self)
        ensures { IsFresh self.new }
    {
        self.prefix.truncate(0);
        self.groups.clear();
    }

    /// Adds a hint: it begins a group, or else goes to the last group or, where there is none, to the prefix.
    #[inline(always)]
    fn add(&mut self, hint: Hint) -> Result<(), NoMemory>
        requires { hint.size ≢ 0 }
        ensures spells { OnOk result (SpellsMore self.old self.new (hint_number hint)) }
        ensures small { OnOk result (KeepsSmall self.old self.new hint.size) }
    {
        if hint.begins_group {
            return self.groups.begin(hint.size);
        }
        if self.groups.len() == 0 {
            return self.prefix.push(hint.size);
        }
        self.groups.add_hint(hint.size)
    }
}

/// The hint of a number, where it isn't 0 and is at most the bound.
#[inline(always)]
fn hint_of(size: u64, negative: bool, bound: u32) -> Option<Hint>
    ensures { IfSome result (IsHintOf size negative bound) }
{
    if size == 0 || size > u64::from(bound) {
        return None;
    }
    Some(Hint {
        size: size as u32,
        begins_group: negative,
    })
}

/// The hint at the front of some bytes, where it is short and at most the bound.
#[inline(always)]
fn hint_front(form: Form, bytes: &[u8], bound: u32) -> Option<LeadingHint>
    ensures { IfSome result (LeadsHint form bytes.now bound) }
{
    match form {
        Form::Text => {
            let front = text_number(bytes)?;
            Some(LeadingHint {
                len: front.len,
                hint: hint_of(front.size, front.negative, bound)?,
            })
        }
        Form::Binary => {
            let front = short_value(bytes)?;
            Some(LeadingHint {
                len: front.len,
                hint: hint_of(front.value / 2, front.value % 2 == 1, bound)?,
            })
        }
    }
}

/// Takes the hints at the front of the bytes at hand.
#[inline(always)]
fn take_hints(
    form: Form,
    bound: u32,
    reader: &mut ByteReader,
    hints: &mut Hints,
) -> Result<(), NoMemory>
    ensures spells { OnOk result (TakesHints form bound reader.old reader.new hints.old hints.new) }
    ensures small { OnOk result (KeepsSmall hints.old hints.new bound) }
    ensures skips { Skips reader.old reader.new }
{
    let bytes = reader.buffered();
    let mut at = 0;
    'hints: while let Some(front) = hint_front(form, &bytes[at..], bound) {
        hints.add(front.hint)?;
        at += front.len;
    }
    reader.skip(at);
    Ok(())
}

/// The loop for text.
#[inline(never)]
fn take_text(bound: u32, reader: &mut ByteReader, hints: &mut Hints) -> Result<(), NoMemory>
    ensures spells { OnOk result (TakesHints Text bound reader.old reader.new hints.old hints.new) }
    ensures small { OnOk result (KeepsSmall hints.old hints.new bound) }
    ensures skips { Skips reader.old reader.new }
{
    take_hints(Form::Text, bound, reader, hints)
}

/// The loop for a binary file.
#[inline(never)]
fn take_binary(bound: u32, reader: &mut ByteReader, hints: &mut Hints) -> Result<(), NoMemory>
    ensures spells { OnOk result (TakesHints Binary bound reader.old reader.new hints.old hints.new) }
    ensures small { OnOk result (KeepsSmall hints.old hints.new bound) }
    ensures skips { Skips reader.old reader.new }
{
    take_hints(Form::Binary, bound, reader, hints)
}

/// Takes the hints at hand.
#[inline(always)]
fn take_ahead(
    form: Form,
    bound: u32,
    reader: &mut ByteReader,
    hints: &mut Hints,
) -> Result<(), NoMemory>
    ensures spells { OnOk result (TakesHints form bound reader.old reader.new hints.old hints.new) }
    ensures small { OnOk result (KeepsSmall hints.old hints.new bound) }
    ensures skips { Skips reader.old reader.new }
{
    match form {
        Form::Text => take_text(bound, reader, hints),
        Form::Binary => take_binary(bound, reader, hints),
    }
}

/// The hints up to `0`, in place of those that are there.
pub(crate) fn read_hints<D: Desk>(
    form: Form,
    bound: u32,
    hints: &mut Hints,
    reader: &mut ByteReader,
    desk: &mut D,
) -> Result<(), InputError>
    requires stands { Stands reader.old (D.outside desk.old) }
    requires bound { bound ≤ 2147483647 }
    ensures hints { ForContents reader.new (D.outside desk.new)
        (λ c. ReadsHints form bound reader.old reader.new c (hints_told hints.new result)) }
    ensures small { IfOk result (λ _. AreSmall hints.new) }
    ensures reads { Reads reader.old reader.new (D.outside desk.old) (D.outside desk.new) (is_fault result) }
{
    hints.clear();
    'tokens: loop {
        if take_ahead(form, bound, reader, hints).is_err() {
            return Err(InputError::NoMemory);
        }
        let token = match next_token(form, false, reader, desk) {
            Ok(token) => token,
            Err(error) => return Err(error),
        };
        let Word::Number(x) = token.word else {
            return Err(InputError::Text {
                kind: misplaced(&token.word),
                place: token.place,
            });
        };
        if x == 0 {
            return Ok(());
        }
        let size = x.unsigned_abs();
        if size > u64::from(bound) {
            return Err(InputError::Limit(LimitKind::Ids));
        }
        let hint = Hint {
            size: size as u32,
            begins_group: x < 0,
        };
        if hints.add(hint).is_err() {
            return Err(InputError::NoMemory);
        }
    }
}

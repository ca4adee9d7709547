// Lines that say why a run isn't verified.
ghost use Rattle.std.specs.Prelude.{◌≡◌, IfOk, OnOk, ◌++◌, option_map, string_bytes};
ghost use Rattle.sr_emit.specs.FileNames.{names_of};
ghost use Rattle.sr_emit.specs.Reasons.{reason_of, usage_reason, words_reason, file_reason, placed_sentence, quoted, shown, shown_byte};

use crate::files::FileNames;
use crate::help::synopsis_of;
use crate::names::name_of_which;
use crate::outcome::Outcome;
use crate::report::{Command, digits};
use crate::sentences::{
    about_cause, about_end, about_flaw, about_lemma, about_limit, about_source, about_text,
};
use crate::topic::{Flaw, Topic};
use sr_base::{ByteList, NoMemory, TextKind, Which};
use std::alloc::{AllocError, Global};

pub(crate) fn bytes_of(alloc: Global, text: &str) -> Result<ByteList, NoMemory>
    ensures { IfOk result (λ b. b ≡ text.now) }
{
    let mut bytes = ByteList::new(alloc);
    bytes.extend(text.as_bytes())?;
    Ok(bytes)
}

/// A control byte and a double quote are shown as `?`, so that a name neither ends its line nor its quotes.
fn shown_byte(byte: u8) -> u8
    ensures { result ≡ shown_byte byte }
{
    if byte < 32 || byte == 127 || byte == b'"' {
        b'?'
    } else {
        byte
    }
}

fn shown(alloc: Global, name: &str) -> Result<ByteList, NoMemory>
    ensures { IfOk result (λ b. b ≡ shown name.now) }
{
    let mut bytes = ByteList::new(alloc);
    for byte in name.as_bytes() {
        bytes.push(shown_byte(*byte))?;
    }
    Ok(bytes)
}

/// The name of a file in quotes, where it is known.
fn quoted(alloc: Global, name: Option<&str>) -> Result<ByteList, NoMemory>
    ensures { IfOk result (λ b. b ≡ quoted (option_map (λ s. s.now) name.entry)) }
{
    let Some(name) = name else {
        return Ok(ByteList::new(alloc));
    };
    let name = shown(alloc, name)?;
    let mut bytes = bytes_of(alloc, " \"")?;
    bytes.extend(name.as_slice())?;
    bytes.push(b'"')?;
    Ok(bytes)
}

/// A line about a file.
fn file_reason(
    alloc: Global,
    which: Which,
    name: Option<&str>,
    sentence: &str,
) -> Result<ByteList, NoMemory>
    ensures { IfOk result (λ b. b ≡ file_reason which (option_map (λ s. s.now) name.entry) sentence.now) }
{
    let name = quoted(alloc, name)?;
    let mut bytes = bytes_of(alloc, "c ")?;
    bytes.extend(name_of_which(which).as_bytes())?;
    bytes.extend(name.as_slice())?;
    bytes.extend(": ".as_bytes())?;
    bytes.extend(sentence.as_bytes())?;
    bytes.extend(".\n".as_bytes())?;
    Ok(bytes)
}

/// What a text has at a place.
fn placed_sentence(alloc: Global, kind: TextKind, place: u64) -> Result<String, AllocError>
    ensures { IfOk result (λ s. string_bytes s ≡ placed_sentence kind place) }
{
    let place = digits(alloc, place)?;
    let mut text = String::from_str(alloc, about_text(kind))?;
    text.push_str(", at the byte ")?;
    text.push_str(place.as_str())?;
    text.push_str(", counted from 0")?;
    Ok(text)
}

fn text_reason(
    alloc: Global,
    which: Which,
    name: Option<&str>,
    kind: TextKind,
    place: u64,
) -> Result<ByteList, NoMemory>
    ensures { IfOk result (λ b. b ≡ file_reason which (option_map (λ s. s.now) name.entry) (placed_sentence kind place)) }
{
    match placed_sentence(alloc, kind, place) {
        Ok(sentence) => file_reason(alloc, which, name, sentence.as_str()),
        Err(_) => Err(NoMemory),
    }
}

/// What is wrong with the words, and which words the command takes.
fn words_reason(alloc: Global, topic: Topic, flaw: Flaw) -> Result<ByteList, NoMemory>
    ensures { IfOk result (λ b. b ≡ words_reason topic flaw) }
{
    let mut bytes = bytes_of(alloc, "c ")?;
    bytes.extend(about_flaw(flaw).as_bytes())?;
    bytes.extend(".\nc usage: ".as_bytes())?;
    bytes.extend(synopsis_of(topic).as_bytes())?;
    bytes.extend("\n".as_bytes())?;
    Ok(bytes)
}

fn usage_reason(alloc: Global, command: Command) -> Result<ByteList, NoMemory>
    ensures { IfOk result (λ b. b ≡ usage_reason command) }
{
    match command {
        Command::Refused { topic, flaw } => words_reason(alloc, topic, flaw),
        _ => Ok(ByteList::new(alloc)),
    }
}

/// The lines that say why a run isn't verified.
pub(crate) fn reason(
    alloc: Global,
    command: Command,
    names: &FileNames<'_>,
    outcome: &Outcome,
) -> Result<ByteList, NoMemory>
    ensures { IfOk result (λ b. b ≡ reason_of command (names_of names.now) outcome.now) }
{
    match outcome {
        Outcome::Verified => Ok(ByteList::new(alloc)),
        Outcome::RejectedStep { cause, .. } => {
            file_reason(alloc, Which::Proof, names.proof, about_cause(*cause))
        }
        Outcome::RejectedLemma { against, .. } => {
            file_reason(alloc, Which::Proof, names.proof, about_lemma(*against))
        }
        Outcome::NoEmptyClause => {
            file_reason(alloc, Which::Proof, names.proof, about_end(command))
        }
        Outcome::Usage(_) => usage_reason(alloc, command),
        Outcome::Text { which, kind, place } => {
            text_reason(alloc, *which, names.of(*which), *kind, *place)
        }
        Outcome::Limit { which, kind } => {
            file_reason(alloc, *which, names.of(*which), about_limit(*kind))
        }
        Outcome::SourceFault { which } => {
            file_reason(alloc, *which, names.of(*which), about_source())
        }
        Outcome::SinkFault { .. } => Ok(ByteList::new(alloc)),
        Outcome::NoMemory => Ok(ByteList::new(alloc)),
        Outcome::Helped(_) => Ok(ByteList::new(alloc)),
    }
}

// The names that the report gives to files, faults and causes.
ghost use Rattle.std.specs.Prelude.{◌≡◌, IfOk, string_bytes};
ghost use Rattle.sr_emit.specs.Names.{which_name, text_name, limit_name, usage_name, cause_text};

use crate::outcome::UsageKind;
use sr_base::{Cause, LimitKind, TextKind, Which};
use std::alloc::{AllocError, Global};

pub(crate) fn name_of_which(which: Which) -> &'static str
    ensures { result.now ≡ which_name which }
{
    match which {
        Which::Formula => "formula",
        Which::Proof => "proof",
        Which::Lsr => "lsr",
        Which::Core => "core",
        Which::Report => "report",
    }
}

pub(crate) fn name_of_text(kind: TextKind) -> &'static str
    ensures { result.now ≡ text_name kind }
{
    match kind {
        TextKind::BadNumber => "bad-number",
        TextKind::BadWord => "bad-word",
        TextKind::Unended => "unended",
        TextKind::TooWide => "too-wide",
        TextKind::NoHeader => "no-header",
        TextKind::AboveHeader => "above-header",
        TextKind::WrongCount => "wrong-count",
        TextKind::OddMap => "odd-map",
        TextKind::Twice => "twice",
    }
}

pub(crate) fn name_of_limit(kind: LimitKind) -> &'static str
    ensures { result.now ≡ limit_name kind }
{
    match kind {
        LimitKind::Vars => "vars",
        LimitKind::Ids => "ids",
        LimitKind::Cells => "cells",
        LimitKind::Bytes => "bytes",
    }
}

pub(crate) fn name_of_usage(kind: UsageKind) -> &'static str
    ensures { result.now ≡ usage_name kind }
{
    match kind {
        UsageKind::NoCommand => "no-command",
        UsageKind::UnknownCommand => "unknown-command",
        UsageKind::Words => "words",
        UsageKind::SameName => "same-name",
    }
}

/// The cause of a rejection, with the number that it names.
pub(crate) fn text_of_cause(alloc: Global, cause: Cause) -> Result<String, AllocError>
    ensures { IfOk result (λ s. string_bytes s ≡ cause_text cause) }
{
    match cause {
        Cause::NotNew => String::from_str(alloc, "not-new"),
        Cause::DeadHint(h) => format!(in alloc; "dead-hint {h}"),
        Cause::NotUnit(h) => format!(in alloc; "not-unit {h}"),
        Cause::Unclosed => String::from_str(alloc, "unclosed"),
        Cause::GroupUnclosed(d) => format!(in alloc; "group-unclosed {d}"),
        Cause::HintAfter(h) => format!(in alloc; "hint-after {h}"),
        Cause::GroupSpare(d) => format!(in alloc; "group-spare {d}"),
        Cause::GroupTwice(d) => format!(in alloc; "group-twice {d}"),
        Cause::DeadDrop(d) => format!(in alloc; "dead-drop {d}"),
    }
}

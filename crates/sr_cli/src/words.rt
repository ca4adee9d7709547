// The words of the command line: the command by hand, and the rest as one simple command for `clap`.
ghost use Rattle.std.specs.Prelude.{◌≡◌, IfOk, IfSome, true, false, map, string_bytes, option_map};
ghost use Rattle.clap.specs.Words.{app_of, rule_of, with_rule, found_of, rows_of, first_of, matches_of, fault_of, is_simple_and_free};
ghost use Rattle.sr_trim.specs.Said.{trim_said};
ghost use Rattle.sr_cli.specs.Commands.{check_app, trim_files_app, trim_app, demo_files_app, demo_app, bare_app, positional_rule, option_rule, flag_rule};
ghost use Rattle.sr_cli.specs.Words.{only_reads, form_of, is_on, said_in, said_by, said, check_said, asked, trim_in, trim_by, trim_words, trim_asked, is_named, core_is_named, has_same_names, flaw_of, check_flaws, check_asked, trim_flaws, demo_flaws, is_help, asks_help, is_version, topic_of, help_on, help_asked, first_asked, holes_of, holes_in, demo_in, demo_by, demo_words, share_name, demo_shares, demo_asked, demo_said, AreHoles, Matches, Says, SaysTrim, SaysDemo, SaysTask};

use clap::error::ErrorKind;
use clap::{Arg, ArgAction, ArgMatches, Command};
use sr_base::Form;
use sr_emit::{Flaw, Topic};
use sr_holes::MOST_HOLES;
use sr_trim::TrimWords;
use std::alloc::{AllocError, Global};

/// What the words of `check` say.
#[derive(Clone, Copy, Debug, PartialEq, Eq)]
pub struct CheckWords<'a> {
    pub formula: &'a str,
    pub proof: &'a str,
    pub proof_form: Form,
    pub strict: bool,
    pub stats: bool,
}

/// What the words of `demo` say: the number of holes, and where the files go that are asked for.
#[derive(Clone, Copy, Debug, PartialEq, Eq)]
pub struct DemoWords<'a> {
    pub holes: u32,
    pub formula: Option<&'a str>,
    pub proof: Option<&'a str>,
    pub lsr: Option<&'a str>,
    pub core: Option<&'a str>,
    pub stats: bool,
}

/// What a run is asked for.
#[derive(Clone, Copy, Debug, PartialEq, Eq)]
pub enum Task<'a> {
    Check(CheckWords<'a>),
    Trim(TrimWords<'a>),
    Demo(DemoWords<'a>),
    Help(Topic),
}

/// Why the words say nothing.
#[derive(Clone, Copy, Debug, PartialEq, Eq)]
pub enum WordsError {
    /// They are refused: whose usage is shown, and what is wrong.
    Refused { topic: Topic, flaw: Flaw },
    NoMemory,
}

/// What the words ask for.
pub fn read_words<'a>(alloc: Global, words: &'a [String]) -> Result<Task<'a>, WordsError>
    ensures { SaysTask (asked (map string_bytes words.entry.now)) result }
{
    let Some((command, rest)) = words.split_first() else {
        return Err(WordsError::Refused {
            topic: Topic::General,
            flaw: Flaw::NoCommand,
        });
    };
    if command.as_str() == "check" {
        return check_task(alloc, rest);
    }
    if command.as_str() == "trim" {
        return trim_task(alloc, rest);
    }
    if command.as_str() == "demo" {
        return demo_task(alloc, rest);
    }
    first_task(command.as_str(), rest)
}

/// What a first word asks for that is no command with files.
fn first_task<'a>(command: &str, rest: &'a [String]) -> Result<Task<'a>, WordsError>
    ensures { SaysTask (only_reads (first_asked command.now (map string_bytes rest.entry.now))) result }
{
    if command == "help" {
        return help_task(rest);
    }
    if is_help(command) {
        return Ok(Task::Help(Topic::General));
    }
    if is_version(command) {
        return Ok(Task::Help(Topic::Version));
    }
    Err(WordsError::Refused {
        topic: Topic::General,
        flaw: Flaw::UnknownCommand,
    })
}

/// What the words after `help` ask for.
fn help_task<'a>(rest: &'a [String]) -> Result<Task<'a>, WordsError>
    ensures { SaysTask (only_reads (help_asked (map string_bytes rest.entry.now))) result }
{
    match rest {
        [] => Ok(Task::Help(Topic::General)),
        [name] => help_on(topic_of(name.as_str())),
        _ => Err(WordsError::Refused {
            topic: Topic::General,
            flaw: Flaw::UnknownWord,
        }),
    }
}

fn help_on<'a>(topic: Option<Topic>) -> Result<Task<'a>, WordsError>
    ensures { SaysTask (only_reads (help_on topic)) result }
{
    match topic {
        Some(topic) => Ok(Task::Help(topic)),
        None => Err(WordsError::Refused {
            topic: Topic::General,
            flaw: Flaw::UnknownCommand,
        }),
    }
}

/// What the name of a command stands for as a topic of `help`.
fn topic_of(name: &str) -> Option<Topic>
    ensures { result ≡ topic_of name.now }
{
    match name {
        "check" => Some(Topic::Check),
        "trim" => Some(Topic::Trim),
        "demo" => Some(Topic::Demo),
        "help" => Some(Topic::General),
        _ => None,
    }
}

fn is_help(word: &str) -> bool
    ensures { result ≡ is_help word.now }
{
    word == "--help" || word == "-h"
}

fn is_version(word: &str) -> bool
    ensures { result ≡ is_version word.now }
{
    word == "--version" || word == "-V"
}

/// Whether help is asked for somewhere among the words of a command.
fn asks_help(words: &[String]) -> bool
    ensures { result ≡ asks_help (map string_bytes words.now) }
{
    for word in words {
        if is_help(word.as_str()) {
            return true;
        }
    }
    false
}

/// What the words of `check` ask for.
fn check_task<'a>(alloc: Global, rest: &'a [String]) -> Result<Task<'a>, WordsError>
    ensures { SaysTask (check_asked (map string_bytes rest.entry.now)) result }
{
    if asks_help(rest) {
        return Ok(Task::Help(Topic::Check));
    }
    match check_words(alloc, rest) {
        Err(stop) => Err(stop),
        Ok(said) => {
            if said.formula == said.proof {
                Err(WordsError::Refused {
                    topic: Topic::Check,
                    flaw: Flaw::SameName,
                })
            } else {
                Ok(Task::Check(said))
            }
        }
    }
}

/// What the words of `trim` ask for.
fn trim_task<'a>(alloc: Global, rest: &'a [String]) -> Result<Task<'a>, WordsError>
    ensures { SaysTask (trim_asked (map string_bytes rest.entry.now)) result }
{
    if asks_help(rest) {
        return Ok(Task::Help(Topic::Trim));
    }
    match words_of_trim(alloc, rest) {
        Err(stop) => Err(stop),
        Ok(said) => {
            if has_same_names(&said) {
                Err(WordsError::Refused {
                    topic: Topic::Trim,
                    flaw: Flaw::SameName,
                })
            } else {
                Ok(Task::Trim(said))
            }
        }
    }
}

/// What the words of `demo` ask for.
fn demo_task<'a>(alloc: Global, rest: &'a [String]) -> Result<Task<'a>, WordsError>
    ensures { SaysTask (demo_asked (map string_bytes rest.entry.now)) result }
{
    if asks_help(rest) {
        return Ok(Task::Help(Topic::Demo));
    }
    match words_of_demo(alloc, rest) {
        Err(stop) => Err(stop),
        Ok(said) => {
            if demo_shares(&said) {
                Err(WordsError::Refused {
                    topic: Topic::Demo,
                    flaw: Flaw::SameName,
                })
            } else {
                Ok(Task::Demo(said))
            }
        }
    }
}

/// Whether a file is named, and so.
fn is_named(name: Option<&str>, other: &str) -> bool
    ensures { result ≡ is_named (option_map (λ s. s.now) name.entry) other.now }
{
    match name {
        None => false,
        Some(name) => name == other,
    }
}

/// Whether two of the files have one name.
fn has_same_names(words: &TrimWords<'_>) -> bool
    ensures { result ≡ has_same_names (trim_said words.now) }
{
    words.formula == words.proof
        || is_named(words.lsr, words.formula)
        || is_named(words.lsr, words.proof)
        || is_named(words.core, words.formula)
        || is_named(words.core, words.proof)
        || is_core_named(words)
}

/// Whether the core has the name of the proof that is written.
fn is_core_named(words: &TrimWords<'_>) -> bool
    ensures { result ≡ core_is_named (trim_said words.now) }
{
    match words.lsr {
        None => false,
        Some(lsr) => is_named(words.core, lsr),
    }
}

/// Whether both files are named, and alike.
fn share_name(name: Option<&str>, other: Option<&str>) -> bool
    ensures { result ≡ share_name (option_map (λ s. s.now) name.entry) (option_map (λ s. s.now) other.entry) }
{
    match (name, other) {
        (Some(name), Some(other)) => name == other,
        _ => false,
    }
}

/// Whether two of the files that are asked for have one name.
fn demo_shares(words: &DemoWords<'_>) -> bool
    ensures { result ≡ demo_shares (demo_said words.now) }
{
    share_name(words.formula, words.proof)
        || share_name(words.formula, words.lsr)
        || share_name(words.formula, words.core)
        || share_name(words.proof, words.lsr)
        || share_name(words.proof, words.core)
        || share_name(words.lsr, words.core)
}

fn positional<'a>(alloc: Global, id: &'a str) -> Arg<'a>
    ensures rule { rule_of result ≡ positional_rule id.entry.now }
    ensures local { result.global ≡ false }
{
    Arg::new(alloc, id).required(true).action(ArgAction::Set)
}

fn option<'a>(alloc: Global, id: &'a str) -> Arg<'a>
    ensures rule { rule_of result ≡ option_rule id.entry.now }
    ensures local { result.global ≡ false }
{
    Arg::new(alloc, id).long(id).action(ArgAction::Set)
}

fn flag<'a>(alloc: Global, id: &'a str) -> Arg<'a>
    ensures rule { rule_of result ≡ flag_rule id.entry.now }
    ensures local { result.global ≡ false }
{
    Arg::new(alloc, id).long(id).action(ArgAction::SetTrue)
}

fn bare<'a>(alloc: Global, name: &'a str) -> Command<'a>
    ensures { app_of result ≡ bare_app name.entry.now }
{
    Command::new(alloc, name).no_binary_name(true)
}

fn with_positional<'a>(
    command: Command<'a>,
    alloc: Global,
    id: &'a str,
) -> Result<Command<'a>, AllocError>
    ensures { IfOk result (λ c. app_of c ≡ with_rule (app_of command.entry) (positional_rule id.entry.now)) }
{
    command.arg(positional(alloc, id))
}

fn with_option<'a>(
    command: Command<'a>,
    alloc: Global,
    id: &'a str,
) -> Result<Command<'a>, AllocError>
    ensures { IfOk result (λ c. app_of c ≡ with_rule (app_of command.entry) (option_rule id.entry.now)) }
{
    command.arg(option(alloc, id))
}

fn with_flag<'a>(
    command: Command<'a>,
    alloc: Global,
    id: &'a str,
) -> Result<Command<'a>, AllocError>
    ensures { IfOk result (λ c. app_of c ≡ with_rule (app_of command.entry) (flag_rule id.entry.now)) }
{
    command.arg(flag(alloc, id))
}

fn check_command<'a>(alloc: Global) -> Result<Command<'a>, AllocError>
    ensures { IfOk result (λ c. app_of c ≡ check_app) }
{
    let command = bare(alloc, "check");
    let command = with_positional(command, alloc, "FORMULA")?;
    let command = with_positional(command, alloc, "PROOF")?;
    let command = with_option(command, alloc, "proof-form")?;
    let command = with_flag(command, alloc, "strict")?;
    with_flag(command, alloc, "stats")
}

fn trim_files_command<'a>(alloc: Global) -> Result<Command<'a>, AllocError>
    ensures { IfOk result (λ c. app_of c ≡ trim_files_app) }
{
    let command = bare(alloc, "trim");
    let command = with_positional(command, alloc, "FORMULA")?;
    let command = with_positional(command, alloc, "PROOF")?;
    let command = with_option(command, alloc, "proof-form")?;
    with_option(command, alloc, "lsr")
}

fn trim_command<'a>(alloc: Global) -> Result<Command<'a>, AllocError>
    ensures { IfOk result (λ c. app_of c ≡ trim_app) }
{
    let command = trim_files_command(alloc)?;
    let command = with_option(command, alloc, "lsr-form")?;
    let command = with_option(command, alloc, "core")?;
    let command = with_flag(command, alloc, "keep-units")?;
    with_flag(command, alloc, "stats")
}

fn demo_files_command<'a>(alloc: Global) -> Result<Command<'a>, AllocError>
    ensures { IfOk result (λ c. app_of c ≡ demo_files_app) }
{
    let command = bare(alloc, "demo");
    let command = with_positional(command, alloc, "N")?;
    let command = with_option(command, alloc, "formula")?;
    let command = with_option(command, alloc, "proof")?;
    with_option(command, alloc, "lsr")
}

fn demo_command<'a>(alloc: Global) -> Result<Command<'a>, AllocError>
    ensures { IfOk result (λ c. app_of c ≡ demo_app) }
{
    let command = demo_files_command(alloc)?;
    let command = with_option(command, alloc, "core")?;
    with_flag(command, alloc, "stats")
}

/// The form of this name, and text where none is named.
fn form_named(name: Option<&str>) -> Option<Form>
    ensures { result ≡ form_of (option_map (λ s. s.now) name.entry) }
{
    match name {
        None => Some(Form::Text),
        Some("text") => Some(Form::Text),
        Some("binary") => Some(Form::Binary),
        Some(_) => None,
    }
}

fn is_on(text: Option<&str>) -> bool
    ensures { result ≡ is_on (option_map (λ s. s.now) text.entry) }
{
    match text {
        None => false,
        Some(text) => text == "true",
    }
}

fn words_of<'a>(
    formula: Option<&'a str>,
    proof: Option<&'a str>,
    proof_form: Option<Form>,
    strict: bool,
    stats: bool,
) -> Option<CheckWords<'a>>
    ensures { option_map said result ≡ said_in (option_map (λ s. s.now) formula.entry) (option_map (λ s. s.now) proof.entry)
        proof_form strict stats }
{
    let Some(formula) = formula else { return None };
    let Some(proof) = proof else { return None };
    let Some(proof_form) = proof_form else {
        return None
    };
    Some(CheckWords {
        formula,
        proof,
        proof_form,
        strict,
        stats,
    })
}

/// The value of an argument.
fn value<'a>(matches: &ArgMatches<'a>, id: &str) -> Option<&'a str>
    ensures { option_map (λ s. s.now) result ≡ first_of id.now (rows_of (found_of matches.now)) }
{
    matches.get_str(id)
}

fn read<'a>(matches: &ArgMatches<'a>) -> Option<CheckWords<'a>>
    ensures { option_map said result ≡ said_by (rows_of (found_of matches.now)) }
{
    words_of(
        value(matches, "FORMULA"),
        value(matches, "PROOF"),
        form_named(value(matches, "proof-form")),
        is_on(value(matches, "strict")),
        is_on(value(matches, "stats")),
    )
}

/// What is wrong, by the kind of error that the parser gives.
fn flaw_of(kind: ErrorKind) -> Flaw
    ensures { result ≡ flaw_of kind }
{
    match kind {
        ErrorKind::MissingRequiredArgument => Flaw::MissingWord,
        ErrorKind::ArgumentConflict => Flaw::Repeated,
        ErrorKind::InvalidValue => Flaw::MissingValue,
        ErrorKind::TooFewValues => Flaw::MissingValue,
        ErrorKind::WrongNumberOfValues => Flaw::MissingValue,
        ErrorKind::NoEquals => Flaw::MissingValue,
        ErrorKind::TooManyValues => Flaw::SpareValue,
        _ => Flaw::UnknownWord,
    }
}

/// The matches, or what is wrong, or whether memory ran out.
fn matches_for<'a>(
    topic: Topic,
    command: Command<'a>,
    words: &'a [String],
) -> Result<ArgMatches<'a>, WordsError>
    requires { is_simple_and_free (app_of command) ≡ true }
    ensures { Matches topic (fault_of (app_of command.entry) (map string_bytes words.entry.now))
        (matches_of (app_of command.entry) (map string_bytes words.entry.now)) result }
{
    match command.try_get_matches_from(words) {
        Ok(matches) => Ok(matches),
        Err(error) => match error.kind() {
            ErrorKind::OutOfMemory => Err(WordsError::NoMemory),
            kind => Err(WordsError::Refused {
                topic,
                flaw: flaw_of(kind),
            }),
        },
    }
}

/// What the words of `check` say, or a refusal exactly where the command doesn't take them.
fn check_words<'a>(alloc: Global, words: &'a [String]) -> Result<CheckWords<'a>, WordsError>
    ensures { Says (check_flaws (map string_bytes words.entry.now)) (check_said (map string_bytes words.entry.now)) result }
{
    let Ok(command) = check_command(alloc) else {
        return Err(WordsError::NoMemory);
    };
    let matches = match matches_for(Topic::Check, command, words) {
        Ok(matches) => matches,
        Err(stop) => return Err(stop),
    };
    match read(&matches) {
        Some(said) => Ok(said),
        None => Err(WordsError::Refused {
            topic: Topic::Check,
            flaw: Flaw::BadForm,
        }),
    }
}

/// The words of `trim`, where each that it needs is there.
fn trim_of<'a>(
    files: (Option<&'a str>, Option<&'a str>),
    proof_form: Option<Form>,
    outputs: (Option<&'a str>, Option<&'a str>),
    lsr_form: Option<Form>,
    keep_units: bool,
    stats: bool,
) -> Option<TrimWords<'a>>
    ensures { option_map trim_said result ≡ trim_in (option_map (λ s. s.now) files.entry.0) (option_map (λ s. s.now) files.entry.1)
        proof_form (option_map (λ s. s.now) outputs.entry.0) lsr_form (option_map (λ s. s.now) outputs.entry.1) keep_units stats }
{
    let Some(formula) = files.0 else { return None };
    let Some(proof) = files.1 else { return None };
    let Some(proof_form) = proof_form else {
        return None
    };
    let Some(lsr_form) = lsr_form else {
        return None
    };
    Some(TrimWords {
        formula,
        proof,
        proof_form,
        lsr: outputs.0,
        lsr_form,
        core: outputs.1,
        keep_units,
        stats,
    })
}

fn read_trim<'a>(matches: &ArgMatches<'a>) -> Option<TrimWords<'a>>
    ensures { option_map trim_said result ≡ trim_by (rows_of (found_of matches.now)) }
{
    trim_of(
        (value(matches, "FORMULA"), value(matches, "PROOF")),
        form_named(value(matches, "proof-form")),
        (value(matches, "lsr"), value(matches, "core")),
        form_named(value(matches, "lsr-form")),
        is_on(value(matches, "keep-units")),
        is_on(value(matches, "stats")),
    )
}

/// What the words of `trim` say, or a refusal exactly where the command doesn't take them.
fn words_of_trim<'a>(alloc: Global, words: &'a [String]) -> Result<TrimWords<'a>, WordsError>
    ensures { SaysTrim (trim_flaws (map string_bytes words.entry.now)) (trim_words (map string_bytes words.entry.now)) result }
{
    let Ok(command) = trim_command(alloc) else {
        return Err(WordsError::NoMemory);
    };
    let matches = match matches_for(Topic::Trim, command, words) {
        Ok(matches) => matches,
        Err(stop) => return Err(stop),
    };
    match read_trim(&matches) {
        Some(said) => Ok(said),
        None => Err(WordsError::Refused {
            topic: Topic::Trim,
            flaw: Flaw::BadForm,
        }),
    }
}

/// The number of holes of some digits; none where it is no number, or the formula isn't made for so many.
fn holes_of(digits: &str) -> Option<u32>
    ensures value { result ≡ holes_of digits.now }
    ensures are { IfSome result AreHoles }
{
    let mut holes: u32 = 0;
    for digit in digits.as_bytes() {
        if !digit.is_ascii_digit() {
            return None;
        }
        holes = 10 * holes + u32::from(*digit - b'0');
        if holes > MOST_HOLES {
            return None;
        }
    }
    if holes < 2 {
        return None;
    }
    Some(holes)
}

fn holes_in(digits: Option<&str>) -> Option<u32>
    ensures value { result ≡ holes_in (option_map (λ s. s.now) digits.entry) }
    ensures are { IfSome result AreHoles }
{
    match digits {
        None => None,
        Some(digits) => holes_of(digits),
    }
}

/// The words of `demo`, where there is a number of holes.
fn demo_of<'a>(
    holes: Option<u32>,
    inputs: (Option<&'a str>, Option<&'a str>),
    outputs: (Option<&'a str>, Option<&'a str>),
    stats: bool,
) -> Option<DemoWords<'a>>
    requires { IfSome holes AreHoles }
    ensures said { option_map demo_said result ≡ demo_in holes (option_map (λ s. s.now) inputs.entry.0) (option_map (λ s. s.now) inputs.entry.1)
        (option_map (λ s. s.now) outputs.entry.0) (option_map (λ s. s.now) outputs.entry.1) stats }
    ensures are { IfSome result (λ w. AreHoles w.holes) }
{
    let Some(holes) = holes else { return None };
    Some(DemoWords {
        holes,
        formula: inputs.0,
        proof: inputs.1,
        lsr: outputs.0,
        core: outputs.1,
        stats,
    })
}

fn read_demo<'a>(matches: &ArgMatches<'a>) -> Option<DemoWords<'a>>
    ensures said { option_map demo_said result ≡ demo_by (rows_of (found_of matches.now)) }
    ensures are { IfSome result (λ w. AreHoles w.holes) }
{
    demo_of(
        holes_in(value(matches, "N")),
        (value(matches, "formula"), value(matches, "proof")),
        (value(matches, "lsr"), value(matches, "core")),
        is_on(value(matches, "stats")),
    )
}

/// What the words of `demo` say, or a refusal exactly where the command doesn't take them.
fn words_of_demo<'a>(alloc: Global, words: &'a [String]) -> Result<DemoWords<'a>, WordsError>
    ensures { SaysDemo (demo_flaws (map string_bytes words.entry.now)) (demo_words (map string_bytes words.entry.now)) result }
{
    let Ok(command) = demo_command(alloc) else {
        return Err(WordsError::NoMemory);
    };
    let matches = match matches_for(Topic::Demo, command, words) {
        Ok(matches) => matches,
        Err(stop) => return Err(stop),
    };
    match read_demo(&matches) {
        Some(said) => Ok(said),
        None => Err(WordsError::Refused {
            topic: Topic::Demo,
            flaw: Flaw::BadHoles,
        }),
    }
}

// A formula while it is read, token by token.
ghost use Rattle.std.specs.Prelude.{◌≡◌, length, OnOk};
ghost use Rattle.sr_model.specs.Tokens.{Tokens, finished};
ghost use Rattle.sr_model.specs.Dimacs.{by_number, by_end, at_end};
ghost use Rattle.sr_scan.specs.Left.{RefusesToken, Refuses, is_source};
ghost use Rattle.sr_cnf.specs.Reading.{IsReading, MayBegin, Takes, Counts, Decides, kind_at, is_open, left_of, TakesWord, EndsClause, TakesLiteral, by_word, open_of};

use crate::clause::push_clause;
use sr_base::{InputError, LimitKind, Limits, Lit, LitList, TextKind};
use sr_model::{Token, Word};
use sr_wit::Formula;
use std::alloc::Global;

/// What the next token has to be.
#[derive(Clone, Copy, Debug, PartialEq, Eq)]
pub(crate) enum Stage {
    /// `p`.
    Header,
    /// `cnf`.
    Format,
    /// The number of variables.
    Vars,
    /// The number of clauses.
    Count,
    /// A number of one of so many clauses, or what ends the formula.
    Clauses(u32),
}

/// A formula while it is read.
#[derive(Drop)]
pub(crate) struct Reading {
    pub limits: Limits,
    pub stage: Stage,
    pub formula: Formula,
    /// Whether a clause has begun; its literals so far stand in `lits`.
    pub inside: bool,
    pub lits: LitList,
}

impl Reading {
    /// Takes the next token, and says whether the formula is whole.
    pub(crate) fn take(&mut self, alloc: Global, token: Token) -> Result<bool, InputError>
        requires keeps { IsReading self.old }
        ensures keeps { OnOk result (IsReading self.new) }
        ensures takes { Takes self.old self.new token result }
    {
        match self.stage {
            Stage::Header => self.take_header(token),
            Stage::Format => self.take_format(token),
            Stage::Vars => self.take_vars(alloc, token),
            Stage::Count => self.take_count(token),
            Stage::Clauses(count) => self.take_clauses(alloc, count, token),
        }
    }

    fn take_header(&mut self, token: Token) -> Result<bool, InputError>
        requires keeps { IsReading self.old }
        requires stage { self.old.stage ≡ Stage.Header }
        ensures keeps { OnOk result (IsReading self.new) }
        ensures takes { Takes self.old self.new token result }
    {
        if token.word == Word::Header {
            self.stage = Stage::Format;
            Ok(false)
        } else {
            Err(text(TextKind::NoHeader, token.place))
        }
    }

    fn take_format(&mut self, token: Token) -> Result<bool, InputError>
        requires keeps { IsReading self.old }
        requires stage { self.old.stage ≡ Stage.Format }
        ensures keeps { OnOk result (IsReading self.new) }
        ensures takes { Takes self.old self.new token result }
    {
        match token.word {
            Word::Cnf => {
                self.stage = Stage::Vars;
                Ok(false)
            }
            Word::End => Err(text(TextKind::Unended, token.place)),
            _ => Err(text(TextKind::NoHeader, token.place)),
        }
    }

    fn take_vars(&mut self, alloc: Global, token: Token) -> Result<bool, InputError>
        requires keeps { IsReading self.old }
        requires stage { self.old.stage ≡ Stage.Vars }
        ensures keeps { OnOk result (IsReading self.new) }
        ensures takes { Takes self.old self.new token result }
    {
        let vars = match count_of(token) {
            Ok(vars) => vars,
            Err(error) => return Err(error),
        };
        if vars > u64::from(self.limits.vars()) {
            return Err(InputError::Limit(LimitKind::Vars));
        }
        self.formula = Formula::new(alloc, vars as u32);
        self.lits.truncate(0);
        self.stage = Stage::Count;
        Ok(false)
    }

    fn take_count(&mut self, token: Token) -> Result<bool, InputError>
        requires keeps { IsReading self.old }
        requires stage { self.old.stage ≡ Stage.Count }
        ensures keeps { OnOk result (IsReading self.new) }
        ensures takes { Takes self.old self.new token result }
    {
        let count = match count_of(token) {
            Ok(count) => count,
            Err(error) => return Err(error),
        };
        if count >= u64::from(self.limits.ids()) {
            return Err(InputError::Limit(LimitKind::Ids));
        }
        self.stage = Stage::Clauses(count as u32);
        Ok(false)
    }

    fn take_clauses(&mut self, alloc: Global, count: u32, token: Token) -> Result<bool, InputError>
        requires keeps { IsReading self.old }
        requires stage { self.old.stage ≡ Stage.Clauses count }
        ensures keeps { OnOk result (IsReading self.new) }
        ensures takes { Takes self.old self.new token result }
    {
        match token.word {
            Word::End => self.take_end(count, token.place),
            _ => {
                if !self.is_open(count) {
                    return self.take_last(token.place, token.word);
                }
                match self.take_word(alloc, token.place, token.word) {
                    Ok(()) => Ok(false),
                    Err(error) => Err(error),
                }
            }
        }
    }

    /// Whether a clause has begun or is missing.
    fn is_open(&self, count: u32) -> bool
        ensures { result ≡ is_open self.now.inside (length self.now.formula.clauses) count }
    {
        self.inside || self.formula.count() < count
    }

    /// The end of the file.
    fn take_end(&self, count: u32, place: u64) -> Result<bool, InputError>
        ensures { Decides (by_end self.now.formula.vars count self.now.formula.clauses
            (open_of self.now.inside self.now.lits) place) self.now.formula (finished place) result }
    {
        if self.inside {
            Err(text(TextKind::Unended, place))
        } else if self.formula.count() < count {
            Err(text(TextKind::WrongCount, place))
        } else {
            Ok(true)
        }
    }

    /// A word where all clauses stand.
    fn take_last(&self, place: u64, word: Word) -> Result<bool, InputError>
        ensures { (rest : Tokens) → Decides
            (at_end self.now.formula.vars self.now.formula.clauses word place rest) self.now.formula rest result }
    {
        match word {
            Word::Percent => Ok(true),
            _ => Err(text(TextKind::WrongCount, place)),
        }
    }

    /// The error of the whole, where no token stands next for this one.
    pub(crate) fn error_at(&self, error: InputError) -> InputError
        ensures error { (all : Tokens) → RefusesToken all error → Refuses (left_of self.now all) result }
        ensures fault { is_source result ≡ is_source error }
    {
        match error {
            InputError::Text { kind, place } => text(self.kind_at(kind), place),
            _ => error,
        }
    }

    /// What is wrong where a token is no word.
    fn kind_at(&self, kind: TextKind) -> TextKind
        ensures { result ≡ kind_at self.now.stage self.now.inside (length self.now.formula.clauses) kind }
    {
        match self.stage {
            Stage::Header | Stage::Format => TextKind::NoHeader,
            Stage::Vars | Stage::Count => kind,
            Stage::Clauses(count) => {
                if self.is_open(count) {
                    kind
                } else {
                    TextKind::WrongCount
                }
            }
        }
    }

    /// A word in a clause, or where one would begin.
    fn take_word(&mut self, alloc: Global, place: u64, word: Word) -> Result<(), InputError>
        requires keeps { IsReading self.old }
        requires room { MayBegin self.old.stage (length self.old.formula.clauses) }
        ensures keeps { OnOk result (IsReading self.new) }
        ensures takes { TakesWord self.old self.new (by_word self.old.formula.vars self.old.formula.clauses
            (open_of self.old.inside self.old.lits) word place) result }
    {
        match word {
            Word::Number(x) => self.take_number(alloc, place, x),
            Word::Percent => {
                if self.inside {
                    Err(text(TextKind::BadWord, place))
                } else {
                    Err(text(TextKind::WrongCount, place))
                }
            }
            _ => Err(text(TextKind::BadWord, place)),
        }
    }

    /// A number in a clause: its end, or a literal.
    fn take_number(&mut self, alloc: Global, place: u64, x: i64) -> Result<(), InputError>
        requires keeps { IsReading self.old }
        requires room { MayBegin self.old.stage (length self.old.formula.clauses) }
        ensures keeps { OnOk result (IsReading self.new) }
        ensures takes { TakesWord self.old self.new
            (by_number self.old.formula.vars self.old.formula.clauses self.old.lits x place) result }
    {
        if x == 0 {
            return self.end_clause(alloc);
        }
        match Lit::new(x) {
            Some(l) => self.take_literal(place, l),
            None => Err(text(TextKind::AboveHeader, place)),
        }
    }

    fn end_clause(&mut self, alloc: Global) -> Result<(), InputError>
        requires keeps { IsReading self.old }
        requires room { MayBegin self.old.stage (length self.old.formula.clauses) }
        ensures keeps { OnOk result (IsReading self.new) }
        ensures ends { EndsClause self.old self.new result }
    {
        if push_clause(alloc, &mut self.formula, self.lits.as_slice()).is_err() {
            return Err(InputError::NoMemory);
        }
        self.lits.truncate(0);
        self.inside = false;
        Ok(())
    }

    fn take_literal(&mut self, place: u64, l: Lit) -> Result<(), InputError>
        requires keeps { IsReading self.old }
        requires room { MayBegin self.old.stage (length self.old.formula.clauses) }
        ensures keeps { OnOk result (IsReading self.new) }
        ensures takes { TakesLiteral self.old self.new place l result }
    {
        if l.var() > self.formula.vars() {
            return Err(text(TextKind::AboveHeader, place));
        }
        if self.lits.push(l).is_err() {
            return Err(InputError::NoMemory);
        }
        self.inside = true;
        Ok(())
    }
}

fn text(kind: TextKind, place: u64) -> InputError
    ensures { result ≡ InputError.Text kind place }
{
    InputError::Text { kind, place }
}

/// The number, which has to stand there and mustn't be negative.
fn count_of(token: Token) -> Result<u64, InputError>
    ensures { Counts token result }
{
    match token.word {
        Word::Number(x) => {
            if x < 0 {
                Err(text(TextKind::BadNumber, token.place))
            } else {
                Ok(x as u64)
            }
        }
        Word::End => Err(text(TextKind::Unended, token.place)),
        _ => Err(text(TextKind::BadWord, token.place)),
    }
}

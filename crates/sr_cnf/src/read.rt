// Reading a formula.
ghost use Rattle.sr_model.specs.Dimacs.{formula_at};
ghost use Rattle.sr_desk.specs.Next.{Stands, Reads, ForContents};
ghost use Rattle.sr_scan.specs.Left.{text_left, Gives, is_fault};

use crate::reading::{Reading, Stage};
use sr_base::{InputError, Limits, LitList};
use sr_desk::{ByteReader, Desk};
use sr_scan::text_item;
use sr_wit::Formula;
use std::alloc::Global;

/// The formula that the reader's text spells in the DIMACS CNF format, from where the reader stands.
///
/// A clause keeps each literal where it stands first. What follows a `%` isn't read.
pub fn read_formula<D: Desk>(
    alloc: Global,
    reader: &mut ByteReader,
    desk: &mut D,
    limits: &Limits,
) -> Result<Formula, InputError>
    requires { Stands reader.old (D.outside desk.old) }
    ensures formula { ForContents reader.new (D.outside desk.new)
        (λ c. Gives (formula_at limits.now (text_left reader.old c)) (text_left reader.new c) result) }
    ensures reads { Reads reader.old reader.new (D.outside desk.old) (D.outside desk.new) (is_fault result) }
{
    let mut reading = Reading {
        limits: *limits,
        stage: Stage::Header,
        formula: Formula::new(alloc, 0),
        inside: false,
        lits: LitList::new(alloc),
    };
    'tokens: loop {
        let token = match text_item(reader, desk) {
            Ok(token) => token,
            Err(error) => return Err(reading.error_at(error)),
        };
        match reading.take(alloc, token) {
            Err(error) => return Err(error),
            Ok(true) => return Ok(reading.formula),
            Ok(false) => {}
        }
    }
}

// The reader of a proof by lemmas.
ghost use Rattle.std.specs.Prelude.{◌≡◌, IfOk, IfSome, OnSome};
ghost use Rattle.sr_desk.specs.Next.{Stands, Reads, ForContents};
ghost use Rattle.sr_model.specs.Dsr.{LineHasPivot, line_in};
ghost use Rattle.sr_scan.specs.Left.{tokens_left, Gives, is_fault};
ghost use Rattle.sr_lemma.specs.Lines.{line_of};
ghost use Rattle.sr_dsr.specs.Gives.{line_told, TakesSome};

use crate::lines::{make_line, read_line};
use sr_base::{Form, InputError, Items, Limits, LitList, NoMemory};
use sr_desk::{ByteReader, Desk};
use sr_lemma::DsrLine;
use std::alloc::Global;
use std::marker::Model;
use std::mem;

/// Few lines have more literals.
const ROOM: usize = 64;

/// Reads the lines of a proof by lemmas one by one, into a list that it keeps: so where each line is given back by
/// [`LineReader::reuse`], reading takes no memory but what the list needs to grow.
#[derive(Drop)]
pub struct LineReader {
    alloc: Global,
    form: Form,
    reader: ByteReader,
    lits: LitList,
}

impl Model for LineReader {
    ghost use Rattle.sr_dsr.specs.Lines.{FileReader, reader_of};

    ghost Value = { FileReader };

    ghost view = { reader_of };
}

impl LineReader {
    /// A reader of the lines that a byte reader has still to give.
    pub fn new(alloc: Global, form: Form, reader: ByteReader) -> Result<LineReader, NoMemory>
        ensures { IfOk result (λ r. r ≡ record { form = form; reader = reader }) }
    {
        Ok(LineReader {
            alloc,
            form,
            reader,
            lits: Items::with_capacity(alloc, ROOM)?,
        })
    }

    /// The next line; none where only white space and comments are left (text) or nothing (binary), and then again. A lemma's
    /// witness has the first literal of its clause as its pivot.
    ///
    /// # Errors
    ///
    /// The first fault in the order of the bytes, with its place, the limit that is passed (of variables or of bytes), or that a
    /// read failed before the rest of the line was known. A fault of a whole lemma, an odd map or a variable with two images, is
    /// found at its `0`, and has that place.
    pub fn next<D: Desk>(
        &mut self,
        desk: &mut D,
        limits: &Limits,
    ) -> Result<Option<DsrLine>, InputError>
        requires { Stands self.old.reader (D.outside desk.old) }
        ensures line { ForContents self.new.reader (D.outside desk.new)
            (λ c. Gives (line_in self.old.form limits.now (tokens_left self.old.form 1 0 self.old.reader c))
            (tokens_left self.old.form 1 0 self.new.reader c) (line_told result)) }
        ensures form { self.new.form ≡ self.old.form }
        ensures takes { IfOk result (λ o. OnSome o (TakesSome self.old.reader self.new.reader)) }
        ensures pivot { IfOk result (λ o. IfSome o (λ l. LineHasPivot (line_of l))) }
        ensures reads { Reads self.old.reader self.new.reader (D.outside desk.old) (D.outside desk.new) (is_fault result) }
    {
        let frame = match read_line(self.form, &mut self.lits, &mut self.reader, desk, limits) {
            Ok(Some(frame)) => frame,
            Ok(None) => return Ok(None),
            Err(error) => return Err(error),
        };
        let written = mem::replace(&mut self.lits, Items::new(self.alloc));
        let line = match make_line(self.alloc, frame, written) {
            Ok(line) => line,
            Err(error) => return Err(error),
        };
        Ok(Some(line))
    }

    /// Takes over the list of a line that it gave, for reading the next one into its memory.
    pub fn reuse(&mut self, line: DsrLine)
        ensures { self.new ≡ self.old }
    {
        self.lits = line.into_list();
    }
}

// Bytes in the order of a file, through a buffer of 64 KiB.
//
// The limit is applied where the buffer is filled, so taking a byte is one test and one load.
ghost use Rattle.std.specs.Prelude.{◌≡◌, ◌≤◌, [], true, false, ◌<◌, ◌^◌, ◌↔◌, length, IsTrue, IfOk, OnOk, OnErr, None, is_err};
ghost use Rattle.sr_desk.specs.Reader.{buffered, skipped, IsAtHand, IsFilled, Takes};
ghost use Rattle.sr_desk.specs.Next.{Next, Reads, Stands, MeetsFault, IsSameReader, is_read_fault};

use crate::{Desk, Slot};
use sr_base::NoMemory;
use std::alloc::Global;
use std::marker::Model;
use thiserror::Error;

/// The size of the buffer.
const CAPACITY: usize = 65_536;

/// Why no byte was given.
#[derive(Clone, Copy, Debug, PartialEq, Eq, Error)]
pub enum ReadError {
    /// A read failed, and the count of faults of its slot says so.
    #[error("reading failed")]
    Fault,
    /// As many bytes as the limit allows were taken, and there is another.
    #[error("the limit of bytes is passed")]
    Limit,
}

/// Gives the bytes of a slot in order, up to a limit, through a buffer of fixed size. It reads only
/// where all bytes of the buffer were taken.
///
/// After a read that failed it isn't used again.
#[derive(Drop)]
pub struct ByteReader {
    slot: Slot,
    limit: u64,
    /// How many bytes were taken before those of the buffer, and the last of them.
    before: u64,
    previous: Option<u8>,
    buffer: Vec<u8>,
    at: usize,
    /// The end of the bytes that may be taken, and of those that were read.
    end: usize,
    held: usize,
    ended: bool,
}

impl Model for ByteReader {
    ghost use Rattle.sr_desk.specs.Reader.{Reader, reader_of, IsReader};

    ghost Value = { Reader };

    ghost view = { reader_of };

    ghost invariant = { IsReader };
}

impl ByteReader {
    /// A reader that took nothing yet. The limit is the most bytes that it takes.
    pub fn new(alloc: Global, slot: Slot, limit: u64) -> Result<ByteReader, NoMemory>
        ensures { IfOk result (λ r. r ≡ record { slot = slot.number; limit = limit; taken = 0; last = None; ended = false; ahead = [] }) }
    {
        let Ok(buffer) = vec![in alloc; 0; CAPACITY] else {
            return Err(NoMemory);
        };
        Ok(ByteReader {
            slot,
            limit,
            before: 0,
            previous: None,
            buffer,
            at: 0,
            end: 0,
            held: 0,
            ended: false,
        })
    }

    /// How many bytes were taken.
    #[inline]
    pub fn place(&self) -> u64
        ensures value { result ≡ self.now.taken }
        ensures limit { result ≤ self.now.limit }
        ensures wide { self.now.limit < 2 ^ 64 }
    {
        self.before + self.at as u64
    }

    /// The byte that was taken last; none where none was taken.
    #[inline]
    pub fn last(&self) -> Option<u8>
        ensures { result ≡ self.now.last }
    {
        if self.at == 0 {
            self.previous
        } else {
            Some(self.buffer[self.at - 1])
        }
    }

    /// The next bytes that are at hand. There may be none and yet more to come.
    #[inline]
    pub fn buffered(&self) -> &[u8]
        ensures { result.now ≡ buffered self.now }
    {
        &self.buffer[self.at..self.end]
    }

    /// Takes some of the bytes that are at hand.
    #[inline]
    pub fn skip(&mut self, count: usize)
        requires { count ≤ length (buffered self.old) }
        ensures { self.new ≡ skipped self.old count }
    {
        self.at += count;
    }

    /// The next byte; none exactly at the end, and then again.
    ///
    /// # Errors
    ///
    /// [`ReadError::Fault`] where a read failed, and [`ReadError::Limit`] where the limit's bytes were
    /// taken and there is another.
    #[inline]
    pub fn next<D: Desk>(&mut self, desk: &mut D) -> Result<Option<u8>, ReadError>
        requires { Stands self.old (D.outside desk.old) }
        ensures next { Next self.old self.new (D.outside desk.new) result }
        ensures reads { Reads self.old self.new (D.outside desk.old) (D.outside desk.new) (is_read_fault result) }
        ensures again { self.old.ended ≡ true → (result ≡ Ok None) × (self.new ≡ self.old) }
        ensures untouched { IsAtHand self.old → desk.new ≡ desk.old }
        ensures size { length self.new.ahead ≤ CAPACITY }
    {
        if self.at < self.end {
            let byte = self.buffer[self.at];
            self.at += 1;
            return Ok(Some(byte));
        }
        self.next_read(desk)
    }

    /// The next byte, where none may be at hand.
    #[cold]
    #[inline(never)]
    fn next_read<D: Desk>(&mut self, desk: &mut D) -> Result<Option<u8>, ReadError>
        requires { Stands self.old (D.outside desk.old) }
        ensures next { Next self.old self.new (D.outside desk.new) result }
        ensures reads { Reads self.old self.new (D.outside desk.old) (D.outside desk.new) (is_read_fault result) }
        ensures again { self.old.ended ≡ true → (result ≡ Ok None) × (self.new ≡ self.old) }
        ensures untouched { IsAtHand self.old → desk.new ≡ desk.old }
        ensures size { length self.new.ahead ≤ CAPACITY }
    {
        self.ready(desk)?;
        self.take()
    }

    /// Sees to it that there is an answer to give.
    fn ready<D: Desk>(&mut self, desk: &mut D) -> Result<(), ReadError>
        requires { Stands self.old (D.outside desk.old) }
        ensures ok { OnOk result (IsFilled self.old self.new) }
        ensures err { OnErr result (MeetsFault self.old self.new (D.outside desk.new)) }
        ensures fault { OnErr result (result ≡ Err ReadError.Fault) }
        ensures reads { Reads self.old self.new (D.outside desk.old) (D.outside desk.new) (is_err result) }
        ensures kept { IsAtHand self.old → (result ≡ Ok tt) × (self.new ≡ self.old) }
        ensures untouched { IsAtHand self.old → desk.new ≡ desk.old }
        ensures size { length self.new.ahead ≤ CAPACITY }
    {
        if self.is_drained() {
            self.fill(desk)
        } else {
            Ok(())
        }
    }

    /// Whether the buffer has nothing more to tell.
    fn is_drained(&self) -> bool
        ensures drained { IsTrue result ↔ ((self.now.ahead ≡ []) × (self.now.ended ≡ false)) }
        ensures size { length self.now.ahead ≤ CAPACITY }
    {
        self.at == self.held && !self.ended
    }

    /// Reads into the buffer, of which all was taken.
    fn fill<D: Desk>(&mut self, desk: &mut D) -> Result<(), ReadError>
        requires stands { Stands self.old (D.outside desk.old) }
        requires empty { self.old.ahead ≡ [] }
        requires going { self.old.ended ≡ false }
        ensures ok { OnOk result (IsFilled self.old self.new) }
        ensures err { OnErr result (MeetsFault self.old self.new (D.outside desk.new)) }
        ensures fault { OnErr result (result ≡ Err ReadError.Fault) }
        ensures reads { Reads self.old self.new (D.outside desk.old) (D.outside desk.new) (is_err result) }
        ensures size { length self.new.ahead ≤ CAPACITY }
    {
        self.previous = self.last();
        self.before += self.at as u64;
        self.at = 0;
        self.end = 0;
        self.held = 0;
        match desk.read(self.slot, self.buffer.as_mut_slice()) {
            Ok(count) => {
                self.held = count;
                self.end = (self.limit - self.before).min(count as u64) as usize;
                self.ended = count == 0;
                Ok(())
            }
            Err(_) => Err(ReadError::Fault),
        }
    }

    /// Takes a byte of the buffer, which has one where the end wasn't met.
    fn take(&mut self) -> Result<Option<u8>, ReadError>
        ensures takes { Takes self.old self.new result }
        ensures again { self.old.ended ≡ true → (result ≡ Ok None) × (self.new ≡ self.old) }
        ensures same { IsSameReader self.old self.new }
        ensures size { length self.new.ahead ≤ CAPACITY }
    {
        if self.at < self.end {
            let byte = self.buffer[self.at];
            self.at += 1;
            return Ok(Some(byte));
        }
        if self.end < self.held {
            return Err(ReadError::Limit);
        }
        Ok(None)
    }
}

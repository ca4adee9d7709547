// The reader of a proof by hints.
ghost use Rattle.std.specs.Prelude.{◌≡◌, IfOk, IfSome, OnSome};
ghost use Rattle.sr_desk.specs.Next.{Stands, Reads, ForContents};
ghost use Rattle.sr_model.specs.Judging.{ItemHasPivot};
ghost use Rattle.sr_model.specs.LsrBinary.{item_in};
ghost use Rattle.sr_scan.specs.Left.{tokens_left, Gives, is_fault};
ghost use Rattle.sr_wit.specs.LsrItems.{item_of};
ghost use Rattle.sr_lsr.specs.Reads.{item_told, TakesSome};
ghost use Rattle.sr_lsr.specs.Written.{IsSmallItem};

use crate::items::read_item;
use crate::lists::{ItemLists, make_item};
use sr_base::{Form, InputError, Limits, NoMemory};
use sr_desk::{ByteReader, Desk};
use sr_wit::LsrItem;
use std::alloc::Global;
use std::marker::Model;

/// Reads the items of a proof by hints one by one, into lists that it keeps: so where each item is given back by
/// [`ItemReader::reuse`], reading takes no memory but what a list needs to grow.
#[derive(Drop)]
pub struct ItemReader {
    alloc: Global,
    form: Form,
    reader: ByteReader,
    lists: ItemLists,
}

impl Model for ItemReader {
    ghost use Rattle.sr_lsr.specs.Items.{FileReader, reader_of};

    ghost Value = { FileReader };

    ghost view = { reader_of };
}

impl ItemReader {
    /// A reader of the items that a byte reader has still to give.
    pub fn new(alloc: Global, form: Form, reader: ByteReader) -> Result<ItemReader, NoMemory>
        ensures { IfOk result (λ r. r ≡ record { form = form; reader = reader }) }
    {
        Ok(ItemReader {
            alloc,
            form,
            reader,
            lists: ItemLists::new(alloc)?,
        })
    }

    /// The next item; none where only white space and comments are left (text) or nothing (binary), and then again. A step's
    /// witness has the first literal of its clause as its pivot, and [`item_bytes`] takes the item.
    ///
    /// [`item_bytes`]: crate::item_bytes
    ///
    /// # Errors
    ///
    /// The first fault in the order of the bytes, with its place, the limit that is passed, or that a read failed before the
    /// rest of the item was known. A fault of a whole step, an odd map or a variable with two images, is found at its final `0`,
    /// and has the place of the `0` that ends its literals.
    pub fn next<D: Desk>(
        &mut self,
        desk: &mut D,
        limits: &Limits,
    ) -> Result<Option<LsrItem>, InputError>
        requires { Stands self.old.reader (D.outside desk.old) }
        ensures item { ForContents self.new.reader (D.outside desk.new)
            (λ c. Gives (item_in self.old.form limits.now (tokens_left self.old.form 2 0 self.old.reader c))
            (tokens_left self.old.form 2 0 self.new.reader c) (item_told result)) }
        ensures form { self.new.form ≡ self.old.form }
        ensures takes { IfOk result (λ o. OnSome o (TakesSome self.old.reader self.new.reader)) }
        ensures small { IfOk result (λ o. IfSome o (λ x. IsSmallItem (item_of x))) }
        ensures pivot { IfOk result (λ o. IfSome o (λ x. ItemHasPivot (item_of x))) }
        ensures reads { Reads self.old.reader self.new.reader (D.outside desk.old) (D.outside desk.new) (is_fault result) }
    {
        let frame = match read_item(self.form, &mut self.lists, &mut self.reader, desk, limits) {
            Ok(Some(frame)) => frame,
            Ok(None) => return Ok(None),
            Err(error) => return Err(error),
        };
        let item = match make_item(self.alloc, frame, &mut self.lists) {
            Ok(item) => item,
            Err(error) => return Err(error),
        };
        Ok(Some(item))
    }

    /// Takes over the lists of an item that it gave, for reading the next one into their memory.
    pub fn reuse(&mut self, item: LsrItem)
        ensures { self.new ≡ self.old }
    {
        self.lists.reuse(item);
    }
}

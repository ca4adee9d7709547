// A table from clause numbers to numbers, in pages. A page is made when a number of it is first set, and numbers whose
// page wasn't made share the first one, which holds zeros. So a look-up is two loads.
ghost use Rattle.std.specs.Prelude.{◌≡◌, ◌≢◌, ℕ, ◌+◌, ◌*◌, ◌/◌, ◌<◌, ◌≤◌, ◌++◌, length, vec_len, slice_index_or, replicate, IfOk, OnOk, OnErr};
ghost use Rattle.sr_table.specs.Pages.{entry, paged, IsOpen, IsBlank, KeepsOpen, Sets, SameEntries, IsPaged};

use sr_base::{ClauseId, NoMemory};
use std::alloc::Global;
use std::marker::Model;

/// The numbers of one page.
const PAGE: usize = 4096;

/// A table from clause numbers to numbers, with 0 where none was set.
#[derive(Drop)]
pub struct IdTable {
    pages: Vec<usize>,
    entries: Vec<u32>,
}

impl Model for IdTable {
    ghost use Rattle.sr_table.specs.Pages.{Paged, IsPaged};

    ghost Value = { Paged };

    ghost view = { λ t. record { pages = t.pages.items; entries = t.entries.items } };

    ghost invariant = { λ t. IsPaged t.pages.items t.entries.items };
}

impl IdTable {
    /// The table in which no number is set.
    pub fn new(alloc: Global) -> Result<IdTable, NoMemory>
        ensures blank { IfOk result IsBlank }
        ensures pages { IfOk result (λ t. length t.entries ≡ 4096) }
    {
        let mut entries = Vec::new(alloc);
        add_page(&mut entries)?;
        Ok(IdTable {
            pages: Vec::new(alloc),
            entries,
        })
    }

    /// What a number is set to.
    #[inline]
    pub fn get(&self, id: ClauseId) -> u32
        ensures { result ≡ entry self.now id }
    {
        let page = id as usize / PAGE;
        if page >= self.pages.len() {
            return 0;
        }
        self.entries[self.pages[page] * PAGE + id as usize % PAGE]
    }

    /// Sets a number.
    pub fn set(&mut self, id: ClauseId, to: u32) -> Result<(), NoMemory>
        ensures ok { OnOk result (Sets self.old self.new id to) }
        ensures err { OnErr result (SameEntries self.old self.new) }
        ensures pages { length self.new.entries ≤ length self.old.entries + 4096 }
    {
        let page = id as usize / PAGE;
        open_page(&mut self.pages, &mut self.entries, page)?;
        let at = self.pages[page] * PAGE + id as usize % PAGE;
        self.entries[at] = to;
        Ok(())
    }

    /// Makes the page of a number, so that the number can be put without memory.
    pub fn open(&mut self, id: ClauseId) -> Result<(), NoMemory>
        ensures same { SameEntries self.old self.new }
        ensures ok { OnOk result (IsOpen self.new id) }
        ensures kept { KeepsOpen self.old self.new }
        ensures pages { length self.new.entries ≤ length self.old.entries + 4096 }
        ensures err { OnErr result (length self.new.entries ≡ length self.old.entries) }
    {
        open_page(&mut self.pages, &mut self.entries, id as usize / PAGE)
    }

    /// How many entries the pages have. A number that is set has a page.
    pub fn size(&self) -> usize
        ensures value { result ≡ length self.now.entries }
        ensures set { (n : ℕ) → entry self.now n ≢ 0 → IsOpen self.now n }
    {
        self.entries.len()
    }

    /// Sets a number whose page was made.
    pub fn put(&mut self, id: ClauseId, to: u32)
        requires { IsOpen self.old id }
        ensures value { Sets self.old self.new id to }
        ensures kept { KeepsOpen self.old self.new }
        ensures pages { length self.new.entries ≡ length self.old.entries }
    {
        let at = self.pages[id as usize / PAGE] * PAGE + id as usize % PAGE;
        self.entries[at] = to;
    }

    /// Sets a number back to 0. It takes no memory.
    pub fn unset(&mut self, id: ClauseId)
        ensures value { Sets self.old self.new id 0 }
        ensures pages { length self.new.entries ≡ length self.old.entries }
    {
        let page = id as usize / PAGE;
        if page >= self.pages.len() || self.pages[page] == 0 {
            return;
        }
        let at = self.pages[page] * PAGE + id as usize % PAGE;
        self.entries[at] = 0;
    }
}

/// Makes a page where there is none.
fn open_page(pages: &mut Vec<usize>, entries: &mut Vec<u32>, page: usize) -> Result<(), NoMemory>
    requires { IsPaged pages.old.items entries.old.items }
    ensures paged { IsPaged pages.new.items entries.new.items }
    ensures same { SameEntries (paged pages.old.items entries.old.items) (paged pages.new.items entries.new.items) }
    ensures made { OnOk result (slice_index_or pages.new.items page 0 ≢ 0) }
    ensures kept { KeepsOpen (paged pages.old.items entries.old.items) (paged pages.new.items entries.new.items) }
    ensures few { length entries.new.items ≤ length entries.old.items + 4096 }
    ensures err { OnErr result (length entries.new.items ≡ length entries.old.items) }
{
    reach(pages, page)?;
    if pages[page] == 0 {
        let made = entries.len() / PAGE;
        add_page(entries)?;
        pages[page] = made;
    }
    Ok(())
}

/// Lengthens the list of pages until it has this one. A new one is the page of zeros.
fn reach(pages: &mut Vec<usize>, page: usize) -> Result<(), NoMemory>
    ensures same { (p : ℕ) → slice_index_or pages.new.items p 0 ≡ slice_index_or pages.old.items p 0 }
    ensures long { OnOk result (page < vec_len pages.new) }
{
    while pages.len() <= page {
        if pages.push(0).is_err() {
            return Err(NoMemory);
        }
    }
    Ok(())
}

/// Adds a page of zeros at the end.
fn add_page(entries: &mut Vec<u32>) -> Result<(), NoMemory>
    ensures ok { OnOk result (entries.new.items ≡ entries.old.items ++ replicate 4096 0) }
    ensures err { OnErr result (entries.new.items ≡ entries.old.items) }
{
    match entries.resize(entries.len() + PAGE, 0) {
        Ok(()) => Ok(()),
        Err(_) => Err(NoMemory),
    }
}

// References to clauses.
ghost use Rattle.std.specs.Prelude.{◌≡◌, ◌<◌, ◌↔◌, IsNone};
ghost use Rattle.sr_arena.specs.Cells.{reference};

use sr_base::Items;
use std::marker::Model;

/// A reference to a clause: a number from 1 on. References rise in the order in which the clauses were added.
#[derive(Clone, Copy, Debug, PartialEq, Eq, PartialOrd, Ord, Hash)]
pub struct Cref {
    index: u32,
}

impl Model for Cref {
    ghost use Rattle.std.specs.Prelude.{ℕ, ◌<◌};

    ghost Value = { ℕ };

    ghost view = { λ c. c.index };

    ghost invariant = { λ c. 0 < c.index };

    ghost inverse = { λ n. record { index = n } };
}

/// A list of references.
pub type CrefList = Items<Cref>;

impl Cref {
    /// The reference of a number, as [`Cref::index`] gives it; none for 0.
    #[inline]
    pub fn from_index(index: u32) -> Option<Cref>
        ensures value { reference result ≡ index }
        ensures none { IsNone result ↔ (index ≡ 0) }
    {
        if index == 0 {
            return None;
        }
        Some(Cref { index })
    }

    /// The reference of a place.
    #[inline]
    pub(crate) fn at(index: u32) -> Cref
        requires { 0 < index }
        ensures { result ≡ index }
    {
        Cref { index }
    }

    /// The number of the reference, for tables that keep it.
    #[inline]
    pub fn index(self) -> u32
        ensures value { result ≡ self }
        ensures low { 0 < result }
    {
        self.index
    }

    /// The number of a reference, and 0 where there is none.
    #[inline]
    pub fn index_of(at: Option<Cref>) -> u32
        ensures { result ≡ reference at }
    {
        match at {
            None => 0,
            Some(at) => at.index(),
        }
    }
}

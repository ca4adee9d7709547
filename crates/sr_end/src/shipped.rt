// The limits that the program ships with, in numerals.
ghost use Rattle.sr_end.specs.Shipped.{AreShipped};

/// Variables up to 16,777,215, clause numbers up to 2,147,483,647, 1 GiB of cells of four bytes, 4 GiB a file.
pub fn shipped_limits()
    ensures { AreShipped }
{}

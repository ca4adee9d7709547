// What holds of the formula, each law as the contract of a function with no body.
ghost use Rattle.sr_holes.specs.Laws.{FormulaHasClauses, SeatsDiffer, FormulaAsksForSeating, PigeonsDontFit, FormulaReadsAgain, ShippedLimitsSuffice};

/// The formula has a clause for each pigeon, that it sits in a hole, and for each hole and each two pigeons, that they don't both
/// sit there; and it has no others.
pub fn formula_has_clauses()
    ensures { FormulaHasClauses }
{}

/// Each pigeon and each hole have a variable of their own.
pub fn seats_differ()
    ensures { SeatsDiffer }
{}

/// An assignment satisfies the formula exactly where it has each pigeon sit in a hole and no two in the same one.
pub fn formula_asks_for_seating()
    ensures { FormulaAsksForSeating }
{}

/// The pigeonhole principle: the formula has no solution, however many holes there are.
pub fn pigeons_dont_fit()
    ensures { PigeonsDontFit }
{}

/// Within the limits, the formula is read again from its text.
pub fn formula_reads_again()
    ensures { FormulaReadsAgain }
{}

/// The limits that the program ships with hold the formula for as many holes as there may be.
pub fn shipped_limits_suffice()
    ensures { ShippedLimitsSuffice }
{}

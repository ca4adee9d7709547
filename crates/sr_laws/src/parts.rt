// A forward test in parts: laws of the definitions.
ghost use Rattle.sr_laws.specs.Parts.{PartIsLoading, PartsMakeWhole, PartsDecide, RunsMakeWhole, AllPartsCover};

/// A part that comes to a conflict loads the proof up to there, as each other part does.
pub fn part_is_loading()
    ensures { PartIsLoading }
{}

/// Where the parts hold all lemmas up to the conflict and each comes to it, so does the whole test, and the formula has
/// no solution.
pub fn parts_make_whole()
    ensures { PartsMakeWhole }
{}

/// The answer of one part, where the parts hold all lemmas that it took and none fails at a lemma before, is that of the
/// whole test.
pub fn parts_decide()
    ensures { PartsDecide }
{}

/// Where each comes to a conflict, the same of runs on the same bytes, with the same limits, wherever they were made.
pub fn runs_make_whole()
    ensures { RunsMakeWhole }
{}

/// The parts 1 to N hold every lemma, whatever their number.
pub fn all_parts_cover()
    ensures { AllPartsCover }
{}

// What a backward pass asks of a loaded proof.
ghost use Rattle.std.specs.Prelude.{◌≡◌, ◌<◌, ◌≤◌, [], true, length, take, IfOk, OnOk, OnErr};
ghost use Rattle.std.specs.Option.{option_copied};
ghost use Rattle.sr_model.specs.Assignment.{holds_number};
ghost use Rattle.sr_trimming.specs.Placing.{numbers};
ghost use Rattle.sr_load.specs.Loaded.{LoadedState, next_of, alive_in, citing, assuming, HasPivotAt, HasWitnessAt, HasClauseAt, TakesBack, Tests};

use sr_base::{ClauseId, IdList, Lit, NoMemory};
use sr_wit::{Formula, Subst};

/// A loaded proof: a formula, and the lines of a proof up to the one at which its clauses first conflict.
///
/// Lines are taken back from the last one standing. The clauses that are alive before them are asked whether they refute
/// literals, with those that were cited tried first.
pub trait Loaded {
    /// What contracts see of it.
    ghost state: { Self → LoadedState };

    /// The formula.
    fn formula(&self) -> &Formula
        ensures { result.now ≡ (state self.now).formula };

    /// The number after those of all lemmas.
    fn next(&self) -> ClauseId
        ensures { result ≡ next_of (state self.now) };

    /// The literals of the clause of a number, in any order.
    fn clause(&self, id: ClauseId) -> &[Lit]
        requires low { 0 < id }
        requires high { id < next_of (state self.now) }
        ensures { HasClauseAt (state self.now) id result.now };

    /// The pivot of a lemma: the first literal of its clause.
    fn pivot(&self, id: ClauseId) -> Lit
        requires low { length (state self.now).formula.clauses < id }
        requires high { id < next_of (state self.now) }
        ensures { HasPivotAt (state self.now) id result };

    /// The witness that is written for a lemma; none where none is.
    fn witness(&self, id: ClauseId) -> Option<&Subst>
        requires low { length (state self.now).formula.clauses < id }
        requires high { id < next_of (state self.now) }
        ensures { HasWitnessAt (state self.now) id (option_copied result) };

    /// Whether a number is cited.
    fn is_cited(&self, id: ClauseId) -> bool
        ensures { result ≡ holds_number id (state self.now).cited };

    /// Cites the clause of a number.
    fn cite(&mut self, id: ClauseId) -> Result<(), NoMemory>
        requires { holds_number id (numbers (alive_in (state self.old))) ≡ true }
        ensures ok { OnOk result (state self.new ≡ citing (state self.old) id) }
        ensures err { OnErr result (state self.new ≡ state self.old) };

    /// Takes lines back, from the last one standing, until a lemma's line was taken back, and gives that lemma's number;
    /// none where no lemma's line stands.
    fn back(&mut self) -> Option<ClauseId>
        requires { (state self.old).assumed ≡ [] }
        ensures { TakesBack (state self.old) (state self.new) result };

    /// Assumes a literal.
    fn assume(&mut self, l: Lit) -> Result<(), NoMemory>
        ensures ok { OnOk result (state self.new ≡ assuming (state self.old) l) }
        ensures err { OnErr result (state self.new ≡ state self.old) };

    /// How many literals are assumed.
    fn mark(&self) -> usize
        ensures { result ≡ length (state self.now).assumed };

    /// Keeps the first literals that were assumed alone.
    fn undo_to(&mut self, mark: usize)
        requires { mark ≤ length (state self.old).assumed }
        ensures { state self.new ≡ record (state self.old) { assumed = take mark (state self.old).assumed } };

    /// Whether the alive clauses refute the assumed literals. Where they do, `chain` is a lean chain of their numbers, and of
    /// cited ones alone where these refute; else it is empty, also where memory lacks.
    fn refute(&mut self, chain: &mut IdList) -> Result<bool, NoMemory>
        ensures same { state self.new ≡ state self.old }
        ensures ok { IfOk result (λ b. Tests (state self.old) b chain.new) }
        ensures err { OnErr result (chain.new ≡ []) };
}

// The groups of a lemma that is tested with its witness: each clause that is cited, by later steps or by a group found before,
// and of which the witness leaves something that isn't refuted at once, gets a chain of its own, the least number first.
ghost use Rattle.std.specs.Prelude.{◌≡◌, ◌<◌, ◌||◌, ◌&&◌, ◌∷◌, [], ℕ, not, true, length, OnOk, IfOk, Some};
ghost use Rattle.sr_model.specs.Assignment.{holds_number};
ghost use Rattle.sr_trimming.specs.From.{Place};
ghost use Rattle.sr_load.specs.Loaded.{next_of};
ghost use Rattle.sr_back.specs.Citing.{IsIndexed, with_cited};
ghost use Rattle.sr_back.specs.Testing.{place_in, steps_in, HasWitness, IsTested};
ghost use Rattle.sr_back.specs.Tries.{GroupsEnd};
ghost use Rattle.sr_back.specs.Pass.{KeepsProof};

use crate::cited::{CitedClauses, cite_all};
use crate::queue::Queue;
use crate::testing::{Trial, try_clause, witness_of};
use sr_base::{ClauseId, IdList, LitList, NoMemory};
use sr_load::Loaded;
use sr_steps::StepTable;
use sr_wit::Subst;
use std::alloc::Global;

/// Lists that one test after another uses.
#[derive(Drop)]
pub struct Scratch {
    pub lits: LitList,
    pub chain: IdList,
}

impl Scratch {
    /// Empty lists.
    pub fn new(alloc: Global) -> Scratch
        ensures lits { result.lits ≡ [] }
        ensures chain { result.chain ≡ [] }
    {
        Scratch {
            lits: LitList::new(alloc),
            chain: IdList::new(alloc),
        }
    }
}

/// Puts the numbers that aren't cited into a queue.
fn put_new<L: Loaded>(loaded: &L, ids: &[ClauseId], queue: &mut Queue) -> Result<(), NoMemory>
    ensures { OnOk result ((n : ℕ) → holds_number n queue.new ≡ (holds_number n queue.old || (holds_number n ids.now && not (holds_number n (L.state loaded.now).cited)))) }
{
    for id in ids {
        if !loaded.is_cited(*id) {
            queue.put(*id)?;
        }
    }
    Ok(())
}

/// Finds the groups of a lemma, and keeps its step; or gives the number of the clause at which the test fails.
pub fn find_groups<L: Loaded>(
    alloc: Global,
    loaded: &mut L,
    index: &mut CitedClauses,
    steps: &mut StepTable,
    scratch: &mut Scratch,
    lemma: ClauseId,
    own: &Option<Subst>,
) -> Result<Option<ClauseId>, NoMemory>
    requires low { length (L.state loaded.old).formula.clauses < lemma }
    requires high { lemma < next_of (L.state loaded.old) }
    requires witness { HasWitness (L.state loaded.old) lemma own.now }
    requires made { index.old.lists.built ≡ true }
    requires index { IsIndexed (L.state loaded.old) index.old }
    requires tested { (p : Place) × IsTested (L.state loaded.old) lemma steps.old p }
    ensures index { OnOk result (IsIndexed (L.state loaded.new) index.new) }
    ensures same { KeepsProof (L.state loaded.old) (L.state loaded.new) }
    ensures lines { (L.state loaded.new).standing ≡ (L.state loaded.old).standing }
    ensures groups { IfOk result (λ r. (p : Place) → place_in (L.state loaded.old) lemma ≡ Some p
        → GroupsEnd (L.state loaded.old) (L.state loaded.new) (steps_in (L.state loaded.old) steps.old) p lemma steps.old steps.new r) }
{
    let mut queue = Queue::new(alloc);
    index.find(witness_of(loaded, own, lemma), &mut queue)?;
    steps.begin(lemma)?;
    'tries: while let Some(id) = queue.next() {
        match try_clause(
            loaded,
            own,
            lemma,
            id,
            &mut scratch.lits,
            &mut scratch.chain,
        )? {
            Trial::Spare => {}
            Trial::Stuck => return Ok(Some(id)),
            Trial::Met => {
                let hints = scratch.chain.as_slice();
                put_new(loaded, hints, &mut queue)?;
                cite_all(loaded, index, hints)?;
                steps.add_group(id, hints)?;
            }
        }
    }
    steps.sort_groups();
    Ok(None)
}

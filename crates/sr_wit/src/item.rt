// Items of a proof by hints.
ghost use Rattle.std.specs.Prelude.{◌≡◌};
ghost use Rattle.sr_model.specs.Judging.{item_number, ItemHasPivot};
ghost use Rattle.sr_wit.specs.LsrItems.{item_of};

use crate::step::Step;
use sr_base::{IdList, Items};

/// An item of a proof by hints: a step, or a deletion of clauses by their numbers, with the number in front.
#[derive(Drop)]
pub enum LsrItem {
    Step(Step),
    Drop { id: u32, ids: IdList },
}

/// A list of steps.
pub type StepList = Items<Step>;
/// A list of items.
pub type ItemList = Items<LsrItem>;

impl LsrItem {
    /// The number in front of the item. A step's witness has the pivot of its clause.
    pub fn number(&self) -> u32
        ensures value { result ≡ item_number (item_of self.now) }
        ensures pivot { ItemHasPivot (item_of self.now) }
    {
        match self {
            LsrItem::Step(step) => {
                let _clause = step.clause();
                step.id()
            }
            LsrItem::Drop { id, .. } => *id,
        }
    }
}

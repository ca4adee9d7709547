// A watch: what the lists hold.
use sr_arena::Cref;
use sr_base::Lit;

/// A clause in a list, with a literal of it that is looked at first.
#[derive(Clone, Copy, Debug, PartialEq, Eq)]
pub struct Watch {
    pub blocker: Lit,
    pub at: Cref,
}

/// A watch to fill a block that holds none yet.
pub fn nothing() -> Watch {
    match Cref::from_index(1) {
        None => unreachable!(),
        Some(at) => Watch {
            blocker: Lit::from_code(2),
            at,
        },
    }
}

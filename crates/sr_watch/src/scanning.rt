// Looking at entries, one after another.
ghost use Rattle.std.specs.Prelude.{ℕ, ◌≡◌, ◌≢◌, ◌<◌, ◌≤◌, length, None, Some, true, false, cond, ◌==◌, ◌||◌, nat_lt, slice_index_or};
ghost use Rattle.sr_watch.specs.State.{reason_in};

use sr_base::Lit;

/// What the first entry of a literal's variable makes it, by one more than the first places of it and its
/// complement, or 0.
#[inline]
pub fn value_of(is_true: u32, is_false: u32) -> Option<bool>
    ensures { result ≡ cond (is_true == 0) (cond (is_false == 0) None (Some false))
        (cond ((is_false == 0) || nat_lt is_true is_false) (Some true) (Some false)) }
{
    if is_true == 0 {
        return if is_false == 0 { None } else { Some(false) };
    }
    Some(is_false == 0 || is_true < is_false)
}

/// The reason of a variable's derived entry.
pub fn reason_of(trail: &[Lit], reasons: &[u32], var: u32) -> u32
    requires { length reasons.now ≡ length trail.now }
    ensures { result ≡ reason_in trail.now reasons.now var }
{
    for i in 0..trail.len() {
        if trail[i].var() == var && reasons[i] != 0 {
            return reasons[i];
        }
    }
    0
}

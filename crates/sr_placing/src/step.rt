// One step, put straight from the lists that have its parts.
ghost use Rattle.std.specs.Prelude.{◌≡◌, ℕ, ◌+◌, ◌<◌, ◌≤◌, ◌∷◌, ◌++◌, [], false, pos, map, filter, not, cond, All, Some, None, List, length, slice_index_or, OnOk};
ghost use Rattle.std.specs.Option.{option_copied};
ghost use Rattle.sr_base.specs.Literal.{Literal, same};
ghost use Rattle.sr_model.specs.Meeting.{Step};
ghost use Rattle.sr_model.specs.Judging.{stepped, dropped};
ghost use Rattle.sr_model.specs.Writing.{flat, maps_written, literals_written, witness_written, groups_written, written_item, written_items};
ghost use Rattle.sr_trimming.specs.Loading.{at_start};
ghost use Rattle.sr_trimming.specs.From.{Place, place_of, witness_of};
ghost use Rattle.sr_trimming.specs.Placing.{deletion};
ghost use Rattle.sr_trimming.specs.Reordered.{IsRewritten, IsStepRewritten, put_first};
ghost use Rattle.sr_steps.specs.Kept.{step_at, step_of};
ghost use Rattle.sr_steps.specs.Adding.{bare};
ghost use Rattle.sr_scan.specs.Written.{written_number, written_numbers, written_literals};
ghost use Rattle.sr_lsr.specs.Written.{IsSmall, IsSmallGroup, step_start, drop_start};
ghost use Rattle.sr_load.specs.Loaded.{all_lines, next_of};
ghost use Rattle.sr_placing.specs.Parts.{IsSmallKept, witness_or, IsPlaceOf, start_put, hints_put};

use crate::sink::Sink;
use crate::spelling::{put_end, put_number};
use sr_base::{ClauseId, Form, Lit};
use sr_load::Loaded;
use sr_steps::StepTable;
use sr_wit::Subst;

fn put_id<O, S: Sink<O>>(form: Form, sink: &mut S, out: &mut O, id: ClauseId)
    requires can { S.can_put sink.old out.old }
    requires small { IsSmall id }
    ensures { S.puts sink.old out.old sink.new out.new (written_number form (pos id)) }
{
    put_number(form, sink, out, i64::from(id));
}

fn put_ids<O, S: Sink<O>>(form: Form, sink: &mut S, out: &mut O, ids: &[ClauseId])
    requires can { S.can_put sink.old out.old }
    requires small { All IsSmall ids.now }
    ensures { S.puts sink.old out.old sink.new out.new (written_numbers form (map pos ids.now)) }
{
    for id in ids {
        put_id(form, sink, out, *id);
    }
}

/// A group is the number of its clause, negative, and its hints.
fn put_group<O, S: Sink<O>>(form: Form, sink: &mut S, out: &mut O, id: ClauseId, hints: &[ClauseId])
    requires can { S.can_put sink.old out.old }
    requires small { IsSmallGroup (id, hints.now) }
    ensures { S.puts sink.old out.old sink.new out.new (written_numbers form (groups_written ((id, hints.now) ∷ []))) }
{
    put_number(form, sink, out, -i64::from(id));
    put_ids(form, sink, out, hints);
}

fn put_groups<O, S: Sink<O>>(form: Form, sink: &mut S, out: &mut O, steps: &StepTable, i: usize)
    requires can { S.can_put sink.old out.old }
    requires index { i < length steps.now }
    requires small { All IsSmallGroup (slice_index_or steps.now i (bare 0 false)).groups }
    ensures { S.puts sink.old out.old sink.new out.new (written_numbers form (groups_written (slice_index_or steps.now i (bare 0 false)).groups)) }
{
    for j in 0..steps.group_count(i) {
        put_group(
            form,
            sink,
            out,
            steps.group_id(i, j),
            steps.group_hints(i, j),
        );
    }
}

/// The hints of a step, and the `0`s before and after them.
pub fn put_hints<O, S: Sink<O>>(form: Form, sink: &mut S, out: &mut O, steps: &StepTable, i: usize)
    requires can { S.can_put sink.old out.old }
    requires index { i < length steps.now }
    requires small { IsSmallKept (slice_index_or steps.now i (bare 0 false)) }
    ensures { S.puts sink.old out.old sink.new out.new (hints_put form (slice_index_or steps.now i (bare 0 false))) }
{
    put_number(form, sink, out, 0);
    put_ids(form, sink, out, steps.prefix(i));
    put_groups(form, sink, out, steps, i);
    put_end(form, sink, out);
}

/// What stands before the literals of a step: in binary the byte `61` (hexadecimal), and its number.
fn put_start<O, S: Sink<O>>(form: Form, sink: &mut S, out: &mut O, id: ClauseId)
    requires can { S.can_put sink.old out.old }
    requires small { IsSmall id }
    ensures { S.puts sink.old out.old sink.new out.new (start_put form id) }
{
    match form {
        Form::Text => put_id(form, sink, out, id),
        Form::Binary => {
            sink.put(out, b"a");
            put_id(form, sink, out, id);
        }
    }
}

pub fn put_literal<O, S: Sink<O>>(form: Form, sink: &mut S, out: &mut O, l: Lit)
    requires { S.can_put sink.old out.old }
    ensures { S.puts sink.old out.old sink.new out.new (written_literals form (l ∷ [])) }
{
    let _var = l.var();
    put_number(form, sink, out, l.value());
}

pub fn put_literals<O, S: Sink<O>>(form: Form, sink: &mut S, out: &mut O, lits: &[Lit])
    requires { S.can_put sink.old out.old }
    ensures { S.puts sink.old out.old sink.new out.new (written_literals form lits.now) }
{
    for l in lits {
        put_literal(form, sink, out, *l);
    }
}

/// The pivot of a clause, and then its other literals.
pub fn put_pivot_first<O, S: Sink<O>>(
    form: Form,
    sink: &mut S,
    out: &mut O,
    pivot: Lit,
    lits: &[Lit],
)
    requires { S.can_put sink.old out.old }
    ensures { S.puts sink.old out.old sink.new out.new (written_literals form (put_first pivot lits.now)) }
{
    put_literal(form, sink, out, pivot);
    for l in lits {
        put_other(form, sink, out, pivot, *l);
    }
}

/// A literal, unless it is the pivot.
fn put_other<O, S: Sink<O>>(form: Form, sink: &mut S, out: &mut O, pivot: Lit, l: Lit)
    requires { S.can_put sink.old out.old }
    ensures { S.puts sink.old out.old sink.new out.new (written_literals form (filter (λ k. not (same pivot k)) (l ∷ []))) }
{
    if !pivot.is(l) {
        put_literal(form, sink, out, l);
    }
}

fn put_pairs<O, S: Sink<O>>(form: Form, sink: &mut S, out: &mut O, maps: &[(Lit, Lit)])
    requires { S.can_put sink.old out.old }
    ensures { S.puts sink.old out.old sink.new out.new (written_literals form (flat maps.now)) }
{
    for map in maps {
        put_literal(form, sink, out, map.0);
        put_literal(form, sink, out, map.1);
    }
}

/// Where there are maps, the pivot and these.
fn put_maps<O, S: Sink<O>>(form: Form, sink: &mut S, out: &mut O, pivot: Lit, maps: &[(Lit, Lit)])
    requires { S.can_put sink.old out.old }
    ensures { S.puts sink.old out.old sink.new out.new (written_literals form (maps_written pivot maps.now)) }
{
    if maps.is_empty() {
        return;
    }
    put_literal(form, sink, out, pivot);
    put_pairs(form, sink, out, maps);
}

/// The literals of a witness; without one, the pivot becomes true and nothing else.
pub fn put_witness<O, S: Sink<O>>(
    form: Form,
    sink: &mut S,
    out: &mut O,
    pivot: Lit,
    witness: Option<&Subst>,
)
    requires { S.can_put sink.old out.old }
    ensures { S.puts sink.old out.old sink.new out.new (written_literals form (witness_written (Some (witness_or pivot (option_copied witness.entry))))) }
{
    let Some(witness) = witness else {
        put_literal(form, sink, out, pivot);
        return;
    };
    put_literal(form, sink, out, witness.pivot());
    put_literals(form, sink, out, witness.assigned());
    put_maps(form, sink, out, witness.pivot(), witness.maps());
}

/// The literals of a lemma, with those of its witness where its step has one.
fn put_lemma<L: Loaded, O, S: Sink<O>>(
    form: Form,
    sink: &mut S,
    out: &mut O,
    loaded: &L,
    id: ClauseId,
    by_witness: bool,
)
    requires can { S.can_put sink.old out.old }
    requires low { length (L.state loaded.now).formula.clauses < id }
    requires high { id < next_of (L.state loaded.now) }
    ensures can { S.can_put sink.new out.new }
    ensures put { (p : Place) → IsPlaceOf (L.state loaded.now) id p → (c : List Literal) × IsRewritten p.stated.clause c
        × S.puts sink.old out.old sink.new out.new (written_numbers form (literals_written c (cond by_witness (witness_of p.stated) None))) }
{
    let pivot = loaded.pivot(id);
    put_pivot_first(form, sink, out, pivot, loaded.clause(id));
    if by_witness {
        put_witness(form, sink, out, pivot, loaded.witness(id));
    }
}

/// The step of a lemma.
pub fn put_step<L: Loaded, O, S: Sink<O>>(
    form: Form,
    sink: &mut S,
    out: &mut O,
    loaded: &L,
    steps: &StepTable,
    i: usize,
)
    requires can { S.can_put sink.old out.old }
    requires index { i < length steps.now }
    requires small { IsSmallKept (slice_index_or steps.now i (bare 0 false)) }
    requires low { length (L.state loaded.now).formula.clauses < (slice_index_or steps.now i (bare 0 false)).id }
    requires high { (slice_index_or steps.now i (bare 0 false)).id < next_of (L.state loaded.now) }
    ensures can { S.can_put sink.new out.new }
    ensures put { (p : Place) → IsPlaceOf (L.state loaded.now) (slice_index_or steps.now i (bare 0 false)).id p
        → (t : Step) × IsStepRewritten (step_at (Some p) (slice_index_or steps.now i (bare 0 false))) t × S.puts sink.old out.old sink.new out.new (written_item form (stepped t)) }
{
    put_start(form, sink, out, steps.id(i));
    put_lemma(form, sink, out, loaded, steps.id(i), steps.is_by_witness(i));
    put_hints(form, sink, out, steps, i);
}

/// The step of the empty clause.
pub fn put_last<O, S: Sink<O>>(form: Form, sink: &mut S, out: &mut O, steps: &StepTable, i: usize)
    requires can { S.can_put sink.old out.old }
    requires index { i < length steps.now }
    requires small { IsSmallKept (slice_index_or steps.now i (bare 0 false)) }
    ensures { S.puts sink.old out.old sink.new out.new (written_item form (stepped (step_at None (slice_index_or steps.now i (bare 0 false))))) }
{
    put_start(form, sink, out, steps.id(i));
    put_hints(form, sink, out, steps, i);
}

/// A deletion; none of no clauses.
pub fn put_deletion<O, S: Sink<O>>(
    form: Form,
    sink: &mut S,
    out: &mut O,
    id: ClauseId,
    ids: &[ClauseId],
)
    requires can { S.can_put sink.old out.old }
    requires id { IsSmall id }
    requires ids { All IsSmall ids.now }
    ensures { S.puts sink.old out.old sink.new out.new (written_items form (deletion id ids.now [])) }
{
    if ids.is_empty() {
        return;
    }
    put_drop_start(form, sink, out, id);
    put_ids(form, sink, out, ids);
    put_end(form, sink, out);
}

/// What stands before the numbers of a deletion: in text its number and `d`, in binary the byte `64` (hexadecimal).
fn put_drop_start<O, S: Sink<O>>(form: Form, sink: &mut S, out: &mut O, id: ClauseId)
    requires can { S.can_put sink.old out.old }
    requires small { IsSmall id }
    ensures { S.puts sink.old out.old sink.new out.new (drop_start form id) }
{
    match form {
        Form::Text => {
            put_id(form, sink, out, id);
            sink.put(out, b"d ");
        }
        Form::Binary => sink.put(out, b"d"),
    }
}

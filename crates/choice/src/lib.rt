#![tactic(auto)]
// Who runs in a tick: one pass over the jobs for the first in the order, one over the sections for what is held, and one for
// the ceilings.
// What is asked of a plan or a state stands in each `requires`, as little as the function needs: ARCHITECTURE.md names these functions, and a
// type that brought the facts along would ask more of their callers.
ghost use Rattle.std.specs.Prelude.{◌≡◌, Bool, ℕ, true, ◌&&◌, ◌||◌, ◌<◌, ltb, eqb, length};
ghost use Rattle.rules.specs.Rows.{all, first, better};
ghost use Rattle.rules.specs.Table.{job_count, section_count};
ghost use Rattle.rules.specs.Tick.{pending, started, chosen};
ghost use Rattle.rules.specs.Order.{comes_before};
ghost use Rattle.choice.specs.Fits.{Paired, Sized, SectionsFit, held_now, HeldTo, clear_of};

use rules::plan::Plan;
use rules::state::State;
use rules::{Instant, Span};

// Whether job i comes before job j in the order: by deadline, then by release, then by number.
#[tactic(auto, using(std::proofs::lemmas::Bool::Decides::nat_tests), unfolding(rules::specs::Order::comes_before))]
fn comes_before(plan: &Plan, i: usize, j: usize) -> bool
    requires { Paired plan.now × (i < job_count plan.now.table) × (j < job_count plan.now.table) }
    ensures { result ≡ comes_before plan.now i j }
{
    (plan.deadline(i), plan.release(i), i) < (plan.deadline(j), plan.release(j), j)
}

// The first job in the order that passes the test.
fn first_job<F: Fn(usize) -> bool>(plan: &Plan, test: F) -> Option<usize>
    requires { Paired plan.now × ((j : ℕ) → j < job_count plan.now.table → F.pre test j) }
    ensures { (f : ℕ → Bool) → ((j : ℕ) (r : Bool) → F.post test j r → r ≡ f j)
        → result ≡ first (comes_before plan.now) f (job_count plan.now.table) }
{
    let n = plan.table().job_count();
    foremost::first(n, test, |i, j| comes_before(plan, i, j))
}

// Whether job j is released and has not finished.
#[tactic(auto, unfolding(rules::specs::Tick::pending))]
fn is_pending(plan: &Plan, state: &State, j: usize) -> bool
    requires { Sized plan.now state.now × (j < job_count plan.now.table) }
    ensures { result ≡ pending plan.now state.now j }
{
    let executed = state.executed();
    (plan.release(j) <= Instant(state.tick())) & (executed[j] < plan.table().cost(j))
}

// Whether job j has executed at least one tick.
#[tactic(auto, unfolding(rules::specs::Tick::started))]
fn is_started(state: &State, j: usize) -> bool
    requires { j < length state.now.executed }
    ensures { result ≡ started state.now j }
{
    let executed = state.executed();
    0 < executed[j]
}

// Whether a pending job holds section s.
#[tactic(auto, using(std::proofs::lemmas::Bool::Decides::nat_tests), unfolding(crate::specs::Fits::held_now, rules::specs::Tick::holds, rules::specs::Tick::pending))]
fn is_held(plan: &Plan, state: &State, s: usize) -> bool
    requires { Sized plan.now state.now × SectionsFit plan.now.table × (s < section_count plan.now.table) }
    ensures { result ≡ held_now plan.now state.now s }
{
    let table = plan.table();
    let job = table.owner(s);
    let executed = state.executed();
    let done = executed[job];
    table.from(s) < done && done < table.to(s) && is_pending(plan, state, job)
}

// How many units of each resource pending jobs hold.
fn held_units(plan: &Plan, state: &State) -> [u32; 16]
    requires { Sized plan.now state.now × SectionsFit plan.now.table }
    ensures { HeldTo plan.now state.now (section_count plan.now.table) result }
{
    let table = plan.table();
    let mut units = [0u32; 16];
    for s in 0..table.section_count() {
        if is_held(plan, state, s) {
            let q = table.resource(s);
            units[q] += 1;
        }
    }
    units
}

// Whether nothing is held of the resource of section s, or this span is below that of the job that owns the section.
#[tactic(auto, using(std::proofs::lemmas::Bool::Decides::nat_tests), unfolding(crate::specs::Fits::clear_of))]
fn clears(plan: &Plan, span: Span, units: &[u32; 16], s: usize) -> bool
    requires { SectionsFit plan.now.table × Paired plan.now × (s < section_count plan.now.table) }
    ensures { result ≡ clear_of plan.now span.0 units.now s }
{
    let table = plan.table();
    let q = table.resource(s);
    units[q] == 0 || span < plan.span(table.owner(s))
}

// Whether a job of this span is below the ceiling of every resource of which units are held.
fn may_start(plan: &Plan, span: Span, units: &[u32; 16]) -> bool
    requires { SectionsFit plan.now.table × Paired plan.now }
    ensures { result ≡ all (clear_of plan.now span.0 units.now) (section_count plan.now.table) }
{
    (0..plan.table().section_count()).all(|s| clears(plan, span, units, s))
}

// The job that runs in this tick, if one does. Inlined, as a step takes some 100 bytes of stack more for it as a function of its own.
#[inline(always)]
pub fn choose(plan: &Plan, state: &State) -> Option<usize>
    requires { Sized plan.now state.now × SectionsFit plan.now.table }
    ensures { result ≡ chosen plan.now state.now }
{
    let first = first_job(plan, |j| is_pending(plan, state, j))?;
    if is_started(state, first) {
        return Some(first);
    }
    let units = held_units(plan, state);
    if may_start(plan, plan.span(first), &units) {
        return Some(first);
    }
    first_job(plan, |j| is_pending(plan, state, j) && is_started(state, j))
}

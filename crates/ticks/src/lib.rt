#![tactic(auto)]
// What a tick writes: how far the job is that ran, and its mark and finish where it ends. And whether all have finished.
// What is asked of a plan or a state stands in each `requires`, as little as the function needs: ARCHITECTURE.md names these functions, and a
// type that brought the facts along would ask more of their callers.
ghost use Rattle.std.specs.Prelude.{◌≡◌, [], ◌+◌, ◌<◌, ◌≤◌, length};
ghost use Rattle.rules.specs.Table as of;
ghost use Rattle.rules.specs.Refusals.{all_finished};
ghost use Rattle.rules.specs.Tick.{ends_stale, mark_for};
ghost use Rattle.rules.specs.Lists.{with_times, at};
ghost use Rattle.rules.specs.Lent.{held, SameLists};
ghost use Rattle.laws.specs.Events.{advance_by};
ghost use Rattle.ticks.specs.Marks.{brings_stale, stale_before};
ghost use Rattle.ticks.specs.Fits.{ArcsFit, Marked, Same, Fit, Ticked};

use rules::plan::Plan;
use rules::state::{FRESH, Lists, STALE, State};
use rules::table::Table;

// Whether arc a leads from a stale job to this one.
#[tactic(auto, using(std::proofs::lemmas::Bool::Decides::nat_tests), unfolding(crate::specs::Marks::brings_stale))]
fn brings_stale(table: &Table, state: &State, job: usize, a: usize) -> bool
    requires { ArcsFit table.now × Marked table.now state.now × (a < of.arc_count table.now) }
    ensures { result ≡ brings_stale table.now state.now job a }
{
    let marks = state.marks();
    table.after(a) == job && marks[table.before(a)] == STALE
}

// Whether a direct predecessor of the job is marked stale.
fn after_stale(table: &Table, state: &State, job: usize) -> bool
    requires { ArcsFit table.now × Marked table.now state.now }
    ensures { result ≡ stale_before table.now state.now job }
{
    (0..table.arc_count()).any(|a| brings_stale(table, state, job, a))
}

// The mark of a job that ends now.
#[tactic(auto, unfolding(rules::specs::Tick::ends_stale, rules::specs::Tick::ends_badly, crate::specs::Marks::stale_before))]
fn mark_at_end(plan: &Plan, state: &State, silent: bool, job: usize) -> u32
    requires { ArcsFit plan.now.table × Marked plan.now.table state.now }
    ensures { result ≡ mark_for (ends_stale plan.now state.now job silent) }
{
    if silent || after_stale(plan.table(), state, job) {
        STALE
    } else {
        FRESH
    }
}

// Gives the job so many ticks from this one on; if it ends with the last, it is marked by that one's report, and its finish is
// the tick after it.
pub fn give_ticks(plan: &Plan, tick: u32, lists: &mut Lists, silent: bool, job: usize, ticks: u32)
    requires same { Same plan.now.table (held tick lists.old) × ArcsFit plan.now.table × (job < of.job_count plan.now.table) }
    requires ticks_bound { (of.executed (held tick lists.old) job + ticks ≤ of.cost plan.now.table job) × (tick + ticks ≤ 10000000) }
    ensures becomes { held (tick + ticks) lists.new ≡ advance_by plan.now (held tick lists.old) silent job ticks }
    ensures lent { SameLists lists.old lists.new }
{
    let cost = plan.table().cost(job);
    let done = lists.executed[job] + ticks;
    lists.executed[job] = done;
    if done == cost {
        lists.marks[job] = mark_at_end(plan, &lists.at(tick), silent, job);
        lists.finish[job] = tick + ticks;
    }
}

// One tick of a plan and a state that were judged: who ran.
pub fn one_tick(plan: &Plan, tick: u32, lists: &mut Lists, silent: bool) -> Option<usize>
    requires { Fit plan.now (held tick lists.old) × (tick < 10000000) }
    ensures ticked { Ticked plan.now (held tick lists.old) silent result (held (tick + 1) lists.new) }
    ensures lent { SameLists lists.old lists.new }
{
    let ran = choice::choose(plan, &lists.at(tick));
    if let Some(job) = ran {
        give_ticks(plan, tick, lists, silent, job, 1);
    }
    ran
}

// Whether every job has finished.
pub fn all_finished(table: &Table, executed: &[u32]) -> bool
    requires { length executed.now ≡ of.job_count table.now }
    ensures { result ≡ all_finished (with_times table.now []) (at 0 executed.now) }
{
    (0..table.job_count()).all(|j| executed[j] == table.cost(j))
}

#![tactic(auto)]
// From one event to the next: while no modified release is reached, and the running job neither passes the end of one of its
// sections nor finishes, the same job runs.
// What is asked of a plan or a state stands in each `requires`, as little as the function needs: ARCHITECTURE.md names these functions, and a
// type that brought the facts along would ask more of their callers.
ghost use Rattle.std.specs.Prelude.{◌≡◌, ◌<◌, ◌≤◌};
ghost use Rattle.rules.specs.Table as of;
ghost use Rattle.rules.specs.Lent.{held, SameLists};
ghost use Rattle.choice.specs.Fits.{Paired, Sized};
ghost use Rattle.ticks.specs.Fits.{Fit};
ghost use Rattle.events.specs.Events.{next_release, next_stop, ticks_free, Next};

use rules::Instant;
use rules::plan::Plan;
use rules::state::{Lists, State};
use rules::table::Table;

// The next modified release after the tick, and at most `end`.
fn next_release(plan: &Plan, tick: Instant, end: Instant) -> Instant
    requires { Paired plan.now }
    ensures { result.0 ≡ next_release plan.now tick.0 end.0 (of.job_count plan.now.table) }
{
    let mut next = end;
    for j in 0..plan.table().job_count() {
        let release = plan.release(j);
        if tick < release && release < next {
            next = release;
        }
    }
    next
}

// The executed ticks at which the job next passes the end of one of its sections, and at most its cost.
fn next_stop(table: &Table, job: usize, done: u32) -> u32
    requires { job < of.job_count table.now }
    ensures { result ≡ next_stop table.now job done (of.section_count table.now) }
{
    let mut stop = table.cost(job);
    for s in 0..table.section_count() {
        if table.owner(s) == job {
            let to = table.to(s);
            if done < to {
                stop = stop.min(to);
            }
        }
    }
    stop
}

// How many ticks the job runs up to the next event, or to `end`: the next release counts only where it comes before its stop.
fn ticks_free(plan: &Plan, state: &State, end: u32, job: usize) -> u32
    requires fits { Sized plan.now state.now × (job < of.job_count plan.now.table) }
    requires left { (of.executed state.now job < of.cost plan.now.table job) × (state.now.tick < end) }
    ensures { result ≡ ticks_free plan.now state.now end job }
{
    let executed = state.executed();
    let done = executed[job];
    let own = next_stop(plan.table(), job, done) - done;
    let tick = Instant(state.tick());
    let most = own.min(end - tick.0);
    if most == 1 {
        return 1;
    }
    let release = next_release(plan, tick, Instant(tick.0 + most));
    release.since(tick).0
}

// Takes the ticks from this one to the next event, or to `end`, every report answered: the tick after them. Where every job has
// finished, no tick is taken, as `Next` says, and the tick is the given one; only where nobody runs can that be.
pub fn skip(plan: &Plan, tick: u32, end: u32, lists: &mut Lists) -> u32
    requires { Fit plan.now (held tick lists.old) × (tick < end) × (end ≤ 10000000) }
    ensures next { Next plan.now (held tick lists.old) end (held result lists.new) }
    ensures lent { SameLists lists.old lists.new }
{
    let state = lists.at(tick);
    match choice::choose(plan, &state) {
        None => {
            if ticks::all_finished(plan.table(), state.executed()) {
                return tick;
            }
            let release = next_release(plan, Instant(tick), Instant(end));
            release.0
        }
        Some(job) => {
            let ticks = ticks_free(plan, &state, end, job);
            ticks::give_ticks(plan, tick, lists, false, job, ticks);
            tick + ticks
        }
    }
}

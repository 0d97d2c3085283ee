#![tactic(auto)]
// One tick, a whole run, lateness.
ghost use Rattle.std.specs.Prelude.{◌≡◌, ◌≤◌, ◌<◌};
ghost use Rattle.rules.specs.Table as of;
ghost use Rattle.rules.specs.Refusals.{step_fault};
ghost use Rattle.rules.specs.Run.{answered, all_end_by};
ghost use Rattle.rules.specs.Lists.{state};
ghost use Rattle.rules.specs.Lent.{held, SameLists};
ghost use Rattle.laws.specs.Answers.{fault_in};
ghost use Rattle.ticks.specs.Fits.{Same, Fit};
ghost use Rattle.states.specs.Ends.{Bounded};
ghost use Rattle.dispatch.specs.Judged.{in_bounds};
ghost use Rattle.dispatch.specs.Promise.{Steps, contents, fault_for, Starts, Runs, Lateness, lateness_in};

use rules::Refusal;
use rules::plan::Plan;
use rules::state::{Lists, State};
use states::ends;

// Whether a plan and a state of it are within their bounds.
#[tactic(auto, unfolding(crate::specs::Judged::in_bounds, rules::specs::Refusals::state_in_bounds, rules::specs::Refusals::job_state_right))]
fn in_bounds(plan: &Plan, state: &State) -> bool
    ensures { result ≡ in_bounds plan.now state.now }
{
    plan::plan_in_bounds(plan) && states::state_in_bounds(plan.table(), state)
}

// 12 for a plan or a state out of bounds, then 13 where every job has finished.
fn judge_step(plan: &Plan, state: &State) -> Result<(), Refusal>
    ensures { fault_in result ≡ step_fault plan.now state.now }
{
    if !in_bounds(plan, state) {
        return Err(Refusal::Bounds);
    }
    let last = states::LAST_TICK <= state.tick();
    if last {
        return Err(Refusal::Bounds);
    }
    if ticks::all_finished(plan.table(), state.executed()) {
        return Err(Refusal::Finished);
    }
    Ok(())
}

// The tick after a step, which is the given one where the step is refused; and the job that ran, if one did.
#[derive(Clone, Copy)]
pub struct Stepped {
    pub tick: u32,
    pub ran: Result<Option<u32>, Refusal>,
}

// One step of a plan from a state, with its report. The tick stands beside the lists, as C hands it in and gets it back.
pub fn step(plan: &Plan, tick: u32, lists: &mut Lists, silent: bool) -> Stepped
    ensures steps { Steps plan.now (held tick lists.old) silent result (held result.tick lists.new) }
    ensures lent { SameLists lists.old lists.new }
{
    if let Err(refusal) = judge_step(plan, &lists.at(tick)) {
        return Stepped {
            tick,
            ran: Err(refusal),
        };
    }
    let ran = ticks::one_tick(plan, tick, lists, silent);
    Stepped {
        tick: tick + 1,
        ran: Ok(ran.map(|job| job as u32)),
    }
}

// 12 for a plan out of bounds, then 11 where a lent list is shorter than the jobs.
fn judge_start(plan: &Plan, lists: &Lists) -> Result<(), Refusal>
    ensures { fault_in result ≡ fault_for plan.now (contents lists.now) }
{
    if !plan::plan_in_bounds(plan) {
        return Err(Refusal::Bounds);
    }
    let n = plan.table().job_count();
    let short = (lists.executed.len() < n) | ((lists.marks.len() < n) | (lists.finish.len() < n));
    if short {
        return Err(Refusal::Room);
    }
    Ok(())
}

// The state at tick 0 of a plan, into the fronts of the lent lists.
pub fn start(plan: &Plan, lists: &mut Lists) -> Result<u32, Refusal>
    ensures starts { Starts plan.now (contents lists.old) result (contents lists.new) }
    ensures lent { SameLists lists.old lists.new }
{
    judge_start(plan, lists)?;
    let n = plan.table().job_count();
    ends::clear(lists.executed, n);
    ends::clear(lists.marks, n);
    ends::clear(lists.finish, n);
    Ok(0)
}

// Runs a judged plan from its start to its end, every report answered, from event to event: the tick of the end state. A `while`, as the
// next event may be any number of ticks away.
fn run_on(plan: &Plan, lists: &mut Lists) -> u32
    requires { Fit plan.now (held 0 lists.old) × Bounded plan.now }
    ensures runs { held result lists.new ≡ answered plan.now (all_end_by plan.now) (held 0 lists.old) }
    ensures lent { SameLists lists.old lists.new }
{
    let end = ends::all_end_by(plan);
    let mut tick = 0;
    while tick < end {
        let next = events::skip(plan, tick, end, lists);
        if next == tick {
            return tick;
        }
        tick = next;
    }
    tick
}

// The same in lists that are as long as the jobs. They come one by one: of a struct made of parts of lists it could not be proved what the
// lists then hold.
fn run_in(plan: &Plan, executed: &mut [u32], marks: &mut [u32], finish: &mut [u32]) -> u32
    requires { Fit plan.now (state 0 executed.old marks.old finish.old) × Bounded plan.now }
    ensures { state result executed.new marks.new finish.new ≡ answered plan.now (all_end_by plan.now) (state 0 executed.old marks.old finish.old) }
{
    let mut lists = Lists {
        executed,
        marks,
        finish,
    };
    run_on(plan, &mut lists)
}

// Runs a plan from tick 0 to its end, every report answered: the end state, into the fronts of the lent lists.
pub fn run(plan: &Plan, lists: &mut Lists) -> Result<u32, Refusal>
    ensures runs { Runs plan.now (contents lists.old) result (contents lists.new) }
    ensures lent { SameLists lists.old lists.new }
{
    start(plan, lists)?;
    let n = plan.table().job_count();
    let executed = &mut *lists.executed;
    let marks = &mut *lists.marks;
    let finish = &mut *lists.finish;
    let end = run_in(plan, &mut executed[..n], &mut marks[..n], &mut finish[..n]);
    Ok(end)
}

// The lateness of a job that is in the table, of a state within its bounds: none where it has not finished.
fn late_at(plan: &Plan, state: &State, j: usize) -> Option<i32>
    requires j_in_bounds { Same plan.now.table state.now × (j < of.job_count plan.now.table) }
    requires j_bound { (of.finish state.now j ≤ 10000000) × (of.deadline plan.now.table j ≤ 1000000) }
    ensures { result ≡ lateness_in plan.now state.now j }
{
    let executed = state.executed();
    let table = plan.table();
    if executed[j] != table.cost(j) {
        return None;
    }
    let finish = state.finish();
    Some(ends::late_by(finish[j], table.deadline(j)))
}

// The lateness of a job of a state: its finish less its own given deadline.
pub fn lateness(plan: &Plan, state: &State, job: u32) -> Result<Option<i32>, Refusal>
    ensures { Lateness plan.now state.now job result }
{
    let j = job as usize;
    if !in_bounds(plan, state) {
        return Err(Refusal::Bounds);
    }
    if plan.table().job_count() <= j {
        return Err(Refusal::Bounds);
    }
    Ok(late_at(plan, state, j))
}

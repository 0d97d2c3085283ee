#![tactic(auto)]
// The table check with the modified times, and the judgement of a plan that is handed in.
ghost use Rattle.std.specs.Prelude.{◌≡◌, ◌+◌, ◌*◌, ◌<◌, ◌≤◌, length};
ghost use Rattle.rules.specs.Table.{job_count};
ghost use Rattle.rules.specs.Refusals.{plan_in_bounds, times_right};
ghost use Rattle.modified.specs.Rounds.{Fit, pairs_to};
ghost use Rattle.plan.specs.Promise.{Puts, Plans};

use modified::Way;
use row_rules::LATEST;
use rules::plan::Plan;
use rules::table::Table;
use rules::{Instant, Refusal, Span};

// Whether a job's modified times lie in 0 to 1,000,000, window at least cost.
#[tactic(auto, using(std::proofs::lemmas::Bool::Decides::nat_tests), unfolding(rules::specs::Refusals::times_right))]
fn times_right(plan: &Plan, j: usize) -> bool
    requires in_table { j < job_count plan.now.table }
    requires in_times { 2 * j + 1 < length plan.now.times }
    ensures { result ≡ times_right plan.now j }
{
    let latest = Instant(LATEST);
    let release = plan.release(j);
    let deadline = plan.deadline(j);
    let cost = Span(plan.table().cost(j));
    release <= latest && deadline <= latest && release <= deadline && cost <= plan.span(j)
}

// Whether a plan that is handed in keeps within its bounds: counts and values meet rules 2 to 7, and the modified times, a
// pair for each job, are right.
pub fn plan_in_bounds(plan: &Plan) -> bool
    ensures { result ≡ plan_in_bounds plan.now }
{
    let table = plan.table();
    if !rows::values_right(table) {
        return false;
    }
    let n = table.job_count();
    plan.times().len() == 2 * n && (0..n).all(|j| times_right(plan, j))
}

// 11, or the times of the jobs, written to the front of the lent list: how many numbers they are.
fn put_times(
    table: &Table,
    times: &mut [u32],
    releases: &[u32; 64],
    tails: &[u32; 64],
) -> Result<u32, Refusal>
    requires few { job_count table.now ≤ 64 }
    requires fit { Fit (job_count table.now) releases.now tails.now }
    ensures { Puts (pairs_to releases.now tails.now (job_count table.now)) times.old result times.new }
{
    let n = table.job_count();
    let needed = 2 * n;
    if times.len() < needed {
        return Err(Refusal::Room);
    }
    modified::write(times, n, releases, tails);
    Ok(needed as u32)
}

// The table check, 2 to 10 in that order, then 11. An accepted table's modified times, release and deadline for each job,
// are written to the front of `times`: the answer is how many numbers they are. A refusal writes nothing.
pub fn plan(table: &Table, times: &mut [u32]) -> Result<u32, Refusal>
    ensures { Plans table.now times.old result times.new }
{
    cycles::judge_cycles(table)?;
    let releases = modified::rounds(table, Way::Forward);
    let tails = modified::rounds(table, Way::Back);
    modified::judge_windows(table, &releases, &tails)?;
    put_times(table, times, &releases, &tails)
}

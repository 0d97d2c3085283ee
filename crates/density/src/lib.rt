#![tactic(auto)]
// The density test of a plan that is handed in.
mod multiple;

ghost use Rattle.std.specs.Prelude.{◌≡◌, ◌≤◌, Ok};
ghost use Rattle.rules.specs.Rows.{first};
ghost use Rattle.rules.specs.Refusals.{gives};
ghost use Rattle.rules.specs.Table.{job_count};
ghost use Rattle.rules.specs.Density.{sorts_before, fails, failing_place, most_multiple};
ghost use Rattle.sums.specs.Sums.{JobsIn, SectionsIn};
ghost use Rattle.density.specs.Promise.{answer_at, said, Answers};

use rules::Refusal;
use rules::plan::Plan;
use sums::order::{before, sorts_before};

// The failing job that stands before all others that fail. Shares and ceilings are found once, for all jobs.
fn first_failing(plan: &Plan, m: u32) -> Option<usize>
    requires { JobsIn plan.now × SectionsIn plan.now × (m ≤ most_multiple) }
    ensures { result ≡ first (sorts_before plan.now) (fails plan.now m) (job_count plan.now.table) }
{
    let shares = sums::shares(plan, m);
    let ceilings = sums::ceilings(plan);
    foremost::first(
        plan.table().job_count(),
        |j| sums::fails(plan, &shares, &ceilings, m, j),
        |i, j| sorts_before(plan, i, j),
    )
}

// The lowest failing place over the common multiple m, from 1, if one fails.
fn lowest_failing(plan: &Plan, m: u32) -> Option<u32>
    requires { JobsIn plan.now × SectionsIn plan.now × (m ≤ most_multiple) }
    ensures { said (Ok result) ≡ gives (answer_at (failing_place plan.now m)) }
{
    let job = first_failing(plan, m)?;
    let earlier = before(plan, plan.table().job_count(), job);
    Some(earlier + 1)
}

// The density test: 12 for a plan out of bounds, then 14 for a common multiple over 1,000,000,000; else the lowest failing place,
// from 1, or none for yes.
pub fn density(plan: &Plan) -> Result<Option<u32>, Refusal>
    ensures { Answers plan.now result }
{
    if !plan::plan_in_bounds(plan) {
        return Err(Refusal::Bounds);
    }
    match multiple::multiple(plan) {
        None => Err(Refusal::Multiple),
        Some(m) => Ok(lowest_failing(plan, m)),
    }
}

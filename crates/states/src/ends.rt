// The start of a run, when it must have ended, and how late a job is.
ghost use Rattle.std.specs.Prelude.{◌≡◌, ◌++◌, true, ◌≤◌, length, replicate, drop};
ghost use Rattle.std.proofs.Math.IntN.{sub_ℕ};
ghost use Rattle.rules.specs.Rows.{sum, largest};
ghost use Rattle.rules.specs.Table.{job_count, cost, modified_release};
ghost use Rattle.rules.specs.Run.{all_end_by};
ghost use Rattle.states.specs.Ends.{Bounded};

use rules::plan::Plan;

// Puts 0 into the first n places.
pub fn clear(list: &mut [u32], n: usize)
    requires { n ≤ length list.old }
    ensures { list.new ≡ replicate n 0 ++ drop n list.old }
{
    list[..n].fill(0);
}

// Finish less deadline, negative when early.
pub fn late_by(finish: u32, deadline: u32) -> i32
    requires { (finish ≤ 10000000) × (deadline ≤ 1000000) }
    ensures { result ≡ sub_ℕ finish deadline }
{
    (finish as i32) - (deadline as i32)
}

// The largest modified release.
fn last_release(plan: &Plan) -> u32
    requires { Bounded plan.now }
    ensures { (result ≡ largest (λ j. true) (modified_release plan.now) 0 (job_count plan.now.table)) × (result ≤ 1000000) }
{
    let mut last: u32 = 0;
    for j in 0..plan.table().job_count() {
        last = last.max(plan.release(j).0);
    }
    last
}

// The sum of all costs.
fn total_cost(plan: &Plan) -> u32
    requires { Bounded plan.now }
    ensures { (result ≡ sum (cost plan.now.table) (job_count plan.now.table)) × (result ≤ 6400000) }
{
    let table = plan.table();
    let mut total = 0;
    for j in 0..table.job_count() {
        total += table.cost(j);
    }
    total
}

// The tick by which all jobs have ended: the largest modified release plus the sum of costs.
#[tactic(auto, unfolding(rules::specs::Run::all_end_by))]
pub fn all_end_by(plan: &Plan) -> u32
    requires { Bounded plan.now }
    ensures { (result ≡ all_end_by plan.now) × (result ≤ 7400000) }
{
    last_release(plan) + total_cost(plan)
}

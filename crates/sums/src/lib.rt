#![tactic(auto)]
// The sums of the density test: what the jobs up to a place add, and b, the longest section that can hold them up. The arrays have room for
// the most jobs and for all resources, as there is no heap.
// What is asked of a plan or a state stands in each `requires`, as little as the function needs: ARCHITECTURE.md names these functions, and a
// type that brought the facts along would ask more of their callers.
pub mod order;

ghost use Rattle.std.specs.Prelude.{◌≡◌, ◌-◌, ◌*◌, ◌/◌, ◌<◌, ◌≤◌, max, get_or};
ghost use Rattle.rules.specs.Rows.{sum};
ghost use Rattle.rules.specs.Table.{latest, most_cost, job_count, section_count, from, to, ticks_of};
ghost use Rattle.rules.specs.Density as rules;
ghost use Rattle.rules.specs.Density.{most_multiple};
ghost use Rattle.sums.specs.Sums.{Timed, JobsIn, SectionAt, SectionsIn, most_share, SharesIn, Shares, up_to, Ceilings, ticks_for, blocking_at};

use crate::order::sorts_before;
use rules::Span;
use rules::plan::Plan;
use rules::table::Table;

// Above every relative deadline: the ceiling of a resource that no job has a section on. A number and not `None`, as the smallest is then
// found with no case.
const NO_CEILING: u32 = 1_000_001;

// The fraction c / d, over the multiple m.
fn share(m: u32, d: Span, c: u32) -> u64
    requires { (0 < d.0) × (m ≤ most_multiple) × (c ≤ most_cost) }
    ensures { (result ≡ m / d.0 * c) × (result ≤ most_share) }
{
    u64::from(m / d.0) * u64::from(c)
}

// What each job adds where it counts: its cost over its relative deadline. There is a division to each, so it is done once.
pub fn shares(plan: &Plan, m: u32) -> [u64; 64]
    requires { JobsIn plan.now × (m ≤ most_multiple) }
    ensures { Shares plan.now m (job_count plan.now.table) result }
{
    let table = plan.table();
    let mut shares = [0u64; 64];
    for i in 0..table.job_count() {
        shares[i] = share(m, plan.span(i), table.cost(i));
    }
    shares
}

// The sum of the shares of those jobs that stand not after job j.
fn sum_to(plan: &Plan, shares: &[u64; 64], j: usize) -> u64
    requires { Timed plan.now × SharesIn (job_count plan.now.table) shares.now × (j < job_count plan.now.table) }
    ensures { (result ≡ sum (up_to plan.now j (λ i. get_or shares.now i 0)) (job_count plan.now.table)) × (result ≤ 64 * most_share) }
{
    let mut total = 0;
    for i in 0..plan.table().job_count() {
        let counts = !sorts_before(plan, j, i);
        if counts {
            total += shares[i];
        }
    }
    total
}

// How long section s is.
fn ticks_of(table: &Table, s: usize) -> u32
    requires { (s < section_count table.now) × (from table.now s ≤ to table.now s) }
    ensures { result ≡ ticks_of table.now s }
{
    table.to(s) - table.from(s)
}

// The ceiling of each resource: the smallest relative deadline of the jobs with a section on it.
pub fn ceilings(plan: &Plan) -> [u32; 16]
    requires { SectionsIn plan.now }
    ensures { Ceilings plan.now (section_count plan.now.table) result }
{
    let table = plan.table();
    let mut ceilings = [NO_CEILING; 16];
    for s in 0..table.section_count() {
        let q = table.resource(s);
        ceilings[q] = plan.span(table.owner(s)).0.min(ceilings[q]);
    }
    ceilings
}

// The longer of b and section s, where this counts: its job's relative deadline is larger than d, and the ceiling of its
// resource is at most d. One that is no longer than b is looked at no further.
fn longer(plan: &Plan, ceilings: &[u32; 16], d: Span, s: usize, b: u32) -> u32
    requires { SectionAt plan.now s × Ceilings plan.now (section_count plan.now.table) ceilings.now × (d.0 ≤ latest) × (b ≤ most_cost) }
    ensures { (result ≡ max b (ticks_for plan.now d.0 s)) × (result ≤ most_cost) }
{
    let table = plan.table();
    let t = ticks_of(table, s);
    if t <= b {
        return b;
    }
    let e = plan.span(table.owner(s));
    let outside = !(d < e);
    if outside {
        return b;
    }
    let c = Span(ceilings[table.resource(s)]);
    let above = d < c;
    if above {
        return b;
    }
    t
}

// b at a relative deadline d: the longest section of a job with a larger one, on a resource whose ceiling is at most d.
fn blocking(plan: &Plan, ceilings: &[u32; 16], d: Span) -> u32
    requires { SectionsIn plan.now × Ceilings plan.now (section_count plan.now.table) ceilings.now × (d.0 ≤ latest) }
    ensures { (result ≡ blocking_at plan.now d.0 (section_count plan.now.table)) × (result ≤ most_cost) }
{
    let mut b = 0;
    for s in 0..plan.table().section_count() {
        b = longer(plan, ceilings, d, s, b);
    }
    b
}

// Whether the place of job j fails: the sum there exceeds the multiple.
pub fn fails(plan: &Plan, shares: &[u64; 64], ceilings: &[u32; 16], m: u32, j: usize) -> bool
    requires { JobsIn plan.now × SectionsIn plan.now × Shares plan.now m (job_count plan.now.table) shares.now
        × Ceilings plan.now (section_count plan.now.table) ceilings.now
        × (m ≤ most_multiple) × (j < job_count plan.now.table) }
    ensures { result ≡ rules.fails plan.now m j }
{
    let d = plan.span(j);
    let b = blocking(plan, ceilings, d);
    let total = sum_to(plan, shares, j) + share(m, d, b);
    total > u64::from(m)
}

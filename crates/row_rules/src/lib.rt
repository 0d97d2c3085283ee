#![tactic(auto, using(std::proofs::lemmas::Bool::Decides::nat_tests), unfolding(rules::specs::Refusals::job_out, rules::specs::Refusals::arc_out, rules::specs::Refusals::section_out, rules::specs::Refusals::overlap, rules::specs::Refusals::within, rules::specs::Refusals::clash))]
// Whether one row breaks its rule, 5 to 8.
ghost use Rattle.std.specs.Prelude.{◌≡◌, ◌<◌, ◌≤◌};
ghost use Rattle.rules.specs.Refusals.{job_out, arc_out, section_out, overlap, within, clash, clashes};
ghost use Rattle.rules.specs.Table.{job_count, arc_count, section_count};

use rules::table::Table;

// The latest release or deadline.
pub const LATEST: u32 = 1_000_000;

const MOST_COST: u32 = 100_000;

const RESOURCES: usize = 16;

// 5: a release, cost or deadline out of bounds.
pub fn job_out(table: &Table, j: usize) -> bool
    requires { j < job_count table.now }
    ensures { result ≡ job_out table.now j }
{
    let cost = table.cost(j);
    table.release(j) > LATEST || cost == 0 || cost > MOST_COST || table.deadline(j) > LATEST
}

// 6: an arc that names a job not in the table.
pub fn arc_out(table: &Table, a: usize) -> bool
    requires { a < arc_count table.now }
    ensures { result ≡ arc_out table.now a }
{
    let n = table.job_count();
    (table.before(a) >= n) | (table.after(a) >= n)
}

// 7: a section's job not in the table, its resource over 15, from not below to, or to above the job's cost.
pub fn section_out(table: &Table, s: usize) -> bool
    requires { s < section_count table.now }
    ensures { result ≡ section_out table.now s }
{
    let owner = table.owner(s);
    let to = table.to(s);
    owner >= table.job_count()
        || table.resource(s) >= RESOURCES
        || table.from(s) >= to
        || to > table.cost(owner)
}

// Whether two sections share a tick.
fn overlap(table: &Table, k: usize, s: usize) -> bool
    requires k_in { k < section_count table.now }
    requires s_in { s < section_count table.now }
    ensures { result ≡ overlap table.now k s }
{
    table.from(k) < table.to(s) && table.from(s) < table.to(k)
}

// Whether section k lies within section s.
fn within(table: &Table, k: usize, s: usize) -> bool
    requires k_in { k < section_count table.now }
    requires s_in { s < section_count table.now }
    ensures { result ≡ within table.now k s }
{
    table.from(s) <= table.from(k) && table.to(k) <= table.to(s)
}

// Whether two sections are of one job and overlap, and are on the same resource or neither lies within the other.
fn clash(table: &Table, k: usize, s: usize) -> bool
    requires k_in { k < section_count table.now }
    requires s_in { s < section_count table.now }
    ensures { result ≡ clash table.now k s }
{
    table.owner(k) == table.owner(s)
        && overlap(table, k, s)
        && (table.resource(k) == table.resource(s) || !(within(table, k, s) || within(table, s, k)))
}

// 8: a section that clashes with a lower-numbered one of the same job.
pub fn clashes(table: &Table, s: usize) -> bool
    requires { s < section_count table.now }
    ensures { result ≡ clashes table.now s }
{
    (0..s).any(|k| clash(table, k, s))
}

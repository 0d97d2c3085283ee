#![tactic(auto)]
// Modified times, by rounds over the arcs: each round reads the times of the round before. Releases go forward along the
// arcs and deadlines back. A deadline is worked on as its tail, how long before 1,000,000 it lies: then both ways take the
// largest, a deadline less a cost is a tail and that cost, and nothing falls below zero. The arrays have room for the most jobs, as there is
// no heap; the jobs of the table are their front.
// What is asked of a table and of arrays stands in each `requires`, as little as the function needs: ARCHITECTURE.md names these functions, and a
// type that brought the facts along would ask more of their callers.
ghost use Rattle.std.specs.Prelude.{◌≡◌, ◌++◌, ◌*◌, ◌<◌, ◌≤◌, length, drop};
ghost use Rattle.rules.specs.Table.{job_count, arc_count, deadline, latest};
ghost use Rattle.laws.specs.Answers.{fault_in};
ghost use Rattle.laws.specs.Refusals.{ArcIn};
ghost use Rattle.modified.specs.Rounds.{JobsIn, ArcsIn, Low, Holds, Fit, source_of, target_of, start_of, gain_of, raised, brought, brought_to, round_to, short, window_found, pairs_to};

use row_rules::LATEST;
use rules::Refusal;
use rules::table::Table;

// Releases go forward along the arcs, deadlines back. The way chooses a number, not a step: an enum, as a closure for each of its four
// numbers would say no more, and the table stands beside it.
#[derive(Clone, Copy)]
pub enum Way {
    Forward,
    Back,
}

// The job that an arc leads from, as a way goes.
fn source(table: &Table, way: Way, a: usize) -> usize
    requires { a < arc_count table.now }
    ensures { result ≡ source_of table.now way a }
{
    match way {
        Way::Forward => table.before(a),
        Way::Back => table.after(a),
    }
}

// The job that it leads to.
fn target(table: &Table, way: Way, a: usize) -> usize
    requires { a < arc_count table.now }
    ensures { result ≡ target_of table.now way a }
{
    match way {
        Way::Forward => table.after(a),
        Way::Back => table.before(a),
    }
}

// What a job has by itself: its own release, or the tail of its own deadline.
fn start(table: &Table, way: Way, j: usize) -> u32
    requires in_table { j < job_count table.now }
    requires deadline_in { deadline table.now j ≤ latest }
    ensures { result ≡ start_of table.now way j }
{
    match way {
        Way::Forward => table.release(j),
        Way::Back => LATEST - table.deadline(j),
    }
}

// What an arc from job i adds to what i has: nothing to a release; to a tail the cost of i, which is the successor there.
fn gain(table: &Table, way: Way, i: usize) -> u32
    requires { i < job_count table.now }
    ensures { result ≡ gain_of table.now way i }
{
    match way {
        Way::Forward => 0,
        Way::Back => table.cost(i),
    }
}

// What each job has by itself.
fn starts(table: &Table, way: Way) -> [u32; 64]
    requires { JobsIn table.now }
    ensures { Holds table.now (start_of table.now way) result }
{
    let mut times = [0u32; 64];
    for j in 0..table.job_count() {
        times[j] = start(table, way, j);
    }
    times
}

// The target of an arc gets at least what its source had in the round before, with the gain.
#[tactic(auto, unfolding(crate::specs::Rounds::raised))]
fn carry(table: &Table, way: Way, a: usize, old: &[u32; 64], new: &mut [u32; 64])
    requires jobs_in { JobsIn table.now }
    requires in_table { a < arc_count table.now }
    requires arc_in { ArcIn table.now a }
    requires low { Low table.now old.now }
    requires size { length new.old ≡ 64 }
    ensures { new.new ≡ raised new.old (target_of table.now way a) (brought table.now way old.now a) }
{
    let i = source(table, way, a);
    let j = target(table, way, a);
    new[j] = new[j].max(old[i] + gain(table, way, i));
}

// One round over the arcs.
fn round(table: &Table, way: Way, old: &[u32; 64]) -> [u32; 64]
    requires jobs_in { JobsIn table.now }
    requires arcs_in { ArcsIn table.now }
    requires low { Low table.now old.now }
    ensures { Holds table.now (brought_to table.now way old.now (arc_count table.now)) result }
{
    let mut new = starts(table, way);
    for a in 0..table.arc_count() {
        carry(table, way, a, old, &mut new);
    }
    new
}

// As many rounds as there are jobs, or until one changes nothing: then no later one would.
pub fn rounds(table: &Table, way: Way) -> [u32; 64]
    requires jobs_in { JobsIn table.now }
    requires arcs_in { ArcsIn table.now }
    ensures { Holds table.now (round_to table.now way (job_count table.now)) result }
{
    let n = table.job_count();
    let mut old = starts(table, way);
    for _k in 0..n {
        let new = round(table, way, &old);
        if new[..n] == old[..n] {
            return old;
        }
        old = new;
    }
    old
}

// Whether a job's release, cost and tail together are more than 1,000,000, so that its window is below its cost.
fn short(table: &Table, releases: &[u32; 64], tails: &[u32; 64], j: usize) -> bool
    requires jobs_in { JobsIn table.now }
    requires releases_low { Low table.now releases.now }
    requires tails_low { Low table.now tails.now }
    requires in_table { j < job_count table.now }
    ensures { result ≡ short table.now releases.now tails.now j }
{
    releases[j] + table.cost(j) + tails[j] > LATEST
}

// 10: the lowest job whose window is below its cost.
pub fn judge_windows(table: &Table, releases: &[u32; 64], tails: &[u32; 64]) -> Result<(), Refusal>
    requires jobs_in { JobsIn table.now }
    requires releases_low { Low table.now releases.now }
    requires tails_low { Low table.now tails.now }
    ensures { fault_in result ≡ window_found table.now releases.now tails.now }
{
    match (0..table.job_count()).find(|j| short(table, releases, tails, *j)) {
        Some(j) => Err(Refusal::Window(j as u32)),
        None => Ok(()),
    }
}

// The times of the n jobs to the front of the lent list: a release, and the deadline of a tail.
pub fn write(times: &mut [u32], n: usize, releases: &[u32; 64], tails: &[u32; 64])
    requires few { n ≤ 64 }
    requires room { 2 * n ≤ length times.old }
    requires fit { Fit n releases.now tails.now }
    ensures { times.new ≡ pairs_to releases.now tails.now n ++ drop (2 * n) times.old }
{
    for j in 0..n {
        times[2 * j] = releases[j];
        times[2 * j + 1] = LATEST - tails[j];
    }
}

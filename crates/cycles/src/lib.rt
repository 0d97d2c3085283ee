#![tactic(auto)]
// Rule 9, after 2 to 8: cycles, by words of 64 bits. The word of a job holds the jobs that a chain of arcs leads to.
// That arcs name one of 64 jobs is asked by three functions: a type for it would have to be made by the one caller that knows it. There are
// 64 words, as there is no heap.
ghost use Rattle.std.specs.Prelude.{◌≡◌, ◌<◌, ◌≤◌, length};
ghost use Rattle.rules.specs.Rows.{lowest};
ghost use Rattle.rules.specs.Table.{job_count};
ghost use Rattle.rules.specs.Refusals.{on_cycle};
ghost use Rattle.laws.specs.Answers.{fault_in};
ghost use Rattle.cycles.specs.Words.{has, insert, joined};
ghost use Rattle.cycles.specs.Chains.{ArcsBelow, Direct, Joins, Reached};
ghost use Rattle.cycles.specs.Promise.{cycles_fault};

use rules::Refusal;
use rules::table::Table;

// Whether the word holds the job.
fn holds(word: u64, job: usize) -> bool
    requires { job < 64 }
    ensures { result ≡ has word job }
{
    (word >> job) % 2 == 1
}

// The word with the job in it.
fn with(word: u64, job: usize) -> u64
    requires { job < 64 }
    ensures { result ≡ insert word job }
{
    word | (1 << job)
}

// The word with all of the word of job k, where it holds k.
#[tactic(auto, unfolding(crate::specs::Words::joined))]
fn join(word: u64, k: usize, next: u64) -> u64
    requires { k < 64 }
    ensures { result ≡ joined word k next }
{
    if holds(word, k) { word | next } else { word }
}

// The words of the arcs alone: the direct successors of each job.
fn direct(table: &Table) -> [u64; 64]
    requires { ArcsBelow table.now 64 }
    ensures { Direct table.now result }
{
    let mut words = [0u64; 64];
    for a in 0..table.arc_count() {
        let before = table.before(a);
        let after = table.after(a);
        words[before] = with(words[before], after);
    }
    words
}

// Chains may also lead through job k: each word that holds k takes in the word of k, as it is now.
fn through(words: &mut [u64], k: usize)
    requires k_in { k < length words.old }
    requires few { length words.old ≤ 64 }
    ensures { Joins k words.old words.new }
{
    let next = words[k];
    for word in words.iter_mut() {
        *word = join(*word, k, next);
    }
}

// The words of all chains between the jobs.
fn reached(table: &Table) -> [u64; 64]
    requires few { job_count table.now ≤ 64 }
    requires arcs_below { ArcsBelow table.now 64 }
    ensures { Reached table.now (job_count table.now) result }
{
    let n = table.job_count();
    let mut words = direct(table);
    for k in 0..n {
        through(&mut words[..n], k);
    }
    words
}

// The lowest job that reaches itself.
fn lowest_on_cycle(table: &Table) -> Option<usize>
    requires few { job_count table.now ≤ 64 }
    requires arcs_below { ArcsBelow table.now 64 }
    ensures { result ≡ lowest (on_cycle table.now) (job_count table.now) }
{
    let words = reached(table);
    (0..table.job_count()).find(|j| holds(words[*j], *j))
}

// 2 to 9, in that order.
pub fn judge_cycles(table: &Table) -> Result<(), Refusal>
    ensures { fault_in result ≡ cycles_fault table.now }
{
    rows::judge_clashes(table)?;
    match lowest_on_cycle(table) {
        Some(j) => Err(Refusal::Cycle(j as u32)),
        None => Ok(()),
    }
}

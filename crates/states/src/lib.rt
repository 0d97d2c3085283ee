#![tactic(auto)]
// Whether a state that is handed in is within bounds.
// What is asked of a plan or a state stands in each `requires`, as little as the function needs: ARCHITECTURE.md names these functions, and a
// type that brought the facts along would ask more of their callers.
pub mod ends;

ghost use Rattle.std.specs.Prelude.{◌≡◌, [], ◌<◌};
ghost use Rattle.rules.specs.Rows.{all};
ghost use Rattle.rules.specs.Table.{job_count};
ghost use Rattle.rules.specs.Refusals.{job_state_right, state_in_bounds};
ghost use Rattle.rules.specs.Lists.{with_times};
ghost use Rattle.ticks.specs.Fits.{Same};
ghost use Rattle.states.specs.Lengths.{lengths_right};

use rules::state::{STALE, State};
use rules::table::Table;

// The last tick of a state.
pub const LAST_TICK: u32 = 10_000_000;

// Whether what a state says of one job is within bounds.
#[tactic(auto, unfolding(rules::specs::Refusals::job_state_right))]
fn job_state_right(table: &Table, state: &State, j: usize) -> bool
    requires { Same table.now state.now × (j < job_count table.now) }
    ensures { result ≡ job_state_right (with_times table.now []) state.now j }
{
    let executed = state.executed();
    let marks = state.marks();
    let finish = state.finish();
    (executed[j] <= table.cost(j)) & ((marks[j] <= STALE) & (finish[j] <= LAST_TICK))
}

// Whether the state's lists are as long as the table's jobs.
#[tactic(auto, unfolding(crate::specs::Lengths::lengths_right))]
fn lengths_right(table: &Table, state: &State) -> bool
    ensures { result ≡ lengths_right table.now state.now }
{
    let n = table.job_count();
    (state.executed().len() == n) & ((state.marks().len() == n) & (state.finish().len() == n))
}

// Whether what a state says of each job is within bounds.
fn all_states_right(table: &Table, state: &State) -> bool
    requires { Same table.now state.now }
    ensures { result ≡ all (job_state_right (with_times table.now []) state.now) (job_count table.now) }
{
    (0..table.job_count()).all(|j| job_state_right(table, state, j))
}

// Whether a state belongs to this many jobs and is within bounds.
pub fn state_in_bounds(table: &Table, state: &State) -> bool
    ensures { result ≡ state_in_bounds (with_times table.now []) state.now }
{
    let fits = lengths_right(table, state) & (state.tick() <= LAST_TICK);
    fits && all_states_right(table, state)
}

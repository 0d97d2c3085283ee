#![tactic(auto)]
// The entries for C. A list goes in as a pointer and a length, so each function takes its lists one by one, as
// include/zubrelets.h has them; it says for each what it takes and writes.
ghost use Rattle.rules.specs.Lists.{table, plan, state};
ghost use Rattle.text.specs.Promises.{Reads, Writes};
ghost use Rattle.plan.specs.Promise.{Plans};
ghost use Rattle.density.specs.Promise as density;
ghost use Rattle.dispatch.specs.Promise.{Steps, Starts, Runs, Lateness, lists};
ghost use Rattle.answer.specs.Promise.{Prints};
ghost use Rattle.c_answers.specs.Answers.{counts_of, length_of, count_of, tick_of, stepped_of, late_of, verdict_of};
ghost use Rattle.zubrelets_c.specs.Promise.{InC};

use c_answers::{ZubCount, ZubCounts, ZubLate, ZubLength, ZubStepped, ZubTick, ZubVerdict};
use rules::plan::Plan;
use rules::state::{Lists, State};
use rules::table::Table;

// Reads a table's text into lent lists.
#[unsafe(no_mangle)]
pub extern "C" fn zub_read(
    text: &[u8],
    jobs: &mut [u32],
    arcs: &mut [u32],
    sections: &mut [u32],
) -> ZubCounts
    ensures { InC (Reads text.now jobs.old arcs.old sections.old
        jobs.new arcs.new sections.new) counts_of result }
{
    text::read(text, jobs, arcs, sections).into()
}

// Writes a table's text into lent bytes.
#[unsafe(no_mangle)]
pub extern "C" fn zub_write(
    jobs: &[u32],
    arcs: &[u32],
    sections: &[u32],
    out: &mut [u8],
) -> ZubLength
    ensures { InC (Writes (table jobs.now arcs.now sections.now) out.old out.new) length_of result }
{
    text::write(&Table::new(jobs, arcs, sections), out).into()
}

// Checks a table and writes its modified times.
#[unsafe(no_mangle)]
pub extern "C" fn zub_plan(
    jobs: &[u32],
    arcs: &[u32],
    sections: &[u32],
    times: &mut [u32],
) -> ZubCount
    ensures { InC (λ a. Plans (table jobs.now arcs.now sections.now) times.old a times.new) count_of result }
{
    plan::plan(&Table::new(jobs, arcs, sections), times).into()
}

// The density test of a plan.
#[unsafe(no_mangle)]
pub extern "C" fn zub_density(
    jobs: &[u32],
    arcs: &[u32],
    sections: &[u32],
    times: &[u32],
) -> ZubVerdict
    ensures { InC (density.Answers (plan jobs.now arcs.now sections.now times.now)) verdict_of result }
{
    density::density(&Plan::new(Table::new(jobs, arcs, sections), times)).into()
}

// The state at tick 0 of a plan, into lent lists.
#[unsafe(no_mangle)]
pub extern "C" fn zub_start(
    jobs: &[u32],
    arcs: &[u32],
    sections: &[u32],
    times: &[u32],
    executed: &mut [u32],
    marks: &mut [u32],
    finish: &mut [u32],
) -> ZubTick
    ensures { InC (λ a. Starts (plan jobs.now arcs.now sections.now times.now)
        (lists executed.old marks.old finish.old) a
        (lists executed.new marks.new finish.new)) tick_of result }
{
    let plan = Plan::new(Table::new(jobs, arcs, sections), times);
    let mut lists = Lists {
        executed,
        marks,
        finish,
    };
    dispatch::start(&plan, &mut lists).into()
}

// One tick of a plan from a state, with its report.
#[unsafe(no_mangle)]
pub extern "C" fn zub_step(
    jobs: &[u32],
    arcs: &[u32],
    sections: &[u32],
    times: &[u32],
    tick: u32,
    executed: &mut [u32],
    marks: &mut [u32],
    finish: &mut [u32],
    silent: bool,
) -> ZubStepped
    ensures { InC (λ a. Steps (plan jobs.now arcs.now sections.now times.now)
        (state tick executed.old marks.old finish.old) silent a
        (state a.tick executed.new marks.new finish.new)) stepped_of result }
{
    let plan = Plan::new(Table::new(jobs, arcs, sections), times);
    let mut lists = Lists {
        executed,
        marks,
        finish,
    };
    dispatch::step(&plan, tick, &mut lists, silent).into()
}

// Runs a plan from tick 0 to its end, every report answered.
#[unsafe(no_mangle)]
pub extern "C" fn zub_run(
    jobs: &[u32],
    arcs: &[u32],
    sections: &[u32],
    times: &[u32],
    executed: &mut [u32],
    marks: &mut [u32],
    finish: &mut [u32],
) -> ZubTick
    ensures { InC (λ a. Runs (plan jobs.now arcs.now sections.now times.now)
        (lists executed.old marks.old finish.old) a
        (lists executed.new marks.new finish.new)) tick_of result }
{
    let plan = Plan::new(Table::new(jobs, arcs, sections), times);
    let mut lists = Lists {
        executed,
        marks,
        finish,
    };
    dispatch::run(&plan, &mut lists).into()
}

// The lateness of a job of a state.
#[unsafe(no_mangle)]
pub extern "C" fn zub_lateness(
    jobs: &[u32],
    arcs: &[u32],
    sections: &[u32],
    times: &[u32],
    tick: u32,
    executed: &[u32],
    marks: &[u32],
    finish: &[u32],
    job: u32,
) -> ZubLate
    ensures { InC (Lateness (plan jobs.now arcs.now sections.now times.now)
        (state tick executed.now marks.now finish.now) job) late_of result }
{
    let plan = Plan::new(Table::new(jobs, arcs, sections), times);
    let state = State::new(tick, executed, marks, finish);
    dispatch::lateness(&plan, &state, job).into()
}

// What the program prints for a text, into lent bytes.
#[unsafe(no_mangle)]
pub extern "C" fn zub_answer(text: &[u8], out: &mut [u8]) -> ZubLength
    ensures { InC (Prints text.now out.old out.new) length_of result }
{
    answer::answer(text, out).into()
}

#![tactic(auto)]
// The whole program as one function: a table's text in, the lines of its run out.
ghost use Rattle.std.specs.Prelude.{◌≡◌, true, []};
ghost use Rattle.rules.specs.Refusals.{check, plan_in_bounds};
ghost use Rattle.rules.specs.Run.{end_state};
ghost use Rattle.rules.specs.Output as rules;
ghost use Rattle.rules.specs.Output.{report, printed};
ghost use Rattle.answer.specs.Promise.{Prints};

use lines::writer::put_bytes;
use page::Page;
use rules::Refusal;
use rules::plan::Plan;
use rules::state::Lists;
use rules::table::Table;

// Runs a plan to its end, in lists with room for the most jobs, as there is no heap, and prints the end state.
fn print_plan(page: &mut Page, plan: &Plan)
    requires empty { page.old ≡ [] }
    requires in_bounds { plan_in_bounds plan.now ≡ true }
    ensures { page.new ≡ report plan.now (end_state plan.now) }
{
    let mut executed = [0u32; 64];
    let mut marks = [0u32; 64];
    let mut finish = [0u32; 64];
    let mut lists = Lists {
        executed: &mut executed,
        marks: &mut marks,
        finish: &mut finish,
    };
    match dispatch::run(plan, &mut lists) {
        Err(refusal) => page.put_refusal(refusal),
        Ok(tick) => page.put_report(plan, &lists.at(tick)),
    }
}

// Checks a table, and prints its run or why it is refused.
fn print_table(page: &mut Page, table: Table)
    requires { page.old ≡ [] }
    ensures { page.new ≡ printed (λ p. report p (end_state p)) (check table.entry) }
{
    let mut times = [0u32; 128];
    match plan::plan(&table, &mut times) {
        Err(refusal) => page.put_refusal(refusal),
        Ok(n) => {
            let end = n as usize;
            print_plan(page, &Plan::new(table, &times[..end]));
        }
    }
}

// Reads a text into lists with room for the largest table, and prints what the table comes to.
fn print_text(page: &mut Page, text: &[u8])
    requires { page.old ≡ [] }
    ensures { page.new ≡ rules.answer text.now }
{
    let mut jobs = [0u32; 192];
    let mut arcs = [0u32; 512];
    let mut sections = [0u32; 512];
    match text::read(text, &mut jobs, &mut arcs, &mut sections) {
        Err(refusal) => page.put_refusal(refusal),
        Ok(counts) => print_table(page, counts.table(&jobs, &arcs, &sections)),
    }
}

// What the program prints for a text, into the front of `out`; 11 and nothing written where the room is too short. The one page is lent to
// all that print: each page that is moved takes its 5,729 bytes of stack again.
pub fn answer(text: &[u8], out: &mut [u8]) -> Result<usize, Refusal>
    ensures { Prints text.now out.old out.new result }
{
    let mut page = Page::new();
    print_text(&mut page, text);
    let lines = page.as_slice();
    if out.len() < lines.len() {
        return Err(Refusal::Room);
    }
    Ok(put_bytes(out, 0, lines))
}

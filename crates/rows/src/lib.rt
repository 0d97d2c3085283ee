#![tactic(auto)]
// Rules 2 to 8: counts and lengths, what stands in a row, sections that clash.
ghost use Rattle.std.specs.Prelude.{◌≡◌, ◌<◌, not};
ghost use Rattle.rules.specs.Rows.{all};
ghost use Rattle.rules.specs.Table.{arc_count};
ghost use Rattle.rules.specs.Refusals.{first_of, accepted, count_faults, arc_out};
ghost use Rattle.laws.specs.Answers.{fault_in};
ghost use Rattle.rows.specs.Judged.{values_fault, clashes_fault};

use row_rules::{arc_out, clashes, job_out, section_out};
use rules::Refusal;
use rules::table::Table;

// 2, 3, 4: counts and lengths.
#[tactic(auto, using(std::proofs::lemmas::Bool::Decides::nat_tests), unfolding(rules::specs::Refusals::count_faults))]
fn judge_counts(table: &Table) -> Result<(), Refusal>
    ensures { fault_in result ≡ first_of (count_faults table.now) }
{
    let n = table.job_count();
    if table.jobs().len() % 3 != 0 || n == 0 || n > 64 {
        return Err(Refusal::Jobs(0));
    }
    if table.arcs().len() % 2 != 0 || table.arc_count() > 256 {
        return Err(Refusal::Arcs(0));
    }
    if table.sections().len() % 4 != 0 || table.section_count() > 128 {
        return Err(Refusal::Sections(0));
    }
    Ok(())
}

// 2 to 7, in that order: counts and lengths, then what stands in a row, the lowest that breaks its rule. Each rule says its search and its
// refusal: a helper over both, as two closures, would be no shorter where it is called.
pub fn judge_values(table: &Table) -> Result<(), Refusal>
    ensures { fault_in result ≡ values_fault table.now }
{
    judge_counts(table)?;
    if let Some(j) = (0..table.job_count()).find(|j| job_out(table, *j)) {
        return Err(Refusal::JobOut(j as u32));
    }
    if let Some(a) = (0..table.arc_count()).find(|a| arc_out(table, *a)) {
        return Err(Refusal::ArcOut(a as u32));
    }
    if let Some(s) = (0..table.section_count()).find(|s| section_out(table, *s)) {
        return Err(Refusal::SectionOut(s as u32));
    }
    Ok(())
}

// Whether no arc breaks 6. It looks at all of them, several at a time, which is quicker than to leave at the first that does.
fn arcs_right(table: &Table) -> bool
    ensures { result ≡ all (λ a. not (arc_out table.now a)) (arc_count table.now) }
{
    let mut right = true;
    for a in 0..table.arc_count() {
        right = right & !arc_out(table, a);
    }
    right
}

// Whether 2 to 7 find nothing: for whoever asks at every tick, and not for the number and the place. The order is free here, and
// it is quickest with the arcs in front, and with a table at hand, whose lists need not be fetched for every row.
pub fn values_right(table: &Table) -> bool
    ensures { result ≡ accepted (values_fault table.now) }
{
    let table = &Table::new(table.jobs(), table.arcs(), table.sections());
    judge_counts(table).is_ok()
        && arcs_right(table)
        && (0..table.job_count()).all(|j| !job_out(table, j))
        && (0..table.section_count()).all(|s| !section_out(table, s))
}

// 2 to 8, in that order.
pub fn judge_clashes(table: &Table) -> Result<(), Refusal>
    ensures { fault_in result ≡ clashes_fault table.now }
{
    judge_values(table)?;
    match (0..table.section_count()).find(|s| clashes(table, *s)) {
        Some(s) => Err(Refusal::Clash(s as u32)),
        None => Ok(()),
    }
}

#![tactic(auto)]
// A table's text: read into three lent lists, and written into lent bytes.
ghost use Rattle.std.specs.Prelude.{◌≡◌, length, ◌*◌, take};
ghost use Rattle.rules.specs.Lists.{table};
ghost use Rattle.parts.specs.Parts.{part_of};
ghost use Rattle.text.specs.Passes.{roomy, Judged};
ghost use Rattle.text.specs.Promises.{Reads, Writes};

use parts::Part;
use rules::Refusal;
use rules::table::Table;

mod reader;

// How many jobs, arcs and sections a table has.
#[derive(Clone, Copy)]
pub struct Counts {
    pub jobs: u32,
    pub arcs: u32,
    pub sections: u32,
}

// Whether lists of these lengths have room for so many rows.
fn have_room(counts: Counts, jobs: usize, arcs: usize, sections: usize) -> bool
    ensures { result ≡ roomy counts jobs arcs sections }
{
    Part::Jobs.has_room(counts.jobs, jobs)
        && Part::Arcs.has_room(counts.arcs, arcs)
        && Part::Sections.has_room(counts.sections, sections)
}

// The first rows of a part's list, so many, or all numbers where it has fewer.
fn front(part: Part, count: u32, values: &[u32]) -> &[u32]
    ensures { result.now ≡ take (count * (part_of part).width) values.now }
{
    let n = part.values(count);
    &values[..n.min(values.len())]
}

impl Counts {
    // The table that stands in the fronts of three lists.
    pub fn table<'a>(self, jobs: &'a [u32], arcs: &'a [u32], sections: &'a [u32]) -> Table<'a>
        ensures { result ≡ table (take (self.jobs * 3) jobs.now) (take (self.arcs * 2) arcs.now) (take (self.sections * 4) sections.now) }
    {
        Table::new(
            front(Part::Jobs, self.jobs, jobs),
            front(Part::Arcs, self.arcs, arcs),
            front(Part::Sections, self.sections, sections),
        )
    }
}

// Reads a text into the front of three lists, which come one by one, as C lends them. The whole text is read into lists of its own before
// the first value is written; they have room for the largest table, as there is no heap.
pub fn read(
    text: &[u8],
    jobs: &mut [u32],
    arcs: &mut [u32],
    sections: &mut [u32],
) -> Result<Counts, Refusal>
    ensures { Reads text.now jobs.old arcs.old sections.old jobs.new arcs.new sections.new result }
{
    let mut own_jobs = [0u32; 192];
    let mut own_arcs = [0u32; 512];
    let mut own_sections = [0u32; 512];
    let counts = reader::read_text(text, &mut own_jobs, &mut own_arcs, &mut own_sections)?;
    if !have_room(counts, jobs.len(), arcs.len(), sections.len()) {
        return Err(Refusal::Room);
    }
    let j = Part::Jobs.values(counts.jobs);
    let a = Part::Arcs.values(counts.arcs);
    let s = Part::Sections.values(counts.sections);
    jobs[..j].copy_from_slice(&own_jobs[..j]);
    arcs[..a].copy_from_slice(&own_arcs[..a]);
    sections[..s].copy_from_slice(&own_sections[..s]);
    Ok(counts)
}

// Whether a list is whole rows of a part, and a right number of them.
fn judge(part: Part, values: &[u32]) -> Result<(), Refusal>
    ensures { Judged (part_of part) (length values.now) result }
{
    if !part.right_length(values.len()) {
        return Err(part.refusal(0));
    }
    Ok(())
}

// Writes the text of a table into the front of `out`. Counts and room are judged before the first byte is written.
pub fn write(table: &Table, out: &mut [u8]) -> Result<usize, Refusal>
    ensures { Writes table.now out.old out.new result }
{
    judge(Part::Jobs, table.jobs())?;
    judge(Part::Arcs, table.arcs())?;
    judge(Part::Sections, table.sections())?;
    let needed = parts::writer::text_length(table);
    if out.len() < needed {
        return Err(Refusal::Room);
    }
    Ok(parts::writer::put_text(out, table))
}

// The two passes of the writer: how long a text is, and the text. That a part has a right count is asked by each function of it: the lists
// are slices of the caller's table, and no type of their own.
ghost use Rattle.std.specs.Prelude.{◌≡◌, ◌+◌, ◌/◌, ◌≤◌, length};
ghost use Rattle.rules.specs.Text.{value_lines, part_text, text_of};
ghost use Rattle.laws.specs.Text.{Counted, AllCounted};
ghost use Rattle.parts.specs.Parts.{part_of};
ghost use Rattle.lines.specs.Put.{Over};

use crate::Part;
use lines::writer;
use rules::table::Table;

// ---- lengths

// How many bytes the lines of a part's values have.
fn values_length(part: Part, values: &[u32]) -> usize
    requires { length values.now ≤ 512 }
    ensures { (result ≡ length (value_lines (part_of part) 0 values.now)) × (result ≤ 10240) }
{
    let mut sum = 0;
    for (i, value) in values.iter().enumerate() {
        sum += writer::line_length(part.key_at(i), *value);
    }
    sum
}

// How many rows a list has.
fn rows(part: Part, values: &[u32]) -> u32
    requires { Counted (part_of part) values.now }
    ensures { result ≡ length values.now / (part_of part).width }
{
    (values.len() / part.width()) as u32
}

// How many bytes a part has.
fn part_length(part: Part, values: &[u32]) -> usize
    requires { Counted (part_of part) values.now }
    ensures { (result ≡ length (part_text (part_of part) values.now)) × (result ≤ 10260) }
{
    writer::line_length(part.head(), rows(part, values)) + values_length(part, values)
}

// How many bytes the text of a table has.
pub fn text_length(table: &Table) -> usize
    requires { AllCounted table.now }
    ensures { result ≡ length (text_of table.now) }
{
    part_length(Part::Jobs, table.jobs())
        + part_length(Part::Arcs, table.arcs())
        + part_length(Part::Sections, table.sections())
}

// ---- bytes, which are the caller's; each function answers the place after what it has written

// The lines of a part's values, written from `from` on.
fn put_values(out: &mut [u8], from: usize, part: Part, values: &[u32]) -> usize
    requires { from + length (value_lines (part_of part) 0 values.now) ≤ length out.old }
    ensures { Over out.old from (value_lines (part_of part) 0 values.now) out.new result }
{
    let mut at = from;
    for (i, value) in values.iter().enumerate() {
        at = writer::put_line(out, at, part.key_at(i), *value);
    }
    at
}

// A part, written from `at` on.
fn put_part(out: &mut [u8], at: usize, part: Part, values: &[u32]) -> usize
    requires counted { Counted (part_of part) values.now }
    requires values_in_bounds { at + length (part_text (part_of part) values.now) ≤ length out.old }
    ensures { Over out.old at (part_text (part_of part) values.now) out.new result }
{
    let next = writer::put_line(out, at, part.head(), rows(part, values));
    put_values(out, next, part, values)
}

// The text of a table, written to the front of `out`.
pub fn put_text(out: &mut [u8], table: &Table) -> usize
    requires counted { AllCounted table.now }
    requires in_bounds { length (text_of table.now) ≤ length out.old }
    ensures { Over out.old 0 (text_of table.now) out.new result }
{
    let arcs_at = put_part(out, 0, Part::Jobs, table.jobs());
    let sections_at = put_part(out, arcs_at, Part::Arcs, table.arcs());
    put_part(out, sections_at, Part::Sections, table.sections())
}

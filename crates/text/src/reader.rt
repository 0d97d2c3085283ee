// The reader: one pass over a text, into lists with room for the largest table. A place in the text is a number beside it, since the numbers
// of lines go with it.
ghost use Rattle.std.specs.Prelude.{◌≡◌, ◌*◌, ◌<◌, ◌≤◌, length, drop};
ghost use Rattle.rules.specs.Text.{read_values, read_part};
ghost use Rattle.parts.specs.Parts.{part_of, most_values};
ghost use Rattle.text.specs.Passes.{ReadsPart, ReadsText};

use crate::Counts;
use lines::leaves;
use parts::Part;
use rules::Refusal;

// A part that is read: how many rows it has, the place after it, and the number of the line there.
#[derive(Clone, Copy)]
pub struct Rows {
    pub count: u32,
    pub at: usize,
    pub line: u32,
}

// Reads the lines of `count` rows from the place `from` on, where line `first` starts, into the front of `out`.
fn read_rows(
    text: &[u8],
    part: Part,
    count: u32,
    from: usize,
    first: u32,
    out: &mut [u32],
) -> Result<Rows, Refusal>
    requires from_in_bounds { (from ≤ length text.now) × (count * (part_of part).width ≤ 512) × (first ≤ 4096) }
    requires part_in_bounds { count * (part_of part).width ≤ length out.old }
    ensures { ReadsPart (part_of part) text.now (read_values (part_of part) (count * (part_of part).width) 0 first (drop from text.now)) out.new result }
{
    let n = part.values(count);
    let mut at = from;
    let mut line = first;
    for i in 0..n {
        let Ok(found) = leaves::line_value(&text[at..], part.key_at(i)) else {
            return Err(Refusal::Text(line));
        };
        out[i] = found.value;
        at += found.end;
        line += 1;
    }
    Ok(Rows { count, at, line })
}

// Reads a part from the place `from` on, where line `line` starts, into the front of `out`.
fn read_part(
    text: &[u8],
    part: Part,
    from: usize,
    line: u32,
    out: &mut [u32],
) -> Result<Rows, Refusal>
    requires { (from ≤ length text.now) × (line < 4096) × (most_values part ≤ length out.old) }
    ensures { ReadsPart (part_of part) text.now (read_part (part_of part) line (drop from text.now)) out.new result }
{
    let Ok(count) = leaves::line_value(&text[from..], part.head()) else {
        return Err(Refusal::Text(line));
    };
    if !part.right(count.value as usize) {
        return Err(part.refusal(line));
    }
    read_rows(text, part, count.value, from + count.end, line + 1, out)
}

// Reads a whole text into the fronts of three lists.
pub fn read_text(
    text: &[u8],
    jobs: &mut [u32],
    arcs: &mut [u32],
    sections: &mut [u32],
) -> Result<Counts, Refusal>
    requires { (192 ≤ length jobs.old) × (512 ≤ length arcs.old) × (512 ≤ length sections.old) }
    ensures { ReadsText text.now jobs.new arcs.new sections.new result }
{
    let j = read_part(text, Part::Jobs, 0, 1, jobs)?;
    let a = read_part(text, Part::Arcs, j.at, j.line, arcs)?;
    let s = read_part(text, Part::Sections, a.at, a.line, sections)?;
    let more = s.at < text.len();
    if more {
        return Err(Refusal::Text(s.line));
    }
    Ok(Counts {
        jobs: j.count,
        arcs: a.count,
        sections: s.count,
    })
}

#![tactic(auto)]
// The three parts of a text: each has a count's line, and then its rows.
ghost use Rattle.std.specs.Prelude.{◌≡◌, ◌+◌, ◌*◌, ◌%◌, ◌<◌, ◌≤◌, leb};
ghost use Rattle.rules.specs.Refusals.{fault, fault_of};
ghost use Rattle.laws.specs.Text.{length_right};
ghost use Rattle.parts.specs.Parts.{part_of};

use rules::Refusal;

pub mod writer;

#[derive(Clone, Copy)]
pub enum Part {
    Jobs,
    Arcs,
    Sections,
}

impl Part {
    // The place of its count's key in the table of keys; those of its rows come after it.
    pub fn head(self) -> usize
        ensures { (result ≡ (part_of self).head) × (result ≤ 7) }
    {
        match self {
            Part::Jobs => 0,
            Part::Arcs => 4,
            Part::Sections => 7,
        }
    }

    // How many values a row has.
    pub fn width(self) -> usize
        ensures { (result ≡ (part_of self).width) × (0 < result) × (result ≤ 4) }
    {
        match self {
            Part::Jobs => 3,
            Part::Arcs => 2,
            Part::Sections => 4,
        }
    }

    // Whether so many rows are right.
    pub fn right(self, count: usize) -> bool
        ensures { result ≡ (part_of self).right count }
    {
        match self {
            Part::Jobs => (1..=64).contains(&count),
            Part::Arcs => count <= 256,
            Part::Sections => count <= 128,
        }
    }

    // The refusal of a wrong count.
    pub fn refusal(self, line: u32) -> Refusal
        ensures { fault_of result ≡ fault (part_of self).refusal line }
    {
        match self {
            Part::Jobs => Refusal::Jobs(line),
            Part::Arcs => Refusal::Arcs(line),
            Part::Sections => Refusal::Sections(line),
        }
    }

    // The place of the key of its value i: the keys of a row come round again.
    pub fn key_at(self, i: usize) -> usize
        ensures { (result ≡ (part_of self).head + 1 + i % (part_of self).width) × (result < 12) }
    {
        self.head() + 1 + i % self.width()
    }

    // How many values so many rows have.
    pub fn values(self, count: u32) -> usize
        ensures { result ≡ count * (part_of self).width }
    {
        count as usize * self.width()
    }

    // Whether a lent list has room for so many rows.
    pub fn has_room(self, count: u32, lent: usize) -> bool
        ensures { result ≡ leb (count * (part_of self).width) lent }
    {
        self.values(count) <= lent
    }

    // Whether a list is whole rows, and a right number of them.
    pub fn right_length(self, length: usize) -> bool
        ensures { result ≡ length_right (part_of self) length }
    {
        let width = self.width();
        length % width == 0 && self.right(length / width)
    }
}

#![tactic(auto)]
// The types that every crate shares. What 01 says stands as definitions in specs/.
pub mod plan;
pub mod state;
pub mod table;

ghost use Rattle.std.specs.Prelude.{◌≡◌, ◌-◌};
ghost use Rattle.rules.specs.Refusals.{number_of, place_of};

// A point in time: a release, a deadline, a tick. Compared only with instants.
#[derive(Clone, Copy, PartialEq, Eq, PartialOrd, Ord)]
pub struct Instant(pub u32);

// A length of time: a relative deadline. Compared only with spans.
#[derive(Clone, Copy, PartialEq, Eq, PartialOrd, Ord)]
pub struct Span(pub u32);

impl Instant {
    // How long after `from` this instant is: no time at all, where it is not after.
    pub fn since(self, from: Instant) -> Span
        ensures { result.0 ≡ self.0 - from.0 }
    {
        Span(self.0.saturating_sub(from.0))
    }
}

// Why an entry does not do its work, with the place where 01 gives one.
#[derive(Clone, Copy)]
pub enum Refusal {
    Text(u32),
    Jobs(u32),
    Arcs(u32),
    Sections(u32),
    JobOut(u32),
    ArcOut(u32),
    SectionOut(u32),
    Clash(u32),
    Cycle(u32),
    Window(u32),
    Room,
    Bounds,
    Finished,
    Multiple,
}

impl Refusal {
    // 01's number of the refusal: C and what is printed have it.
    pub fn number(self) -> u32
        ensures { result ≡ number_of self }
    {
        match self {
            Refusal::Text(_) => 1,
            Refusal::Jobs(_) => 2,
            Refusal::Arcs(_) => 3,
            Refusal::Sections(_) => 4,
            Refusal::JobOut(_) => 5,
            Refusal::ArcOut(_) => 6,
            Refusal::SectionOut(_) => 7,
            Refusal::Clash(_) => 8,
            Refusal::Cycle(_) => 9,
            Refusal::Window(_) => 10,
            Refusal::Room => 11,
            Refusal::Bounds => 12,
            Refusal::Finished => 13,
            Refusal::Multiple => 14,
        }
    }

    // Where: a line, a job, an arc or a section, or 0.
    pub fn place(self) -> u32
        ensures { result ≡ place_of self }
    {
        match self {
            Refusal::Text(place)
            | Refusal::Jobs(place)
            | Refusal::Arcs(place)
            | Refusal::Sections(place)
            | Refusal::JobOut(place)
            | Refusal::ArcOut(place)
            | Refusal::SectionOut(place)
            | Refusal::Clash(place)
            | Refusal::Cycle(place)
            | Refusal::Window(place) => place,
            Refusal::Room | Refusal::Bounds | Refusal::Finished | Refusal::Multiple => 0,
        }
    }
}

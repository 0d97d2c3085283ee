// A state as it is lent, and the lists that a run writes.
ghost use Rattle.std.specs.Prelude.{◌≡◌};
ghost use Rattle.rules.specs.Lists.{state};
ghost use Rattle.rules.specs.Lent.{held};

use std::marker::Model;

// The marks of a job that has ended: its reading is fresh, or it is stale. A job that has not ended has 0. They are numbers, as C's lists
// hold them.
pub const FRESH: u32 = 1;

pub const STALE: u32 = 2;

// A tick and, for each job, its executed ticks, its mark and its finish.
#[derive(Drop)]
pub struct State<'a> {
    tick: u32,
    executed: &'a [u32],
    marks: &'a [u32],
    finish: &'a [u32],
}

impl<'a> Model for State<'a> {
    ghost use Rattle.rules.specs.Table.{State};
    ghost use Rattle.rules.specs.Lists.{state};

    ghost Value = { State };

    ghost view = { λ s. state s.tick s.executed.now s.marks.now s.finish.now };
}

impl<'a> State<'a> {
    pub fn new(tick: u32, executed: &'a [u32], marks: &'a [u32], finish: &'a [u32]) -> State<'a>
        ensures { result ≡ state tick executed.now marks.now finish.now }
    {
        State {
            tick,
            executed,
            marks,
            finish,
        }
    }

    pub fn tick(&self) -> u32
        ensures { result ≡ self.now.tick }
    {
        self.tick
    }

    // How many ticks each job has executed.
    pub fn executed(&self) -> &'a [u32]
        ensures { result.now ≡ self.now.executed }
    {
        self.executed
    }

    // The mark of each job.
    pub fn marks(&self) -> &'a [u32]
        ensures { result.now ≡ self.now.marks }
    {
        self.marks
    }

    // The finish of each job.
    pub fn finish(&self) -> &'a [u32]
        ensures { result.now ≡ self.now.finish }
    {
        self.finish
    }
}

// The lists of a state, as they are lent to be written.
#[derive(Drop)]
pub struct Lists<'a> {
    pub executed: &'a mut [u32],
    pub marks: &'a mut [u32],
    pub finish: &'a mut [u32],
}

impl<'a> Lists<'a> {
    // The state that the lists hold at a tick.
    pub fn at(&self, tick: u32) -> State<'_>
        ensures { result ≡ held tick self.now }
    {
        State::new(tick, self.executed, self.marks, self.finish)
    }
}

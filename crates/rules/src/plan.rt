// A plan as it is lent.
ghost use Rattle.std.specs.Prelude.{◌≡◌, ◌+◌, ◌*◌, ◌<◌, length};
ghost use Rattle.rules.specs.Table.{Plan, modified_release, modified_deadline, span};
ghost use Rattle.rules.specs.Lists.{with_times};

use crate::table::Table;
use crate::{Instant, Span};
use std::marker::Model;

// A table with its modified times, a release and a deadline for each job.
#[derive(Drop)]
pub struct Plan<'a> {
    table: Table<'a>,
    times: &'a [u32],
}

impl<'a> Model for Plan<'a> {
    ghost use Rattle.rules.specs.Table.{Plan};

    ghost Value = { Plan };

    ghost view = { λ p. record { table = p.table; times = p.times.now } };
}

impl<'a> Plan<'a> {
    pub fn new(table: Table<'a>, times: &'a [u32]) -> Plan<'a>
        ensures { result ≡ with_times table.entry times.now }
    {
        Plan { table, times }
    }

    pub fn table(&self) -> &Table<'a>
        ensures { result.now ≡ self.now.table }
    {
        &self.table
    }

    // The numbers of the modified times.
    pub fn times(&self) -> &'a [u32]
        ensures { result.now ≡ self.now.times }
    {
        self.times
    }

    // The modified release of job j.
    pub fn release(&self, j: usize) -> Instant
        requires { 2 * j + 1 < length self.now.times }
        ensures { result.0 ≡ modified_release self.now j }
    {
        let times = self.times;
        Instant(times[2 * j])
    }

    // The modified deadline of job j.
    pub fn deadline(&self, j: usize) -> Instant
        requires { 2 * j + 1 < length self.now.times }
        ensures { result.0 ≡ modified_deadline self.now j }
    {
        let times = self.times;
        Instant(times[2 * j + 1])
    }

    // The relative deadline of job j.
    pub fn span(&self, j: usize) -> Span
        requires { 2 * j + 1 < length self.now.times }
        ensures { result.0 ≡ span self.now j }
    {
        self.deadline(j).since(self.release(j))
    }
}

#![tactic(auto)]
// The answers of the C interface, made from those of the entries: first the refusal's number, 0 for none, and its place; then the
// entry's values, which are 0 where it is refused. Flags are numbers and the values stand beside them, as C has no enum with values.
use dispatch::Stepped;
use rules::Refusal;
use text::Counts;

// How many jobs, arcs and sections were read.
#[repr(C)]
#[derive(Clone, Copy)]
pub struct ZubCounts {
    pub refusal: u32,
    pub place: u32,
    pub jobs: u32,
    pub arcs: u32,
    pub sections: u32,
}

// How many bytes were written.
#[repr(C)]
#[derive(Clone, Copy)]
pub struct ZubLength {
    pub refusal: u32,
    pub place: u32,
    pub bytes: usize,
}

// How many numbers were written.
#[repr(C)]
#[derive(Clone, Copy)]
pub struct ZubCount {
    pub refusal: u32,
    pub place: u32,
    pub times: u32,
}

// The tick of the state that was written.
#[repr(C)]
#[derive(Clone, Copy)]
pub struct ZubTick {
    pub refusal: u32,
    pub place: u32,
    pub tick: u32,
}

// The tick after a step, 1 where a job ran, and which; the given tick where the step is refused.
#[repr(C)]
#[derive(Clone, Copy)]
pub struct ZubStepped {
    pub refusal: u32,
    pub place: u32,
    pub tick: u32,
    pub ran: u32,
    pub job: u32,
}

// 1 where the job has finished, and its lateness.
#[repr(C)]
#[derive(Clone, Copy)]
pub struct ZubLate {
    pub refusal: u32,
    pub place: u32,
    pub finished: u32,
    pub lateness: i32,
}

// 1 for yes; with a no the lowest failing place, from 1.
#[repr(C)]
#[derive(Clone, Copy)]
pub struct ZubVerdict {
    pub refusal: u32,
    pub place: u32,
    pub yes: u32,
    pub failing: u32,
}

// What `read` answers.
impl From<Result<Counts, Refusal>> for ZubCounts {
    ghost use Rattle.std.specs.Prelude.{◌≡◌};
    ghost use Rattle.c_answers.specs.Answers.{counts_of};

    ghost from_gives = { λ read c. c ≡ counts_of read };

    fn from(read: Result<Counts, Refusal>) -> ZubCounts {
        match read {
            Ok(counts) => ZubCounts {
                refusal: 0,
                place: 0,
                jobs: counts.jobs,
                arcs: counts.arcs,
                sections: counts.sections,
            },
            Err(f) => ZubCounts {
                refusal: f.number(),
                place: f.place(),
                jobs: 0,
                arcs: 0,
                sections: 0,
            },
        }
    }
}

// What `write` and `answer` answer.
impl From<Result<usize, Refusal>> for ZubLength {
    ghost use Rattle.std.specs.Prelude.{◌≡◌};
    ghost use Rattle.c_answers.specs.Answers.{length_of};

    ghost from_gives = { λ written c. c ≡ length_of written };

    fn from(written: Result<usize, Refusal>) -> ZubLength {
        match written {
            Ok(bytes) => ZubLength {
                refusal: 0,
                place: 0,
                bytes,
            },
            Err(f) => ZubLength {
                refusal: f.number(),
                place: f.place(),
                bytes: 0,
            },
        }
    }
}

// What `plan` answers.
impl From<Result<u32, Refusal>> for ZubCount {
    ghost use Rattle.std.specs.Prelude.{◌≡◌};
    ghost use Rattle.c_answers.specs.Answers.{count_of};

    ghost from_gives = { λ planned c. c ≡ count_of planned };

    fn from(planned: Result<u32, Refusal>) -> ZubCount {
        match planned {
            Ok(times) => ZubCount {
                refusal: 0,
                place: 0,
                times,
            },
            Err(f) => ZubCount {
                refusal: f.number(),
                place: f.place(),
                times: 0,
            },
        }
    }
}

// What `start` and `run` answer.
impl From<Result<u32, Refusal>> for ZubTick {
    ghost use Rattle.std.specs.Prelude.{◌≡◌};
    ghost use Rattle.c_answers.specs.Answers.{tick_of};

    ghost from_gives = { λ reached c. c ≡ tick_of reached };

    fn from(reached: Result<u32, Refusal>) -> ZubTick {
        match reached {
            Ok(tick) => ZubTick {
                refusal: 0,
                place: 0,
                tick,
            },
            Err(f) => ZubTick {
                refusal: f.number(),
                place: f.place(),
                tick: 0,
            },
        }
    }
}

// What `step` answers. Where it is refused, the tick is the one handed in.
impl From<Stepped> for ZubStepped {
    ghost use Rattle.std.specs.Prelude.{◌≡◌};
    ghost use Rattle.c_answers.specs.Answers.{stepped_of};

    ghost from_gives = { λ stepped c. c ≡ stepped_of stepped };

    fn from(stepped: Stepped) -> ZubStepped {
        let tick = stepped.tick;
        match stepped.ran {
            Ok(Some(job)) => ZubStepped {
                refusal: 0,
                place: 0,
                tick,
                ran: 1,
                job,
            },
            Ok(None) => ZubStepped {
                refusal: 0,
                place: 0,
                tick,
                ran: 0,
                job: 0,
            },
            Err(f) => ZubStepped {
                refusal: f.number(),
                place: f.place(),
                tick,
                ran: 0,
                job: 0,
            },
        }
    }
}

// What `lateness` answers.
impl From<Result<Option<i32>, Refusal>> for ZubLate {
    ghost use Rattle.std.specs.Prelude.{◌≡◌};
    ghost use Rattle.c_answers.specs.Answers.{late_of};

    ghost from_gives = { λ late c. c ≡ late_of late };

    fn from(late: Result<Option<i32>, Refusal>) -> ZubLate {
        match late {
            Ok(Some(lateness)) => ZubLate {
                refusal: 0,
                place: 0,
                finished: 1,
                lateness,
            },
            Ok(None) => ZubLate {
                refusal: 0,
                place: 0,
                finished: 0,
                lateness: 0,
            },
            Err(f) => ZubLate {
                refusal: f.number(),
                place: f.place(),
                finished: 0,
                lateness: 0,
            },
        }
    }
}

// What the density test answers.
impl From<Result<Option<u32>, Refusal>> for ZubVerdict {
    ghost use Rattle.std.specs.Prelude.{◌≡◌};
    ghost use Rattle.c_answers.specs.Answers.{verdict_of};

    ghost from_gives = { λ verdict c. c ≡ verdict_of verdict };

    fn from(verdict: Result<Option<u32>, Refusal>) -> ZubVerdict {
        match verdict {
            Ok(None) => ZubVerdict {
                refusal: 0,
                place: 0,
                yes: 1,
                failing: 0,
            },
            Ok(Some(failing)) => ZubVerdict {
                refusal: 0,
                place: 0,
                yes: 0,
                failing,
            },
            Err(f) => ZubVerdict {
                refusal: f.number(),
                place: f.place(),
                yes: 0,
                failing: 0,
            },
        }
    }
}

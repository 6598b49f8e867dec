//! Why a call is refused.
ghost use Rattle.std.specs.Prelude.{◌≡◌};
ghost use Rattle.simulator.specs.Refusals.{number};

// Stays: a second enum beside that of `book`, since the simulator shares no code with what it is compared with (a rule of the project).
/// Why a call is refused; each reason has the number by which it is told.
#[derive(Clone, Copy, PartialEq, Eq)]
pub enum SimRefusal {
    /// The place is above 15.
    Place = 1,
    /// The period is not 1 to 4,096.
    Period = 2,
    /// The phase is not below the period.
    Phase = 3,
    /// The deadline is not 1 to 254.
    Deadline = 4,
    /// The pairs make no time table.
    Table = 5,
    /// The hyperperiod would pass 4,096.
    Hyperperiod = 6,
    /// A hyperperiod would have more than 64 jobs.
    Jobs = 7,
    /// The place is empty.
    Empty = 8,
    /// The rounds are not 1 to 8.
    Rounds = 9,
    /// There are fewer than 257 cells.
    Cells = 10,
    /// There is no such job, or no such round.
    NoJob = 11,
    /// The job's deadline falls after the window's end.
    Window = 12,
    /// The weight of all scenarios of the job is too large.
    TooHeavy = 13,
}

impl SimRefusal {
    // Stays: `u32::from` would be no plainer, as the body is one cast and the name `number` says what the u32 is.
    /// The number of the reason.
    pub fn number(self) -> u32
        ensures { result ≡ number self }
    {
        self as u32
    }
}

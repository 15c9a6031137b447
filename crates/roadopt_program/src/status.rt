// How a run of the program ends.
ghost use Rattle.std.specs.Prelude.{◌≡◌};

/// The end of a run; its exit status is its place in this list, counted from 0.
#[derive(Clone, Copy, Debug, PartialEq, Eq)]
pub enum Status {
    /// The answer was printed.
    Done,
    /// The answer was printed, and cost and bound differ.
    Gap,
    /// The words aren't one of the forms.
    Usage,
    /// A file couldn't be read.
    ReadFault,
    /// A file or the output couldn't be written.
    WriteFault,
    /// The road file has a fault.
    RoadRefused,
    /// The certificate breaks a rule.
    CertRefused,
    /// There is no memory.
    NoMemory,
    /// The plan breaks a rule.
    PlanBroken,
    /// The plan file isn't a plan of the road.
    PlanRefused,
    /// A file isn't there.
    Missing,
}

impl Status {
    ghost use Rattle.roadopt_program.specs.Statuses.{exit_status};

    /// The exit status, from 0 to 10.
    pub fn code(self) -> u8
        ensures { result ≡ exit_status self }
    {
        match self {
            Status::Done => 0,
            Status::Gap => 1,
            Status::Usage => 2,
            Status::ReadFault => 3,
            Status::WriteFault => 4,
            Status::RoadRefused => 5,
            Status::CertRefused => 6,
            Status::NoMemory => 7,
            Status::PlanBroken => 8,
            Status::PlanRefused => 9,
            Status::Missing => 10,
        }
    }
}

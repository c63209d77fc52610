ghost use Rattle.std.specs.Prelude.{◌≡◌};
ghost use Rattle.login_desk.specs.Statuses.{number_of};

/// What the program ends with: 0 where the work is done, 2 where the arguments are outside the
/// grammar, 3 where the realm source has bytes with which the command can't go on, 4 where a read
/// failed, 5 where a write failed, 7 on want of memory, and 9 where the script has 2^32 bytes or more.
#[derive(Clone, Copy, Debug, PartialEq, Eq)]
pub struct Status(pub u8);

/// How a run ends.
#[derive(Clone, Copy, Debug, PartialEq, Eq)]
pub enum Outcome {
    /// The script was read to its end, and every line is answered; or the line of a check is
    /// written.
    Done,
    /// The arguments are outside the grammar.
    Usage,
    /// The bytes of the realm source are no realm with which the command can go on.
    NoRealm,
    /// A read failed.
    ReadFailed,
    /// A write failed.
    PutFailed,
    Memory,
    /// The script has 2^32 bytes or more.
    TooLong,
}

impl Outcome {
    pub fn status(self) -> Status
        ensures number { result.0 ≡ number_of self }
    {
        Status(match self {
            Outcome::Done => 0,
            Outcome::Usage => 2,
            Outcome::NoRealm => 3,
            Outcome::ReadFailed => 4,
            Outcome::PutFailed => 5,
            Outcome::Memory => 7,
            Outcome::TooLong => 9,
        })
    }
}

ghost use Rattle.std.specs.Prelude.{◌↔◌, IsTrue};

/// What becomes of an account with too many failures.
#[derive(Clone, Copy, Debug, PartialEq, Eq)]
pub enum Mode {
    /// It is locked for a time.
    Temporary,
    /// It is closed for good, until an administrator clears its failures.
    Permanent,
}

/// The numbers of the lockout rule.
#[derive(Clone, Copy, Debug, PartialEq, Eq)]
pub struct Policy {
    pub mode: Mode,
    /// Failures that lock for one increment, or the most that don't close for good: 1 to 1,000.
    pub max_failures: u64,
    /// What each full `max_failures` failures add to the lock: 1 to 86,400 seconds.
    pub wait_increment: u64,
    /// The longest lock of the temporary mode, after a quick failure too: 1 to 86,400 seconds.
    pub max_wait: u64,
    /// How long failures are remembered in the temporary mode: 1 to 31,536,000 seconds.
    pub failure_reset: u64,
    /// A failure sooner than this after the last one is a quick one: 0 to 60,000 milliseconds.
    pub quick_check: u64,
    /// The lock after a quick failure: 0 to 86,400 seconds.
    pub quick_wait: u64,
}

impl Policy {
    ghost use Rattle.lockout.specs.Policy.{IsPolicy};

    /// Whether each number lies in its range.
    pub fn is_valid(&self) -> bool
        ensures ranges { IsTrue result ↔ IsPolicy self.now }
    {
        (1..=1_000).contains(&self.max_failures)
            && (1..=86_400).contains(&self.wait_increment)
            && (1..=86_400).contains(&self.max_wait)
            && (1..=31_536_000).contains(&self.failure_reset)
            && self.quick_check <= 60_000
            && self.quick_wait <= 86_400
    }
}

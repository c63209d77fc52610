use login_base::Memory;
use sqlite::{Error, ErrorCode};

/// Why the store refused a statement.
#[derive(Clone, Copy, Debug, PartialEq, Eq)]
pub enum Fault {
    /// Any other cause than want of memory.
    Failed,
    /// Want of memory.
    Memory,
}

impl From<Error> for Fault {
    ghost use Rattle.sql_base.specs.Faults.{fault_of};
    ghost use Rattle.std.specs.Prelude.{◌≡◌};

    ghost from_gives = { λ error fault. fault ≡ fault_of error };

    fn from(error: Error) -> Fault {
        match error {
            Error::SqliteFailure(ErrorCode::OutOfMemory) => Fault::Memory,
            _ => Fault::Failed,
        }
    }
}

impl From<Memory> for Fault {
    ghost use Rattle.std.specs.Prelude.{◌≡◌};
    ghost use Rattle.sql_base.specs.declared.fault.Fault.TheVariants as faults;

    ghost from_gives = { λ _ fault. fault ≡ faults.Memory };

    fn from(_memory: Memory) -> Fault {
        Fault::Memory
    }
}

ghost use Rattle.std.specs.Prelude.{◌≡◌, ◌≤◌, ◌↔◌, IsTrue};
ghost use Rattle.login_base.specs.InMemory.{FailsNext, no_calls, called, faulted};

use std::marker::Model;

/// How often a form in memory was called, of whose calls the numbered ones fail.
#[derive(Drop)]
pub struct Calls {
    failing: Vec<u64>,
    count: u64,
    faults: u64,
}

impl Model for Calls {
    ghost use Rattle.login_base.specs.InMemory.{CallState};

    ghost Value = { CallState };

    ghost view = { λ c. record { failing = c.failing.items; count = c.count; faults = c.faults } };
}

impl Calls {
    /// No calls yet. Those whose numbers, from 1, stand in `failing` are to fail.
    pub fn new(failing: Vec<u64>) -> Calls
        ensures state { result ≡ no_calls failing.items }
    {
        Calls {
            failing,
            count: 0,
            faults: 0,
        }
    }

    /// Counts a call, and a fault where the call is to fail.
    pub fn fails(&mut self) -> bool
        ensures fails { IsTrue result ↔ FailsNext self.old }
        ensures state { self.new ≡ called result self.old }
        ensures faults { self.old.faults ≤ self.new.faults }
    {
        self.count = self.count.saturating_add(1);
        let fails = self.failing.contains(&self.count);
        if fails {
            self.faults = self.faults.saturating_add(1);
        }
        fails
    }

    /// Counts a fault of the last call, which was not to fail.
    pub fn add_fault(&mut self)
        ensures state { self.new ≡ faulted self.old }
        ensures faults { self.old.faults ≤ self.new.faults }
    {
        self.faults = self.faults.saturating_add(1);
    }
}

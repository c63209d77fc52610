//! What a start adds.
ghost use Rattle.std.specs.Prelude.{◌≡◌};
ghost use Rattle.login_hall.specs.Start.{IsStart};

use facts::{Fact, Realm};

/// There is one way to start over a base with a realm or without one.
pub fn start_adds_the_same(base: &[Fact], realm: &Option<Realm>, one: &[Fact], other: &[Fact])
    requires one { IsStart base.now realm.now one.now }
    requires other { IsStart base.now realm.now other.now }
    ensures same { one.now ≡ other.now }
{}

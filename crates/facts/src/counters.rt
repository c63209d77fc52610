use crate::fact::Fact;
use crate::fold::Fold;

/// Carries the greatest serial of the tab counter.
#[derive(Clone, Copy, Debug)]
pub struct TabSerial;

impl Fold for TabSerial {
    ghost use Rattle.facts.specs.Serials.{tab_serial_after};

    type Carried = u64;

    ghost carry = { λ _. tab_serial_after };

    fn after(&self, carried: &mut u64, fact: &Fact) {
        match fact {
            Fact::Opened { root, tab, .. } => {
                *carried = (*carried).max(root.0.serial).max(tab.0.serial);
            }
            Fact::Rendered { code, .. } => *carried = (*carried).max(code.0.serial),
            Fact::Mark { tab_serial, .. } => *carried = *tab_serial,
            _ => {}
        }
    }
}

/// Carries the greatest serial of the stored counter.
#[derive(Clone, Copy, Debug)]
pub struct StoredSerial;

impl Fold for StoredSerial {
    ghost use Rattle.facts.specs.Serials.{stored_serial_after};

    type Carried = u64;

    ghost carry = { λ _. stored_serial_after };

    fn after(&self, carried: &mut u64, fact: &Fact) {
        match fact {
            Fact::UserPut { user, .. } => *carried = (*carried).max(user.0),
            Fact::SecretSet { serial, .. } => *carried = (*carried).max(*serial),
            Fact::TokenMade { key, .. } => *carried = (*carried).max(key.0.serial),
            Fact::Session { session, .. } => *carried = (*carried).max(session.0.serial),
            Fact::Mark { stored_serial, .. } => *carried = *stored_serial,
            _ => {}
        }
    }
}

/// Carries the greatest serial of a root or a tab.
#[derive(Clone, Copy, Debug)]
pub struct KnownSerial;

impl Fold for KnownSerial {
    ghost use Rattle.facts.specs.Serials.{known_serial_after};

    type Carried = u64;

    ghost carry = { λ _. known_serial_after };

    fn after(&self, carried: &mut u64, fact: &Fact) {
        match fact {
            Fact::Opened { root, tab, .. } => {
                *carried = (*carried).max(root.0.serial).max(tab.0.serial);
            }
            Fact::Rendered { tab, .. } => *carried = (*carried).max(tab.0.serial),
            Fact::Named { tab, .. } => *carried = (*carried).max(tab.0.serial),
            Fact::Passed { tab, .. } => *carried = (*carried).max(tab.0.serial),
            Fact::Completed { tab, .. } => *carried = (*carried).max(tab.0.serial),
            Fact::Session {
                root: Some(root),
                ..
            } => *carried = (*carried).max(root.0.serial),
            Fact::SecretSet { by: Some(tab), .. } => *carried = (*carried).max(tab.0.serial),
            _ => {}
        }
    }
}

/// Carries the version of the last realm.
#[derive(Clone, Copy, Debug)]
pub struct Version;

impl Fold for Version {
    ghost use Rattle.facts.specs.Realms.{version_after};

    type Carried = u64;

    ghost carry = { λ _. version_after };

    fn after(&self, carried: &mut u64, fact: &Fact) {
        match fact {
            Fact::RealmPut { version, .. } => *carried = *version,
            _ => {}
        }
    }
}

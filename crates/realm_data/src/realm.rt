ghost use Rattle.std.specs.Prelude.{◌≡◌, ◌↔◌, ◌*◌, ◌≤◌, true, length, IsTrue, IfOk};
ghost use Rattle.std.specs.Prelude.{Some, None, if◌then◌else◌};
ghost use Rattle.lockout.specs.Policy.{IsPolicy};
ghost use Rattle.realm_data.specs.PasswordHash.{is_iterations};
ghost use Rattle.realm_data.specs.Realm.{is_realm};
ghost use Rattle.realm_data.specs.RealmBuiltin.{builtin_realm};

use crate::realm_builtin::builtin_parts;
use crate::realm_parts::{OtpRule, RealmParts, RealmUser};
use crate::realm_rules::is_realm;
use crate::same::Same;
use lockout::Policy;
use login_base::{Duplicate, Memory};
use sqlite_items::Boxed;
use std::alloc::Global;
use std::fmt;
use std::marker::Model;

/// A realm: how its users log in, to what, and who they are. Contracts see it as its parts.
#[derive(Drop)]
pub struct Realm {
    parts: Boxed<RealmParts>,
}

impl Model for Realm {
    ghost use Rattle.std.specs.Prelude.{IsTrue};
    ghost use Rattle.std.specs.Coded.{codes};
    ghost use Rattle.flow_tree.specs.contracts.exec.Exec as exec;
    ghost use Rattle.realm_data.specs.declared.realm_parts.RealmParts.{RealmParts};
    ghost use Rattle.realm_data.specs.Realm.{is_realm};

    ghost Value = { RealmParts };

    ghost coded = { Prim.hlevel (codes, exec.the_row.coded) };

    ghost view = { λ r. r.parts };

    ghost invariant = { λ r. IsTrue (is_realm r.parts) };
}

impl Realm {
    /// The realm of these parts, or none where they break a rule.
    pub fn new(alloc: Global, parts: RealmParts) -> Result<Option<Realm>, Memory>
        ensures ok { IfOk result (λ realm. realm ≡ (if is_realm parts then Some parts else None)) }
    {
        if !is_realm(alloc, &parts)? {
            return Ok(None);
        }
        Ok(Some(Realm {
            parts: Boxed::new(alloc, parts)?,
        }))
    }

    /// The parts, which keep the rules of a realm.
    pub fn parts(&self) -> &RealmParts
        ensures parts { result.now ≡ self.now }
        ensures sound { IsTrue (is_realm self.now) }
    {
        self.parts.get()
    }

    /// The realm that the service begins with.
    #[tactic(auto, using(crate::proofs::RealmLemmas::builtin_is_realm))]
    pub fn builtin(alloc: Global) -> Result<Realm, Memory>
        ensures ok { IfOk result (λ realm. realm ≡ builtin_realm) }
    {
        Ok(Realm {
            parts: Boxed::new(alloc, builtin_parts(alloc)?)?,
        })
    }

    /// Whether the realms are equal. The order of lists counts.
    pub fn is_same(&self, other: &Realm) -> bool
        ensures value { IsTrue result ↔ (self.now ≡ other.now) }
    {
        self.parts.get().is_same(other.parts.get())
    }

    /// The rule by which failures lock an account.
    #[tactic(auto, using(crate::proofs::RealmRules::policy_in_range))]
    pub fn lockout(&self) -> &Policy
        ensures policy { result.now ≡ self.now.lockout }
        ensures range { IsPolicy result.now }
    {
        &self.parts().lockout
    }

    /// How long a tab lives, in milliseconds.
    #[tactic(auto, using(crate::proofs::RealmRules::tab_limit))]
    pub fn tab_life(&self) -> u64
        ensures value { result ≡ 1000 * self.now.session.tab }
    {
        1000 * self.parts().session.tab
    }

    /// How often a new password is hashed.
    #[tactic(auto, using(crate::proofs::RealmRules::kept_iterations))]
    pub fn iterations(&self) -> u32
        ensures value { result ≡ self.now.iterations }
        ensures range { is_iterations result ≡ true }
    {
        self.parts().iterations
    }

    /// How one-time codes are checked.
    #[tactic(auto, using(crate::proofs::RealmRules::least_digits, crate::proofs::RealmRules::most_digits, crate::proofs::RealmRules::widest_window))]
    pub fn otp(&self) -> OtpRule
        ensures value { result ≡ self.now.otp }
        ensures least { 6 ≤ result.digits }
        ensures most { result.digits ≤ 8 }
        ensures window { result.window ≤ 2 }
    {
        self.parts().otp
    }

    /// How many recovery codes a user is given.
    #[tactic(auto, using(crate::proofs::RealmRules::least_codes, crate::proofs::RealmRules::most_codes))]
    pub fn recovery_count(&self) -> u32
        ensures value { result ≡ self.now.recovery_count }
        ensures least { 1 ≤ result }
        ensures most { result ≤ 16 }
    {
        self.parts().recovery_count
    }

    /// The users whom the realm comes with.
    #[tactic(auto, using(crate::proofs::RealmRules::few_users))]
    pub fn users(&self) -> &[RealmUser]
        ensures users { result.now ≡ self.now.users }
        ensures few { length result.now ≤ 10000 }
    {
        self.parts().users.as_slice()
    }
}

impl Duplicate for Realm {
    fn duplicate(&self, alloc: Global) -> Result<Realm, Memory> {
        let parts = self.parts.get().duplicate(alloc)?;
        Ok(Realm {
            parts: Boxed::new(alloc, parts)?,
        })
    }
}

/// A realm's keys and hashes belong in no log.
impl fmt::Debug for Realm {
    fn fmt<W: fmt::Write>(&self, f: &mut fmt::Formatter<W>) -> fmt::Result {
        f.debug_struct("Realm")
            .field("name", &self.parts.get().name)
            .finish_non_exhaustive()
    }
}

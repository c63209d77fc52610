ghost use Rattle.std.specs.Prelude.{◌≡◌, [], ◌∷◌, ◌++◌, IfOk, OnOk};
ghost use Rattle.tab_asks.specs.Forms.{name_fact, evidence_fact, code_evidence, evidence_of};

use crate::check::{Credential, Spent};
use conditions::secret_of;
use facts::{Fact, Form};
use flow_tree::Kind;
use login_base::{Duplicate, Memory, Moment, Name, Sequence, TabKey, UserId};
use std::alloc::Global;

/// Whose post is accepted in which tab, by which secret, and when.
#[derive(Clone, Copy, Debug, PartialEq, Eq)]
pub struct Passing {
    pub tab: TabKey,
    pub user: UserId,
    pub credential: Credential,
    pub moment: Moment,
}

impl Passing {
    fn name_fact(&self) -> Fact
        ensures { result ≡ name_fact self.now }
    {
        Fact::Named {
            tab: self.tab,
            user: self.user,
        }
    }

    fn evidence_fact(&self, alloc: Global, execution: &Name, kind: Kind) -> Result<Fact, Memory>
        ensures { IfOk result (λ fact. fact ≡ evidence_fact self.now execution.now kind) }
    {
        Ok(Fact::Passed {
            tab: self.tab,
            execution: execution.duplicate(alloc)?,
            user: self.user,
            kind: secret_of(kind),
            credential: self.credential.serial,
            moment: self.moment,
        })
    }

    /// Adds the user's name and the passed execution.
    fn add_named(
        &self,
        alloc: Global,
        execution: &Name,
        kind: Kind,
        added: &mut Sequence<Fact>,
    ) -> Result<(), Memory>
        ensures { OnOk result (added.new ≡
            added.old ++ name_fact self.now ∷ evidence_fact self.now execution.now kind ∷ []) }
    {
        added.push(self.name_fact())?;
        added.push(self.evidence_fact(alloc, execution, kind)?)
    }

    /// Adds the passed execution of a code, and that the code is used up.
    fn add_code(
        &self,
        alloc: Global,
        execution: &Name,
        added: &mut Sequence<Fact>,
    ) -> Result<(), Memory>
        ensures { OnOk result (added.new ≡
            added.old ++ code_evidence self.now execution.now self.now.credential.spent) }
    {
        let credential = self.credential.serial;
        match self.credential.spent {
            Spent::Nothing => Ok(()),
            Spent::Step(step) => {
                added.push(self.evidence_fact(alloc, execution, Kind::Otp)?)?;
                added.push(Fact::SpentStep { credential, step })
            }
            Spent::Number(number) => {
                added.push(self.evidence_fact(alloc, execution, Kind::Recovery)?)?;
                added.push(Fact::SpentRecovery { credential, number })
            }
        }
    }

    /// The evidence of an accepted post.
    pub(crate) fn evidence(&self, alloc: Global, form: &Form) -> Result<Sequence<Fact>, Memory>
        ensures { IfOk result (λ evidence. evidence ≡ evidence_of self.now form.now) }
    {
        let mut added = Sequence::new(alloc);
        match form {
            Form::Username { execution, .. } => {
                self.add_named(alloc, execution, Kind::Username, &mut added)?;
            }
            Form::NamePassword { execution, .. } => {
                self.add_named(alloc, execution, Kind::Form, &mut added)?;
            }
            Form::Password { execution, .. } => {
                added.push(self.evidence_fact(alloc, execution, Kind::Password)?)?;
            }
            Form::Value { execution, .. } => self.add_code(alloc, execution, &mut added)?,
            Form::Terms
            | Form::UpdatePassword { .. }
            | Form::ConfigureOtp { .. }
            | Form::RecoveryCodes
            | Form::VerifyEmail => {}
        }
        Ok(added)
    }
}

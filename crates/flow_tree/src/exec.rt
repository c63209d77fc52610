ghost use Rattle.std.specs.Prelude.{◌≡◌};
ghost use Rattle.flow_tree.specs.Flow.{is_required, is_alternative, is_conditional, is_disabled, is_level};

use login_base::Name;
use sqlite_items::Items;

/// How an execution counts in the flow that it stands in.
#[derive(Clone, Copy, Debug, PartialEq, Eq)]
pub enum Requirement {
    Required,
    Alternative,
    /// Of subflows only: it counts as required where its conditions are true.
    Conditional,
    Disabled,
}

impl Requirement {
    pub fn is_required(self) -> bool
        ensures value { result ≡ is_required self }
    {
        matches!(self, Requirement::Required)
    }

    pub fn is_alternative(self) -> bool
        ensures value { result ≡ is_alternative self }
    {
        matches!(self, Requirement::Alternative)
    }

    pub fn is_conditional(self) -> bool
        ensures value { result ≡ is_conditional self }
    {
        matches!(self, Requirement::Conditional)
    }

    pub fn is_disabled(self) -> bool
        ensures value { result ≡ is_disabled self }
    {
        matches!(self, Requirement::Disabled)
    }
}

/// What an authenticator asks of a browser.
#[derive(Clone, Copy, Debug, PartialEq, Eq)]
pub enum Kind {
    /// Always satisfied.
    Allow,
    /// Never satisfied.
    Deny,
    /// A live session whose levels are fresh.
    Cookie,
    Username,
    Password,
    /// Username and password in one form.
    Form,
    /// A code of a one-time password application.
    Otp,
    /// A recovery code.
    Recovery,
}

/// What a condition asks.
#[derive(Debug, PartialEq, Eq, Drop)]
pub enum Cond {
    /// The user has the role, or with `negate` doesn't have it.
    Role { role: Name, negate: bool },
    /// The user has set up what the executions beside the condition ask for.
    Configured,
    /// The level is asked for, and wasn't reached in the last `age` seconds.
    Level { level: u32, age: u64 },
}

impl Cond {
    /// Whether it is a condition of this level.
    pub fn is_level(&self, level: u32) -> bool
        ensures value { result ≡ is_level level self.now }
    {
        match self {
            Cond::Level { level: own, age: _ } => *own == level,
            Cond::Role { role: _, negate: _ } | Cond::Configured => false,
        }
    }
}

/// One step of a flow.
#[cycle(exec)]
#[derive(Drop)]
pub struct Exec {
    pub id: Name,
    pub requirement: Requirement,
    pub body: Body,
}

/// What an execution is: an authenticator, a condition, or a subflow of further executions.
#[cycle(exec)]
#[derive(Drop)]
pub enum Body {
    Auth(Kind),
    Cond(Cond),
    Sub(Items<Exec>),
}

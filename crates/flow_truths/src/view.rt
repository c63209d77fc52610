ghost use Rattle.std.specs.Prelude.{◌≡◌};
ghost use Rattle.flow_truths.specs.Truth.{is_fresh};

use conditions::{AccountView, LevelView, fresh};
use login_base::{Name, Sequence};

/// What a login's flow is judged by.
#[derive(Debug, Drop)]
pub struct LoginView {
    /// What conditions see of the user, or none where the user is unknown.
    pub account: Option<AccountView>,
    /// The levels of the browser's live session, or none where there is none.
    pub levels: Option<LevelView>,
    /// The level that the login asks.
    pub level: u32,
    /// The moment in milliseconds.
    pub moment: u64,
    /// The ids of the executions with evidence that counts.
    pub counted: Sequence<Name>,
}

impl LoginView {
    /// Whether the level was reached less than `age` seconds before the view's moment.
    pub(crate) fn is_fresh(&self, level: u32, age: u64) -> bool
        ensures { result ≡ is_fresh self.now level age }
    {
        fresh(self.levels.as_ref(), level, age, self.moment)
    }
}

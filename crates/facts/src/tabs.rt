ghost use Rattle.std.specs.Prelude.{◌≡◌, ◌<◌};
ghost use Rattle.facts.specs.Tabs.{is_within_lives, tab_is_live, tab_is_known, is_live, shown_code, live_session, who_of};

use login_base::{Code, Moment, SessionId, UserId};
use realm_data::Action;

/// With what a tab was opened: the version of the realm, the asked level, its life in milliseconds,
/// and when.
#[derive(Clone, Copy, Debug, PartialEq, Eq)]
pub struct Opening {
    pub version: u64,
    pub level: u32,
    pub life: u64,
    pub moment: Moment,
}

impl Opening {
    /// Whether the moment `now` is before the end of so many of the tab's lives.
    fn is_within(&self, lives: u64, now: Moment) -> bool
        requires some { 0 < lives }
        ensures value { result ≡ is_within_lives lives now self.now }
    {
        let (now, opened) = (now.millis(), self.moment.millis());
        now < opened || (now - opened) / lives < self.life
    }

    /// Whether the tab lives at the moment `now`.
    pub fn is_live(&self, now: Moment) -> bool
        ensures value { result ≡ tab_is_live now self.now }
    {
        self.is_within(1, now)
    }

    /// Whether the tab isn't forgotten at the moment `now`: that is two lives after its opening.
    pub fn is_known(&self, now: Moment) -> bool
        ensures value { result ≡ tab_is_known now self.now }
    {
        self.is_within(2, now)
    }
}

/// A session of a root, with the moments of its beginning and of its last use, and how long it
/// lives without use and at most, in seconds.
#[derive(Clone, Copy, Debug, PartialEq, Eq)]
pub struct RootSession {
    pub session: SessionId,
    pub user: UserId,
    pub opened: Moment,
    pub seen: Moment,
    pub idle: u64,
    pub max: u64,
}

impl RootSession {
    /// Whether it is in use at the moment `now`.
    pub fn is_live(&self, now: Moment) -> bool
        ensures value { result ≡ is_live now self.now }
    {
        now.millis().saturating_sub(self.seen.millis()) / 1000 < self.idle
            && now.millis().saturating_sub(self.opened.millis()) / 1000 < self.max
    }
}

/// A page of a tab as it was shown: its code, the action that it asks, if any, and the offer of the ask
/// that made it.
#[derive(Clone, Copy, Debug, PartialEq, Eq)]
pub struct Page {
    pub code: Code,
    pub action: Option<Action>,
    pub offer: [u8; 32],
}

/// What is known of a tab of a root.
#[derive(Clone, Copy, Debug, PartialEq, Eq)]
pub struct TabState {
    /// None where the root has no such tab.
    pub opening: Option<Opening>,
    /// The page that was shown last.
    pub page: Option<Page>,
    /// The user that was named last.
    pub named: Option<UserId>,
    /// The tab has completed after its opening.
    pub completed: bool,
    /// The root's last session, unless it was ended.
    pub session: Option<RootSession>,
}

impl TabState {
    /// The code of the page that was shown last.
    pub fn code(&self) -> Option<Code>
        ensures value { result ≡ shown_code self.now }
    {
        match &self.page {
            Some(page) => Some(page.code),
            None => None,
        }
    }

    /// The session that is live in the root at the moment `now`.
    pub fn live_session(&self, now: Moment) -> Option<RootSession>
        ensures value { result ≡ live_session now self.now }
    {
        match self.session {
            Some(own) if own.is_live(now) => Some(own),
            _ => None,
        }
    }

    /// Whose login it is at the moment `now`: that of the user of the root's live
    /// session, else of the user that was named last.
    pub fn who(&self, now: Moment) -> Option<UserId>
        ensures value { result ≡ who_of now self.now }
    {
        match self.live_session(now) {
            Some(own) => Some(own.user),
            None => self.named,
        }
    }
}

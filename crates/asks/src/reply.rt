use crate::rule::Rule;
use flow_tree::Kind;
use login_base::{Code, Duplicate, Memory, Name, RootKey, Sequence, SessionId, TabKey, UserId};
use realm_data::Action;
use std::alloc::Global;

/// A user as a reply names one.
#[derive(Debug, Drop)]
pub struct Who {
    pub id: UserId,
    pub name: Name,
}

/// An execution that a page asks.
#[derive(Debug, Drop)]
pub struct Need {
    pub id: Name,
    pub kind: Kind,
    /// The number of the next recovery code for `Recovery`, else 0.
    pub number: u32,
}

/// The same page again, with a new code.
#[derive(Debug, Drop)]
pub enum Next {
    /// The page of the executions that are asked.
    Form {
        code: Code,
        asked: Sequence<Need>,
    },
    /// The page of an action, with the texts that it shows.
    Action {
        code: Code,
        kind: Action,
        shown: Sequence<Sequence<u8>>,
    },
}

/// What a reply says: the refusals in their order, then the other replies, then the faults.
#[derive(Debug, Drop)]
pub enum What {
    /// The ask is malformed, first at this place.
    BadForm {
        at: Name,
    },
    /// An administrator's ask breaks a rule of its verb, this one first.
    AdminRefused {
        rule: Rule,
    },
    /// The realm has no such client.
    UnknownClient,
    /// The realm has no level of the asked name.
    LevelUnknown,
    /// A new root is needed, and `count` are known, the most that may be.
    TooManyRoots {
        count: u32,
    },
    /// `count` tabs are known in the root, or in all roots, the most that may be.
    TooManyTabs {
        count: u32,
    },
    /// No root is given, or it has no such tab.
    UnknownTab,
    /// The tab's life is over.
    TabExpired,
    /// The code isn't `current`, which the tab showed last; none where it has shown no page.
    Stale {
        current: Option<Code>,
    },
    /// The tab's named user isn't the live session's, or the post names an existing user who isn't.
    OtherUser {
        tab: Who,
        session: Who,
    },
    /// The tab has completed.
    Finished,
    /// The post's execution isn't asked or takes another form, or its action isn't the asked one.
    NotAsked,
    /// The account is locked while the moment is before `until`, in milliseconds.
    Locked {
        until: u64,
    },
    /// The account is disabled.
    Disabled,
    /// The password was checked against the one with the serial `had`, and the user's is now
    /// another; 0 where there is none.
    CredentialMoved {
        had: u64,
        now: u64,
    },
    /// No account has the name, or it has no password, or the password doesn't fit.
    BadCredentials {
        next: Next,
    },
    /// The one-time code is that of no time step of the window (RFC 6238, section 5.2), or the
    /// recovery code isn't the next one.
    BadCode {
        next: Next,
    },
    /// The code fits spent ones alone; `step` is the least, a time step of 30 s (RFC 6238) or a
    /// recovery code's number.
    CodeSpent {
        step: u64,
        next: Next,
    },
    /// There is no token of this key and kind.
    TokenUnknown,
    /// The token was followed before.
    TokenSpent,
    /// The moment is `expiry` or later, in milliseconds.
    TokenExpired {
        expiry: u64,
    },
    /// Nothing is asked, and the flow needs this deny, the first one.
    Denied {
        execution: Name,
    },
    /// Nothing is asked, and a known user hasn't set up this need, the first one.
    NotConfigured {
        execution: Name,
    },
    /// Nothing is asked for another reason, or the flow holds for nobody.
    DeadEnd,
    /// The flow holds for a known user, but doesn't grant the level that the tab asks.
    LevelMissed {
        level: u32,
    },
    /// The login is complete, in this session, with the level that the tab asks.
    Done {
        session: SessionId,
        user: Who,
        level: u32,
    },
    /// The page of an action that is asked.
    Action {
        code: Code,
        kind: Action,
        /// The texts that the page shows: an offered secret, or the offered codes in order.
        shown: Sequence<Sequence<u8>>,
    },
    /// The page of the executions that are asked, in order.
    Form {
        code: Code,
        asked: Sequence<Need>,
    },
    /// A token was followed.
    ActionDone {
        user: Who,
        kind: Action,
    },
    /// The root's live session is ended, where it had one.
    LoggedOut,
    /// What an administrator is told.
    Told {
        text: Sequence<u8>,
    },
    /// The store failed: nothing was added.
    StoreFault,
    /// No random words could be drawn: nothing was asked.
    DiceFault,
    /// Want of memory: nothing was added.
    Memory,
}

/// The answer to an ask.
#[derive(Debug, Drop)]
pub struct Reply {
    /// The tab that was opened, shown or posted to.
    pub tab: Option<TabKey>,
    /// The root under which a tab was opened.
    pub opened: Option<RootKey>,
    pub what: What,
}

impl Duplicate for Who {
    fn duplicate(&self, alloc: Global) -> Result<Who, Memory> {
        Ok(Who {
            id: self.id,
            name: self.name.duplicate(alloc)?,
        })
    }
}

impl Duplicate for Need {
    fn duplicate(&self, alloc: Global) -> Result<Need, Memory> {
        Ok(Need {
            id: self.id.duplicate(alloc)?,
            kind: self.kind,
            number: self.number,
        })
    }
}

impl Duplicate for Next {
    fn duplicate(&self, alloc: Global) -> Result<Next, Memory> {
        Ok(match self {
            Next::Form { code, asked } => Next::Form {
                code: *code,
                asked: asked.duplicate(alloc)?,
            },
            Next::Action { code, kind, shown } => Next::Action {
                code: *code,
                kind: *kind,
                shown: shown.duplicate(alloc)?,
            },
        })
    }
}

impl Duplicate for What {
    fn duplicate(&self, alloc: Global) -> Result<What, Memory> {
        Ok(match self {
            What::BadForm { at } => What::BadForm {
                at: at.duplicate(alloc)?,
            },
            What::AdminRefused { rule } => What::AdminRefused { rule: *rule },
            What::UnknownClient => What::UnknownClient,
            What::LevelUnknown => What::LevelUnknown,
            What::TooManyRoots { count } => What::TooManyRoots { count: *count },
            What::TooManyTabs { count } => What::TooManyTabs { count: *count },
            What::UnknownTab => What::UnknownTab,
            What::TabExpired => What::TabExpired,
            What::Stale { current } => What::Stale { current: *current },
            What::OtherUser { tab, session } => What::OtherUser {
                tab: tab.duplicate(alloc)?,
                session: session.duplicate(alloc)?,
            },
            What::Finished => What::Finished,
            What::NotAsked => What::NotAsked,
            What::Locked { until } => What::Locked { until: *until },
            What::Disabled => What::Disabled,
            What::CredentialMoved { had, now } => What::CredentialMoved {
                had: *had,
                now: *now,
            },
            What::BadCredentials { next } => What::BadCredentials {
                next: next.duplicate(alloc)?,
            },
            What::BadCode { next } => What::BadCode {
                next: next.duplicate(alloc)?,
            },
            What::CodeSpent { step, next } => What::CodeSpent {
                step: *step,
                next: next.duplicate(alloc)?,
            },
            What::TokenUnknown => What::TokenUnknown,
            What::TokenSpent => What::TokenSpent,
            What::TokenExpired { expiry } => What::TokenExpired { expiry: *expiry },
            What::Denied { execution } => What::Denied {
                execution: execution.duplicate(alloc)?,
            },
            What::NotConfigured { execution } => What::NotConfigured {
                execution: execution.duplicate(alloc)?,
            },
            What::DeadEnd => What::DeadEnd,
            What::LevelMissed { level } => What::LevelMissed { level: *level },
            What::Done {
                session,
                user,
                level,
            } => What::Done {
                session: *session,
                user: user.duplicate(alloc)?,
                level: *level,
            },
            What::Action { code, kind, shown } => What::Action {
                code: *code,
                kind: *kind,
                shown: shown.duplicate(alloc)?,
            },
            What::Form { code, asked } => What::Form {
                code: *code,
                asked: asked.duplicate(alloc)?,
            },
            What::ActionDone { user, kind } => What::ActionDone {
                user: user.duplicate(alloc)?,
                kind: *kind,
            },
            What::LoggedOut => What::LoggedOut,
            What::Told { text } => What::Told {
                text: text.duplicate(alloc)?,
            },
            What::StoreFault => What::StoreFault,
            What::DiceFault => What::DiceFault,
            What::Memory => What::Memory,
        })
    }
}

impl Duplicate for Reply {
    fn duplicate(&self, alloc: Global) -> Result<Reply, Memory> {
        Ok(Reply {
            tab: self.tab,
            opened: self.opened,
            what: self.what.duplicate(alloc)?,
        })
    }
}

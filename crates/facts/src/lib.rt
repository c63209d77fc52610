//! What happened, as plain data: facts, entries, and the chronicle, a list of facts with one
//! reader; and the definitions of what a list of facts says. No policy stands here: which reply an
//! ask is due is said above.
#![tactic(auto)]

mod chronicle;
mod counters;
mod entry;
mod fact;
mod facts;
mod fold;
mod hold;
mod note;
mod realm_put;
mod secret;
mod subject;
mod tabs;
mod token;
mod user_otp;
mod user_password;
mod user_recovery;

pub use asks::{
    Access, AdminVerb, Ask, Finding, Form, Life, Need, NewTab, NewUser, Next, PasswordUse, Post,
    Reply, Rule, Solved, TokenAction, What, Who, password_use, take_password,
};
pub use chronicle::Chronicle;
pub use conditions::SecretKind;
pub use counters::{KnownSerial, StoredSerial, TabSerial, Version};
pub use entry::Entry;
pub use fact::Fact;
pub use facts::Facts;
pub use fold::{Fold, fold_in};
pub use hold::{Hold, last_held_in, newer_held};
pub use note::Note;
pub use realm_data::{
    AcrLevel, Action, Client, OtpRule, OtpSecret, PasswordHash, Realm, RealmParts, RealmUser,
    RecoveryDigests, SessionLimits,
};
pub use realm_put::RealmPut;
pub use secret::Secret;
pub use subject::Subject;
pub use tabs::{Opening, Page, RootSession, TabState};
pub use token::Token;
pub use user_otp::UserOtp;
pub use user_password::UserPassword;
pub use user_recovery::UserRecovery;

//! What every crate of the login service stands on, and nothing of logins: ids and their texts,
//! names, moments, random draws, the arguments of a command line, a list type that contracts see
//! as the list of its items, want of memory, counted steps, and the traits of the outside with
//! their forms in memory.
#![tactic(auto)]

mod argv;
mod calls;
mod draws;
mod duplicate;
mod id;
mod memory;
mod moment;
mod name;
mod room;
mod sequence;
mod sink;
mod source;
mod steps;
#[cfg(test)]
mod tests;

pub use argv::Argv;
pub use calls::Calls;
pub use draws::Draws;
pub use duplicate::Duplicate;
pub use id::{Code, Id, RootKey, SessionId, TabKey, TokenKey, UserId, id_text, read_id, same_id};
pub use memory::Memory;
pub use moment::Moment;
pub use name::{Name, is_name, read_name};
pub use room::{discard, put};
pub use sequence::Sequence;
pub use sink::{MemSink, Put, Sink};
pub use source::{MemSource, Read, Source};
pub use steps::Steps;

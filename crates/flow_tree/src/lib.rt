//! Flow trees, after the authentication flows of Keycloak's Server Administration Guide: which
//! executions a login has and how they nest, which trees are well formed, and the plain meaning
//! of a tree over a list of what is true now: which executions act, which flows hold, what is
//! still needed, and which levels are reached.
#![tactic(auto)]

mod before;
mod copy;
mod exec;
mod fault;
mod judge;
mod laws;
mod leaves;
mod live;
mod lookup;
mod names;
mod needs;
mod range;
mod reach;
mod same;
mod search;
#[cfg(test)]
mod tests;
mod tree;
mod truths;
mod verdict;

pub use exec::{Body, Cond, Exec, Kind, Requirement};
pub use fault::{TreeFault, TreeRule};
pub use laws::{acting_law, flow_law, idle_law, need_law, tree_law};
pub use leaves::Leaf;
pub use live::LiveLevel;
pub use tree::Tree;
pub use truths::Truths;

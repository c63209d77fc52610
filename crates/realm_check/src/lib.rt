//! What a check says of a realm: its name, how many executions its flow has, how deep they lie, and
//! which levels it gives.
#![tactic(auto)]

mod flow_size;
mod line;

pub use flow_size::{execution_count, flow_depth};
pub use line::check_line;

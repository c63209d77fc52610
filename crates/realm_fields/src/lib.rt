//! The fields of a realm file: typed readers of TOML tables, each of which answers what stands there
//! or the first fault with its path.
//!
//! - `fault`: why a text is no realm; `stop`: that, or want of memory, on the way
//! - `path`: where a value stands
//! - `values`, `fields`, `keys`, `items`: values, required and optional keys, unknown keys, arrays
//! - `words`, `salt`, `secrets`: texts with a grammar
//! - `settings`, `levels`, `users`: the tables of a realm, but for its flow
#![tactic(auto)]

mod fault;
mod fields;
mod items;
mod keys;
mod levels;
mod path;
mod salt;
mod secrets;
mod settings;
mod stop;
mod users;
mod values;
mod words;

pub use fault::RealmFault;
pub use fields::{number_at, optional, required, small_number_at, value_at};
pub use items::{few_at, up_to_at};
pub use keys::check_keys;
pub use levels::levels_at;
pub use path::{item_path, key_path};
pub use secrets::otp_of;
pub use settings::lone_number_at;
pub use stop::{Stop, missing};
pub use values::{Reads, array, table};
pub use words::{ExecKind, action_of, exec_kind_of};

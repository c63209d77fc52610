use flow_tree::TreeFault;
use login_base::Sequence;

/// Why bytes are no realm. A path is keys joined by dots, with indexes as `[0]`, as in
/// `flow[1].steps[0].level`.
#[derive(Debug, Drop)]
pub enum RealmFault {
    /// The bytes are no UTF-8, or no TOML.
    NotToml,
    /// A key that has to be there isn't.
    Missing { path: Sequence<u8> },
    /// A table has a key that it can't have.
    Unknown { path: Sequence<u8> },
    /// A value is of another TOML kind.
    WrongKind { path: Sequence<u8> },
    /// A value is outside its range or its grammar, or an array has too few or too many items.
    OutOfRange { path: Sequence<u8> },
    /// The flow is no tree.
    Tree(TreeFault),
    /// An earlier client has the same id, or an earlier user the same name.
    Doubled { path: Sequence<u8> },
    /// A level above 0 that no live condition of the flow asks.
    UnboundLevel { path: Sequence<u8> },
    /// Want of memory.
    Memory,
}

use login_base::Name;

/// What a tree breaks, in the order in which it is looked for.
#[derive(Clone, Copy, Debug, PartialEq, Eq)]
pub enum TreeRule {
    /// An earlier execution has the same id.
    DoubleId,
    /// It is Conditional and no subflow.
    ConditionalLeaf,
    /// It stands deeper than 8. An execution of the tree itself has depth 1, and one of a subflow
    /// the subflow's depth and one more.
    TooDeep,
    /// 64 executions stand before it.
    TooMany,
    /// It is a condition of a level, and an earlier execution is one of the same level.
    DoubleLevel,
    /// It is a condition that is neither Required nor Disabled.
    CondRequirement,
}

/// Why some executions are no tree: the first broken rule, and the id of the first execution in
/// document order that breaks it.
#[derive(Debug, Drop)]
pub struct TreeFault {
    pub rule: TreeRule,
    pub id: Name,
}

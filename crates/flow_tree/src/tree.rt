ghost use Rattle.std.specs.Prelude.{◌≡◌, ◌↔◌, IsTrue, None, Some, IfOk, IfErr, OnOk, MatchOption, length};
ghost use Rattle.std.specs.List.{list_all, list_any};
ghost use Rattle.flow_tree.specs.Faults.{fault_of, broken, IsFirstRule, is_condition};
ghost use Rattle.flow_tree.specs.Flow.{flow_holds, flow_needs, level_holds};
ghost use Rattle.flow_tree.specs.Leaves.{leaves_of};
ghost use Rattle.flow_tree.specs.Levels.{live_levels, live_age};
ghost use Rattle.flow_tree.specs.Names.{has_names};
ghost use Rattle.flow_tree.specs.Places.{places, is_of_kind, kind_among};
ghost use Rattle.flow_tree.specs.Ranges.{is_level_in_range};

use crate::before::{Before, Sought, is_among};
use crate::copy::copy_execs;
use crate::exec::{Exec, Kind, Requirement};
use crate::fault::{TreeFault, TreeRule};
use crate::judge::tally;
use crate::leaves::{Leaf, add_leaves};
use crate::live::{LiveLevel, add_levels, first_age};
use crate::lookup::kind_among;
use crate::needs::add_flow_needs;
use crate::reach::some_reaches;
use crate::same::same_execs;
use crate::search::{first_broken, take_first};
use crate::truths::Truths;
use login_base::{Duplicate, Memory, Name, Sequence};
use sqlite_items::Items;
use std::alloc::Global;
use std::marker::Model;

/// The executions of a login, of which none breaks a rule of trees. Contracts see it as the list
/// of its executions.
#[derive(Drop)]
pub struct Tree {
    alloc: Global,
    execs: Items<Exec>,
}

impl Model for Tree {
    ghost use Rattle.std.specs.Prelude.{◌≡◌, None, List};
    ghost use Rattle.std.specs.Coded.{codes};
    ghost use Rattle.flow_tree.specs.declared.exec.Exec.{Exec};
    ghost use Rattle.flow_tree.specs.contracts.exec.Exec as exec;
    ghost use Rattle.flow_tree.specs.Faults.{fault_of};

    ghost Value = { List Exec };

    ghost coded = { Prim.hlevel (codes, exec.the_row.coded) };

    ghost view = { λ t. t.execs };

    ghost invariant = { λ t. fault_of t.execs ≡ None };
}

/// The rules in the order in which they are looked for.
const RULES: [TreeRule; 6] = [
    TreeRule::DoubleId,
    TreeRule::ConditionalLeaf,
    TreeRule::TooDeep,
    TreeRule::TooMany,
    TreeRule::DoubleLevel,
    TreeRule::CondRequirement,
];

/// The first rule that the executions break.
fn first_rule(execs: &[Exec]) -> Option<TreeRule>
    ensures { MatchOption result (fault_of execs.now ≡ None) (λ rule. IsFirstRule rule execs.now) }
{
    for rule in &RULES {
        if first_broken(*rule, execs, &Before::Nothing).is_some() {
            return Some(*rule);
        }
    }
    None
}

impl Tree {
    /// The tree of these executions, or the first rule that they break with the id of the first
    /// execution in document order that breaks it. It takes no memory.
    pub fn make(alloc: Global, execs: Items<Exec>) -> Result<Tree, TreeFault>
        ensures ok { IfOk result (λ tree. tree ≡ execs) }
        ensures sound { OnOk result (fault_of execs ≡ None) }
        ensures err { IfErr result (λ fault. fault_of execs ≡ Some fault) }
    {
        let Some(rule) = first_rule(execs.as_slice()) else {
            return Ok(Tree { alloc, execs });
        };
        match take_first(rule, execs, &Before::Nothing) {
            Some(id) => Err(TreeFault { rule, id }),
            None => unreachable!(),
        }
    }

    pub fn execs(&self) -> &[Exec]
        ensures execs { result.now ≡ self.now }
        ensures sound { fault_of self.now ≡ None }
    {
        self.execs.as_slice()
    }

    /// Whether the tree's flow is satisfied.
    pub fn holds_by(&self, truths: &Truths) -> bool
        ensures value { result ≡ flow_holds truths.now.held self.now }
    {
        tally(self.execs.as_slice(), truths.held.as_slice()).holds()
    }

    /// The ids of the leaves that the tree's flow is missing, in order.
    pub fn needs_by(&self, truths: &Truths) -> Result<Sequence<Name>, Memory>
        ensures ok { IfOk result (λ needs. needs ≡ flow_needs truths.now.held self.now) }
    {
        let mut needs = Sequence::new(self.alloc);
        add_flow_needs(
            self.alloc,
            self.execs.as_slice(),
            truths.held.as_slice(),
            &mut needs,
        )?;
        Ok(needs)
    }

    /// Whether the level has a live condition whose subflow acts and holds.
    pub fn level_by(&self, level: u32, truths: &Truths) -> bool
        ensures value { result ≡ level_holds truths.now.held level self.now }
    {
        some_reaches(self.execs.as_slice(), level, truths.held.as_slice())
    }

    /// The maximum age of the level's live condition in seconds, or none where it has none.
    pub fn live_age(&self, level: u32) -> Option<u64>
        ensures value { result ≡ live_age level self.now }
    {
        first_age(Requirement::Required, self.execs.as_slice(), level)
    }

    /// The live level conditions, in document order.
    pub fn live_levels(&self) -> Result<Sequence<LiveLevel>, Memory>
        ensures ok { IfOk result (λ levels. levels ≡ live_levels self.now) }
    {
        let mut levels = Sequence::new(self.alloc);
        add_levels(Requirement::Required, self.execs.as_slice(), &mut levels)?;
        Ok(levels)
    }

    /// The authenticators in document order, those in subflows and disabled ones too.
    pub fn leaves(&self) -> Result<Sequence<Leaf>, Memory>
        ensures ok { IfOk result (λ leaves. leaves ≡ leaves_of self.now) }
    {
        let mut leaves = Sequence::new(self.alloc);
        add_leaves(self.alloc, self.execs.as_slice(), &mut leaves)?;
        Ok(leaves)
    }

    /// The kind of the authenticator of this id, or none where there is none.
    pub fn kind_of(&self, id: &Name) -> Option<Kind>
        ensures value { result ≡ kind_among id.now (places self.now) }
    {
        kind_among(self.execs.as_slice(), id)
    }

    /// Whether some execution is an authenticator of this kind.
    pub fn has_kind(&self, kind: Kind) -> bool
        ensures value { result ≡ list_any (λ p. is_of_kind kind p.shape) (places self.now) }
    {
        is_among(self.execs.as_slice(), &Sought::Kind(kind))
    }

    /// Whether some execution is a condition.
    pub fn has_condition(&self) -> bool
        ensures value { result ≡ list_any (λ p. is_condition p.shape) (places self.now) }
    {
        is_among(self.execs.as_slice(), &Sought::Condition)
    }

    /// Whether each condition of a level, enabled or not, has a level of 1 to 1,000 and an age of
    /// at most 31,536,000 seconds.
    pub fn has_levels_in_range(&self) -> bool
        ensures value { result ≡ list_all (λ p. is_level_in_range p.shape) (places self.now) }
    {
        !is_among(self.execs.as_slice(), &Sought::OutOfRange)
    }

    /// Whether each id and each role is a name, as they always are.
    pub fn has_names(&self) -> bool
        ensures value { result ≡ has_names self.now }
        ensures names { IsTrue result }
    {
        !is_among(self.execs.as_slice(), &Sought::Unnamed)
    }

    /// Whether the trees are equal.
    pub fn is_same(&self, other: &Tree) -> bool
        ensures value { IsTrue result ↔ (self.now ≡ other.now) }
    {
        same_execs(self.execs.as_slice(), other.execs.as_slice())
    }
}

impl Duplicate for Tree {
    fn duplicate(&self, alloc: Global) -> Result<Tree, Memory> {
        Ok(Tree {
            alloc,
            execs: copy_execs(alloc, self.execs.as_slice())?,
        })
    }
}

ghost use Rattle.std.specs.Prelude.{◌≡◌, IfOk};
ghost use Rattle.realm_file.specs.FaultWords.{rule_words, path_words, tree_words, fault_words};

use flow_tree::TreeRule;
use login_base::{Memory, Sequence};
use realm_fields::RealmFault;
use std::alloc::Global;

fn rule_words(rule: TreeRule) -> &'static [u8]
    ensures { result.now ≡ rule_words rule }
{
    match rule {
        TreeRule::DoubleId => b"DoubleId",
        TreeRule::ConditionalLeaf => b"ConditionalLeaf",
        TreeRule::TooDeep => b"TooDeep",
        TreeRule::TooMany => b"TooMany",
        TreeRule::DoubleLevel => b"DoubleLevel",
        TreeRule::CondRequirement => b"CondRequirement",
    }
}

/// A name, and a path behind a space, where it isn't empty.
fn path_words(alloc: Global, name: &[u8], path: &[u8]) -> Result<Sequence<u8>, Memory>
    ensures { IfOk result (λ text. text ≡ path_words name.now path.now) }
{
    let mut text = Vec::new(alloc);
    text.extend_from_slice(name)?;
    if let [_, ..] = path {
        text.extend_from_slice(b" ")?;
        text.extend_from_slice(path)?;
    }
    Ok(Sequence::from_vec(text))
}

/// `Tree`, the rule and the id.
fn tree_words(alloc: Global, rule: TreeRule, id: &[u8]) -> Result<Sequence<u8>, Memory>
    ensures { IfOk result (λ text. text ≡ tree_words rule id.now) }
{
    let mut text = Vec::new(alloc);
    text.extend_from_slice(b"Tree ")?;
    text.extend_from_slice(rule_words(rule))?;
    text.extend_from_slice(b" ")?;
    text.extend_from_slice(id)?;
    Ok(Sequence::from_vec(text))
}

/// A fault in words: its name, a space and its path, as `Missing realm`, or the name alone where
/// there is no path or an empty one; of a tree's fault `Tree`, the rule and the id.
#[tactic(auto, unfolding(crate::specs::FaultWords::fault_words))]
pub fn fault_text(alloc: Global, fault: &RealmFault) -> Result<Sequence<u8>, Memory>
    ensures ok { IfOk result (λ text. text ≡ fault_words fault.now) }
{
    match fault {
        RealmFault::NotToml => path_words(alloc, b"NotToml", b""),
        RealmFault::Missing { path } => path_words(alloc, b"Missing", path.as_slice()),
        RealmFault::Unknown { path } => path_words(alloc, b"Unknown", path.as_slice()),
        RealmFault::WrongKind { path } => path_words(alloc, b"WrongKind", path.as_slice()),
        RealmFault::OutOfRange { path } => path_words(alloc, b"OutOfRange", path.as_slice()),
        RealmFault::Tree(fault) => tree_words(alloc, fault.rule, fault.id.as_bytes()),
        RealmFault::Doubled { path } => path_words(alloc, b"Doubled", path.as_slice()),
        RealmFault::UnboundLevel { path } => path_words(alloc, b"UnboundLevel", path.as_slice()),
        RealmFault::Memory => path_words(alloc, b"Memory", b""),
    }
}

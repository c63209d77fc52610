use crate::reader::{execs_of, truths_of};
use flow_tree::{Tree, TreeFault, TreeRule, Truths};
use login_base::{Duplicate, Name};
use std::alloc::{AllocError, Global};

fn rule_name(rule: TreeRule) -> &'static str {
    match rule {
        TreeRule::DoubleId => "DoubleId ",
        TreeRule::ConditionalLeaf => "ConditionalLeaf ",
        TreeRule::TooDeep => "TooDeep ",
        TreeRule::TooMany => "TooMany ",
        TreeRule::DoubleLevel => "DoubleLevel ",
        TreeRule::CondRequirement => "CondRequirement ",
    }
}

fn put_name(text: &mut String, name: &Name) -> Result<(), AllocError> {
    for byte in name.as_bytes() {
        text.push(char::from(*byte))?;
    }
    Ok(())
}

fn put_fault(text: &mut String, fault: &TreeFault) -> Result<(), AllocError> {
    text.push_str(rule_name(fault.rule))?;
    put_name(text, &fault.id)
}

fn word(yes: bool) -> &'static str {
    if yes { "yes" } else { "no" }
}

fn put_needs(text: &mut String, tree: &Tree, truths: &Truths) -> Result<(), AllocError> {
    text.push_str(" needs")?;
    let Ok(needs) = tree.needs_by(truths) else {
        return Err(AllocError);
    };
    for need in needs.as_slice() {
        text.push(' ')?;
        put_name(text, need)?;
    }
    Ok(())
}

fn put_levels(text: &mut String, tree: &Tree, truths: &Truths) -> Result<(), AllocError> {
    let Ok(levels) = tree.live_levels() else {
        return Err(AllocError);
    };
    for live in levels.as_slice() {
        text.push_str(if live.level == 1 {
            ", level 1 "
        } else {
            ", level 2 "
        })?;
        text.push_str(word(tree.level_by(live.level, truths)))?;
    }
    Ok(())
}

fn put_tree(text: &mut String, tree: &Tree, truths: &Truths) -> Result<(), AllocError> {
    text.push_str(word(tree.holds_by(truths)))?;
    put_needs(text, tree, truths)?;
    put_levels(text, tree, truths)
}

fn parts(line: &[u8]) -> (&[u8], &[u8]) {
    match line.iter().position(|byte| *byte == b' ') {
        Some(end) => (&line[..end], &line[end + 1..]),
        None => (line, &line[line.len()..]),
    }
}

/// What a copy of the tree answers, where it is the same tree.
fn put_copy(
    text: &mut String,
    tree: &Tree,
    truths: &Truths,
    alloc: Global,
) -> Result<(), AllocError> {
    let Ok(copy) = tree.duplicate(alloc) else {
        return Err(AllocError);
    };
    if !copy.is_same(tree) {
        return text.push_str("another tree");
    }
    put_tree(text, &copy, truths)
}

/// The answer to a line.
pub fn answer(alloc: Global, line: &[u8]) -> Result<String, AllocError> {
    let mut text = String::new(alloc);
    let (tree, ids) = parts(line);
    let Ok(execs) = execs_of(alloc, tree) else {
        return Err(AllocError);
    };
    let Ok(truths) = truths_of(alloc, ids) else {
        return Err(AllocError);
    };
    match Tree::make(alloc, execs) {
        Ok(tree) => put_copy(&mut text, &tree, &truths, alloc)?,
        Err(fault) => put_fault(&mut text, &fault)?,
    }
    Ok(text)
}

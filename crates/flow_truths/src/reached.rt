ghost use Rattle.std.specs.Prelude.{◌≡◌, [], ◌∷◌, ◌++◌, if◌then◌else◌, IfOk, OnOk};
ghost use Rattle.flow_tree.specs.Flow.{level_holds};
ghost use Rattle.flow_truths.specs.Granted.{levels_reached};

use flow_tree::{Tree, Truths};
use login_base::{Memory, Sequence};
use std::alloc::Global;

/// Adds the level where it is reached.
fn add_reached(
    truths: &Truths,
    level: u32,
    tree: &Tree,
    levels: &mut Sequence<u32>,
) -> Result<(), Memory>
    ensures { OnOk result (levels.new ≡
        levels.old ++ (if level_holds truths.now.held level tree.now then level ∷ [] else [])) }
{
    if tree.level_by(level, truths) {
        levels.push(level)
    } else {
        Ok(())
    }
}

/// The levels that a completed login records: those from 1 to `level`, ascending, of which the
/// live condition's subflow acts and holds.
pub fn levels_reached(
    alloc: Global,
    truths: &Truths,
    level: u32,
    tree: &Tree,
) -> Result<Sequence<u32>, Memory>
    ensures ok { IfOk result (λ levels. levels ≡ levels_reached truths.now.held level tree.now) }
{
    let mut levels = Sequence::new(alloc);
    for below in 0..level {
        add_reached(truths, below + 1, tree, &mut levels)?;
    }
    Ok(levels)
}

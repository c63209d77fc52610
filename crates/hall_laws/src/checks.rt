//! When the check of a password counts.
ghost use Rattle.std.specs.Prelude.{◌≡◌, ◌⊎◌, true, false};
ghost use Rattle.asks.specs.declared.finding.Finding.TheVariants.{Checked};
ghost use Rattle.hall_laws.specs.Ready.{IsAccepted};
ghost use Rattle.tab_asks.specs.Post.{due_post};

use facts::Post;
use hall_answers::Setting;

/// Whether a password fits counts only where nothing else refuses the post in its turn: the post is
/// accepted with one that fits, or its answer is the same with one that doesn't.
pub fn check_counts_unless_refused(setting: &Setting<'_>, post: &Post, had: u64)
    ensures counts { IsAccepted setting.now post.now (Checked had true)
        ⊎ (due_post setting.now post.now (Checked had true) ≡ due_post setting.now post.now (Checked had false)) }
{}

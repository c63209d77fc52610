//! Evidence that an execution was passed is added by posts alone, and only where it was asked.
ghost use Rattle.std.specs.Prelude.{◌≡◌, false};
ghost use Rattle.std.specs.List.{All};
ghost use Rattle.hall_laws.specs.AskedEvidence.{IsAskedEvidence, is_evidence, is_post};
ghost use Rattle.login_hall.specs.Due.{due_ask};
ghost use Rattle.tab_asks.specs.Post.{due_post};

use facts::{Ask, Finding, Post};
use hall_answers::Setting;

/// Whatever evidence a post adds is of its tab and for its form's execution; and the post had the
/// code that the tab showed last, and a form of an execution that the tab asked.
pub fn post_adds_asked_evidence(setting: &Setting<'_>, post: &Post, finding: &Finding)
    ensures asked { All (IsAskedEvidence setting.now post.now) (due_post setting.now post.now finding.now).added }
{}

/// Any other ask adds no evidence.
pub fn only_posts_add_evidence(setting: &Setting<'_>, ask: &Ask, finding: &Finding)
    requires other { is_post ask.now ≡ false }
    ensures none { All (λ fact. is_evidence fact ≡ false) (due_ask setting.now ask.now finding.now).added }
{}

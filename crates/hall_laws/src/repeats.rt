//! What becomes of a post that comes again as the very next ask.
ghost use Rattle.std.specs.Prelude.{◌≡◌, ◌++◌, [], Some};
ghost use Rattle.hall_laws.specs.Ready.{IsAccepted, done_for};
ghost use Rattle.hall_laws.specs.Repeats.{HasCodesCounted, IsAnsweredAgain, IsRepeatRefused, refused_as_finished};
ghost use Rattle.tab_asks.specs.Post.{due_post};

use facts::{Finding, Post};
use hall_answers::Setting;
use login_base::UserId;

/// A post that completed a login and comes again, under any realm in force, at any moment and with
/// any draws and finding, is refused as finished while its tab lives, then as expired, and then as
/// of an unknown tab. It adds nothing.
pub fn completed_post_again(
    setting: &Setting<'_>,
    post: &Post,
    finding: &Finding,
    user: UserId,
    later: &Setting<'_>,
    later_finding: &Finding,
)
    requires done { done_for (due_post setting.now post.now finding.now).reply.what ≡ Some user }
    requires next { later.now.facts ≡ setting.now.facts ++ (due_post setting.now post.now finding.now).added }
    ensures again { IsAnsweredAgain (due_post later.now post.now later_finding.now ≡ refused_as_finished post.now.tab)
        setting.now post.now later.now.moment (due_post later.now post.now later_finding.now) }
{}

/// A post that was accepted and comes again, under any realm in force, at any moment and with any
/// draws and finding, is refused. While its tab lives, its code is stale, its user another, its tab
/// finished, or its form not asked; then the tab is expired, and then unknown. It adds nothing.
pub fn accepted_post_again(
    setting: &Setting<'_>,
    post: &Post,
    finding: &Finding,
    later: &Setting<'_>,
    later_finding: &Finding,
)
    requires accepted { IsAccepted setting.now post.now finding.now }
    requires codes { HasCodesCounted setting.now.facts }
    requires next { later.now.facts ≡ setting.now.facts ++ (due_post setting.now post.now finding.now).added }
    ensures refused { IsAnsweredAgain
        (IsRepeatRefused post.now.tab (due_post later.now post.now later_finding.now).reply)
        setting.now post.now later.now.moment (due_post later.now post.now later_finding.now) }
    ensures added { (due_post later.now post.now later_finding.now).added ≡ [] }
{}

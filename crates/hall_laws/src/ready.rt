//! When an answer says that a login is complete: exactly where it is ready.
ghost use Rattle.std.specs.Prelude.{◌≡◌, ◌↔◌, Some, None};
ghost use Rattle.hall_laws.specs.Ready.{IsReady, IsReadyAtOpening, IsReadyAfterPost, done_for};
ghost use Rattle.root_asks.specs.NewTab.{due_new_tab};
ghost use Rattle.tab_pages.specs.Pages.{due_page};
ghost use Rattle.tab_asks.specs.Post.{due_post};

use facts::{Finding, NewTab, Post};
use hall_answers::Setting;
use login_base::{RootKey, TabKey, UserId};

/// A page of a root's tab completes a login for the user who is ready in the tab, and for no other.
/// Without a root it completes none.
pub fn page_completes(setting: &Setting<'_>, root: RootKey, tab: TabKey, user: UserId)
    ensures done { done_for (due_page setting.now (Some root) tab).reply.what ≡ Some user
        ↔ IsReady setting.now.facts setting.now.moment root tab user }
    ensures rootless { done_for (due_page setting.now None tab).reply.what ≡ None }
{}

/// An open completes a login for the user who is ready in the tab that it opens, and for no other.
pub fn open_completes(setting: &Setting<'_>, new: &NewTab, user: UserId)
    ensures done { done_for (due_new_tab setting.now new.now).reply.what ≡ Some user
        ↔ IsReadyAtOpening setting.now new.now user }
{
    // The realm keeps its rules: a tab lives for 60 seconds at least.
    let _kept = setting.realm.parts();
}

/// A post completes a login where it is accepted, and for the user who is ready in its tab once its
/// evidence is added; for no other.
pub fn post_completes(setting: &Setting<'_>, post: &Post, finding: &Finding, user: UserId)
    ensures done { done_for (due_post setting.now post.now finding.now).reply.what ≡ Some user
        ↔ IsReadyAfterPost setting.now post.now finding.now user }
{}

ghost use Rattle.std.specs.Prelude.{◌≡◌};
ghost use Rattle.ask_pairs.specs.Posts.{post_target};

use crate::form_kind::{FormKind, form_kind};
use crate::keys::id_given;
use crate::pairs::Pair;
use crate::place::Place;
use login_base::{Code, RootKey, TabKey};

/// What a post is posted to, and as which form.
#[derive(Clone, Copy, Debug, PartialEq, Eq)]
pub struct PostTarget {
    pub root: Option<RootKey>,
    pub tab: TabKey,
    pub code: Code,
    pub form: FormKind,
}

/// What a post is posted to, where these pairs are well-formed.
#[tactic(auto, unfolding(crate::specs::Posts::post_target))]
pub fn post_target(
    root: Result<Option<RootKey>, Place>,
    pairs: &[Pair],
) -> Result<PostTarget, Place>
    ensures to { result ≡ post_target root pairs.now }
{
    let root = root?;
    let tab = id_given(Place::Tab, pairs)?;
    let code = id_given(Place::Code, pairs)?;
    let form = form_kind(pairs)?;
    Ok(PostTarget {
        root,
        tab: TabKey(tab),
        code: Code(code),
        form,
    })
}

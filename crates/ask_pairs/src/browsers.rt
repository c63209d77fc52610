ghost use Rattle.std.specs.Prelude.{◌≡◌, IfOk};
ghost use Rattle.ask_pairs.specs.Browsers.{new_tab, new_tab_of, page, verify, reset, logout, browser_read, browser_ask};
ghost use Rattle.ask_pairs.specs.Credentials.{password_text};

use crate::browser_verb::BrowserVerb;
use crate::credentials::{exact_name, password_text};
use crate::keys::id_given;
use crate::pairs::{Pair, value_of};
use crate::place::{Place, ask_or_bad, optional};
use crate::post::post;
use asks::{Ask, NewTab};
use login_base::{Memory, Name, RootKey, Sequence, TabKey, TokenKey};
use std::alloc::Global;

/// A tab for a client, perhaps for the level of a name, and perhaps in a root.
#[tactic(auto, unfolding(crate::specs::Browsers::new_tab))]
fn new_tab(
    client: Option<Name>,
    acr: Result<Option<Name>, Place>,
    root: Result<Option<RootKey>, Place>,
) -> Result<Ask, Place>
    ensures { result ≡ new_tab client acr root }
{
    let client = client.ok_or(Place::Client)?;
    let acr = acr?;
    let root = root?;
    Ok(Ask::NewTab(NewTab { root, client, acr }))
}

fn new_tab_of(
    alloc: Global,
    root: Result<Option<RootKey>, Place>,
    pairs: &[Pair],
) -> Result<Result<Ask, Place>, Memory>
    ensures { IfOk result (λ ask. ask ≡ new_tab_of root pairs.now) }
{
    let client = exact_name(alloc, value_of(pairs, b"client"))?;
    let acr = exact_name(alloc, value_of(pairs, b"acr"))?;
    Ok(new_tab(client, optional(Place::Acr, pairs, acr), root))
}

#[tactic(auto, unfolding(crate::specs::Browsers::page))]
fn page(root: Result<Option<RootKey>, Place>, pairs: &[Pair]) -> Result<Ask, Place>
    ensures { result ≡ page root pairs.now }
{
    let root = root?;
    let tab = id_given(Place::Tab, pairs)?;
    Ok(Ask::Page {
        root,
        tab: TabKey(tab),
    })
}

#[tactic(auto, unfolding(crate::specs::Browsers::verify))]
fn verify(pairs: &[Pair]) -> Result<Ask, Place>
    ensures { result ≡ verify pairs.now }
{
    let key = id_given(Place::Key, pairs)?;
    Ok(Ask::Verify { key: TokenKey(key) })
}

#[tactic(auto, unfolding(crate::specs::Browsers::reset))]
fn reset(password: Option<Sequence<u8>>, pairs: &[Pair]) -> Result<Ask, Place>
    ensures { result ≡ reset password pairs.now }
{
    let key = id_given(Place::Key, pairs)?;
    let password = password.ok_or(Place::Password)?;
    Ok(Ask::Reset {
        key: TokenKey(key),
        password,
    })
}

fn logout(root: Result<Option<RootKey>, Place>) -> Result<Ask, Place>
    ensures { result ≡ logout root }
{
    let root = root?;
    Ok(Ask::Logout { root })
}

/// What a verb asks of the pairs.
#[tactic(auto, unfolding(crate::specs::Browsers::browser_read))]
fn browser_read(
    alloc: Global,
    verb: BrowserVerb,
    root: Result<Option<RootKey>, Place>,
    pairs: &[Pair],
) -> Result<Result<Ask, Place>, Memory>
    ensures { IfOk result (λ ask. ask ≡ browser_read verb root pairs.now) }
{
    match verb {
        BrowserVerb::NewTab => new_tab_of(alloc, root, pairs),
        BrowserVerb::Page => Ok(page(root, pairs)),
        BrowserVerb::Post => post(alloc, root, pairs),
        BrowserVerb::Verify => Ok(verify(pairs)),
        BrowserVerb::Reset => {
            let password = password_text(alloc, value_of(pairs, b"password"))?;
            Ok(reset(password, pairs))
        }
        BrowserVerb::Logout => Ok(logout(root)),
    }
}

/// The ask of a browser's verb and its pairs, with the root that came with them or the place at
/// which it is malformed. Pairs named `root` aren't read.
pub fn browser_ask(
    alloc: Global,
    verb: BrowserVerb,
    root: Result<Option<RootKey>, Place>,
    pairs: &[Pair],
) -> Result<Ask, Memory>
    ensures ask { IfOk result (λ ask. ask ≡ browser_ask verb root pairs.now) }
{
    let read = browser_read(alloc, verb, root, pairs)?;
    ask_or_bad(alloc, read)
}

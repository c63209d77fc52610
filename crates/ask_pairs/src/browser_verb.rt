ghost use Rattle.std.specs.Prelude.{◌≡◌};
ghost use Rattle.ask_pairs.specs.Browsers.{browser_verb};

/// A verb of a browser.
#[derive(Clone, Copy, Debug, PartialEq, Eq)]
pub enum BrowserVerb {
    /// Opens a tab.
    NewTab,
    /// Shows a tab's page again.
    Page,
    /// Posts a form.
    Post,
    /// Follows a token that shows that mail arrives.
    Verify,
    /// Follows a token that sets a new password.
    Reset,
    /// Ends the root's live session.
    Logout,
}

/// The verb of a word.
pub fn browser_verb(word: &[u8]) -> Option<BrowserVerb>
    ensures verb { result ≡ browser_verb word.now }
{
    if word == b"open".as_slice() {
        Some(BrowserVerb::NewTab)
    } else if word == b"page".as_slice() {
        Some(BrowserVerb::Page)
    } else if word == b"post".as_slice() {
        Some(BrowserVerb::Post)
    } else if word == b"verify".as_slice() {
        Some(BrowserVerb::Verify)
    } else if word == b"reset".as_slice() {
        Some(BrowserVerb::Reset)
    } else if word == b"logout".as_slice() {
        Some(BrowserVerb::Logout)
    } else {
        None
    }
}

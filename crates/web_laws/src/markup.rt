//! No markup of a page comes from what the page shows, so nothing is to be escaped.
ghost use Rattle.std.specs.Prelude.{◌≡◌, IsTrue};
ghost use Rattle.reply_words.specs.Words.{words};
ghost use Rattle.web_laws.specs.Blank.{blank_page};
ghost use Rattle.web_laws.specs.Plain.{is_plain_text, markup, has_plain_texts};
ghost use Rattle.web_pages.specs.Pages.{page};

use crate::names::know_names;
use asks::Reply;

/// The words of a reply are printable ASCII without the characters that HTML escapes. What ends lines,
/// tags and values in its response, head and body, is what ends them in the same response in which no
/// name, id, number or text stands. The names in a reply are names by their type.
pub fn values_are_no_markup(reply: &Reply)
    requires texts { IsTrue (has_plain_texts reply.now.what) }
    ensures words { IsTrue (is_plain_text (words reply.now)) }
    ensures markup { markup (page reply.now) ≡ markup (blank_page reply.now) }
{
    know_names(&reply.what);
}

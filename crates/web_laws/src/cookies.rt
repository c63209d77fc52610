//! When a browser is given a root to keep.
ghost use Rattle.std.specs.Prelude.{◌≡◌, nat_eq, codes};
ghost use Rattle.std.specs.List.{starts_with};
ghost use Rattle.reply_words.specs.Words.{words};
ghost use Rattle.web_laws.specs.Cookies.{has_keys, gives_root};
ghost use Rattle.web_pages.specs.Pages.{root_line};

use asks::Reply;

/// The page of a reply has a cookie exactly where the reply's words begin with `root=`.
pub fn cookie_where_words_begin_with_root(reply: &Reply)
    ensures words { starts_with nat_eq (words reply.now) (codes "root=") ≡ has_keys reply.now.opened reply.now.tab }
    ensures cookie { gives_root (root_line reply.now.opened reply.now.tab) ≡ has_keys reply.now.opened reply.now.tab }
{}

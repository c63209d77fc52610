//! A form that a page shows is read back as the post that it stands for.
ghost use Rattle.std.specs.Prelude.{◌≡◌, [], IfSome, IsTrue, Ok, codes};
ghost use Rattle.asks.specs.declared.ask.Ask.TheVariants as asks;
ghost use Rattle.ask_pairs.specs.Credentials.{is_password, is_code_value};
ghost use Rattle.ask_pairs.specs.Pairs.{pairs_of};
ghost use Rattle.ask_pairs.specs.Posts.{post};
ghost use Rattle.login_base.specs.Names.{is_name};
ghost use Rattle.reply_words.specs.Words.{action_words};
ghost use Rattle.web_laws.specs.Filled.{typed_as, posted, execution_form, action_form};
ghost use Rattle.web_pages.specs.Forms.{kind_fields, action_fields};

use flow_tree::Kind;
use login_base::{Code, RootKey, TabKey};
use realm_data::Action;

/// The form of an execution, filled in with texts in their grammar and encoded as a browser does, is
/// read as the post to its tab, with its code.
pub fn execution_is_read_back(
    root: Option<RootKey>,
    tab: TabKey,
    code: Code,
    kind: Kind,
    id: &str,
    name: &str,
    password: &str,
    value: &str,
)
    requires id { IsTrue (is_name id.now) }
    requires name { IsTrue (is_name name.now) }
    requires password { IsTrue (is_password password.now) }
    requires value { IsTrue (is_code_value value.now) }
    ensures read { let typed = typed_as name.now password.now value.now in
        let body = posted tab code (codes "execution") id.now (kind_fields kind) typed in
        IfSome (execution_form kind id.now typed) (λ form.
        post (Ok root) (pairs_of body) ≡ Ok (asks.Post (record { root = root; tab = tab; code = code; form = form }))) }
{}

/// The same of the form of an action.
pub fn action_is_read_back(
    root: Option<RootKey>,
    tab: TabKey,
    code: Code,
    action: Action,
    password: &str,
    value: &str,
)
    requires password { IsTrue (is_password password.now) }
    requires value { IsTrue (is_code_value value.now) }
    ensures read { let typed = typed_as [] password.now value.now in
        let body = posted tab code (codes "action") (action_words action) (action_fields action) typed in
        post (Ok root) (pairs_of body)
        ≡ Ok (asks.Post (record { root = root; tab = tab; code = code; form = action_form action typed })) }
{}

ghost use Rattle.std.specs.Prelude.{◌≡◌, ◌++◌, OnOk, IfOk, codes};
ghost use Rattle.std.specs.List.{flat_map};
ghost use Rattle.reply_words.specs.Words.{rule_words, kind_words, action_words, number_words, need_words, listed, form_words, shown_words, action_page_words, next_words, current_words, other_user_words, moved_words, spent_words, done_words, action_done_words, what_words, keys_words, words};
ghost use Rattle.login_base.specs.IdText.{id_bytes};

use crate::text::{add, add_field, add_fields, add_id, add_number};
use asks::{Need, Next, Reply, Rule, What, Who};
use flow_tree::Kind;
use login_base::{Code, Memory, Sequence, SessionId, id_text};
use realm_data::Action;
use std::alloc::Global;

fn rule_words(rule: Rule) -> &'static [u8]
    ensures { result.now ≡ rule_words rule }
{
    match rule {
        Rule::WrongKey => b"WrongKey",
        Rule::UserTaken => b"UserTaken",
        Rule::TooManyUsers => b"TooManyUsers",
        Rule::NoSuchUser => b"NoSuchUser",
        Rule::NothingThere => b"NothingThere",
        Rule::AccountDisabled => b"AccountDisabled",
        Rule::TooManyTokens => b"TooManyTokens",
        Rule::NoSuchSession => b"NoSuchSession",
        Rule::RealmRefused => b"RealmRefused",
    }
}

fn kind_words(kind: Kind) -> &'static [u8]
    ensures { result.now ≡ kind_words kind }
{
    match kind {
        Kind::Allow => b"allow",
        Kind::Deny => b"deny",
        Kind::Cookie => b"cookie",
        Kind::Username => b"username",
        Kind::Password => b"password",
        Kind::Form => b"form",
        Kind::Otp => b"otp",
        Kind::Recovery => b"recovery",
    }
}

#[tactic(auto, unfolding(crate::specs::Words::action_words))]
fn action_words(action: Action) -> &'static [u8]
    ensures { result.now ≡ action_words action }
{
    match action {
        Action::Terms => b"terms",
        Action::VerifyEmail => b"verify_email",
        Action::UpdatePassword => b"update_password",
        Action::ConfigureOtp => b"configure_otp",
        Action::RecoveryCodes => b"recovery_codes",
    }
}

fn add_need(alloc: Global, out: &mut Vec<u8>, need: &Need) -> Result<(), Memory>
    ensures { OnOk result (out.new.items ≡ out.old.items ++ need_words need.now) }
{
    add(out, need.id.as_bytes())?;
    add_field(out, b":", kind_words(need.kind))?;
    match need.kind {
        Kind::Recovery => add_number(alloc, out, b"#", u64::from(need.number)),
        _ => Ok(()),
    }
}

fn add_more_needs(alloc: Global, out: &mut Vec<u8>, needs: &[Need]) -> Result<(), Memory>
    ensures { OnOk result (out.new.items ≡ out.old.items ++ flat_map (λ need. codes "," ++ need_words need) needs.now) }
{
    for need in needs {
        add(out, b",")?;
        add_need(alloc, out, need)?;
    }
    Ok(())
}

fn add_needs(alloc: Global, out: &mut Vec<u8>, needs: &[Need]) -> Result<(), Memory>
    ensures { OnOk result (out.new.items ≡ out.old.items ++ listed need_words needs.now) }
{
    match needs {
        [] => Ok(()),
        [first, rest @ ..] => {
            add_need(alloc, out, first)?;
            add_more_needs(alloc, out, rest)
        }
    }
}

fn add_form(alloc: Global, out: &mut Vec<u8>, code: &Code, asked: &[Need]) -> Result<(), Memory>
    ensures { OnOk result (out.new.items ≡ out.old.items ++ form_words code.now asked.now) }
{
    add_id(out, b"form code=", &code.0)?;
    add(out, b" asked=")?;
    add_needs(alloc, out, asked)
}

fn add_more_texts(out: &mut Vec<u8>, texts: &[Sequence<u8>]) -> Result<(), Memory>
    ensures { OnOk result (out.new.items ≡ out.old.items ++ flat_map (λ text. codes "," ++ text) texts.now) }
{
    for text in texts {
        add_field(out, b",", text.as_slice())?;
    }
    Ok(())
}

fn add_texts(out: &mut Vec<u8>, label: &[u8], texts: &[Sequence<u8>]) -> Result<(), Memory>
    ensures { OnOk result (out.new.items ≡ out.old.items ++ (label.now ++ listed (λ text. text) texts.now)) }
{
    add(out, label)?;
    match texts {
        [] => Ok(()),
        [first, rest @ ..] => {
            add(out, first.as_slice())?;
            add_more_texts(out, rest)
        }
    }
}

fn add_shown(out: &mut Vec<u8>, kind: Action, shown: &[Sequence<u8>]) -> Result<(), Memory>
    ensures { OnOk result (out.new.items ≡ out.old.items ++ shown_words kind shown.now) }
{
    match kind {
        Action::ConfigureOtp => add_texts(out, b" secret=", shown),
        Action::RecoveryCodes => add_texts(out, b" codes=", shown),
        _ => Ok(()),
    }
}

fn add_action(
    out: &mut Vec<u8>,
    code: &Code,
    kind: Action,
    shown: &[Sequence<u8>],
) -> Result<(), Memory>
    ensures { OnOk result (out.new.items ≡ out.old.items ++ action_page_words code.now kind shown.now) }
{
    add_fields(
        out,
        b"action code=",
        &id_text(&code.0),
        b" kind=",
        action_words(kind),
    )?;
    add_shown(out, kind, shown)?;
    Ok(())
}

fn add_next(alloc: Global, out: &mut Vec<u8>, next: &Next) -> Result<(), Memory>
    ensures { OnOk result (out.new.items ≡ out.old.items ++ next_words next.now) }
{
    add(out, b" ")?;
    match next {
        Next::Form { code, asked } => add_form(alloc, out, code, asked.as_slice()),
        Next::Action { code, kind, shown } => add_action(out, code, *kind, shown.as_slice()),
    }
}

fn add_labelled_next(
    alloc: Global,
    out: &mut Vec<u8>,
    label: &[u8],
    next: &Next,
) -> Result<(), Memory>
    ensures { OnOk result (out.new.items ≡ out.old.items ++ (label.now ++ next_words next.now)) }
{
    add(out, label)?;
    add_next(alloc, out, next)
}

fn add_current(out: &mut Vec<u8>, current: &Option<Code>) -> Result<(), Memory>
    ensures { OnOk result (out.new.items ≡
        out.old.items ++ (codes "refused 9 Stale current=" ++ current_words current.now)) }
{
    match current {
        Some(code) => add_id(out, b"refused 9 Stale current=", &code.0),
        None => add_field(out, b"refused 9 Stale current=", b"-"),
    }
}

fn add_other_user(out: &mut Vec<u8>, tab: &Who, session: &Who) -> Result<(), Memory>
    ensures { OnOk result (out.new.items ≡ out.old.items ++ other_user_words tab.now session.now) }
{
    let tab = tab.name.as_bytes();
    let session = session.name.as_bytes();
    add_fields(
        out,
        b"refused 10 OtherUser tab=",
        tab,
        b" session=",
        session,
    )
}

fn add_moved(alloc: Global, out: &mut Vec<u8>, had: u64, now: u64) -> Result<(), Memory>
    ensures { OnOk result (out.new.items ≡ out.old.items ++ moved_words had now) }
{
    add_number(alloc, out, b"refused 15 CredentialMoved had=", had)?;
    add_number(alloc, out, b" now=", now)?;
    Ok(())
}

fn add_spent(alloc: Global, out: &mut Vec<u8>, step: u64, next: &Next) -> Result<(), Memory>
    ensures { OnOk result (out.new.items ≡ out.old.items ++ spent_words step next.now) }
{
    add_number(alloc, out, b"refused 18 CodeSpent step=", step)?;
    add_next(alloc, out, next)
}

fn add_done(
    alloc: Global,
    out: &mut Vec<u8>,
    session: &SessionId,
    user: &Who,
    level: u32,
) -> Result<(), Memory>
    ensures { OnOk result (out.new.items ≡ out.old.items ++ done_words (id_bytes session.now.0) user.now.name level) }
{
    add_id(out, b"done session=", &session.0)?;
    add_field(out, b" user=", user.name.as_bytes())?;
    add_number(alloc, out, b" level=", u64::from(level))
}

fn add_action_done(out: &mut Vec<u8>, user: &Who, kind: Action) -> Result<(), Memory>
    ensures { OnOk result (out.new.items ≡ out.old.items ++ action_done_words user.now.name kind) }
{
    add_fields(
        out,
        b"action-done user=",
        user.name.as_bytes(),
        b" kind=",
        action_words(kind),
    )
}

fn add_what(alloc: Global, out: &mut Vec<u8>, what: &What) -> Result<(), Memory>
    ensures { OnOk result (out.new.items ≡ out.old.items ++ what_words what.now) }
{
    match what {
        What::BadForm { at } => add_field(out, b"refused 1 BadForm at=", at.as_bytes()),
        What::AdminRefused { rule } => {
            add_field(out, b"refused 2 AdminRefused rule=", rule_words(*rule))
        }
        What::UnknownClient => add(out, b"refused 3 UnknownClient"),
        What::LevelUnknown => add(out, b"refused 4 LevelUnknown"),
        What::TooManyRoots { count } => {
            add_number(
                alloc,
                out,
                b"refused 5 TooManyRoots count=",
                u64::from(*count),
            )
        }
        What::TooManyTabs { count } => {
            add_number(
                alloc,
                out,
                b"refused 6 TooManyTabs count=",
                u64::from(*count),
            )
        }
        What::UnknownTab => add(out, b"refused 7 UnknownTab"),
        What::TabExpired => add(out, b"refused 8 TabExpired"),
        What::Stale { current } => add_current(out, current),
        What::OtherUser { tab, session } => add_other_user(out, tab, session),
        What::Finished => add(out, b"refused 11 Finished"),
        What::NotAsked => add(out, b"refused 12 NotAsked"),
        What::Locked { until } => add_number(alloc, out, b"refused 13 Locked until=", *until),
        What::Disabled => add(out, b"refused 14 Disabled"),
        What::CredentialMoved { had, now } => add_moved(alloc, out, *had, *now),
        What::BadCredentials { next } => {
            add_labelled_next(alloc, out, b"refused 16 BadCredentials", next)
        }
        What::BadCode { next } => add_labelled_next(alloc, out, b"refused 17 BadCode", next),
        What::CodeSpent { step, next } => add_spent(alloc, out, *step, next),
        What::TokenUnknown => add(out, b"refused 19 TokenUnknown"),
        What::TokenSpent => add(out, b"refused 19 TokenSpent"),
        What::TokenExpired { expiry } => {
            add_number(alloc, out, b"refused 19 TokenExpired expiry=", *expiry)
        }
        What::Denied { execution } => {
            add_field(out, b"refused 20 Denied execution=", execution.as_bytes())
        }
        What::NotConfigured { execution } => {
            add_field(
                out,
                b"refused 21 NotConfigured execution=",
                execution.as_bytes(),
            )
        }
        What::DeadEnd => add(out, b"refused 22 DeadEnd"),
        What::LevelMissed { level } => {
            add_number(
                alloc,
                out,
                b"refused 23 LevelMissed level=",
                u64::from(*level),
            )
        }
        What::Done {
            session,
            user,
            level,
        } => add_done(alloc, out, session, user, *level),
        What::Action { code, kind, shown } => add_action(out, code, *kind, shown.as_slice()),
        What::Form { code, asked } => add_form(alloc, out, code, asked.as_slice()),
        What::ActionDone { user, kind } => add_action_done(out, user, *kind),
        What::LoggedOut => add(out, b"logged-out"),
        What::Told { text } => add_field(out, b"told ", text.as_slice()),
        What::StoreFault => add(out, b"fault store"),
        What::DiceFault => add(out, b"fault dice"),
        What::Memory => add(out, b"fault memory"),
    }
}

fn add_keys(out: &mut Vec<u8>, reply: &Reply) -> Result<(), Memory>
    ensures { OnOk result (out.new.items ≡ out.old.items ++ keys_words reply.now.opened reply.now.tab) }
{
    match (&reply.opened, &reply.tab) {
        (Some(root), Some(tab)) => {
            add_id(out, b"root=", &root.0)?;
            add_id(out, b" tab=", &tab.0)?;
            add(out, b" ")
        }
        _ => Ok(()),
    }
}

/// So many bytes hold most replies: their buffer needn't grow.
const USUAL_LENGTH: usize = 256;

/// The reply as one line, without its newline.
pub fn words_of(alloc: Global, reply: &Reply) -> Result<Vec<u8>, Memory>
    ensures text { IfOk result (λ text. text.items ≡ words reply.now) }
{
    let mut out = Vec::new(alloc);
    out.reserve(USUAL_LENGTH)?;
    add_keys(&mut out, reply)?;
    add_what(alloc, &mut out, &reply.what)?;
    Ok(out)
}

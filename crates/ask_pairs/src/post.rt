ghost use Rattle.std.specs.Prelude.{◌≡◌, IfOk};
ghost use Rattle.ask_pairs.specs.Posts.{form_with, form_of, post};

use crate::credentials::{code_value, exact_name, password_text, user_name};
use crate::form_kind::FormKind;
use crate::pairs::{Pair, value_of};
use crate::place::Place;
use crate::post_target::post_target;
use asks::{Ask, Form, Post};
use login_base::{Memory, Name, RootKey, Sequence};
use std::alloc::Global;

/// The form of this kind, whose texts are none where they aren't well-formed.
#[tactic(auto, unfolding(crate::specs::Posts::form_with))]
fn form_with(
    kind: FormKind,
    execution: Option<Name>,
    name: Option<Name>,
    password: Option<Sequence<u8>>,
    value: Option<Sequence<u8>>,
) -> Result<Form, Place>
    ensures { result ≡ form_with kind execution name password value }
{
    match kind {
        FormKind::Username => Ok(Form::Username {
            execution: execution.ok_or(Place::Execution)?,
            name: name.ok_or(Place::Name)?,
        }),
        FormKind::Password => Ok(Form::Password {
            execution: execution.ok_or(Place::Execution)?,
            password: password.ok_or(Place::Password)?,
        }),
        FormKind::NamePassword => Ok(Form::NamePassword {
            execution: execution.ok_or(Place::Execution)?,
            name: name.ok_or(Place::Name)?,
            password: password.ok_or(Place::Password)?,
        }),
        FormKind::Value => Ok(Form::Value {
            execution: execution.ok_or(Place::Execution)?,
            value: value.ok_or(Place::Value)?,
        }),
        FormKind::Terms => Ok(Form::Terms),
        FormKind::UpdatePassword => Ok(Form::UpdatePassword {
            password: password.ok_or(Place::Password)?,
        }),
        FormKind::ConfigureOtp => Ok(Form::ConfigureOtp {
            value: value.ok_or(Place::Value)?,
        }),
        FormKind::RecoveryCodes => Ok(Form::RecoveryCodes),
        FormKind::VerifyEmail => Ok(Form::VerifyEmail),
    }
}

/// The form of this kind in the pairs.
fn form_of(alloc: Global, kind: FormKind, pairs: &[Pair]) -> Result<Result<Form, Place>, Memory>
    ensures { IfOk result (λ form. form ≡ form_of kind pairs.now) }
{
    let execution = exact_name(alloc, value_of(pairs, b"execution"))?;
    let name = user_name(alloc, value_of(pairs, b"name"))?;
    let password = password_text(alloc, value_of(pairs, b"password"))?;
    let value = code_value(alloc, value_of(pairs, b"value"))?;
    Ok(form_with(kind, execution, name, password, value))
}

/// The post that the pairs describe, under this root.
pub fn post(
    alloc: Global,
    root: Result<Option<RootKey>, Place>,
    pairs: &[Pair],
) -> Result<Result<Ask, Place>, Memory>
    ensures ask { IfOk result (λ ask. ask ≡ post root pairs.now) }
{
    match post_target(root, pairs) {
        Ok(to) => match form_of(alloc, to.form, pairs)? {
            Ok(form) => Ok(Ok(Ask::Post(Post {
                root: to.root,
                tab: to.tab,
                code: to.code,
                form,
            }))),
            Err(place) => Ok(Err(place)),
        },
        Err(place) => Ok(Err(place)),
    }
}

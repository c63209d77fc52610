ghost use Rattle.std.specs.Prelude.{◌≡◌, ◌<◌, Bool, is_some, length, IfOk, IfSome};
ghost use Rattle.keeper_rules.specs.Rows.{is_realm_row, is_id, is_mark, is_kept_by_kind};
ghost use Rattle.keeper_rules.specs.Misfits.{first_failing};
ghost use Rattle.keeper_columns.specs.Words.{secret_kind, roles_in, actions_in, levels_in};

use keeper_columns::{
    is_count, is_end, is_flag, is_kept, is_last, is_life, is_mark_serial, is_moment, is_serial,
    natural, read_actions, read_levels, read_roles, secret_kind, token_kind,
};
use keeper_rows::{AccountRow, MarkRow, RealmRow, SecretRow, SessionRow, Text, TokenRow};
use login_base::{Memory, is_name, read_id};
use std::alloc::Global;

/// A row that a rule asks by itself.
pub(crate) trait Fits {
    ghost fits: { Self → Bool };

    fn fits(&self, alloc: Global) -> Result<bool, Memory>
        ensures ok { IfOk result (λ kept. kept ≡ fits self.now) };
}

pub(crate) fn is_realm_row(row: &RealmRow) -> bool
    ensures { result ≡ is_realm_row row.now }
{
    1 <= row.version && row.version <= 1 << 62
}

fn are_roles(alloc: Global, text: &Text) -> Result<bool, Memory>
    ensures { IfOk result (λ kept. kept ≡ is_some (roles_in text.now)) }
{
    Ok(read_roles(alloc, text.as_bytes())?.is_some())
}

fn are_actions(alloc: Global, text: &Text) -> Result<bool, Memory>
    ensures { IfOk result (λ kept. kept ≡ is_some (actions_in text.now)) }
{
    Ok(read_actions(alloc, text.as_bytes())?.is_some())
}

fn are_levels(alloc: Global, text: &Text) -> Result<bool, Memory>
    ensures { IfOk result (λ kept. kept ≡ is_some (levels_in text.now)) }
{
    Ok(read_levels(alloc, text.as_bytes())?.is_some())
}

/// Whether a text is that of an id whose serial is in its range.
fn is_id(text: &Text) -> bool
    ensures { result ≡ is_id text.now }
{
    match read_id(text.as_bytes()) {
        Some(id) => 1 <= id.serial && id.serial <= 1 << 62,
        None => false,
    }
}

fn is_kept_by_kind(alloc: Global, row: &SecretRow) -> Result<bool, Memory>
    ensures { IfOk result (λ kept. kept ≡ is_kept_by_kind (secret_kind row.now.kind) row.now) }
{
    match secret_kind(row.kind.as_bytes()) {
        Some(kind) => is_kept(alloc, kind, row.body.as_slice(), row.spent.as_bytes()),
        None => Ok(false),
    }
}

pub(crate) fn is_mark(row: &MarkRow) -> bool
    ensures { result ≡ is_mark row.now }
{
    is_mark_serial(&row.serial) && is_moment(&row.moment)
}

impl Fits for AccountRow {
    ghost use Rattle.keeper_rules.specs.Rows.{is_account};

    ghost fits = { is_account };

    fn fits(&self, alloc: Global) -> Result<bool, Memory> {
        Ok(
            is_serial(&self.id)
                && is_name(self.name.as_bytes())
                && are_roles(alloc, &self.roles)?
                && is_flag(&self.enabled)
                && is_count(&self.count)
                && is_last(&self.last)
                && is_end(&self.until)
                && is_flag(&self.permanent)
                && are_actions(alloc, &self.actions)?,
        )
    }
}

impl Fits for SecretRow {
    ghost use Rattle.keeper_rules.specs.Rows.{is_secret};

    ghost fits = { is_secret };

    fn fits(&self, alloc: Global) -> Result<bool, Memory> {
        Ok(is_serial(&self.serial) && is_kept_by_kind(alloc, self)?)
    }
}

impl Fits for SessionRow {
    ghost use Rattle.keeper_rules.specs.Rows.{is_session};

    ghost fits = { is_session };

    fn fits(&self, alloc: Global) -> Result<bool, Memory> {
        Ok(
            is_id(&self.id)
                && is_moment(&self.opened)
                && is_moment(&self.seen)
                && natural(&self.opened) <= natural(&self.seen)
                && is_life(&self.idle)
                && is_life(&self.max)
                && are_levels(alloc, &self.levels)?,
        )
    }
}

impl Fits for TokenRow {
    ghost use Rattle.keeper_rules.specs.Rows.{is_token};

    ghost fits = { is_token };

    fn fits(&self, _alloc: Global) -> Result<bool, Memory> {
        Ok(
            is_id(&self.key)
                && token_kind(self.kind.as_bytes()).is_some()
                && is_end(&self.expiry)
                && is_flag(&self.spent),
        )
    }
}

/// The place of the first row that doesn't fit by itself.
pub(crate) fn first_unfit<R: Fits>(alloc: Global, rows: &[R]) -> Result<Option<usize>, Memory>
    ensures ok { IfOk result (λ place. place ≡ first_failing R.fits rows.now) }
    ensures within { IfOk result (λ place. IfSome place (λ at. at < length rows.now)) }
{
    'rows: for (at, row) in rows.iter().enumerate() {
        if !row.fits(alloc)? {
            return Ok(Some(at));
        }
    }
    Ok(None)
}

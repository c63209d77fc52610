ghost use Rattle.std.specs.Prelude.{◌≡◌, ◌≤◌, true, IfOk};
ghost use Rattle.toml.specs.Data.{members_depth, members_have_valid_dates};
ghost use Rattle.toml.specs.View.{table_view};
ghost use Rattle.realm_file.specs.RealmFile.{realm_in, realm_read};
ghost use Rattle.realm_print.specs.Printed.{ArePlain};

use login_base::{Memory, Sequence};
use std::alloc::Global;
use toml::Table;
use toml::ser::Error;

/// The text of a document, which is read as the document.
pub fn document_text(alloc: Global, table: &Table) -> Result<Sequence<u8>, Memory>
    requires { ArePlain 80 (table_view table.now) }
    ensures { IfOk result (λ text. realm_read text ≡ realm_in (table_view table.now)) }
{
    match toml::table_to_string(alloc, table) {
        Ok(text) => Ok(Sequence::from_vec(text.into_bytes())),
        Err(Error::DateInvalid) => unreachable!(),
        Err(Error::OutOfMemory) => Err(Memory),
    }
}

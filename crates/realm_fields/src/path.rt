ghost use Rattle.std.specs.Prelude.{◌≡◌, IfOk};
ghost use Rattle.realm_fields.specs.Paths.{key_path, item_path};

use login_base::{Memory, Sequence};
use std::alloc::Global;

/// The path of a key of the table at a path.
#[tactic(auto, unfolding(crate::specs::Paths::key_path))]
pub fn key_path(alloc: Global, path: &[u8], key: &[u8]) -> Result<Sequence<u8>, Memory>
    ensures { IfOk result (λ text. text ≡ key_path path.now key.now) }
{
    let mut text = Vec::new(alloc);
    if let [_, ..] = path {
        text.extend_from_slice(path)?;
        text.extend_from_slice(b".")?;
    }
    text.extend_from_slice(key)?;
    Ok(Sequence::from_vec(text))
}

/// The path of an item of the array at a path.
#[tactic(auto, unfolding(crate::specs::Paths::item_path))]
pub fn item_path(alloc: Global, path: &[u8], index: usize) -> Result<Sequence<u8>, Memory>
    ensures { IfOk result (λ text. text ≡ item_path path.now index) }
{
    let mut text = Vec::new(alloc);
    text.extend_from_slice(path)?;
    text.extend_from_slice(b"[")?;
    let number = index.to_string(alloc)?;
    text.extend_from_slice(number.as_bytes())?;
    text.extend_from_slice(b"]")?;
    Ok(Sequence::from_vec(text))
}

ghost use Rattle.std.specs.Prelude.{◌≡◌, IfOk};

use crate::memory::Memory;
use crate::name::Name;
use crate::sequence::Sequence;
use std::alloc::Global;

/// What can be copied where memory allows. The copy equals the original.
pub trait Duplicate: Sized {
    fn duplicate(&self, alloc: Global) -> Result<Self, Memory>
        ensures ok { IfOk result (λ copy. copy ≡ self.now) };
}

impl Duplicate for u8 {
    fn duplicate(&self, _alloc: Global) -> Result<u8, Memory> {
        Ok(*self)
    }
}

impl<T: Duplicate> Duplicate for Option<T> {
    fn duplicate(&self, alloc: Global) -> Result<Option<T>, Memory> {
        match self {
            Some(value) => Ok(Some(value.duplicate(alloc)?)),
            None => Ok(None),
        }
    }
}

impl Duplicate for [u8; 32] {
    fn duplicate(&self, _alloc: Global) -> Result<[u8; 32], Memory> {
        Ok(*self)
    }
}

impl Duplicate for Name {
    fn duplicate(&self, alloc: Global) -> Result<Name, Memory> {
        Name::known(alloc, self.as_bytes())
    }
}

impl<T: Duplicate + Drop> Duplicate for Sequence<T> {
    fn duplicate(&self, alloc: Global) -> Result<Sequence<T>, Memory> {
        let mut copy = Vec::new(alloc);
        for item in self.as_slice() {
            copy.push(item.duplicate(alloc)?)?;
        }
        Ok(Sequence::from_vec(copy))
    }
}

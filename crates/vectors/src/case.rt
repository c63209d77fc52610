use std::alloc::Global;

/// A hash function by its name.
#[derive(Clone, Copy, Debug, PartialEq, Eq)]
pub enum Hash {
    None,
    Sha1,
    Sha256,
    Sha512,
}

impl Hash {
    fn of(name: &str) -> Option<Hash> {
        match name {
            "" => Some(Hash::None),
            "sha1" => Some(Hash::Sha1),
            "sha256" => Some(Hash::Sha256),
            "sha512" => Some(Hash::Sha512),
            _ => None,
        }
    }
}

/// What is asked for.
#[derive(Clone, Copy, Debug, PartialEq, Eq)]
pub enum Kind {
    Hmac,
    Pbkdf2,
    Hotp,
    Totp,
    Base32,
    Unbase32,
}

impl Kind {
    fn of(name: &str) -> Option<Kind> {
        match name {
            "hmac" => Some(Kind::Hmac),
            "pbkdf2" => Some(Kind::Pbkdf2),
            "hotp" => Some(Kind::Hotp),
            "totp" => Some(Kind::Totp),
            "base32" => Some(Kind::Base32),
            "unbase32" => Some(Kind::Unbase32),
            _ => None,
        }
    }
}

/// One line.
#[derive(Drop)]
pub struct Case {
    pub kind: Kind,
    pub hash: Hash,
    pub key: Vec<u8>,
    pub message: Vec<u8>,
    pub number: u64,
}

impl Case {
    /// The case of a line, or none where it is out of form.
    pub fn of(alloc: Global, line: &str) -> Option<Case> {
        let mut columns = line.split('\t');
        let kind = Kind::of(columns.next()?)?;
        let hash = Hash::of(columns.next()?)?;
        let key = hex::decode(alloc, columns.next()?).ok()?;
        let message = hex::decode(alloc, columns.next()?).ok()?;
        let number = columns.next()?.parse::<u64>().ok()?;
        Some(Case {
            kind,
            hash,
            key,
            message,
            number,
        })
    }
}

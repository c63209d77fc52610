use crate::case::{Case, Hash, Kind};
use std::alloc::{AllocError, Global};

/// The result of a case, or `-` where it isn't built.
pub fn answer(alloc: Global, case: &Case) -> Result<String, AllocError> {
    match case.kind {
        Kind::Hmac => hmac(alloc, case),
        Kind::Pbkdf2 => pbkdf2(alloc, case),
        Kind::Hotp => code(alloc, case, case.number),
        Kind::Totp => code(alloc, case, case.number / 30),
        Kind::Base32 => text(alloc, case),
        Kind::Unbase32 => bytes(alloc, case),
    }
}

fn none(alloc: Global) -> Result<String, AllocError> {
    String::from_str(alloc, "-")
}

fn hmac(alloc: Global, case: &Case) -> Result<String, AllocError> {
    match case.hash {
        Hash::Sha1 => hex::encode(
            alloc,
            mac_kit::hmac_sha1(&case.key, &case.message).as_slice(),
        ),
        Hash::Sha256 => hex::encode(
            alloc,
            mac_kit::hmac_sha256(&case.key, &case.message).as_slice(),
        ),
        Hash::Sha512 => hex::encode(
            alloc,
            mac_kit::hmac_sha512(&case.key, &case.message).as_slice(),
        ),
        Hash::None => none(alloc),
    }
}

/// The longest key: a shorter one is its front.
fn pbkdf2(alloc: Global, case: &Case) -> Result<String, AllocError> {
    let Ok(count) = u32::try_from(case.number) else {
        return none(alloc);
    };
    if count == 0 {
        return none(alloc);
    }
    let mut key = [0u8; 64];
    match case.hash {
        Hash::Sha1 => mac_kit::pbkdf2_sha1(&case.key, &case.message, count, &mut key),
        Hash::Sha256 => mac_kit::pbkdf2_sha256(&case.key, &case.message, count, &mut key),
        Hash::None | Hash::Sha512 => return none(alloc),
    }
    hex::encode(alloc, key.as_slice())
}

/// The longest code: a shorter one is its end.
fn code(alloc: Global, case: &Case, step: u64) -> Result<String, AllocError> {
    if case.hash != Hash::Sha1 {
        return none(alloc);
    }
    let code = one_time::totp_at(&case.key, step, 8);
    format!(in alloc; "{code:08}")
}

fn text(alloc: Global, case: &Case) -> Result<String, AllocError> {
    let Ok(text) = one_time::base32_text(alloc, &case.message) else {
        return Err(AllocError);
    };
    String::from_utf8_lossy(alloc, &text)
}

fn bytes(alloc: Global, case: &Case) -> Result<String, AllocError> {
    match one_time::base32_read(alloc, &case.message) {
        Ok(bytes) => hex::encode(alloc, bytes.as_slice()),
        Err(one_time::Base32Fault::Memory) => Err(AllocError),
        Err(_) => none(alloc),
    }
}

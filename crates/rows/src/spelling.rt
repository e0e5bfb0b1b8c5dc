//! Decodes texts in which `%` and two hexadecimal digits spell a byte.

use std::alloc::AllocError;

/// Adds a text in which `%` and two hexadecimal digits are one byte; false where such digits are missing.
pub fn push_spelled(bytes: &mut Vec<u8>, text: &str) -> Result<bool, AllocError> {
    let Some((plain, spelled)) = text.split_once('%') else {
        bytes.extend_from_slice(text.as_bytes())?;
        return Ok(true);
    };
    bytes.extend_from_slice(plain.as_bytes())?;
    for part in spelled.split('%') {
        if !push_byte_and_rest(bytes, part)? {
            return Ok(false);
        }
    }
    Ok(true)
}

/// Adds the byte of two hexadecimal digits, and the text behind them; false where no such digits begin it.
fn push_byte_and_rest(bytes: &mut Vec<u8>, part: &str) -> Result<bool, AllocError> {
    let Some((digits, rest)) = part.split_at_checked(2) else {
        return Ok(false);
    };
    let Ok(byte) = u8::from_str_radix(digits, 16) else {
        return Ok(false);
    };
    bytes.push(byte)?;
    bytes.extend_from_slice(rest.as_bytes())?;
    Ok(true)
}

//! Counts the characters of UTF-8 text, and the bytes that its first n characters take, by blocks of bytes.

ghost use Rattle.std.specs.Prelude.{◌≡◌, ◌+◌, ◌<◌, ◌≤◌, true, length, take, drop, slice_index, chars};
ghost use Rattle.std.specs.Simd.Lanes.{chunk};
ghost use Rattle.std.specs.Str.{IsCharBoundary};
ghost use Rattle.text_model.specs.Beginnings.{begins_character, beginnings};

use std::simd::prelude::*;

/// How many bytes are counted at once.
const BLOCK: usize = 32;

/// Whether a byte of a text begins a character.
fn begins(byte: u8) -> bool
    ensures { result ≡ begins_character byte }
{
    byte < 128 || 192 <= byte
}

/// How many bytes of a block begin a character. Raised by 64, those that go on with one are the greatest, from 192 on.
fn count_in_block(bytes: &[u8], start: usize) -> usize
    requires { start + BLOCK ≤ length bytes.now }
    ensures { result ≡ beginnings (chunk start BLOCK bytes.now) }
{
    let moved = u8x32::from_slice(&bytes[start..]) + u8x32::splat(64);
    moved.simd_lt(u8x32::splat(192)).to_bitmask().count_ones() as usize
}

/// How many of some bytes begin a character, one by one.
fn count_each(bytes: &[u8]) -> usize
    ensures { result ≡ beginnings bytes.now }
{
    let mut count = 0;
    for byte in bytes {
        count += begins(*byte) as usize;
    }
    count
}

/// How many of some bytes begin a character.
fn count_beginnings(bytes: &[u8]) -> usize
    ensures { result ≡ beginnings bytes.now }
{
    let mut count = 0;
    let mut start = 0;
    while bytes.len() - start >= BLOCK {
        count += count_in_block(bytes, start);
        start += BLOCK;
    }
    count + count_each(&bytes[start..])
}

/// Whole blocks at the front in which no more than so many characters begin: where they end, and how many characters
/// are left.
fn skip_blocks(bytes: &[u8], count: usize) -> (usize, usize)
    ensures within { result.0 ≤ length bytes.now }
    ensures left { beginnings (take result.0 bytes.now) + result.1 ≡ count }
{
    let mut left = count;
    let mut start = 0;
    while bytes.len() - start >= BLOCK {
        let here = count_in_block(bytes, start);
        if left < here {
            return (start, left);
        }
        left -= here;
        start += BLOCK;
    }
    (start, left)
}

/// The byte at which a character begins behind so many others from a byte on, or the end.
fn next_beginning(bytes: &[u8], start: usize, count: usize) -> usize
    requires { start ≤ length bytes.now }
    ensures within { result ≤ length bytes.now }
    ensures begins { result < length bytes.now → begins_character (slice_index bytes.now result) ≡ true }
    ensures count { beginnings (take start bytes.now) + count ≤ beginnings bytes.now →
        beginnings (take result bytes.now) ≡ beginnings (take start bytes.now) + count }
{
    let mut left = count;
    let mut at = start;
    while at < bytes.len() {
        if begins(bytes[at]) {
            if left == 0 {
                return at;
            }
            left -= 1;
        }
        at += 1;
    }
    at
}

/// The byte at which a character begins behind so many others, or the end.
fn find_beginning(bytes: &[u8], count: usize) -> usize
    ensures within { result ≤ length bytes.now }
    ensures begins { result < length bytes.now → begins_character (slice_index bytes.now result) ≡ true }
    ensures count { count ≤ beginnings bytes.now → beginnings (take result bytes.now) ≡ count }
{
    // Fewer characters than a block has bytes are found sooner one by one.
    if count < BLOCK {
        return next_beginning(bytes, 0, count);
    }
    let (start, left) = skip_blocks(bytes, count);
    next_beginning(bytes, start, left)
}

/// How many characters a text has.
pub fn count_characters(text: &str) -> usize
    ensures { result ≡ length (chars text.now) }
{
    count_beginnings(text.as_bytes())
}

/// How many bytes so many characters at the front of a text take.
pub fn front_bytes(text: &str, count: usize) -> usize
    requires { count ≤ length (chars text.now) }
    ensures boundary { IsCharBoundary text.now result }
    ensures behind { chars (drop result text.now) ≡ drop count (chars text.now) }
{
    find_beginning(text.as_bytes(), count)
}

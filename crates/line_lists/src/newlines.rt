//! Finds the first newline of some bytes, 16 bytes at a time.

ghost use Rattle.std.specs.Prelude.{◌≡◌, ◌+◌, ◌≤◌, length, drop};
ghost use Rattle.std.specs.List.{position_or_len};
ghost use Rattle.std.specs.Simd.Lanes.{chunk};
ghost use Rattle.text_model.specs.Lines.{is_newline};

use std::simd::prelude::*;

/// How many bytes are looked at at once.
const BLOCK: usize = 16;

/// How many bytes of a block stand before its first newline.
fn newline_in_block(bytes: &[u8], start: usize) -> usize
    requires { start + BLOCK ≤ length bytes.now }
    ensures { result ≡ position_or_len is_newline (chunk start BLOCK bytes.now) }
{
    let block = u8x16::from_slice(&bytes[start..]);
    let newlines = block.simd_eq(u8x16::splat(b'\n')).to_bitmask();
    if newlines == 0 {
        return BLOCK;
    }
    newlines.trailing_zeros() as usize
}

/// Where the first newline from a byte on stands, one by one.
fn next_newline(bytes: &[u8], start: usize) -> usize
    requires { start ≤ length bytes.now }
    ensures { result ≡ start + position_or_len is_newline (drop start bytes.now) }
{
    let mut at = start;
    while at < bytes.len() && bytes[at] != b'\n' {
        at += 1;
    }
    at
}

/// How many of some bytes stand before the first newline.
pub fn find_newline(bytes: &[u8]) -> usize
    ensures { result ≡ position_or_len is_newline bytes.now }
{
    let mut start = 0;
    while bytes.len() - start >= BLOCK {
        let before = newline_in_block(bytes, start);
        if before < BLOCK {
            return start + before;
        }
        start += BLOCK;
    }
    next_newline(bytes, start)
}

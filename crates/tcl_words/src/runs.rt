//! Runs of bytes that go onto a word as they are.

ghost use Rattle.std.specs.Prelude.{◌≡◌, ◌+◌, ◌<◌, ◌≤◌, ℕ, Bool, length, true, false, not, map, slice_index};
ghost use Rattle.std.specs.Prelude.{IfSome, None};
ghost use Rattle.std.specs.Simd.Lanes.{mask_l};
ghost use Rattle.tcl_words.specs.Runs.{is_plain, is_bare, is_quoted, is_braced, AllOrdinary, IsRun};

use crate::stage::{Stage, TextWord};
use std::simd::prelude::*;

// How many bytes are looked at at once.
const BLOCK: usize = 16;

// Which bytes go onto a word of some kind as they are.
trait Ordinary {
    ghost ordinary: { ℕ → Bool };

    // Whether a byte does.
    fn is_ordinary(byte: u8) -> bool
        ensures { result ≡ ordinary byte };

    // Of a block a bit for each byte that doesn't.
    fn stops(block: u8x16) -> u64
        ensures { result ≡ mask_l (map (λ byte. not (ordinary byte)) block) };
}

// Those of a bare word.
struct BareBytes;

impl Ordinary for BareBytes {
    ghost ordinary = { is_bare };

    #[inline(always)]
    fn is_ordinary(byte: u8) -> bool {
        byte > b'\\'
            || byte > b'$' && byte < b'[' && byte != b';'
            || !matches!(
                byte,
                b'\n' | b';' | b' ' | b'\t' | b'\r' | 0x0b | 0x0c | b'[' | b'$' | b'\\'
            )
    }

    #[inline(always)]
    fn stops(block: u8x16) -> u64 {
        let from_tab_to_return = (block - u8x16::splat(b'\t')).simd_lt(u8x16::splat(5));
        // A dollar sign is a space with one bit more.
        let space_or_dollar = (block & u8x16::splat(!4)).simd_eq(u8x16::splat(b' '));
        let others = block.simd_eq(u8x16::splat(b';'))
            | block.simd_eq(u8x16::splat(b'['))
            | block.simd_eq(u8x16::splat(b'\\'));
        (from_tab_to_return | space_or_dollar | others).to_bitmask()
    }
}

// Those of a quoted word.
struct QuotedBytes;

impl Ordinary for QuotedBytes {
    ghost ordinary = { is_quoted };

    #[inline(always)]
    fn is_ordinary(byte: u8) -> bool {
        byte > b'\\' || byte < b'"' || !matches!(byte, b'"' | b'[' | b'$' | b'\\')
    }

    #[inline(always)]
    fn stops(block: u8x16) -> u64 {
        let substitution = block.simd_eq(u8x16::splat(b'[')) | block.simd_eq(u8x16::splat(b'$'));
        let end = block.simd_eq(u8x16::splat(b'"')) | block.simd_eq(u8x16::splat(b'\\'));
        (substitution | end).to_bitmask()
    }
}

// Those of a braced word.
struct BracedBytes;

impl Ordinary for BracedBytes {
    ghost ordinary = { is_braced };

    #[inline(always)]
    fn is_ordinary(byte: u8) -> bool {
        !matches!(byte, b'{' | b'}' | b'\\')
    }

    #[inline(always)]
    fn stops(block: u8x16) -> u64 {
        let braces = block.simd_eq(u8x16::splat(b'{')) | block.simd_eq(u8x16::splat(b'}'));
        (braces | block.simd_eq(u8x16::splat(b'\\'))).to_bitmask()
    }
}

// Where the ordinary bytes from a byte on end, one by one.
#[inline(always)]
fn end_of_each<W: Ordinary>(bytes: &[u8], from: usize) -> usize
    requires { from ≤ length bytes.now }
    ensures { IsRun W.ordinary bytes.now from result }
{
    let mut index = from;
    while index < bytes.len() && W::is_ordinary(bytes[index]) {
        index += 1;
    }
    index
}

// The first byte of a block that isn't an ordinary one.
#[inline(always)]
fn first_stop<W: Ordinary>(bytes: &[u8], start: usize) -> Option<usize>
    requires { start + BLOCK ≤ length bytes.now }
    ensures none { result ≡ None → AllOrdinary W.ordinary bytes.now start (start + BLOCK) }
    ensures some { IfSome result (λ stop. (stop < length bytes.now) × IsRun W.ordinary bytes.now start stop) }
{
    let stops = W::stops(u8x16::from_slice(&bytes[start..]));
    if stops == 0 {
        return None;
    }
    Some(start + stops.trailing_zeros() as usize)
}

// Where the ordinary bytes from a byte on end, by blocks as far as there are whole ones.
#[inline(never)]
fn end_of_blocks<W: Ordinary>(bytes: &[u8], from: usize) -> usize
    requires { from ≤ length bytes.now }
    ensures { IsRun W.ordinary bytes.now from result }
{
    let mut start = from;
    while bytes.len() - start >= BLOCK {
        if let Some(stop) = first_stop::<W>(bytes, start) {
            return stop;
        }
        start += BLOCK;
    }
    end_of_each::<W>(bytes, start)
}

// How many bytes at the front are ordinary ones. Mostly the first block tells, so it is looked at by itself, without
// what a loop over blocks begins with.
#[inline(always)]
fn run<W: Ordinary>(bytes: &[u8]) -> usize
    ensures { IsRun W.ordinary bytes.now 0 result }
{
    if bytes.len() < BLOCK {
        return end_of_each::<W>(bytes, 0);
    }
    match first_stop::<W>(bytes, 0) {
        Some(stop) => stop,
        None => end_of_blocks::<W>(bytes, BLOCK),
    }
}

/// How many bytes at the front are ordinary ones of a bare word.
pub fn bare_run(bytes: &[u8]) -> usize
    ensures within { result ≤ length bytes.now }
    ensures plain { (k : ℕ) → k < result → is_bare (slice_index bytes.now k) ≡ true }
    ensures longest { result < length bytes.now → is_bare (slice_index bytes.now result) ≡ false }
    ensures end { result < length bytes.now → slice_index bytes.now result < 128 }
{
    run::<BareBytes>(bytes)
}

/// The same of a quoted word.
pub fn quoted_run(bytes: &[u8]) -> usize
    ensures within { result ≤ length bytes.now }
    ensures plain { (k : ℕ) → k < result → is_quoted (slice_index bytes.now k) ≡ true }
    ensures longest { result < length bytes.now → is_quoted (slice_index bytes.now result) ≡ false }
    ensures end { result < length bytes.now → slice_index bytes.now result < 128 }
{
    // Behind an escape there is often none: another one follows, or the word ends.
    if bytes.is_empty() || !QuotedBytes::is_ordinary(bytes[0]) {
        return 0;
    }
    run::<QuotedBytes>(bytes)
}

/// The same of a braced word.
pub fn braced_run(bytes: &[u8]) -> usize
    ensures within { result ≤ length bytes.now }
    ensures plain { (k : ℕ) → k < result → is_braced (slice_index bytes.now k) ≡ true }
    ensures longest { result < length bytes.now → is_braced (slice_index bytes.now result) ≡ false }
    ensures end { result < length bytes.now → slice_index bytes.now result < 128 }
{
    run::<BracedBytes>(bytes)
}

/// How many bytes at the front go onto the word as they are, and leave the stage as it is.
pub fn plain_run(stage: Stage, bytes: &[u8]) -> usize
    ensures within { result ≤ length bytes.now }
    ensures plain { (k : ℕ) → k < result → is_plain stage (slice_index bytes.now k) ≡ true }
    ensures longest { result < length bytes.now → is_plain stage (slice_index bytes.now result) ≡ false }
    ensures end { 0 < result → result < length bytes.now → slice_index bytes.now result < 128 }
{
    match stage {
        Stage::Text(TextWord::Bare) => bare_run(bytes),
        Stage::Text(TextWord::Quoted) => quoted_run(bytes),
        Stage::Braced(_) => braced_run(bytes),
        _ => 0,
    }
}

//! Runs of bytes up to the first that is marked, sixteen bytes at a time. This file knows bytes, and no
//! text.
ghost use Rattle.std.specs.Prelude.{◌≡◌, true, ◌+◌, ◌++◌, ◌-◌, ◌<◌, ◌≤◌, ℕ, Bool, length, map, take};
ghost use Rattle.std.specs.List.{position_or_len};
ghost use Rattle.std.specs.Simd.Lanes.{chunk, mask_l};
ghost use Rattle.ini_text.specs.Inside.Lanes.{Tells, is_one_of, is_one_of_five};
ghost use Rattle.ini_text.specs.declared.lanes.TheConstants.{HALF, LANES};

use std::simd::prelude::*;

/// How many bytes are tested together.
pub(crate) const LANES: usize = 16;

/// Half of them.
pub(crate) const HALF: usize = 8;

/// Bytes at which a run ends.
pub(crate) trait Marks {
    ghost is_marked: { Self → ℕ → Bool };

    fn contains(&self, byte: u8) -> bool
        ensures { result ≡ is_marked self.now byte };

    /// The bits of the lanes that hold a marked byte.
    fn find(&self, lanes: u8x16) -> u64
        ensures { result ≡ mask_l (map (is_marked self.now) lanes) };
}

/// The bits of the first bytes that are marked, which are looked for where none is known already, if so many
/// more bytes follow.
#[inline(always)]
pub(crate) fn marks_ahead<M: Marks>(bytes: &[u8], known: u64, more: usize, marks: &M) -> u64
    requires known { Tells (M.is_marked marks.now) more known bytes.now }
    requires few { more ≤ LANES }
    ensures tells { Tells (M.is_marked marks.now) more result bytes.now }
    ensures none { result ≡ 0 → LANES + more ≤ length bytes.now
        → LANES ≤ position_or_len (M.is_marked marks.now) bytes.now }
{
    if known != 0 {
        return known;
    }
    if bytes.len() < LANES + more {
        return 0;
    }
    marks.find(u8x16::from_slice(bytes))
}

/// How many bytes stand before the first that is marked.
#[inline(always)]
pub(crate) fn run_before<M: Marks>(bytes: &[u8], marks: &M) -> usize
    ensures len { result ≡ position_or_len (M.is_marked marks.now) bytes.now }
    ensures within { result ≤ length bytes.now }
{
    let mut at = 0;
    'lanes: while bytes.len() - at >= LANES {
        let bits = marks.find(u8x16::from_slice(&bytes[at..]));
        if bits != 0 {
            return at + bits.trailing_zeros() as usize;
        }
        at += LANES;
    }
    at + few_before(&bytes[at..], marks)
}

// As `run_before`, for fewer bytes than are tested together.
#[inline(always)]
fn few_before<M: Marks>(bytes: &[u8], marks: &M) -> usize
    requires { length bytes.now < LANES }
    ensures len { result ≡ position_or_len (M.is_marked marks.now) bytes.now }
    ensures within { result ≤ length bytes.now }
{
    if has_no_mark(bytes, marks) {
        return bytes.len();
    }
    bytes
        .iter()
        .take_while(|byte| !marks.contains(**byte))
        .count()
}

/// Whether eight to sixteen bytes have no mark, by one test; of fewer or more it is not asked.
#[inline(always)]
pub(crate) fn has_no_mark<M: Marks>(bytes: &[u8], marks: &M) -> bool
    ensures none { result ≡ true → position_or_len (M.is_marked marks.now) bytes.now ≡ length bytes.now }
    ensures long { result ≡ true → HALF ≤ length bytes.now }
{
    if bytes.len() < HALF || bytes.len() > LANES {
        return false;
    }
    marks.find(both_ends(bytes)) == 0
}

// The first eight bytes and the last eight, which may overlap.
#[inline(always)]
fn both_ends(bytes: &[u8]) -> u8x16
    requires { HALF ≤ length bytes.now }
    ensures { result ≡ chunk 0 HALF bytes.now ++ chunk (length bytes.now - HALF) HALF bytes.now }
{
    let front = u8x8::from_slice(bytes);
    let back = u8x8::from_slice(&bytes[bytes.len() - HALF..]);
    front.shuffle(back, [0, 1, 2, 3, 4, 5, 6, 7, 8, 9, 10, 11, 12, 13, 14, 15])
}

/// Three bytes, some of which may be one.
#[derive(Clone, Copy)]
pub(crate) struct Three(pub(crate) u8, pub(crate) u8, pub(crate) u8);

impl Marks for Three {
    ghost is_marked = { λ three byte. is_one_of three.0 three.1 three.2 byte };

    #[inline(always)]
    fn contains(&self, byte: u8) -> bool {
        byte == self.0 || byte == self.1 || byte == self.2
    }

    #[inline(always)]
    fn find(&self, lanes: u8x16) -> u64 {
        let first = lanes.simd_eq(u8x16::splat(self.0));
        let second = lanes.simd_eq(u8x16::splat(self.1));
        let third = lanes.simd_eq(u8x16::splat(self.2));
        (first | second | third).to_bitmask()
    }
}

/// Three bytes and two more.
#[derive(Clone, Copy)]
pub(crate) struct Five(pub(crate) Three, pub(crate) u8, pub(crate) u8);

impl Marks for Five {
    ghost is_marked = { λ five byte.
        is_one_of_five five.0.0 five.0.1 five.0.2 five.1 five.2 byte };

    #[inline(always)]
    fn contains(&self, byte: u8) -> bool {
        self.0.contains(byte) || byte == self.1 || byte == self.2
    }

    #[inline(always)]
    fn find(&self, lanes: u8x16) -> u64 {
        let first = lanes.simd_eq(u8x16::splat(self.0.0));
        let second = lanes.simd_eq(u8x16::splat(self.0.1));
        let third = lanes.simd_eq(u8x16::splat(self.0.2));
        let fourth = lanes.simd_eq(u8x16::splat(self.1));
        let fifth = lanes.simd_eq(u8x16::splat(self.2));
        (first | second | third | fourth | fifth).to_bitmask()
    }
}

/// Puts sixteen bytes after the first `len`.
#[inline(always)]
pub(crate) fn place_lanes(bytes: &mut [u8], len: usize, lanes: u8x16)
    requires { len + LANES ≤ length bytes.old }
    ensures placed { (n : ℕ) → n ≤ LANES → take (len + n) bytes.new ≡ take len bytes.old ++ take n lanes }
    ensures length { length bytes.new ≡ length bytes.old }
{
    lanes.copy_to_slice(&mut bytes[len..]);
}

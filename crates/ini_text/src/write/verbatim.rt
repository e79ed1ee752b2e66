//! Runs of characters that a policy leaves as they are, found by their bytes. This file knows no device
//! and no escape's text.
ghost use Rattle.std.specs.Prelude.{◌≡◌, ◌++◌, ◌+◌, not, true, false, length, chars, All};
ghost use Rattle.std.specs.List.{position_or_len};
ghost use Rattle.ini_text.specs.Grammar.CharacterKinds.{BeginsWithNo};
ghost use Rattle.ini_text.specs.Escaping.EscapedTexts.{escaped_bytes};
ghost use Rattle.ini_text.specs.Escaping.Policies.{is_escaped};
ghost use Rattle.ini_text.specs.Inside.Verbatim.{begins_escaped};
ghost use Rattle.ini_text.specs.declared.write.policy.EscapePolicy.TheVariants as policies;

use crate::lanes::{Marks, run_before};
use crate::write::policy::{EscapePolicy, basic_bits, reserved_bits};
use std::simd::prelude::*;

/// The run at the front of a text that goes out as it is, and what follows: nothing, or a character that
/// is escaped.
pub(crate) fn split_verbatim(text: &str, policy: EscapePolicy) -> (&str, &str)
    ensures bytes { escaped_bytes policy text.now
        ≡ result.0.now ++ escaped_bytes policy result.1.now }
    ensures next { BeginsWithNo (λ c. not (is_escaped policy c)) (chars result.1.now) }
    ensures lengths { length result.0.now + length result.1.now ≡ length text.now }
{
    text.split_at(run_len(text.as_bytes(), policy))
}

/// Whether the whole text goes out as it is.
#[inline(always)]
pub(crate) fn is_verbatim(text: &str, policy: EscapePolicy) -> bool
    ensures same { result ≡ true → escaped_bytes policy text.now ≡ text.now }
    ensures told { All (λ byte. begins_escaped policy byte ≡ false) text.now → result ≡ true }
{
    run_len(text.as_bytes(), policy) == text.len()
}

// How many bytes stand before the first character that is escaped.
fn run_len(bytes: &[u8], policy: EscapePolicy) -> usize
    ensures { result ≡ position_or_len (begins_escaped policy) bytes.now }
{
    match policy {
        EscapePolicy::Basics => run_before(bytes, &Basics),
        EscapePolicy::Reserved => run_before(bytes, &Reserved),
        _ => bytes
            .iter()
            .take_while(|byte| !policy.begins_escaped(**byte))
            .count(),
    }
}

/// What `EscapePolicy::Basics` escapes.
#[derive(Clone, Copy)]
pub(crate) struct Basics;

impl Marks for Basics {
    ghost is_marked = { λ _ byte. begins_escaped policies.Basics byte };

    #[inline(always)]
    fn contains(&self, byte: u8) -> bool {
        EscapePolicy::Basics.begins_escaped(byte)
    }

    #[inline(always)]
    fn find(&self, lanes: u8x16) -> u64 {
        basic_bits(lanes)
    }
}

/// What `EscapePolicy::Reserved` escapes.
#[derive(Clone, Copy)]
pub(crate) struct Reserved;

impl Marks for Reserved {
    ghost is_marked = { λ _ byte. begins_escaped policies.Reserved byte };

    #[inline(always)]
    fn contains(&self, byte: u8) -> bool {
        EscapePolicy::Reserved.begins_escaped(byte)
    }

    #[inline(always)]
    fn find(&self, lanes: u8x16) -> u64 {
        basic_bits(lanes) | reserved_bits(lanes)
    }
}

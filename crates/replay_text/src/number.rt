//! Reading numbers behind words, and numbers of 32 bits.

ghost use Rattle.std.specs.Prelude.{◌≤◌, IfSome};
ghost use Rattle.replay_forms.specs.Reading.{ReadsNext, behind, number_then};

use replay_forms::{after, number_then};

/// A decimal of at most `max`, without leading zeros, and the word behind it.
pub fn u32_then<'a>(max: u32, end: &[u8], bytes: &'a [u8]) -> Option<(u32, &'a [u8])>
    ensures reads { ReadsNext (number_then max end.now) bytes.now result }
    ensures within { IfSome result (λ r. r.0 ≤ max) }
{
    let Some((n, rest)) = number_then(max as u64, end, bytes) else {
        return None;
    };
    Some((n as u32, rest))
}

/// A word, a decimal of at most `max` without leading zeros, and the word behind it.
pub fn number_behind<'a>(
    word: &[u8],
    max: u64,
    end: &[u8],
    bytes: &'a [u8],
) -> Option<(u64, &'a [u8])>
    ensures reads { ReadsNext (behind word.now (number_then max end.now)) bytes.now result }
    ensures within { IfSome result (λ r. r.0 ≤ max) }
{
    let Some(rest) = after(word, bytes) else {
        return None;
    };
    number_then(max, end, rest)
}

/// The same of 32 bits.
pub fn u32_behind<'a>(word: &[u8], max: u32, end: &[u8], bytes: &'a [u8]) -> Option<(u32, &'a [u8])>
    ensures reads { ReadsNext (behind word.now (number_then max end.now)) bytes.now result }
    ensures within { IfSome result (λ r. r.0 ≤ max) }
{
    let Some(rest) = after(word, bytes) else {
        return None;
    };
    u32_then(max, end, rest)
}

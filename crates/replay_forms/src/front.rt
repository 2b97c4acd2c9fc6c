//! Readers of one word or one number at the front of bytes.

ghost use Rattle.std.specs.Prelude.{◌≡◌, ◌<◌, ◌≤◌, IfSome};
ghost use Rattle.replay_forms.specs.Reading.{Reads, ReadsNext, after, digits_after, number_at, number_within};
ghost use Rattle.replay_forms.specs.Reading.{number_then, signed_then, negative_then};
ghost use Rattle.replay_forms.specs.Texts.{hex_digit};

/// The bytes behind a word that has to stand there.
#[tactic(auto, unfolding(crate::specs::Reading::after))]
pub fn after<'a>(word: &[u8], bytes: &'a [u8]) -> Option<&'a [u8]>
    ensures { Reads (λ r. r.now) result (after word.now bytes.now) }
{
    match word {
        [] => Some(bytes),
        [w, word @ ..] => match bytes {
            [] => None,
            [b, bytes @ ..] => { if *w == *b { after(word, bytes) } else { None } }
        },
    }
}

/// The number that is made by the digits in front of `bytes` behind those of `n`.
#[tactic(auto, unfolding(crate::specs::Reading::digits_after))]
fn digits_after(n: u64, bytes: &[u8]) -> Option<(u64, &[u8])>
    ensures { ReadsNext (digits_after n) bytes.now result }
{
    match bytes {
        [] => Some((n, bytes)),
        [c, rest @ ..] => {
            let c = *c;
            if 48 <= c && c <= 57 {
                let digit = (c - 48) as u64;
                if n <= (u64::MAX - digit) / 10 {
                    digits_after(10 * n + digit, rest)
                } else {
                    None
                }
            } else {
                Some((n, bytes))
            }
        }
    }
}

/// An unsigned decimal without leading zeros.
#[tactic(auto, unfolding(crate::specs::Reading::number_at))]
fn number_at(bytes: &[u8]) -> Option<(u64, &[u8])>
    ensures { ReadsNext number_at bytes.now result }
{
    match bytes {
        [] => None,
        [c, rest @ ..] => {
            let c = *c;
            if c == 48 {
                Some((0, rest))
            } else if 48 <= c && c <= 57 {
                digits_after((c - 48) as u64, rest)
            } else {
                None
            }
        }
    }
}

/// An unsigned decimal of at most `max`, without leading zeros.
pub fn number_within(max: u64, bytes: &[u8]) -> Option<(u64, &[u8])>
    ensures reads { ReadsNext (number_within max) bytes.now result }
    ensures within { IfSome result (λ r. r.0 ≤ max) }
{
    let (n, rest) = number_at(bytes)?;
    if n <= max { Some((n, rest)) } else { None }
}

/// An unsigned decimal of at most `max`, without leading zeros, and the word behind it.
pub fn number_then<'a>(max: u64, word: &[u8], bytes: &'a [u8]) -> Option<(u64, &'a [u8])>
    ensures reads { ReadsNext (number_then max word.now) bytes.now result }
    ensures within { IfSome result (λ r. r.0 ≤ max) }
{
    let (n, rest) = number_within(max, bytes)?;
    let rest = after(word, rest)?;
    Some((n, rest))
}

fn negative_then<'a>(word: &[u8], bytes: &'a [u8]) -> Option<(i64, &'a [u8])>
    ensures { ReadsNext (negative_then word.now) bytes.now result }
{
    let rest = after(b"-", bytes)?;
    let (n, rest) = number_then(1 << 63, word, rest)?;
    if n == 0 {
        return None;
    }
    Some((-1 - (n - 1) as i64, rest))
}

/// A signed decimal of 64 bits without leading zeros and never `-0`, and the word behind it.
pub fn signed_then<'a>(word: &[u8], bytes: &'a [u8]) -> Option<(i64, &'a [u8])>
    ensures { ReadsNext (signed_then word.now) bytes.now result }
{
    if let Some((n, rest)) = number_then(i64::MAX as u64, word, bytes) {
        return Some((n as i64, rest));
    }
    negative_then(word, bytes)
}

/// A digit of base 16, in lower case.
pub fn hex_digit(n: u8) -> u8
    requires { n < 16 }
    ensures { result ≡ hex_digit n }
{
    if n < 10 { b'0' + n } else { b'a' + (n - 10) }
}

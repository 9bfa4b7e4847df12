// Checking the words of an image, before anything is read from them.
#![tactic(auto)]

ghost use Rattle.std.specs.Prelude.{◌≡◌, true, ◌≤◌};
ghost use Rattle.group_codes.specs.Codes.{AllCodes, merges_of};
ghost use Rattle.geometry.specs.Geometry.{largest_width};
ghost use Rattle.image_format.specs.Read.{check_head, check_groups, check_four, check_fours, check_end, checked};
ghost use Rattle.image_format.specs.Tables.{Reads};
ghost use Rattle.image_checker.specs.Checker.{Clear};
ghost use Rattle.word.specs.Step.{step};

use answer::Refusal;
use image_format::log_width;
use image_group_checker::{are_counts, check_any};
use image_layouts::{codes_at, merge_of};
use word::{Fault, Kind, below, differing_bits, payload, tested};

// The head of an image for a meter of d rows of w slots.
fn check_head(words: &[u32], d: usize, w: usize) -> Result<usize, Fault>
    requires { d ≤ 8 }
    ensures { step result ≡ check_head d w words.now }
{
    below(words, 0, Kind::Head, 512)?;
    tested(
        words,
        0,
        Kind::Head,
        payload(words, 0) == log_width(w) * 16 + d as u32,
        Refusal::OtherMeter,
    )
}

// Whether the words of 32 slots are sound and nothing is merged there.
fn is_clear(words: &[u32], p: usize) -> bool
    ensures { result ≡ true → Clear words.now p }
{
    if p >= words.len() {
        return false;
    }
    if differing_bits(words[p], Kind::Layout.code()) != 0 {
        return false;
    }
    are_counts(words, p + 1, 32)
}

// The words of the counters of four groups with these layout codes.
fn check_groups(
    words: &[u32],
    p: usize,
    codes: [u8; 4],
    layouts: &[u8],
    fields: &[u8],
) -> Result<usize, Fault>
    requires fact_1 { AllCodes codes }
    requires fact_2 { Reads layouts.now fields.now }
    ensures { step result ≡ check_groups (merges_of codes) words.now p }
{
    let mut at = p;
    for c in codes {
        at = check_any(words, at, merge_of(c, layouts), fields, c as usize)?;
    }
    Ok(at)
}

// The words of 32 slots.
fn check_four(words: &[u32], p: usize, layouts: &[u8], fields: &[u8]) -> Result<usize, Fault>
    requires { Reads layouts.now fields.now }
    ensures { step result ≡ check_four words.now p }
{
    if is_clear(words, p) {
        return Ok(p + 33);
    }
    let at = below(words, p, Kind::Layout, group_codes::FOUR_LAYOUTS)?;
    check_groups(words, at, codes_at(words, p), layouts, fields)
}

// The words of n times 32 slots.
fn check_fours(
    words: &[u32],
    p: usize,
    n: usize,
    layouts: &[u8],
    fields: &[u8],
) -> Result<usize, Fault>
    requires { Reads layouts.now fields.now }
    ensures { step result ≡ check_fours n words.now p }
{
    let mut at = p;
    for _ in 0..n {
        at = check_four(words, at, layouts, fields)?;
    }
    Ok(at)
}

// The end, with the number of words before it and no word after it.
fn check_end(words: &[u32], p: usize) -> Result<usize, Fault>
    ensures { step result ≡ check_end words.now p }
{
    let at = tested(
        words,
        p,
        Kind::End,
        payload(words, p) == (p % word::PAYLOADS) as u32,
        Refusal::BadPayload,
    )?;
    if words.len() != at {
        return Err(Fault {
            refusal: Refusal::BadWord,
            position: at,
        });
    }
    Ok(at)
}

// All words, for a meter of d rows of w slots.
pub fn check(
    words: &[u32],
    d: usize,
    w: usize,
    layouts: &[u8],
    fields: &[u8],
) -> Result<usize, Fault>
    requires fact_1 { d ≤ 8 }
    requires fact_2 { w ≤ largest_width }
    requires fact_3 { Reads layouts.now fields.now }
    ensures { step result ≡ checked d w words.now }
{
    let rows = check_head(words, d, w)?;
    let end = check_fours(words, rows, d * (w / 32), layouts, fields)?;
    check_end(words, end)
}

// Checking the words of one group's counters.
#![tactic(auto)]

ghost use Rattle.std.specs.Prelude.{◌≡◌, true, ◌<◌};
ghost use Rattle.group_codes.specs.Pack.{layouts_of, code_merge};
ghost use Rattle.image_format.specs.Read.{check_parts, check_slots};
ghost use Rattle.image_format.specs.Tables.{Fields};
ghost use Rattle.image_group_checker.specs.Checker.{Counts, Sound};
ghost use Rattle.word.specs.Step.{step};

use word::{Fault, Kind, below, differing_bits};

// Whether n words are there and each is a counter of one slot. They are gone through to the last.
pub fn are_counts(words: &[u32], p: usize, n: usize) -> bool
    ensures { result ≡ true → Counts words.now p n }
{
    if words.len() < n {
        return false;
    }
    if words.len() - n < p {
        return false;
    }
    let mut bits: u32 = 0;
    for w in &words[p..p + n] {
        bits |= differing_bits(*w, Kind::Count.code());
    }
    bits < 256
}

// The n words of a counter, the first of which has a limit of its own.
fn check_parts(words: &[u32], p: usize, n: u32, limit: u32) -> Result<usize, Fault>
    ensures { step result ≡ check_parts n words.now p limit }
{
    let mut at = p;
    let mut most = limit;
    for _ in 0..n {
        at = below(words, at, Kind::Count, most)?;
        most = 16777216;
    }
    Ok(at)
}

// The words of a group's counters.
fn check_group(words: &[u32], p: usize, merge: u8) -> Result<usize, Fault>
    ensures { step result ≡ check_slots 8 0 merge words.now p }
{
    let mut at = p;
    // The slot at which the next counter starts. A level is looked up there alone: most of this function's time goes into that.
    let mut next = 0;
    for k in 0..8 {
        if k == next {
            let level = image_format::level_at(merge, k);
            at = check_parts(
                words,
                at,
                image_format::word_count(level),
                1 << image_format::first_bits(level),
            )?;
            next = k + (1 << level);
        }
    }
    Ok(at)
}

// Whether the words of a group's counters are sound, by the description of its layout. Eight words are looked at, whatever the group has,
// so false does not say that they are not.
fn are_sound(words: &[u32], p: usize, fields: &[u8], c: usize) -> bool
    requires fact_1 { c < layouts_of 1 }
    requires fact_2 { Fields fields.now }
    ensures { result ≡ true → Sound c fields.now words.now p }
{
    if words.len() < 8 {
        return false;
    }
    if words.len() - 8 < p {
        return false;
    }
    if fields.len() < 17 * c + 17 {
        return false;
    }
    let at = 17 * c + 9;
    let mut bits: u32 = 0;
    for (w, b) in words[p..p + 8].iter().zip(&fields[at..at + 8]) {
        bits |= differing_bits(*w, Kind::Count.code()) >> (*b % 32);
    }
    bits == 0
}

// The words of the counters of a group with layout code c.
pub fn check_any(
    words: &[u32],
    p: usize,
    merge: u8,
    fields: &[u8],
    c: usize,
) -> Result<usize, Fault>
    requires fact_1 { c < layouts_of 1 }
    requires fact_2 { merge ≡ code_merge c }
    requires fact_3 { Fields fields.now }
    ensures { step result ≡ check_slots 8 0 merge words.now p }
{
    if are_sound(words, p, fields, c) {
        return Ok(p + fields[17 * c] as usize);
    }
    check_group(words, p, merge)
}

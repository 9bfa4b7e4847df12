// The key words of a record: tested, and their bytes taken.
#![tactic(auto)]

ghost use Rattle.std.specs.Prelude.{◌≡◌, true, ◌+◌, ◌*◌, ◌^◌, ◌<◌, ◌≤◌, length, take};
ghost use Rattle.word.specs.Step.{step};
ghost use Rattle.word.specs.Word as spec;
ghost use Rattle.feed_keys.specs.Keys.{key_words, key_payload, key_word, check_key, key_of};
ghost use Rattle.feed_keys.specs.Stored.{stored};

use answer::Refusal;
use word::{Fault, Kind, differing_bits, is_due, payload, tested};

// The number of words of a key, three bytes a word.
pub fn key_words(n: usize) -> usize
    requires { n < 2 ^ 32 }
    ensures { result ≡ key_words n }
{
    (n + 2) / 3
}

// Whether a key word may have this payload, with n bytes of the key left: bits 24 to 27 and unused bytes are 0.
fn key_payload(n: usize, v: u32) -> bool
    requires { 1 ≤ n }
    ensures { result ≡ key_payload n v }
{
    if v >= 16777216 {
        return false;
    }
    if n == 1 {
        return v % 65536 == 0;
    }
    if n == 2 {
        return v % 256 == 0;
    }
    true
}

// The key word at a position, with n bytes of the key left. The kind is tested first, as in `below`.
#[tactic(auto, unfolding(crate::specs::Keys::key_word, answer::specs::Refusals::number), using(word::proofs::Laws::not_due))]
fn key_word(words: &[u32], p: usize, n: usize) -> Result<usize, Fault>
    requires { 1 ≤ n }
    ensures { step result ≡ key_word n words.now p }
{
    if !is_due(words, p, Kind::Key.code()) {
        return Err(Fault {
            refusal: Refusal::BadWord,
            position: p,
        });
    }
    let holds = key_payload(n, payload(words, p));
    tested(words, p, Kind::Key, holds, Refusal::BadPayload)
}

// Puts the three bytes of key word i into `key`, the earliest the highest.
fn put_three(key: &mut [u8], i: usize, v: u32)
    requires { 3 * i + 3 ≤ length key.old }
    ensures { key.new ≡ stored key.old i v }
{
    let [_, first, second, third] = v.to_be_bytes();
    key[3 * i] = first;
    key[3 * i + 1] = second;
    key[3 * i + 2] = third;
}

// The key words of a record, in one pass: their bytes are taken into `key`, three a word. The position of a key word is given by its
// index, and does not depend on the step before.
pub fn take_key(words: &[u32], n: usize, key: &mut [u8]) -> Result<usize, Fault>
    requires fact_1 { n ≤ 64 }
    requires fact_2 { length key.old ≡ 66 }
    ensures value { step result ≡ check_key (key_words n) n words.now 1 }
    ensures position_value { (step result).status ≡ 0 → (step result).position ≡ 1 + key_words n }
    ensures key_after { (step result).status ≡ 0 → take n key.new ≡ key_of n words.now }
{
    // i is the number of a key word, which is tested where it stands
    for i in 0..key_words(n) {
        key_word(words, 1 + i, n - 3 * i)?;
        let v = payload(words, 1 + i);
        put_three(key, i, v);
    }
    Ok(1 + key_words(n))
}

// The key words of a record tested together, with no test on the way: whether all are sound. If so, the key's bytes are taken into `key`.
pub fn take_sound_key(words: &[u32], n: usize, key: &mut [u8]) -> bool
    requires fact_1 { n ≤ 64 }
    requires fact_2 { length key.old ≡ 66 }
    ensures words_value { result ≡ true → check_key (key_words n) n words.now 1 ≡ spec.go (1 + key_words n) }
    ensures key_after { result ≡ true → take n key.new ≡ key_of n words.now }
{
    let m = key_words(n);
    if words.len() <= m {
        return false;
    }
    let mut bad = 0u32;
    for (i, word) in words[1..=m].iter().enumerate() {
        // the kind of a key word, and bits 24 to 27 are 0
        bad |= differing_bits(*word, Kind::Key.code()) >> 24;
        put_three(key, i, *word);
    }
    if bad != 0 {
        return false;
    }
    // 0, 1 or 2 bytes of the last word
    let unused = 3 * m - n;
    words[m] % (1 << (8 * unused as u32)) == 0
}

// The words of a record. Its key words are looked at only after its kind and key length pass.
#![tactic(auto)]

ghost use Rattle.std.specs.Prelude.{◌≡◌, ◌^◌, ◌<◌, ◌≤◌, Ok, length, take};
ghost use Rattle.word.specs.Step.{step};
ghost use Rattle.feed_records.specs.Openings.{as_opening};
ghost use Rattle.feed_records.specs.Bodies.{as_body};
ghost use Rattle.feed_records.specs.Answers.{body_answer};
ghost use Rattle.feed_keys.specs.Keys as keys;
ghost use Rattle.feed_keys.specs.Keys.{key_words, key_of};
ghost use Rattle.feed_records.specs.Words.{opens_key, opened, check_amount, amount_of, update_step, update_body, query_body};

use answer::Refusal;
pub use feed_keys::key_words;
use feed_keys::{take_key, take_sound_key};
use word::{Fault, Kind, below, is_due, payload};

const PAYLOADS: u64 = word::PAYLOADS as u64;

// What a first word opens.
#[derive(Clone, Copy, Debug, PartialEq, Eq)]
pub enum Opening {
    Update { length: usize },
    Query { length: usize },
    End,
}

// A record is opened only if its key has 1 to 64 bytes.
fn opens_key(n: u32, o: Opening) -> Result<Opening, Refusal>
    ensures { as_opening result ≡ opens_key n (as_opening (Ok o)) }
{
    geometry::check_key(n as usize)?;
    Ok(o)
}

// The first word of a record, or the end after so many words.
#[tactic(auto, unfolding(crate::specs::Words::opened, answer::specs::Refusals::number))]
pub fn first_word(before: u64, words: &[u32]) -> Result<Opening, Refusal>
    ensures { as_opening result ≡ opened before words.now }
{
    let n = payload(words, 0);
    if is_due(words, 0, Kind::Update.code()) {
        return opens_key(n, Opening::Update { length: n as usize });
    }
    if is_due(words, 0, Kind::Query.code()) {
        return opens_key(n, Opening::Query { length: n as usize });
    }
    if !is_due(words, 0, Kind::End.code()) {
        return Err(Refusal::BadWord);
    }
    if n as u64 != before % PAYLOADS {
        return Err(Refusal::BadPayload);
    }
    Ok(Opening::End)
}

// The key words of a record. A key that is not sound is read again for its first fault.
fn check_key(words: &[u32], n: usize, key: &mut [u8]) -> Result<usize, Fault>
    requires fact_1 { n ≤ 64 }
    requires fact_2 { length key.old ≡ 66 }
    ensures value { step result ≡ keys.check_key (key_words n) n words.now 1 }
    ensures key_after { (step result).status ≡ 0 → take n key.new ≡ key_of n words.now }
{
    if take_sound_key(words, n, key) {
        return Ok(1 + key_words(n));
    }
    take_key(words, n, key)
}

// Two words with 16 bits of an amount each.
#[tactic(auto, unfolding(crate::specs::Words::check_amount))]
fn check_amount(words: &[u32], p: usize) -> Result<usize, Fault>
    ensures { step result ≡ check_amount words.now p }
{
    let second = below(words, p, Kind::Amount, 65536)?;
    below(words, second, Kind::Amount, 65536)
}

// The words after an update's first.
fn check_update(words: &[u32], n: usize, key: &mut [u8]) -> Result<usize, Fault>
    requires fact_1 { n ≤ 64 }
    requires fact_2 { length key.old ≡ 66 }
    ensures value { step result ≡ update_step n words.now }
    ensures key_after { (step result).status ≡ 0 → take n key.new ≡ key_of n words.now }
{
    let p = check_key(words, n, key)?;
    check_amount(words, p)
}

// The amount of an update, high part first.
#[tactic(auto, unfolding(crate::specs::Words::amount_of))]
fn amount_of(words: &[u32], n: usize) -> u32
    requires { n < 2 ^ 32 }
    ensures { result ≡ amount_of n words.now }
{
    let p = key_words(n);
    payload(words, 1 + p) % 65536 * 65536 + payload(words, 2 + p) % 65536
}

// The amount of an update whose words are sound.
pub fn update_body(words: &[u32], n: usize, key: &mut [u8]) -> Result<u32, Fault>
    requires fact_1 { n ≤ 64 }
    requires fact_2 { length key.old ≡ 66 }
    ensures value { as_body result ≡ update_body n words.now }
    ensures key_after { (body_answer (as_body result)).status ≡ 0 → take n key.new ≡ key_of n words.now }
{
    check_update(words, n, key)?;
    Ok(amount_of(words, n))
}

// A query whose words are sound, which has the amount 0.
pub fn query_body(words: &[u32], n: usize, key: &mut [u8]) -> Result<u32, Fault>
    requires fact_1 { n ≤ 64 }
    requires fact_2 { length key.old ≡ 66 }
    ensures value { as_body result ≡ query_body n words.now }
    ensures key_after { (body_answer (as_body result)).status ≡ 0 → take n key.new ≡ key_of n words.now }
{
    check_key(words, n, key)?;
    Ok(0)
}

// How many words a record or the end takes and how many must be at hand for it, by its first word.
#![tactic(auto)]

ghost use Rattle.std.specs.Prelude.{◌≡◌, ◌≤◌};
ghost use Rattle.feed_lengths.specs.Lengths.{words_taken, words_needed};

use feed_keys::key_words;
use word::{Kind, is_due, payload};

// The number of words that a record or the end takes.
#[tactic(auto, unfolding(crate::specs::Lengths::words_taken))]
pub fn words_taken(words: &[u32]) -> usize
    ensures { result ≡ words_taken words.now }
{
    let n = key_words(payload(words, 0) as usize);
    if is_due(words, 0, Kind::Update.code()) {
        return 1 + n + 2;
    }
    if is_due(words, 0, Kind::Query.code()) {
        return 1 + n;
    }
    1
}

// The number of words that must be at hand for a record to be carried out, at most those of the longest.
#[tactic(auto, unfolding(crate::specs::Lengths::words_needed))]
pub fn words_needed(words: &[u32]) -> usize
    ensures value { result ≡ words_needed words.now }
    ensures lower_bound { (1 ≤ result) × (result ≤ 25) }
{
    if geometry::check_key(payload(words, 0) as usize).is_err() {
        return 1;
    }
    words_taken(words)
}

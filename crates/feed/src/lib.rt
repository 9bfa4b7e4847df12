// Feeds: one call for the head, and one for each record and for the end. Both take any words, and look at none past the record.
#![tactic(auto)]

ghost use Rattle.std.specs.Prelude.{◌≡◌, ◌≤◌, length};
ghost use Rattle.answer.specs.Refusals.{number};
ghost use Rattle.answer.specs.Answers.{refused};
ghost use Rattle.geometry.specs.Checks.{bad_shape, bad_key};
ghost use Rattle.feed_records.specs.Bodies.{as_body};
ghost use Rattle.feed_records.specs.Answers.{body_answer};
ghost use Rattle.feed.specs.Answers.{record_answer};
ghost use Rattle.feed_records.specs.Words.{update_body, query_body};
ghost use Rattle.feed.specs.Record as spec;
ghost use Rattle.feed.specs.Record.{update_outcome, queried, update_memory, finish_record, recorded};

use answer::{Answer, Refusal};
pub use feed_head::{head, head_depth, head_width};
pub use feed_lengths::{words_needed, words_taken};
use feed_records::Opening;
use word::Fault;

// What a record or the end did. A refusal is held by its number and place, as the C interface hands it out.
#[derive(Clone, Copy, Debug, PartialEq, Eq)]
pub enum Recorded {
    Updated,
    Estimate { value: u64 },
    Ended,
    Refused { status: u8, position: u64 },
}

// The number, place and figure of a record.
pub fn answer(r: Recorded) -> Answer
    ensures { result ≡ record_answer r }
{
    match r {
        Recorded::Updated => answer::accepted(0),
        Recorded::Estimate { value } => answer::accepted(value),
        Recorded::Ended => answer::accepted(0),
        Recorded::Refused { status, position } => answer::refused_at(status, position),
    }
}

// A refusal that has no place.
fn refused(refusal: Refusal) -> Recorded
    ensures { result ≡ spec.refusal (refused (number refusal)) }
{
    Recorded::Refused {
        status: refusal.number(),
        position: 0,
    }
}

// A refusal by a faulty word.
fn faulty(body: Result<u32, Fault>) -> Recorded
    ensures { result ≡ spec.refusal (body_answer (as_body body)) }
{
    match body {
        Ok(_) => Recorded::Refused {
            status: 0,
            position: 0,
        },
        Err(fault) => Recorded::Refused {
            status: fault.refusal.number(),
            position: fault.position as u64,
        },
    }
}

// An update by record, with a key of n bytes. The geometry and the key's length were tested before any of its words.
fn update(d: usize, w: usize, memory: &mut [u8], n: usize, words: &[u32]) -> Recorded
    requires fact_1 { bad_shape d w (length memory.old) ≡ 0 }
    requires fact_2 { bad_key n ≡ 0 }
    ensures value { result ≡ update_outcome d w memory.old n words.now (update_body n words.now) }
    ensures memory_after { memory.new ≡ (finish_record result (update_memory d w memory.old n words.now) memory.old).memory }
{
    let mut key = [0u8; 66];
    let body = feed_records::update_body(words, n, &mut key);
    let Ok(amount) = body else {
        return faulty(body);
    };
    match meter::update_checked(d, w, memory, &key[0..n], amount) {
        Ok(()) => Recorded::Updated,
        Err(refusal) => refused(refusal),
    }
}

// A query, with a key of n bytes, after the same tests.
fn query(d: usize, w: usize, memory: &[u8], n: usize, words: &[u32]) -> Recorded
    requires fact_1 { bad_shape d w (length memory.now) ≡ 0 }
    requires fact_2 { bad_key n ≡ 0 }
    ensures { result ≡ queried d w memory.now n words.now (query_body n words.now) }
{
    let mut key = [0u8; 66];
    let body = feed_records::query_body(words, n, &mut key);
    let Ok(_) = body else {
        return faulty(body);
    };
    match meter::estimate_checked(d, w, memory, &key[0..n]) {
        Ok(value) => Recorded::Estimate { value },
        Err(refusal) => refused(refusal),
    }
}

// One update or query, or the end, after so many words of the feed.
pub fn record(d: usize, w: usize, memory: &mut [u8], before: u64, words: &[u32]) -> Recorded
    ensures value { result ≡ (recorded d w memory.old before words.now).outcome }
    ensures memory_after { memory.new ≡ (recorded d w memory.old before words.now).memory }
    ensures result_in_bounds { (record_answer result).position ≤ length words.now }
{
    if let Err(refusal) = geometry::check_shape(d, w, memory.len()) {
        return refused(refusal);
    }
    match feed_records::first_word(before, words) {
        Ok(Opening::Update { length }) => update(d, w, memory, length, words),
        Ok(Opening::Query { length }) => query(d, w, memory, length, words),
        Ok(Opening::End) => Recorded::Ended,
        Err(refusal) => refused(refusal),
    }
}

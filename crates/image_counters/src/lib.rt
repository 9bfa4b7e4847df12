// The words of a group's counters in an image. Each function takes the position of its first word and gives the position after its last.
#![tactic(auto)]

ghost use Rattle.std.specs.Prelude.{◌≡◌, true, ◌+◌, ◌≤◌, length};
ghost use Rattle.std.proofs.lemmas.List.Edits.{sets};
ghost use Rattle.group.specs.Group.{valid_merge, read};
ghost use Rattle.image_format.specs.Image.{parts, group_words};
ghost use Rattle.image_format.specs.Write.{group_size};
ghost use Rattle.image_format.specs.Tables.{DescribedAt, Writes};

use group::{Counter, Group};
use group_fields::Fields;
use image_format::{code_at, word};
use word::Kind;

// The n words of a value, high part first.
fn put_parts(words: &mut [u32], p: usize, n: u32, value: u64) -> usize
    requires fact_1 { p + n ≤ length words.old }
    requires fact_2 { n ≤ 3 }
    ensures value { result ≡ p + n }
    ensures words_after { words.new ≡ sets words.old p (parts n value) }
{
    let mut at = p;
    for left in (0..n).rev() {
        words[at] = word(Kind::Count, ((value >> (24 * left)) % 16777216) as u32);
        at += 1;
    }
    at
}

// The counter that a slot is in; in an invalid group each slot is one of its own and holds 0.
fn counter_at(g: Group, k: usize) -> Counter
    ensures { (result.value ≡ (read g k).value) × (result.level ≡ (read g k).level) }
{
    match group::counter(g, k) {
        Ok(c) => c,
        Err(_) => Counter { value: 0, level: 0 },
    }
}

// The words of a group's counters.
fn put_group(words: &mut [u32], p: usize, g: Group) -> usize
    requires { p + group_size g.merge ≤ length words.old }
    ensures value { result ≡ p + group_size g.merge }
    ensures words_after { words.new ≡ sets words.old p (group_words g) }
{
    let mut at = p;
    // The slot at which the next counter starts. A counter is looked up there alone: most of this function's time goes into that.
    let mut next = 0;
    for k in 0..8 {
        if next == 8 {
            return at;
        }
        if k == next {
            let c = counter_at(g, k);
            at = put_parts(words, at, image_format::word_count(c.level), c.value);
            next = k + (1 << c.level);
        }
    }
    at
}

// The words of a valid group's counters, by the description of its layout, which has code c.
fn put_fields(words: &mut [u32], p: usize, g: Group, fields: &[u8], c: usize) -> usize
    requires fact_1 { p + group_size g.merge ≤ length words.old }
    requires fact_2 { valid_merge g.merge ≡ true }
    requires fact_3 { DescribedAt c g.merge fields.now }
    ensures value { result ≡ p + group_size g.merge }
    ensures words_after { words.new ≡ sets words.old p (group_words g) }
{
    let at = 17 * c;
    let n = fields[at] as usize;
    let counts = g.counts;
    let x = Fields::of(counts);
    // i is a word's number in the image and in both columns of the description: three slices zipped are no plainer.
    for i in 0..n {
        let part = x.bits_at(fields[at + 1 + i], fields[at + 9 + i]);
        words[p + i] = word(Kind::Count, part);
    }
    p + n
}

// The words of a group's counters: by the description of its layout, if there is one.
pub fn put_any(words: &mut [u32], p: usize, g: Group, codes: &[u8], fields: &[u8]) -> usize
    requires fact_1 { p + group_size g.merge ≤ length words.old }
    requires fact_2 { Writes codes.now fields.now }
    ensures value { result ≡ p + group_size g.merge }
    ensures words_after { words.new ≡ sets words.old p (group_words g) }
{
    if fields.len() == 442 {
        let c = code_at(codes, g.merge);
        if (c as u32) < group_codes::LAYOUTS {
            return put_fields(words, p, g, fields, c as usize);
        }
    }
    put_group(words, p, g)
}

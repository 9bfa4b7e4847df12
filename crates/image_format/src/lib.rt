// What an image's words are: words, the counters that they hold, and tables by merge byte.
#![tactic(auto)]

ghost use Rattle.std.specs.Prelude.{◌≡◌, ◌+◌, ◌^◌, ◌<◌, ◌≤◌, true, false, ℕ, length, get_or, take, IfSome, IfNone};
ghost use Rattle.geometry.specs.Geometry.{largest_log};
ghost use Rattle.group_codes.specs.Pack.{layouts_of, code_merge};
ghost use Rattle.group_codes.specs.Codes.{code_of};
ghost use Rattle.word.specs.Kinds.{code};
ghost use Rattle.image_format.specs.Image as spec;
ghost use Rattle.image_format.specs.Image.{count_kind, log_width, word_count, level_at, is_first};
ghost use Rattle.image_format.specs.Write.{group_size};
ghost use Rattle.image_format.specs.Read.{first_bits};
ghost use Rattle.image_format.specs.Fields.{part_fields, ToldMore, Described};
ghost use Rattle.image_format.specs.Tables.{Filled, Sizes, Codes, FirstFields};

use group::Group;
use word::Kind;

// A word has its kind in the top four bits.
pub fn word(kind: Kind, payload: u32) -> u32
    requires { payload < 2 ^ 28 }
    ensures { result ≡ spec.word (code kind) payload }
{
    (kind.code() << 28) | payload
}

// The word of a counter of one slot.
pub fn count_word(count: u8) -> u32
    ensures { result ≡ spec.word count_kind count }
{
    word(Kind::Count, count as u32)
}

// The level of the counter that a slot is in, in a group with this merge byte.
pub fn level_at(merge: u8, k: usize) -> u32
    ensures value { result ≡ level_at merge k }
    ensures upper_bound { result ≤ 3 }
{
    let empty = Group {
        counts: [0; 8],
        merge,
    };
    match group::counter(empty, k) {
        Ok(c) => c.level,
        Err(_) => 0,
    }
}

// The level of the counter that starts at slot k, if one does. A counter of 2 ^ level slots starts at a multiple of them.
pub fn counter_level(merge: u8, k: usize) -> Option<u32>
    ensures some { IfSome result (λ level. (is_first merge k ≡ true) × (level ≡ level_at merge k)) }
    ensures none { IfNone result (is_first merge k ≡ false) }
    ensures upper_bound { IfSome result (λ level. level ≤ 3) }
{
    let level = level_at(merge, k);
    if k % (1 << level) == 0 {
        Some(level)
    } else {
        None
    }
}

// The number of words of a counter.
pub fn word_count(level: u32) -> u32
    requires { level ≤ 3 }
    ensures value { result ≡ word_count level }
    ensures lower_bound { (1 ≤ result) × (result ≤ 3) }
{
    ((8 << level) + 23) / 24
}

// The bits that a counter has in its first word.
pub fn first_bits(level: u32) -> u32
    requires { level ≤ 3 }
    ensures value { result ≡ first_bits level }
    ensures upper_bound { result ≤ 24 }
{
    (8 << level) - 24 * (word_count(level) - 1)
}

// The number of words of a group's counters. Each slot of an invalid group is a counter of its own.
fn group_size(merge: u8) -> usize
    ensures value { result ≡ group_size merge }
    ensures upper_bound { result ≤ 24 }
{
    if !group::is_valid(merge) {
        return 8;
    }
    let mut n = 0;
    for k in 0..8 {
        if let Some(level) = counter_level(merge, k) {
            n += word_count(level) as usize;
        }
    }
    n
}

// The logarithm of a width.
pub fn log_width(w: usize) -> u32
    ensures value { result ≡ log_width w }
    ensures upper_bound { result ≤ largest_log }
{
    match w.checked_ilog2() {
        Some(k) if k <= geometry::LARGEST_LOG && 1 << k == w => k,
        _ => 0,
    }
}

// Tables by merge byte, so that what a group's merge byte says is found out once for all groups of an image. A table of n entries has the
// merge bytes below n; the others, and all of them when little is merged, are found out one by one. No valid merge byte is above 127.

// A table whose first n entries are those of a function.
pub fn table<const N: usize, F: Fn(u8) -> u8>(n: usize, entry: F) -> [u8; N]
    requires fits { n ≤ N }
    requires bytes { N ≤ 256 }
    requires callable { F.IsAlwaysCallable entry }
    ensures { (k : ℕ) → k < n → F.post entry k (get_or result k 0) }
{
    let mut t = [0; N];
    // k is the entry's number, which the function takes.
    for k in 0..n {
        t[k] = entry(k as u8);
    }
    t
}

// The number of words of a group's counters, by merge byte.
pub fn size_table(n: usize) -> [u8; 128]
    requires { n ≤ 128 }
    ensures { Filled group_size n result }
{
    table(n, |m| group_size(m) as u8)
}

#[tactic(auto, using(crate::proofs::Fields::size_most))]
pub fn size_at(sizes: &[u8], merge: u8) -> usize
    requires { Sizes sizes.now }
    ensures value { result ≡ group_size merge }
    ensures upper_bound { result ≤ 24 }
{
    match sizes.get(merge as usize) {
        Some(&n) => n as usize,
        None => group_size(merge),
    }
}

// The layout code of a group by merge byte, or group_codes::LAYOUTS for an invalid one.
pub fn code_table(n: usize) -> [u8; 128]
    requires { n ≤ 128 }
    ensures { Filled code_of n result }
{
    table(n, group_codes::code_of)
}

pub fn code_at(codes: &[u8], merge: u8) -> u8
    requires { Codes codes.now }
    ensures { result ≡ code_of merge }
{
    match codes.get(merge as usize) {
        Some(&code) => code,
        None => group_codes::code_of(merge),
    }
}

// The merge byte of a layout code.
pub fn code_merge(c: u8) -> u8
    ensures { c < layouts_of 1 → result ≡ code_merge c }
{
    group_codes::unpack(c as u32).unwrap()[3]
}

// The words of a counter described, from word i of a description at `at` on: the counter's lowest bit is at a place, its first word has so
// many bits and the others 24.
fn describe_parts(t: &mut [u8], at: usize, i: usize, place: u32, n: u32, bits: u32) -> usize
    requires fact_1 { at + 17 ≤ length t.old }
    requires fact_2 { i + n ≤ 8 }
    requires fact_3 { place < 64 }
    requires fact_4 { bits ≤ 24 }
    ensures value { result ≡ i + n }
    ensures t_unchanged { take at t.new ≡ take at t.old }
    ensures told_more { ToldMore i (part_fields n place bits) t.old t.new at }
{
    let mut j = i;
    let mut b = bits;
    for left in (0..n).rev() {
        t[at + 1 + j] = (place + 24 * left) as u8;
        t[at + 9 + j] = b as u8;
        b = 24;
        j += 1;
    }
    j
}

// The words of a group with this merge byte described in the 17 bytes from `at` on.
fn describe(t: &mut [u8], at: usize, merge: u8)
    requires { at + 17 ≤ length t.old }
    ensures described { Described merge t.new at }
    ensures t_unchanged { take at t.new ≡ take at t.old }
{
    let mut i = 0;
    for k in 0..8 {
        if let Some(level) = counter_level(merge, k) {
            i = describe_parts(t, at, i, 8 * k as u32, word_count(level), first_bits(level));
        }
    }
    t[at] = i as u8;
}

// For each of the first n layout codes a description of a group's words. Where a description has no word its bits stay 31: a reader that
// tests eight words at once then sees little of the words behind the group's.
pub fn field_table(n: usize) -> [u8; 442]
    requires { n ≤ layouts_of 1 }
    ensures { FirstFields n result }
{
    let mut t = [31u8; 442];
    for c in 0..n {
        describe(&mut t, 17 * c, code_merge(c as u8));
    }
    t
}

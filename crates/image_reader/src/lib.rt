// Reading an image whose words have been checked.
#![tactic(auto)]

ghost use Rattle.std.specs.Prelude.{◌≡◌, ℕ, ◌+◌, ◌*◌, ◌/◌, ◌%◌, ◌^◌, ◌<◌, ◌≤◌, length, map};
ghost use Rattle.std.proofs.lemmas.List.Edits.{sets};
ghost use Rattle.group_codes.specs.Pack.{layouts_of, code_merge};
ghost use Rattle.group_codes.specs.Codes.{AllCodes, merges_of};
ghost use Rattle.group_fields.specs.Fields.{group_of};
ghost use Rattle.geometry.specs.Geometry.{largest_width, stride};
ghost use Rattle.meter_memory.specs.Rows.{with_group};
ghost use Rattle.image_format.specs.Write.{group_size};
ghost use Rattle.image_format.specs.Tables as tables;
ghost use Rattle.image_format.specs.Tables.{Reads};
ghost use Rattle.image_format.specs.Read.{value_from, read_group, read_groups, after_groups, read_fours, after_fours, read_rows};

use group::Group;
use group_fields::Fields;
use image_group_checker::are_counts;
use image_layouts::{codes_at, merge_of};
use meter_memory::store;
use word::payload;

// The value of the n words at a position.
fn value_at(words: &[u32], p: usize, n: u32) -> u64
    requires { p + n < 2 ^ 64 }
    ensures { result ≡ value_from n 0 words.now p }
{
    let mut v: u64 = 0;
    for at in p..p + n as usize {
        v = v % 1099511627776 * 16777216 + (payload(words, at) % 16777216) as u64;
    }
    v
}

// A group read, and the position after its words.
#[derive(Clone, Copy)]
struct Taken {
    group: Group,
    position: usize,
}

// A group with the counters at a position.
fn read_group(merge: u8, words: &[u32], p: usize) -> Taken
    requires { p < 2 ^ 31 }
    ensures group_value { result.group ≡ read_group merge words.now p }
    ensures position_value { result.position ≡ p + group_size merge }
    ensures position_bound { result.position ≤ p + 24 }
{
    let mut g = Group {
        counts: [0; 8],
        merge,
    };
    let mut at = p;
    for k in 0..8 {
        if let Some(level) = image_format::counter_level(merge, k) {
            let n = image_format::word_count(level);
            g = group::change(g, k, value_at(words, at, n)).unwrap_or(g);
            at += n as usize;
        }
    }
    Taken {
        group: g,
        position: at,
    }
}

// The count bytes of a group with layout code c and the counters at a position, by the description of its layout.
fn read_fields(words: &[u32], p: usize, fields: &[u8], c: usize) -> Fields
    requires fact_1 { c < layouts_of 1 }
    requires fact_2 { p < 2 ^ 31 }
    requires fact_3 { 17 * c + 17 ≤ length fields.now }
    requires fact_4 { tables.Fields fields.now }
    ensures { group_of (code_merge c) result ≡ read_group (code_merge c) words.now p }
{
    let at = 17 * c;
    let n = fields[at] as usize;
    let mut x = Fields::none();
    // i is a word's number in the image and in both columns of the description: three slices zipped are no plainer.
    for i in 0..n {
        x = x.put(
            fields[at + 1 + i],
            fields[at + 9 + i],
            payload(words, p + i),
        );
    }
    x
}

// A group with layout code c and the counters at a position.
fn read_any(merge: u8, words: &[u32], p: usize, fields: &[u8], c: usize) -> Taken
    requires fact_1 { c < layouts_of 1 }
    requires fact_2 { merge ≡ code_merge c }
    requires fact_3 { p < 2 ^ 31 }
    requires fact_4 { tables.Fields fields.now }
    ensures group_value { result.group ≡ read_group merge words.now p }
    ensures position_value { result.position ≡ p + group_size merge }
    ensures position_bound { result.position ≤ p + 24 }
{
    if 17 * c + 17 <= fields.len() {
        let counts = read_fields(words, p, fields, c).counts();
        return Taken {
            group: Group { counts, merge },
            position: p + fields[17 * c] as usize,
        };
    }
    read_group(merge, words, p)
}

// Count bytes of a row from `at` on, each from a word.
fn read_counts(row: &mut [u8], at: usize, words: &[u32])
    requires { at + length words.now ≤ length row.old }
    ensures { row.new ≡ sets row.old at (map (λ word. word % 256) words.now) }
{
    for (i, &word) in words.iter().enumerate() {
        row[at + i] = (word % 256) as u8;
    }
}

// Group g of a row, with layout code c. Gives the position after its words.
fn read_into(
    row: &mut [u8],
    w: usize,
    g: usize,
    merge: u8,
    words: &[u32],
    p: usize,
    fields: &[u8],
    c: usize,
) -> usize
    requires g_bound_1 { 8 * g + 8 ≤ w }
    requires g_bound_2 { w + g < length row.old }
    requires g_bound_3 { p < 2 ^ 31 }
    requires c_bound_1 { c < layouts_of 1 }
    requires c_bound_2 { merge ≡ code_merge c }
    requires c_bound_3 { tables.Fields fields.now }
    ensures value { result ≡ p + group_size merge }
    ensures upper_bound { result ≤ p + 24 }
    ensures row_after { row.new ≡ with_group w row.old g (read_group merge words.now p) }
{
    if merge == 0 && are_counts(words, p, 8) {
        read_counts(row, 8 * g, &words[p..p + 8]);
        row[w + g] = 0;
        return p + 8;
    }
    let t = read_any(merge, words, p, fields, c);
    store(row, w, g, t.group);
    t.position
}

// Four groups of a row with these layout codes, from group g on. Gives the position after their words.
fn read_groups(
    row: &mut [u8],
    w: usize,
    g: usize,
    codes: [u8; 4],
    words: &[u32],
    p: usize,
    layouts: &[u8],
    fields: &[u8],
) -> usize
    requires g_bound_1 { 8 * g + 32 ≤ w }
    requires g_bound_2 { w + g + 4 ≤ length row.old }
    requires g_bound_3 { p < 2 ^ 30 }
    requires all_codes_1 { AllCodes codes }
    requires all_codes_2 { Reads layouts.now fields.now }
    ensures value { result ≡ after_groups (merges_of codes) p }
    ensures upper_bound { result ≤ p + 96 }
    ensures row_after { row.new ≡ read_groups (merges_of codes) g w row.old words.now p }
{
    let mut at = p;
    for (i, &c) in codes.iter().enumerate() {
        at = read_into(
            row,
            w,
            g + i,
            merge_of(c, layouts),
            words,
            at,
            fields,
            c as usize,
        );
    }
    at
}

// A row of w slots. Gives the position after its words.
fn read_row(
    row: &mut [u8],
    w: usize,
    words: &[u32],
    p: usize,
    layouts: &[u8],
    fields: &[u8],
) -> usize
    requires fact_1 { w + w / 8 ≤ length row.old }
    requires fact_2 { w ≤ largest_width }
    requires fact_3 { p < 2 ^ 29 }
    requires fact_4 { Reads layouts.now fields.now }
    ensures value { result ≡ after_fours (w / 32) words.now p }
    ensures upper_bound { result ≤ p + 97 * (largest_width / 32) }
    ensures row_after { row.new ≡ read_fours (w / 32) 0 w row.old words.now p }
{
    let mut at = p;
    for i in 0..w / 32 {
        at = read_groups(
            row,
            w,
            4 * i,
            codes_at(words, at),
            words,
            at + 1,
            layouts,
            fields,
        );
    }
    at
}

// d rows of a memory, from the words after the head.
pub fn read_rows(
    memory: &mut [u8],
    d: usize,
    w: usize,
    words: &[u32],
    layouts: &[u8],
    fields: &[u8],
)
    requires fact_1 { d * stride w ≤ length memory.old }
    requires fact_2 { w ≤ largest_width }
    requires fact_3 { d ≤ 8 }
    requires fact_4 { Reads layouts.now fields.now }
    ensures { memory.new ≡ read_rows d w memory.old words.now 1 }
{
    let size = w * 9 / 8;
    let mut at = 1;
    for r in 0..d {
        let a = r * size;
        let e = a + size;
        at = read_row(&mut memory[a..e], w, words, at, layouts, fields);
    }
}

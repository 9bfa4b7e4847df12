// Writing an image. Each function that writes takes the position of its first word and gives the position after its last.
#![tactic(auto)]

ghost use Rattle.std.specs.Prelude.{◌≡◌, ◌++◌, ◌+◌, ◌*◌, ◌/◌, ◌<◌, ◌≤◌, length, drop, map};
ghost use Rattle.std.proofs.lemmas.List.Edits.{sets};
ghost use Rattle.group_codes.specs.Pack.{layouts_of};
ghost use Rattle.geometry.specs.Geometry.{largest_width, RowsIn};
ghost use Rattle.image_format.specs.Image as spec;
ghost use Rattle.image_format.specs.Image.{count_kind, groups_words, layout_at, four_words, row_words, rows_words, image};
ghost use Rattle.image_format.specs.Tables.{Codes, Writes};
ghost use Rattle.image_writer.specs.Writer.{Room, GroupsRoom, RowRoom, clear_words};

use image_counters::put_any;
use image_format::{code_at, log_width, word};
use image_size::clear;
use meter_memory::{load, row_at};
use word::Kind;

// The words of the counters of four groups, from group g on.
fn put_groups(
    words: &mut [u32],
    p: usize,
    row: &[u8],
    w: usize,
    g: usize,
    codes: &[u8],
    fields: &[u8],
) -> usize
    requires fact_1 { 8 * g + 32 ≤ w }
    requires fact_2 { w + g + 4 ≤ length row.now }
    requires fact_3 { GroupsRoom w row.now g p words.old }
    requires fact_4 { Writes codes.now fields.now }
    ensures value { result ≡ p + length (groups_words 4 g w row.now) }
    ensures words_after { words.new ≡ sets words.old p (groups_words 4 g w row.now) }
{
    let mut at = p;
    for i in 0..4 {
        at = put_any(words, at, load(row, w, g + i), codes, fields);
    }
    at
}

// The code of the layout of four groups, from group g on.
fn layout_at(row: &[u8], w: usize, g: usize, codes: &[u8]) -> u32
    requires fact_1 { w + g + 4 ≤ length row.now }
    requires fact_2 { Codes codes.now }
    ensures value { result ≡ layout_at w row.now g }
    ensures upper_bound { result < layouts_of 4 }
{
    let at = w + g;
    group_codes::four_code(
        code_at(codes, row[at]),
        code_at(codes, row[at + 1]),
        code_at(codes, row[at + 2]),
        code_at(codes, row[at + 3]),
    )
}

// The words of slots that are not merged, by their count bytes.
fn put_counts(words: &mut [u32], p: usize, counts: &[u8])
    requires { p + length counts.now ≤ length words.old }
    ensures { words.new ≡ sets words.old p (map (spec.word count_kind) counts.now) }
{
    for (i, &count) in counts.iter().enumerate() {
        words[p + i] = image_format::count_word(count);
    }
}

// The words of 32 slots, from group g on, if nothing is merged there.
fn put_clear(words: &mut [u32], p: usize, row: &[u8], g: usize)
    requires fact_1 { 8 * g + 32 ≤ length row.now }
    requires fact_2 { p + 33 ≤ length words.old }
    ensures { words.new ≡ sets words.old p (clear_words g row.now) }
{
    words[p] = word(Kind::Layout, 0);
    put_counts(words, p + 1, &row[8 * g..8 * g + 32]);
}

// The words of 32 slots, from group g on, by group.
fn put_mixed(
    words: &mut [u32],
    p: usize,
    row: &[u8],
    w: usize,
    g: usize,
    codes: &[u8],
    fields: &[u8],
) -> usize
    requires fact_1 { 8 * g + 32 ≤ w }
    requires fact_2 { w + g + 4 ≤ length row.now }
    requires fact_3 { Room (four_words w row.now g) p words.old }
    requires fact_4 { Writes codes.now fields.now }
    ensures value { result ≡ p + length (four_words w row.now g) }
    ensures words_after { words.new ≡ sets words.old p (four_words w row.now g) }
{
    words[p] = word(Kind::Layout, layout_at(row, w, g, codes));
    put_groups(words, p + 1, row, w, g, codes, fields)
}

// The words of 32 slots, from group g on.
fn put_four(
    words: &mut [u32],
    p: usize,
    row: &[u8],
    w: usize,
    g: usize,
    codes: &[u8],
    fields: &[u8],
) -> usize
    requires fact_1 { 8 * g + 32 ≤ w }
    requires fact_2 { w + g + 4 ≤ length row.now }
    requires fact_3 { Room (four_words w row.now g) p words.old }
    requires fact_4 { Writes codes.now fields.now }
    ensures value { result ≡ p + length (four_words w row.now g) }
    ensures words_after { words.new ≡ sets words.old p (four_words w row.now g) }
{
    if clear(row, w + g) {
        put_clear(words, p, row, g);
        return p + 33;
    }
    put_mixed(words, p, row, w, g, codes, fields)
}

// The words of a row.
fn put_row(words: &mut [u32], p: usize, row: &[u8], w: usize, codes: &[u8], fields: &[u8]) -> usize
    requires fact_1 { w + w / 8 ≤ length row.now }
    requires fact_2 { w ≤ largest_width }
    requires fact_3 { RowRoom w row.now p words.old }
    requires fact_4 { Writes codes.now fields.now }
    ensures value { result ≡ p + length (row_words (w / 32) 0 w row.now) }
    ensures words_after { words.new ≡ sets words.old p (row_words (w / 32) 0 w row.now) }
{
    let mut at = p;
    for i in 0..w / 32 {
        at = put_four(words, at, row, w, 4 * i, codes, fields);
    }
    at
}

// The words of d rows.
fn put_rows(
    words: &mut [u32],
    p: usize,
    memory: &[u8],
    d: usize,
    w: usize,
    codes: &[u8],
    fields: &[u8],
) -> usize
    requires fact_1 { RowsIn d w (length memory.now) }
    requires fact_2 { Room (rows_words d w memory.now) p words.old }
    requires fact_3 { Writes codes.now fields.now }
    ensures value { result ≡ p + length (rows_words d w memory.now) }
    ensures words_after { words.new ≡ sets words.old p (rows_words d w memory.now) }
{
    let mut at = p;
    for r in 0..d {
        at = put_row(words, at, row_at(w, memory, r), w, codes, fields);
    }
    at
}

// The whole image.
pub fn put_image(words: &mut [u32], memory: &[u8], d: usize, w: usize, codes: &[u8], fields: &[u8])
    requires fact_1 { RowsIn d w (length memory.now) }
    requires fact_2 { length (image d w memory.now) ≤ length words.old }
    requires fact_3 { Writes codes.now fields.now }
    ensures { words.new ≡ image d w memory.now ++ drop (length (image d w memory.now)) words.old }
{
    words[0] = word(Kind::Head, log_width(w) * 16 + d as u32);
    let end = put_rows(words, 1, memory, d, w, codes, fields);
    words[end] = word(Kind::End, (end % word::PAYLOADS) as u32);
}

// Before an image is written: whether every merge byte is valid, and how many words the image has.
#![tactic(auto)]

ghost use Rattle.std.specs.Prelude.{◌≡◌, true, false, ◌+◌, ◌*◌, ◌/◌, ◌<◌, ◌≤◌, length, drop};
ghost use Rattle.geometry.specs.Geometry.{largest_width, RowsIn};
ghost use Rattle.image_format.specs.Image.{groups_words, row_words, rows_words};
ghost use Rattle.image_format.specs.Write.{all_valid, valid_rows};
ghost use Rattle.image_format.specs.Tables.{Sizes};
ghost use Rattle.image_size.specs.Size.{FourClear};

use image_format::size_at;
use meter_memory::row_at;

// Whether four bytes are there and all are 0.
pub fn clear(row: &[u8], at: usize) -> bool
    requires { at ≤ length row.now }
    ensures { result ≡ true → FourClear row.now at }
{
    match &row[at..] {
        &[a, b, c, d, ..] => a | b | c | d == 0,
        _ => false,
    }
}

// Whether up to four merge bytes are valid. Mostly all four are 0, which is tested at once.
fn are_valid(merges: &[u8]) -> bool
    requires { length merges.now ≤ 4 }
    ensures { result ≡ all_valid merges.now }
{
    clear(merges, 0) || merges.iter().all(|&merge| group::is_valid(merge))
}

// Whether the merge bytes of a row of w slots are valid.
fn row_valid(row: &[u8], w: usize) -> bool
    requires { w ≤ length row.now }
    ensures { result ≡ all_valid (drop w row.now) }
{
    for four in row[w..].chunks(4) {
        if !are_valid(four) {
            return false;
        }
    }
    true
}

// Whether all merge bytes of d rows are valid.
pub fn rows_valid(memory: &[u8], d: usize, w: usize) -> bool
    requires { RowsIn d w (length memory.now) }
    ensures { result ≡ valid_rows d w memory.now }
{
    for r in 0..d {
        if !row_valid(row_at(w, memory, r), w) {
            return false;
        }
    }
    true
}

// How many entries of a table pay for an image of rows like this one: all, or none when few of its groups are merged.
pub fn table_size(row: &[u8], w: usize) -> usize
    requires { w + w / 8 ≤ length row.now }
    ensures { result ≤ 128 }
{
    match row[w..w + w / 8]
        .chunks(4)
        .filter(|four| !clear(four, 0))
        .nth(7)
    {
        Some(_) => 128,
        None => 0,
    }
}

// The number of words of the counters of four groups, from group g on.
fn groups_size(row: &[u8], w: usize, g: usize, sizes: &[u8]) -> usize
    requires fact_1 { w + g + 4 ≤ length row.now }
    requires fact_2 { Sizes sizes.now }
    ensures value { result ≡ length (groups_words 4 g w row.now) }
    ensures upper_bound { result ≤ 96 }
{
    if clear(row, w + g) {
        return 32;
    }
    let mut n = 0;
    for &merge in &row[w + g..w + g + 4] {
        n += size_at(sizes, merge);
    }
    n
}

// The number of words of a row.
fn row_size(row: &[u8], w: usize, sizes: &[u8]) -> usize
    requires fact_1 { w + w / 8 ≤ length row.now }
    requires fact_2 { w ≤ largest_width }
    requires fact_3 { Sizes sizes.now }
    ensures value { result ≡ length (row_words (w / 32) 0 w row.now) }
    ensures upper_bound { result ≤ 97 * (largest_width / 32) }
{
    let mut n = 0;
    for i in 0..w / 32 {
        n += 1 + groups_size(row, w, 4 * i, sizes);
    }
    n
}

// The number of words of d rows.
pub fn rows_size(memory: &[u8], d: usize, w: usize, sizes: &[u8]) -> usize
    requires fact_1 { RowsIn d w (length memory.now) }
    requires fact_2 { Sizes sizes.now }
    ensures value { result ≡ length (rows_words d w memory.now) }
    ensures upper_bound { result ≤ 8 * (97 * (largest_width / 32)) }
{
    let mut n = 0;
    for r in 0..d {
        n += row_size(row_at(w, memory, r), w, sizes);
    }
    n
}

// The layouts of an image's groups, from their codes.
#![tactic(auto)]

ghost use Rattle.std.specs.Prelude.{◌≡◌, ℕ, ◌≤◌, ◌<◌};
ghost use Rattle.group_codes.specs.Pack.{layouts_of, code_merge};
ghost use Rattle.group_codes.specs.Codes.{AllCodes, merges_of};
ghost use Rattle.geometry.specs.Geometry.{largest_width};
ghost use Rattle.image_format.specs.Read.{merges_at};
ghost use Rattle.image_format.specs.Tables.{Filled, Layouts};

use image_format::{code_merge, table};
use word::payload;

// How many layout codes are unpacked ahead for an image of n words: all or, when nothing or almost nothing is merged, none. 32 slots
// take 33 words, and fewer when some are merged.
pub fn table_size(n: usize, d: usize, w: usize) -> usize
    requires fact_1 { d ≤ 8 }
    requires fact_2 { w ≤ largest_width }
    ensures { result ≤ layouts_of 1 }
{
    if n / 33 < d * (w / 32) {
        return group_codes::LAYOUTS as usize;
    }
    0
}

// The merge bytes of the first n layout codes of one group, so that each is unpacked once for all words of an image.
pub fn layout_table(n: usize) -> [u8; 26]
    requires { n ≤ layouts_of 1 }
    ensures { Filled (λ (c : ℕ). code_merge c) n result }
{
    table(n, code_merge)
}

// The layout codes of the four groups whose layout word is at a position; all 0 where it has no code.
pub fn codes_at(words: &[u32], p: usize) -> [u8; 4]
    ensures result_value { merges_of result ≡ merges_at words.now p }
    ensures all_codes { AllCodes result }
{
    group_codes::codes_of(payload(words, p))
}

// The merge byte of a layout code, by the layouts unpacked ahead if there are any.
pub fn merge_of(c: u8, layouts: &[u8]) -> u8
    requires fact_1 { c < layouts_of 1 }
    requires fact_2 { Layouts layouts.now }
    ensures { result ≡ code_merge c }
{
    if c == 0 {
        return 0;
    }
    match layouts.get(c as usize) {
        Some(&merge) => merge,
        None => code_merge(c),
    }
}

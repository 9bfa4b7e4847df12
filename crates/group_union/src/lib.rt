// Two blocks united. Blocks come as in group_block: the level, the count bytes as one number, the lowest slot least significant, and
// the merge bits. The union recurses on the level.
#![tactic(auto)]

ghost use Rattle.std.specs.Prelude.{◌≡◌, ℕ, ◌+◌, ◌/◌, ◌%◌, ◌<◌, ◌≤◌};
ghost use Rattle.group_layout.specs.Layout.{merged, halves, marks};
ghost use Rattle.group_block.specs.Block.{cap, block};
ghost use Rattle.group_block.specs.Block as spec;
ghost use Rattle.group_block.specs.Sum as sum_spec;
ghost use Rattle.group_block.specs.Passed.{summed, Sane};
ghost use Rattle.group_union.specs.Passed.{SumFits, adds_in_place};

use group_block::{
    Ordinary, Packed, held, high_word, join, left_half, low_word, right_half, total,
};
use group_layout::{beside, is_merged, ones};

// Whether the count bytes of two blocks, taken as numbers, may be added for their union: the layouts are the same and each counter
// holds its sum. Then nothing is carried to where a counter starts or the block ends. Merge bit k is clear where slot k + 1 starts a
// counter or is past the block, at any level.
fn may_add(word: u64, merge: u8, other_word: u64, other_merge: u8) -> bool
    ensures { (n : ℕ) → n ≤ 3 → Sane n word merge → other_word < cap n → result ≡ adds_in_place n word merge other_word other_merge }
{
    if merge != other_merge {
        return false;
    }
    if 18446744073709551615 - word < other_word {
        return false;
    }
    let starts = (((127 ^ merge) as u64 * 4432676798593) & 282578800148737) * 256;
    (word ^ other_word ^ (word + other_word)) & starts == 0
}

// The merge bits of a block that is two counters, of this level.
fn pair_bits(half: u32) -> u8
    requires { half ≤ 2 }
    ensures { result ≡ marks (halves {n = half} merged merged) }
{
    let bits = ones(half);
    beside(half, bits, bits)
}

// The sum of the counters of such a block.
fn pair_sum(half: u32, word: u64) -> u64
    requires { half ≤ 2 }
    ensures { result ≡ word % cap half + word / cap half }
{
    low_word(half, word) + high_word(half, word)
}

// The sum of a block's counters, made at once where they are one or two.
fn block_total(level: u32, word: u64, merge: u8) -> u64
    requires fact_1 { level ≤ 3 }
    requires fact_2 { word < cap level }
    ensures { result ≡ spec.total (block level word merge) }
{
    if is_merged(level, merge) {
        return word;
    }
    let half = level - 1;
    if merge == pair_bits(half) {
        return pair_sum(half, word);
    }
    total::<Ordinary>(level, word, merge)
}

// Two blocks united. Where both have the same layout and each counter holds its sum, the layout stays. Where both are two counters
// and one does not hold its sum, they become one counter.
pub fn unite(
    level: u32,
    word: u64,
    merge: u8,
    other_word: u64,
    other_merge: u8,
) -> Result<Packed, u64>
    requires { (level ≤ 3) × ((Sane level word merge) × ((Sane level other_word other_merge) × (SumFits level word merge other_word other_merge))) }
    ensures { result ≡ summed (sum_spec.unite (block level word merge) (block level other_word other_merge)) }
{
    if may_add(word, merge, other_word, other_merge) {
        return Ok(Packed {
            word: word + other_word,
            merge,
        });
    }
    if is_merged(level, merge) {
        return held::<Ordinary>(level, word + block_total(level, other_word, other_merge));
    }
    if is_merged(level, other_merge) {
        return held::<Ordinary>(level, block_total(level, word, merge) + other_word);
    }
    let half = level - 1;
    let pair = pair_bits(half);
    if merge == pair {
        if other_merge == pair {
            // the bytes may not be added, so one of the counters does not hold its sum
            return held::<Ordinary>(level, pair_sum(half, word) + pair_sum(half, other_word));
        }
    }
    let left = left_half(half, word, merge);
    let right = right_half(half, word, merge);
    let other_left = left_half(half, other_word, other_merge);
    let other_right = right_half(half, other_word, other_merge);
    let united = unite(
        half,
        left.word,
        left.merge,
        other_left.word,
        other_left.merge,
    );
    join::<Ordinary>(
        half,
        united,
        unite(
            half,
            right.word,
            right.merge,
            other_right.word,
            other_right.merge,
        ),
    )
}

// The union of two blocks of a signed meter by the unions of their halves, level by level, without branches on what counters hold. Totals
// are raised by a bias, so that none is below 0 and signs, which are as good as random, are part of the numbers.
#![tactic(auto)]

ghost use Rattle.std.specs.Prelude.{◌≡◌, cond, ◌+◌, ◌*◌, ◌≤◌, ◌<◌, ◌^◌};
ghost use Rattle.std.proofs.Math.IntN.{sub_ℕ};
ghost use Rattle.group_block.specs.Block.{cap};
ghost use Rattle.group_block.specs.Block as block_spec;
ghost use Rattle.group_block.specs.Sum as sum_spec;
ghost use Rattle.signed_block.specs.Signed.{sign_bits, sign_read};
ghost use Rattle.signed_block.specs.Passed.{signed_block};
ghost use Rattle.signed_nodes.specs.Nodes.{Raised, RaisedApart, Tells, passed, IsNode, Sides, BesideAs};
ghost use Rattle.signed_nodes.specs.Nodes as spec;

use group_layout::{is_merged, ones, slots};
use signed_block::top;

// A sum that was tried: whether it is over and, where it is not, the block's count bytes as one number and its merge bits. These are
// computed in either case, so that no branch is taken on whether a counter holds a sum.
#[derive(Clone, Copy)]
pub struct Tried {
    pub over: bool,
    pub word: u64,
    pub merge: u8,
}

// What is known of two blocks: their totals, raised, and of their union whether it is over and, where it is not, its count bytes as one
// number and its merge bits.
#[derive(Clone, Copy)]
pub struct Node {
    pub a: u64,
    pub b: u64,
    pub over: bool,
    pub word: u64,
    pub merge: u8,
}

// By how much totals of a level are raised. Two of them make one of the next level.
fn bias(level: u32) -> u64
    requires { level ≤ 4 }
    ensures value { result ≡ spec.bias level }
    ensures lower_bound { (2 ^ 32 ≤ result) × (result ≤ 2 ^ 36) }
{
    1 << (32 + level)
}

// The value of a counter by its bits, raised.
pub fn raised(level: u32, bits: u64) -> u64
    requires fact_1 { level ≤ 2 }
    requires fact_2 { bits < cap level }
    ensures { Raised level result (sign_read level bits) }
{
    let sign = top(level);
    if bits < sign {
        bias(level) + bits
    } else {
        bias(level) + sign - bits
    }
}

// The bits of a sum that was raised twice.
fn sum_bits(level: u32, sum: u64) -> u64
    requires { level ≤ 3 }
    ensures { result ≡ sign_bits level (sub_ℕ sum (spec.bias (level + 1))) }
{
    let zero = bias(level + 1);
    if sum < zero {
        return top(level) + zero - sum;
    }
    sum - zero
}

// A sum that was raised twice, stored in the one counter of a block, if it holds it.
pub fn held(level: u32, sum: u64) -> Tried
    requires { level ≤ 3 }
    ensures { Tells result (sum_spec.held level (sub_ℕ sum (spec.bias (level + 1)))) }
{
    Tried {
        over: sum.abs_diff(bias(level + 1)) >= top(level),
        word: sum_bits(level, sum),
        merge: ones(level),
    }
}

// A block's total, raised: its counter's value if it is merged, else that of its sides.
fn block_total(level: u32, sides: u64, word: u64, merge: u8) -> u64
    requires fact_1 { level ≤ 2 }
    requires fact_2 { word < cap level }
    requires fact_3 { RaisedApart level sides word merge }
    ensures { Raised level result (block_spec.total (signed_block level word merge)) }
{
    if is_merged(level, merge) {
        return raised(level, word);
    }
    sides
}

// The first of two values, or the second.
fn chosen<T: Copy>(first: bool, a: T, b: T) -> T
    ensures { result ≡ cond first a b }
{
    if first { a } else { b }
}

// Two blocks united: one counter where either is, or where the union of two halves is over; else the unions of the halves.
pub fn formed(
    level: u32,
    sides: Node,
    word: u64,
    merge: u8,
    other_word: u64,
    other_merge: u8,
) -> Node
    requires fact_1 { level ≤ 2 }
    requires fact_2 { word < cap level }
    requires fact_3 { other_word < cap level }
    requires fact_4 { Sides level sides word merge other_word other_merge }
    ensures { IsNode level result word merge other_word other_merge }
{
    let a = block_total(level, sides.a, word, merge);
    let b = block_total(level, sides.b, other_word, other_merge);
    let sum = held(level, a + b);
    let one = is_merged(level, merge) | is_merged(level, other_merge) | sides.over;
    Node {
        a,
        b,
        over: one & sum.over,
        word: chosen(one, sum.word, sides.word),
        merge: chosen(one, sum.merge, sides.merge),
    }
}

// The count bytes of two halves of this level side by side. Of halves that are over, which group_block::beside_word and
// group_layout::beside do not take, nothing is promised.
fn beside_words(half: u32, left: u64, right: u64) -> u64
    requires { half ≤ 2 }
    ensures { left < cap half → right < cap half → result ≡ right * cap half + left }
{
    (right << (8 * slots(half))) | left
}

// Their merge bits.
fn beside_merges(half: u32, left: u8, right: u8) -> u8
    requires { half ≤ 2 }
    ensures { left < 2 ^ (2 ^ half) → right < 2 ^ (2 ^ half) → result ≡ right * 2 ^ (2 ^ half) + left }
{
    (right << slots(half)) | left
}

// Two halves of this level side by side: over if either is.
pub fn beside(half: u32, left: Node, right: Node) -> Node
    requires { (half ≤ 2) × ((left.a + right.a < 2 ^ 64) × (left.b + right.b < 2 ^ 64)) }
    ensures a_value { (result.a ≡ left.a + right.a) × (result.b ≡ left.b + right.b) }
    ensures beside_as { BesideAs half (passed left) (passed right) (passed result) }
{
    Node {
        a: left.a + right.a,
        b: left.b + right.b,
        over: left.over | right.over,
        word: beside_words(half, left.word, right.word),
        merge: beside_merges(half, left.merge, right.merge),
    }
}

// Two groups of a signed meter united without recursion and without branches on what counters hold, from the slots up.
#![tactic(auto)]

ghost use Rattle.std.specs.Prelude.{◌≡◌, false, cond, ◌+◌, ◌/◌, ◌%◌, ◌≤◌, ◌<◌, ◌^◌, eqb, ◌+ℤ◌};
ghost use Rattle.group_layout.specs.Layout.{layout};
ghost use Rattle.group_layout.specs.Merged.{is_merged};
ghost use Rattle.group_block.specs.Block.{cap};
ghost use Rattle.group_block.specs.Sum as sum_spec;
ghost use Rattle.signed_block.specs.Signed.{sign_read};
ghost use Rattle.signed_block.specs.Passed.{signed_block, signed_summed, SignedSane};
ghost use Rattle.signed_nodes.specs.Nodes.{Raised};
ghost use Rattle.signed_union.specs.Slotted.{Slotted, NodeOf, SidesOf, halves_of};
ghost use Rattle.signed_union.specs.Slotted as spec;

use group_block::{Packed, high_word, low_word};
use group_layout::{is_merged, low, slots};
use signed_block::SignedMeter;
use signed_nodes::{Node, beside, formed, held, raised};
use signed_number::Signed;
use signed_slots::{over, sums};

// Two blocks by their count bytes as numbers and their merge bits; and of their slots, taken as unmerged, the sums and which are over.
#[derive(Clone, Copy)]
struct Blocks {
    word: u64,
    merge: u8,
    other_word: u64,
    other_merge: u8,
    sums: u64,
    overs: u64,
}

// One half, of this level, of a block's count bytes: the left, 0, or the right, 1.
fn half_word(half: u32, h: usize, word: u64) -> u64
    requires fact_1 { half ≤ 2 }
    requires fact_2 { h ≤ 1 }
    requires fact_3 { word < cap (half + 1) }
    ensures { result ≡ cond (eqb h 0) (word % cap half) (word / cap half) }
{
    low_word(half, word >> (h * (8 * slots(half) as usize)))
}

// One half of its merge bits.
fn half_merge(half: u32, h: usize, merge: u8) -> u8
    requires fact_1 { half ≤ 2 }
    requires fact_2 { h ≤ 1 }
    requires fact_3 { merge < 2 ^ (2 ^ (half + 1)) }
    ensures { result ≡ cond (eqb h 0) (merge % 2 ^ (2 ^ half)) (merge / 2 ^ (2 ^ half)) }
{
    low(half, merge >> (h * slots(half) as usize))
}

// One half of two blocks.
fn halves(half: u32, h: usize, b: Blocks) -> Blocks
    requires fact_1 { half ≤ 2 }
    requires fact_2 { h ≤ 1 }
    requires fact_3 { Slotted (half + 1) b }
    ensures { result ≡ halves_of half h b }
{
    Blocks {
        word: half_word(half, h, b.word),
        merge: half_merge(half, h, b.merge),
        other_word: half_word(half, h, b.other_word),
        other_merge: half_merge(half, h, b.other_merge),
        sums: half_word(half, h, b.sums),
        overs: half_word(half, h, b.overs),
    }
}

// The total of two slots, raised.
fn slots_total(word: u64) -> u64
    requires { word < cap 1 }
    ensures { Raised 1 result (sign_read 0 (word % cap 0) +ℤ sign_read 0 (word / cap 0)) }
{
    raised(0, low_word(0, word)) + raised(0, high_word(0, word))
}

// Two blocks of two slots united.
fn two_slots(b: Blocks) -> Node
    requires { Slotted 1 b }
    ensures { NodeOf 1 result b }
{
    let sides = Node {
        a: slots_total(b.word),
        b: slots_total(b.other_word),
        over: b.overs != 0,
        word: b.sums,
        merge: 0,
    };
    formed(1, sides, b.word, b.merge, b.other_word, b.other_merge)
}

// Two blocks of four slots united.
fn four_slots(b: Blocks) -> Node
    requires { Slotted 2 b }
    ensures { NodeOf 2 result b }
{
    let left = two_slots(halves(1, 0, b));
    let right = two_slots(halves(1, 1, b));
    let sides = beside(1, left, right);
    formed(2, sides, b.word, b.merge, b.other_word, b.other_merge)
}

// The halves of two groups united, side by side. The loop calls `four_slots` in one place, where the compiler puts all of its code.
fn eight_slots(b: Blocks) -> Node
    requires { Slotted 3 b }
    ensures { SidesOf 3 result b }
{
    let none = Node {
        a: 0,
        b: 0,
        over: false,
        word: 0,
        merge: 0,
    };
    let mut nodes = [none; 2];
    for h in 0..2usize {
        nodes[h] = four_slots(halves(2, h, b));
    }
    let left = nodes[0];
    let right = nodes[1];
    beside(2, left, right)
}

// Two groups united, neither of them merged into one counter: the counter of a group that is formed holds any sum of theirs.
fn united(b: Blocks) -> Packed
    requires fact_1 { Slotted 3 b }
    requires fact_2 { is_merged (layout 3 b.merge) ≡ false }
    requires fact_3 { is_merged (layout 3 b.other_merge) ≡ false }
    ensures { Ok result ≡ spec.united b }
{
    let sides = eight_slots(b);
    if sides.over {
        let sum = held(3, sides.a + sides.b);
        return Packed {
            word: sum.word,
            merge: sum.merge,
        };
    }
    Packed {
        word: sides.word,
        merge: sides.merge,
    }
}

// Two groups united: most are not merged, and few of their sums need more than a slot; few are one counter.
pub fn unite(word: u64, merge: u8, other_word: u64, other_merge: u8) -> Result<Packed, Signed>
    requires fact_1 { SignedSane 3 word merge }
    requires fact_2 { SignedSane 3 other_word other_merge }
    ensures { result ≡ signed_summed (sum_spec.unite (signed_block 3 word merge) (signed_block 3 other_word other_merge)) }
{
    let b = Blocks {
        word,
        merge,
        other_word,
        other_merge,
        sums: sums(word, other_word),
        overs: over(word, other_word),
    };
    if merge | other_merge == 0 {
        if b.overs == 0 {
            return Ok(Packed {
                word: b.sums,
                merge: 0,
            });
        }
    }
    if is_merged(3, merge) | is_merged(3, other_merge) {
        return group_block::unite::<SignedMeter>(3, word, merge, other_word, other_merge);
    }
    Ok(united(b))
}

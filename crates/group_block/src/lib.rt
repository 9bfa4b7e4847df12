// The counters of a block. Each function takes the block's level, its count bytes as one number, the lowest slot least significant,
// and its merge bits. It recurses on the level.
#![tactic(auto)]

ghost use Rattle.std.specs.Prelude.{◌≡◌, true, ◌+◌, ◌*◌, ◌/◌, ◌%◌, ◌^◌, ◌<◌, ◌≤◌, ltb};
ghost use Rattle.group_layout.specs.Layout.{layout};
ghost use Rattle.group_block.specs.Kind.{Kind, ordinary};
ghost use Rattle.group_block.specs.Figure.{Coded, ordinary_coded};
ghost use Rattle.group_block.specs.Block.{cap, all_clean, block_as};
ghost use Rattle.group_block.specs.Block as spec;
ghost use Rattle.group_block.specs.Sum as sum_spec;
ghost use Rattle.group_block.specs.Sum.{sum_total};
ghost use Rattle.group_block.specs.Passed.{summed_as, sum_as, left_half, right_half, Sane, AptAs};

use group_layout::{beside, high, is_merged, low, ones, slots};

// A counter that was read.
#[derive(Clone, Copy)]
pub struct Counter {
    pub value: u64,
    pub level: u32,
}

// A block's count bytes as one number and its merge bits.
#[derive(Clone, Copy)]
pub struct Packed {
    pub word: u64,
    pub merge: u8,
}

// A kind of meter, by the values of its counters.
pub trait MeterKind {
    type Figure: Copy;

    ghost kind: { Kind };

    // the value that a figure stands for, and the figure that is made of a value
    ghost means: { Self.Figure → kind.Value };

    ghost made: { kind.Value → Self.Figure };

    // The value of a counter of a level, by its bits.
    fn read(level: u32, bits: u64) -> Self::Figure
        requires level_bound { level ≤ 3 }
        requires in_counter { bits < cap level }
        ensures { means result ≡ kind.read level bits };

    // The bits of a value in a counter of a level that holds it.
    fn bits(level: u32, value: Self::Figure) -> u64
        requires level_bound { level ≤ 3 }
        requires held { kind.size (means value) < kind.bound level }
        requires is_made { value ≡ made (means value) }
        ensures { result ≡ kind.bits level (means value) };

    // Whether a counter of a level holds a value.
    fn holds(level: u32, value: Self::Figure) -> bool
        requires { level ≤ 3 }
        ensures { result ≡ ltb (kind.size (means value)) (kind.bound level) };

    fn plus(a: Self::Figure, b: Self::Figure) -> Self::Figure
        requires { kind.size (means a) + kind.size (means b) < 2 ^ 64 }
        ensures { result ≡ made (kind.plus (means a) (means b)) };

    ghost laws: { Coded kind means made };
}

// The count bytes of the left half, of this level.
pub fn low_word(half: u32, word: u64) -> u64
    requires { half ≤ 2 }
    ensures { result ≡ word % cap half }
{
    word % (1 << (8 * slots(half)))
}

// The count bytes of the right half, of this level.
pub fn high_word(half: u32, word: u64) -> u64
    requires { half ≤ 2 }
    ensures { result ≡ word / cap half }
{
    word >> (8 * slots(half))
}

// The left half, of this level.
pub fn left_half(half: u32, word: u64, merge: u8) -> Packed
    requires { half ≤ 2 }
    ensures { result ≡ left_half half word merge }
{
    Packed {
        word: low_word(half, word),
        merge: low(half, merge),
    }
}

// The right half, of this level.
pub fn right_half(half: u32, word: u64, merge: u8) -> Packed
    requires { half ≤ 2 }
    ensures { result ≡ right_half half word merge }
{
    Packed {
        word: high_word(half, word),
        merge: high(half, merge),
    }
}

// The count bytes of the block that has these halves.
pub fn beside_word(half: u32, left: u64, right: u64) -> u64
    requires fact_1 { half ≤ 2 }
    requires fact_2 { left < cap half }
    requires fact_3 { right < cap half }
    ensures { result ≡ right * cap half + left }
{
    (right << (8 * slots(half))) | left
}

// Whether a counter of a level holds a value.
fn holds(level: u32, value: u64) -> bool
    requires { level ≤ 3 }
    ensures { result ≡ ltb value (cap level) }
{
    if level == 3 {
        return true;
    }
    high_word(level, value) == 0
}

// The ordinary meter: numbers, each its own bits.
pub struct Ordinary;

impl MeterKind for Ordinary {
    type Figure = u64;

    ghost kind = { ordinary };

    ghost means = { λ v. v };

    ghost made = { λ v. v };

    fn read(level: u32, bits: u64) -> u64 {
        bits
    }

    fn bits(level: u32, value: u64) -> u64 {
        value
    }

    fn holds(level: u32, value: u64) -> bool {
        holds(level, value)
    }

    fn plus(a: u64, b: u64) -> u64 {
        a + b
    }

    ghost laws = { ordinary_coded };
}

// The sum of a block's counters.
pub fn total<M: MeterKind>(level: u32, word: u64, merge: u8) -> M::Figure
    requires { (level ≤ 3) × (word < cap level) }
    ensures { M.means result ≡ spec.total (block_as M.kind level word merge) }
{
    if is_merged(level, merge) {
        return M::read(level, word);
    }
    let half = level - 1;
    let left = left_half(half, word, merge);
    let right = right_half(half, word, merge);
    M::plus(
        total::<M>(half, left.word, left.merge),
        total::<M>(half, right.word, right.merge),
    )
}

// A sum stored in the one counter of a block, or the sum if the counter does not hold it.
pub fn held<M: MeterKind>(level: u32, sum: M::Figure) -> Result<Packed, M::Figure>
    requires fact_1 { level ≤ 3 }
    requires fact_2 { sum ≡ M.made (M.means sum) }
    ensures { result ≡ summed_as M.kind M.made (sum_spec.held level (M.means sum)) }
{
    if !M::holds(level, sum) {
        return Err(sum);
    }
    Ok(Packed {
        word: M::bits(level, sum),
        merge: ones(level),
    })
}

// The total of what an addition or a union left.
fn sum_total<M: MeterKind>(level: u32, s: Result<Packed, M::Figure>) -> M::Figure
    requires fact_1 { level ≤ 3 }
    requires fact_2 { AptAs M.kind level s }
    ensures { M.means result ≡ sum_total (sum_as M.kind M.means level s) }
{
    match s {
        Ok(block) => total::<M>(level, block.word, block.merge),
        Err(sum) => sum,
    }
}

// Two halves side by side or, where one is a sum, their sum as one counter.
pub fn join<M: MeterKind>(
    half: u32,
    left: Result<Packed, M::Figure>,
    right: Result<Packed, M::Figure>,
) -> Result<Packed, M::Figure>
    requires fact_1 { half ≤ 2 }
    requires fact_2 { AptAs M.kind half left }
    requires fact_3 { AptAs M.kind half right }
    requires fact_4 { M.kind.size (sum_total (sum_as M.kind M.means half left)) + M.kind.size (sum_total (sum_as M.kind M.means half right)) < 2 ^ 64 }
    ensures { result ≡ summed_as M.kind M.made (sum_spec.join (sum_as M.kind M.means half left) (sum_as M.kind M.means half right)) }
{
    let (Ok(l), Ok(r)) = (left, right) else {
        return held::<M>(
            half + 1,
            M::plus(sum_total::<M>(half, left), sum_total::<M>(half, right)),
        );
    };
    Ok(Packed {
        word: beside_word(half, l.word, r.word),
        merge: beside(half, l.merge, r.merge),
    })
}

// An amount added to the counter of a slot.
pub fn add<M: MeterKind>(
    level: u32,
    word: u64,
    merge: u8,
    slot: usize,
    amount: M::Figure,
) -> Result<Packed, M::Figure>
    requires level_bound { level ≤ 3 }
    requires sane { Sane level word merge }
    requires clean { all_clean M.kind (layout level merge) word ≡ true }
    requires room { spec.sizes (block_as M.kind level word merge) + M.kind.size (M.means amount) < 2 ^ 64 }
    ensures { result ≡ summed_as M.kind M.made (sum_spec.add (block_as M.kind level word merge) slot (M.means amount)) }
{
    if is_merged(level, merge) {
        return held::<M>(level, M::plus(M::read(level, word), amount));
    }
    let half = level - 1;
    let left = left_half(half, word, merge);
    let right = right_half(half, word, merge);
    let size = slots(half) as usize;
    if slot < size {
        return join::<M>(
            half,
            add::<M>(half, left.word, left.merge, slot, amount),
            Ok(right),
        );
    }
    join::<M>(
        half,
        Ok(left),
        add::<M>(half, right.word, right.merge, slot - size, amount),
    )
}

// Two blocks united.
pub fn unite<M: MeterKind>(
    level: u32,
    word: u64,
    merge: u8,
    other_word: u64,
    other_merge: u8,
) -> Result<Packed, M::Figure>
    requires level_bound { level ≤ 3 }
    requires sane { Sane level word merge }
    requires clean { all_clean M.kind (layout level merge) word ≡ true }
    requires other_sane { Sane level other_word other_merge }
    requires other_clean { all_clean M.kind (layout level other_merge) other_word ≡ true }
    requires room { spec.sizes (block_as M.kind level word merge) + spec.sizes (block_as M.kind level other_word other_merge) < 2 ^ 64 }
    ensures { result ≡ summed_as M.kind M.made (sum_spec.unite (block_as M.kind level word merge) (block_as M.kind level other_word other_merge)) }
{
    if is_merged(level, merge) {
        return held::<M>(
            level,
            M::plus(
                M::read(level, word),
                total::<M>(level, other_word, other_merge),
            ),
        );
    }
    if is_merged(level, other_merge) {
        return held::<M>(
            level,
            M::plus(total::<M>(level, word, merge), M::read(level, other_word)),
        );
    }
    let half = level - 1;
    let left = left_half(half, word, merge);
    let right = right_half(half, word, merge);
    let other_left = left_half(half, other_word, other_merge);
    let other_right = right_half(half, other_word, other_merge);
    let united = unite::<M>(
        half,
        left.word,
        left.merge,
        other_left.word,
        other_left.merge,
    );
    join::<M>(
        half,
        united,
        unite::<M>(
            half,
            right.word,
            right.merge,
            other_right.word,
            other_right.merge,
        ),
    )
}

// The merge byte of a group, the levels of its counters, and their places in the count bytes taken as one number.
#![tactic(auto)]

ghost use Rattle.std.specs.Prelude.{◌≡◌, true, ◌+◌, ◌-◌, ◌*◌, ◌/◌, ◌%◌, ◌^◌, ◌<◌, ◌≤◌};
ghost use Rattle.group_layout.specs.Layout.{layout, valid, level_of};
ghost use Rattle.group_layout.specs.Layout as layout_spec;
ghost use Rattle.group_block.specs.Block.{cap};
ghost use Rattle.group_levels.specs.Levels as spec;

// Whether a merge byte is one of the 26 valid ones: its bits 0 to 4 and its bits 3 to 7 are each such as a valid one has. The masks
// have a bit for each value of those bits.
pub fn is_valid(merge: u8) -> bool
    ensures { result ≡ valid 3 merge }
{
    let bits = merge as u32;
    if (0x80b3_00b3u32 >> (bits & 31)) & 1 == 0 {
        return false;
    }
    (0xc505u32 >> (bits >> 3)) & 1 == 1
}

// The level of the counter that a slot is in: in a valid layout one for each merged block around the slot, its pair, its half and
// the group.
pub fn level_at(merge: u8, slot: usize) -> u32
    requires fact_1 { valid 3 merge ≡ true }
    requires fact_2 { slot < 8 }
    ensures value { result ≡ level_of (layout 3 merge) slot }
    ensures upper_bound { result ≤ 3 }
{
    let bits = merge as u32;
    let pair = (bits >> (slot / 2 * 2)) & 1;
    let half = (bits >> (slot / 4 * 4 + 1)) & 1;
    let group = (bits >> 3) & 1;
    pair + half + group
}

// The largest level of a valid group's counters: one if a pair is merged, one if a half is, one if the group is.
pub fn widest_level(merge: u8) -> u32
    requires { valid 3 merge ≡ true }
    ensures { result ≡ layout_spec.widest_in (layout 3 merge) }
{
    let any_pair = (merge | (merge >> 2) | (merge >> 4) | (merge >> 6)) & 1;
    let any_half = ((merge >> 1) | (merge >> 5)) & 1;
    let group = (merge >> 3) & 1;
    (any_pair + any_half + group) as u32
}

// Whether from this slot on two counters of this level lie side by side.
pub fn twins(merge: u8, level: u32, first: usize) -> bool
    requires fact_1 { valid 3 merge ≡ true }
    requires fact_2 { level ≤ 2 }
    requires fact_3 { first + 2 ^ level < 8 }
    ensures { result ≡ spec.twins (layout 3 merge) level first }
{
    if level_at(merge, first) != level {
        return false;
    }
    level_at(merge, first + (1 << level)) == level
}

// The merge byte with the own bit of the block set whose halves are two counters of this level from this slot on.
pub fn formed(merge: u8, level: u32, first: usize) -> u8
    requires fact_1 { valid 3 merge ≡ true }
    requires fact_2 { level ≤ 2 }
    requires fact_3 { first + 2 ^ level < 8 }
    requires fact_4 { spec.IsLeft (layout 3 merge) level first }
    ensures { result ≡ merge + 2 ^ (2 ^ level - 1) * 2 ^ first }
{
    merge | (1 << (first + (1 << level) - 1))
}

// The largest value that a counter of a level holds.
pub fn most(level: u32) -> u64
    requires { level ≤ 3 }
    ensures { result ≡ cap level - 1 }
{
    18446744073709551615 >> (64 - (8u32 << level))
}

// The lowest bit of the counter of a level that a slot is in, in the count bytes taken as one number.
pub fn place(level: u32, slot: usize) -> usize
    requires fact_1 { level ≤ 3 }
    requires fact_2 { slot < 8 }
    ensures value { result ≡ 8 * (slot / 2 ^ level * 2 ^ level) }
    ensures upper_bound { result < 64 }
{
    8 * ((slot >> level) << level)
}

// The counter of a level at a place of the count bytes taken as one number.
pub fn value_at(word: u64, level: u32, place: usize) -> u64
    requires fact_1 { level ≤ 3 }
    requires fact_2 { place < 64 }
    ensures { result ≡ word / 2 ^ place % cap level }
{
    (word >> place) & most(level)
}

// The count bytes, taken as one number, with another value of this level at a place.
pub fn put(word: u64, level: u32, place: usize, value: u64) -> u64
    requires fact_1 { level ≤ 3 }
    requires fact_2 { place < 64 }
    requires fact_3 { word + value * 2 ^ place < 2 ^ 64 + word / 2 ^ place % cap level * 2 ^ place }
    ensures { result + word / 2 ^ place % cap level * 2 ^ place ≡ word + value * 2 ^ place }
{
    let old = value_at(word, level, place);
    word - (old << place) + (value << place)
}

// The same where the value that was there is known: fewer operations, none of which carries.
pub fn exchange(word: u64, level: u32, place: usize, old: u64, value: u64) -> u64
    requires fact_1 { level ≤ 3 }
    requires fact_2 { place + 8 * 2 ^ level ≤ 64 }
    requires fact_3 { old ≡ word / 2 ^ place % cap level }
    requires fact_4 { value < cap level }
    ensures { result + word / 2 ^ place % cap level * 2 ^ place ≡ word + value * 2 ^ place }
{
    word ^ ((old ^ value) << place)
}

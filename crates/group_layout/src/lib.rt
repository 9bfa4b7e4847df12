// The merge bits of a block and its layout code. Each function takes the block's level and its merge bits as a number; those that
// take a block apart recurse on the level.
#![tactic(auto)]

ghost use Rattle.std.specs.Prelude.{◌≡◌, ◌+◌, ◌-◌, ◌*◌, ◌/◌, ◌%◌, ◌^◌, ◌<◌, ◌≤◌};
ghost use Rattle.group_layout.specs.Layout as spec;
ghost use Rattle.group_layout.specs.Layout.{bit, layout, marks};
ghost use Rattle.group_layout.specs.Merged.{is_merged};
ghost use Rattle.group_layout.specs.Code as code_spec;

// The number of slots of a block of level 0 to 2, half of a larger one.
pub fn slots(half: u32) -> u8
    requires { half ≤ 2 }
    ensures value { result ≡ 2 ^ half }
    ensures lower_bound { (1 ≤ result) × (result ≤ 4) }
{
    1 << half
}

// The own bit of the block that has halves of this level.
fn own_bit(half: u32, merge: u8) -> bool
    requires { half ≤ 2 }
    ensures { result ≡ bit merge (2 ^ half - 1) }
{
    let place = slots(half) - 1;
    (merge >> place) & 1 == 1
}

// Whether a block is merged. A single slot counts as merged.
pub fn is_merged(level: u32, merge: u8) -> bool
    requires { level ≤ 3 }
    ensures { result ≡ is_merged (layout level merge) }
{
    if level == 0 {
        return true;
    }
    own_bit(level - 1, merge)
}

// All merge bits of a block.
pub fn ones(level: u32) -> u8
    requires { level ≤ 3 }
    ensures { result ≡ spec.ones level }
{
    let places = (1u8 << level) - 1;
    (1 << places) - 1
}

// The merge bits of the left half, of this level, with the bit between the halves.
pub fn low(half: u32, merge: u8) -> u8
    requires { half ≤ 2 }
    ensures { result ≡ merge % 2 ^ (2 ^ half) }
{
    merge & ((1 << slots(half)) - 1)
}

// The merge bits of the right half, of this level.
pub fn high(half: u32, merge: u8) -> u8
    requires { half ≤ 2 }
    ensures { result ≡ merge / 2 ^ (2 ^ half) }
{
    merge >> slots(half)
}

// The merge bits of the block that has these halves and is not merged.
pub fn beside(half: u32, left: u8, right: u8) -> u8
    requires fact_1 { half ≤ 2 }
    requires fact_2 { left < 2 ^ (2 ^ half) }
    requires fact_3 { right < 2 ^ (2 ^ half) }
    ensures { result ≡ right * 2 ^ (2 ^ half) + left }
{
    (right << slots(half)) | left
}

// The number of layouts of a block.
fn layouts(level: u32) -> u32
    requires { level ≤ 3 }
    ensures value { result ≡ code_spec.layouts level }
    ensures lower_bound { (1 ≤ result) × (result ≤ 26) }
{
    if level == 0 {
        return 1;
    }
    let n = layouts(level - 1);
    n * n + 1
}

// The layout code of a block. One without a merge bit has code 0, at any level.
pub fn code(level: u32, merge: u8) -> u32
    requires { level ≤ 3 }
    ensures value { result ≡ code_spec.code (layout level merge) }
    ensures upper_bound { result ≤ 25 }
{
    if merge == 0 {
        return 0;
    }
    if is_merged(level, merge) {
        return layouts(level) - 1;
    }
    let half = level - 1;
    let left = code(half, low(half, merge));
    left * layouts(half) + code(half, high(half, merge))
}

// The merge bits of the layout that a code stands for: none for code 0, the only code of a single slot.
pub fn unpack(level: u32, code: u32) -> u8
    requires { (level ≤ 3) × (code < code_spec.layouts level) }
    ensures { result ≡ marks (code_spec.uncode level code) }
{
    if code == 0 {
        return 0;
    }
    let half = level - 1;
    let n = layouts(half);
    if code == n * n {
        return ones(level);
    }
    let left = unpack(half, code / n);
    beside(half, left, unpack(half, code % n))
}

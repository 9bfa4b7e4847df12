// Layout codes of a group and of four groups.
#![tactic(auto)]

ghost use Rattle.std.specs.Prelude.{◌≡◌, ◌&&◌};
ghost use Rattle.group.specs.Group.{valid_merge};
ghost use Rattle.answer.specs.Answers.{told};
ghost use Rattle.group_codes.specs.Pack.{group_code, packed, unpacked, unpacked_of};
ghost use Rattle.group_codes.specs.Codes.{code_of, four_of, codes_of, AllCodes};

use answer::Refusal;

// How many layouts a group has, and two, three and four groups in a row.
pub const LAYOUTS: u32 = 26;

const TWO_LAYOUTS: u32 = LAYOUTS * LAYOUTS;

const THREE_LAYOUTS: u32 = LAYOUTS * TWO_LAYOUTS;

pub const FOUR_LAYOUTS: u32 = LAYOUTS * THREE_LAYOUTS;

// The layout code of a group.
#[tactic(auto, unfolding(answer::specs::Answers::told, answer::specs::Refusals::number, crate::specs::Pack::group_code))]
pub fn code(merge: u8) -> Result<u64, Refusal>
    ensures { told result ≡ group_code merge }
{
    if !group::is_valid(merge) {
        return Err(Refusal::InvalidContent);
    }
    Ok(group_layout::code(3, merge) as u64)
}

fn four_valid(a: u8, b: u8, c: u8, d: u8) -> bool
    ensures { result ≡ (valid_merge a && valid_merge b && valid_merge c && valid_merge d) }
{
    group::is_valid(a) && group::is_valid(b) && group::is_valid(c) && group::is_valid(d)
}

// The layout code of four groups in a row.
#[tactic(auto, unfolding(answer::specs::Answers::told, answer::specs::Refusals::number, crate::specs::Pack::packed, crate::specs::Pack::four_code))]
pub fn pack(a: u8, b: u8, c: u8, d: u8) -> Result<u64, Refusal>
    ensures { told result ≡ packed a b c d }
{
    if !four_valid(a, b, c, d) {
        return Err(Refusal::InvalidContent);
    }
    let high = group_layout::code(3, a) * THREE_LAYOUTS + group_layout::code(3, b) * TWO_LAYOUTS;
    let three = high + group_layout::code(3, c) * LAYOUTS;
    Ok((three + group_layout::code(3, d)) as u64)
}

// The merge bytes of the four groups that a layout code stands for.
#[tactic(auto, unfolding(answer::specs::Refusals::number, group_layout::specs::Code::layouts, crate::specs::Pack::unpacked, crate::specs::Pack::four_merges))]
pub fn unpack(code: u32) -> Result<[u8; 4], Refusal>
    ensures { unpacked_of result ≡ unpacked code }
{
    if FOUR_LAYOUTS <= code {
        return Err(Refusal::BadPayload);
    }
    let a = group_layout::unpack(3, code / THREE_LAYOUTS);
    let b = group_layout::unpack(3, code / TWO_LAYOUTS % LAYOUTS);
    let c = group_layout::unpack(3, code / LAYOUTS % LAYOUTS);
    let d = group_layout::unpack(3, code % LAYOUTS);
    Ok([a, b, c, d])
}

// Groups one by one, for tables of codes.

// The layout code of a group, or LAYOUTS for an invalid one.
pub fn code_of(merge: u8) -> u8
    ensures { result ≡ code_of merge }
{
    if group::is_valid(merge) {
        return group_layout::code(3, merge) as u8;
    }
    LAYOUTS as u8
}

// The layout code of four groups by these codes, or 0 if one is invalid.
#[tactic(auto, unfolding(crate::specs::Codes::four_of))]
pub fn four_code(a: u8, b: u8, c: u8, d: u8) -> u32
    ensures { result ≡ four_of a b c d }
{
    let w = a as u32;
    let x = b as u32;
    let y = c as u32;
    let z = d as u32;
    if w < LAYOUTS && x < LAYOUTS && y < LAYOUTS && z < LAYOUTS {
        return w * THREE_LAYOUTS + x * TWO_LAYOUTS + y * LAYOUTS + z;
    }
    0
}

// The codes of the four groups that a layout code stands for; all 0 where it stands for none.
#[tactic(auto, unfolding(crate::specs::Codes::codes_of))]
pub fn codes_of(code: u32) -> [u8; 4]
    ensures value { result ≡ codes_of code }
    ensures all_codes { AllCodes result }
{
    if code == 0 || code >= FOUR_LAYOUTS {
        return [0; 4];
    }
    [
        (code / THREE_LAYOUTS) as u8,
        (code / TWO_LAYOUTS % LAYOUTS) as u8,
        (code / LAYOUTS % LAYOUTS) as u8,
        (code % LAYOUTS) as u8,
    ]
}

// The slots of a key, in one row and in several, and its hashes there. The hashes of four rows advance side by side: none waits for another.
#![tactic(auto)]

ghost use Rattle.std.specs.Prelude.{◌≡◌, true, ℕ, ◌+◌, ◌<◌, ◌≤◌, get_or};
ghost use Rattle.hash.specs.Hash.{row_hash};
ghost use Rattle.geometry.specs.Geometry.{valid_width};
ghost use Rattle.meter_keys.specs.Keys.{key_slot};

use hash::Hash;

// The slot of a key in row r, by a hash that goes on from `start`.
#[tactic(auto, using(crate::proofs::Landing::shares))]
pub fn row_slot(start: Hash, w: usize, key: &[u8], r: u8) -> usize
    requires { valid_width w ≡ true }
    ensures value { result ≡ key_slot start.state w key.now r }
    ensures upper_bound { result < w }
{
    let h = start.in_row(r, key);
    hash::scaled(h.state, w)
}

// The hashes of a key in four rows. As numbers of 32 bits side by side the compiler would advance them in a vector register, which is slower:
// SSE2 has no product of four of them.
fn four_hashes(start: Hash, key: &[u8], first: u8) -> [usize; 4]
    requires { first ≤ 4 }
    ensures { (r : ℕ) → r < 4 → get_or result r 0 ≡ row_hash start.state (first + r) key.now }
{
    let mut a = start.step(first);
    let mut b = start.step(first + 1);
    let mut c = start.step(first + 2);
    let mut d = start.step(first + 3);
    for &byte in key {
        a = a.step(byte);
        b = b.step(byte);
        c = c.step(byte);
        d = d.step(byte);
    }
    [
        a.state as usize,
        b.state as usize,
        c.state as usize,
        d.state as usize,
    ]
}

// The slots of a key in four rows.
#[tactic(auto, using(crate::proofs::Landing::shares))]
fn four_slots(start: Hash, w: usize, key: &[u8], first: u8) -> [usize; 4]
    requires fact_1 { valid_width w ≡ true }
    requires fact_2 { first ≤ 4 }
    ensures by_index { (r : ℕ) → r < 4 → get_or result r 0 ≡ key_slot start.state w key.now (first + r) }
    ensures by_index_2 { (r : ℕ) → r < 4 → get_or result r 0 < w }
{
    let h = four_hashes(start, key, first);
    let a = hash::scaled(h[0] as u32, w);
    let b = hash::scaled(h[1] as u32, w);
    let c = hash::scaled(h[2] as u32, w);
    let d = hash::scaled(h[3] as u32, w);
    [a, b, c, d]
}

// The slots of a key in the first d rows; what stands after those is not used. All eight are written out: to copy fours into a zeroed array
// is no shorter.
pub fn key_slots(start: Hash, w: usize, key: &[u8], d: usize) -> [usize; 8]
    requires fact_1 { valid_width w ≡ true }
    requires fact_2 { d ≤ 8 }
    ensures by_index { (r : ℕ) → r < d → get_or result r 0 ≡ key_slot start.state w key.now r }
    ensures by_index_2 { (r : ℕ) → r < d → get_or result r 0 < w }
{
    let low = four_slots(start, w, key, 0);
    if d <= 4 {
        return [low[0], low[1], low[2], low[3], 0, 0, 0, 0];
    }
    let high = four_slots(start, w, key, 4);
    [
        low[0], low[1], low[2], low[3], high[0], high[1], high[2], high[3],
    ]
}

// The hashes of a key in the first d rows, in the same way.
pub fn key_hashes(start: Hash, key: &[u8], d: usize) -> [usize; 8]
    requires { d ≤ 8 }
    ensures { (r : ℕ) → r < d → get_or result r 0 ≡ row_hash start.state r key.now }
{
    if d == 1 {
        let only = start.in_row(0, key);
        return [only.state as usize, 0, 0, 0, 0, 0, 0, 0];
    }
    let low = four_hashes(start, key, 0);
    if d <= 4 {
        return [low[0], low[1], low[2], low[3], 0, 0, 0, 0];
    }
    if d == 5 {
        let fifth = start.in_row(4, key);
        return [
            low[0],
            low[1],
            low[2],
            low[3],
            fifth.state as usize,
            0,
            0,
            0,
        ];
    }
    let high = four_hashes(start, key, 4);
    [
        low[0], low[1], low[2], low[3], high[0], high[1], high[2], high[3],
    ]
}

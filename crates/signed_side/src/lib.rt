// Unmerged groups of a signed meter side by side: the count bytes of eight of them combined with those of a source at once. Of loops
// of 64 turns with no test on the way the compiler makes vector code: they count to 64, since it does not know that the slices are that long,
// and what is bad stays a byte beside the sums.
#![tactic(auto)]

ghost use Rattle.std.specs.Prelude.{◌≡◌, ◌<◌, true, false, length, if◌then◌else◌};
ghost use Rattle.signed_side.specs.Side.{Accepted, Combined, InSlot, HoldsSum, HoldSums};
ghost use Rattle.signed_side.specs.Side as spec;

use group_side::put;
use std::num::{wrapping_add_u8, wrapping_sub_u8};

// A slot's value modulo 256, as two's complement has it, by its sign and magnitude; and the slot of such a value. Of bytes other than
// minus zero each undoes the other.
fn complement(slot: u8) -> u8
    ensures { result ≡ spec.complement slot }
{
    if slot < 128 {
        slot
    } else {
        wrapping_sub_u8(128, slot)
    }
}

// Such a value times a sign.
fn times(minus: bool, byte: u8) -> u8
    ensures { result ≡ spec.times minus byte }
{
    if minus {
        wrapping_sub_u8(0, byte)
    } else {
        byte
    }
}

// What is bad as a byte whose highest bit is looked at: all bits set, as a comparison of vectors leaves them.
fn mark(bad: bool) -> u8
    ensures { result ≡ (if bad then 255 else 0) }
{
    if bad { 255 } else { 0 }
}

// Below 128 only where a slot holds the sum of two bytes: their signs differ, or the sum has theirs, and it is not -128.
fn over(a: u8, b: u8) -> u8
    ensures { result < 128 → InSlot a b }
{
    let s = wrapping_add_u8(a, b);
    ((a ^ s) & (b ^ s)) | mark(s == 128)
}

// A slot's sum with a source's times a sign; `bad` is below 128 only where the slot holds it and neither was minus zero.
#[derive(Clone, Copy)]
struct Slot {
    byte: u8,
    bad: u8,
}

fn sum(minus: bool, slot: u8, source: u8) -> Slot
    ensures { result.bad < 128 → HoldsSum minus slot source result.byte }
{
    let a = complement(slot);
    let b = times(minus, complement(source));
    Slot {
        byte: complement(wrapping_add_u8(a, b)),
        bad: over(a, b) | mark(slot == 128) | mark(source == 128),
    }
}

// Those of 64 slots.
#[derive(Clone, Copy)]
struct Slots {
    bytes: [u8; 64],
    bad: u8,
}

// They are made apart from the bytes that they are to replace, so that the compiler need not ask whether those overlap the source.
fn sums_of(minus: bool, counts: &[u8], source: &[u8]) -> Slots
    requires fact_1 { length counts.now ≡ 64 }
    requires fact_2 { length source.now ≡ 64 }
    ensures { result.bad < 128 → HoldSums minus 64 counts.now source.now result.bytes }
{
    let mut bytes = [0u8; 64];
    let mut bad = 0u8;
    for i in 0..64 {
        let s = sum(minus, counts[i], source[i]);
        bytes[i] = s.byte;
        bad = bad | s.bad;
    }
    Slots { bytes, bad }
}

// Eight unmerged groups combined with those of a source, if each is unmerged again: no slot is minus zero, and each holds its sum.
// Else nothing is stored.
pub fn combine(minus: bool, counts: &mut [u8], source: &[u8]) -> bool
    requires fact_1 { length counts.old ≡ 64 }
    requires fact_2 { length source.now ≡ 64 }
    ensures counts_len { length counts.new ≡ 64 }
    ensures counts_unchanged { result ≡ false → counts.new ≡ counts.old }
    ensures combined { result ≡ true → Combined minus 8 counts.old source.now counts.new }
{
    let s = sums_of(minus, counts, source);
    if s.bad >= 128 {
        return false;
    }
    let bytes = s.bytes;
    put(counts, bytes);
    true
}

// Whether no slot of eight unmerged groups is minus zero, nor of a source's: then none of the groups is refused.
pub fn clean(counts: &[u8], source: &[u8]) -> bool
    requires fact_1 { length counts.now ≡ 64 }
    requires fact_2 { length source.now ≡ 64 }
    ensures { result ≡ true → Accepted 8 counts.now source.now }
{
    let mut bad = 0u8;
    for i in 0..64 {
        bad = bad | (counts[i] == 128) as u8 | (source[i] == 128) as u8;
    }
    bad == 0
}

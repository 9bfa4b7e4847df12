// Changes of a watch list in its bytes: renewing, joining, the mark, taking off.
#![tactic(auto)]

ghost use Rattle.std.specs.Prelude.{◌≡◌, ◌++◌, ◌+◌, ◌-◌, ◌<◌, ◌≤◌, length, get_or, replicate};
ghost use Rattle.watch_list.specs.List.{joining, noted, taken_off};
ghost use Rattle.watch_list.specs.Layout.{list_size, encode, decode};
ghost use Rattle.watch_list.specs.Parts.{Holds, KeyLong, put, closed, put_place, closed_place};

use little_endian::bytes_of;
use meter_memory::put_eight;
use watch_find::find;

// A byte, and 0 past the last.
fn or_zero(bytes: &[u8], i: usize) -> u8
    ensures { result ≡ get_or bytes.now i 0 }
{
    if i < bytes.len() { bytes[i] } else { 0 }
}

// A key and zeros after it, 64 bytes in all, put from `at` on.
fn put_key(list: &mut [u8], at: usize, key: &[u8])
    requires fact_1 { at + 64 ≤ length list.old }
    requires fact_2 { length key.now ≤ 64 }
    ensures { list.new ≡ put list.old at (key.now ++ replicate (64 - length key.now) 0) }
{
    // `copy_from_slice` would call memmove, which the library does not ask of a host.
    for i in 0..64 {
        list[at + i] = or_zero(key, i);
    }
}

// A key joins at place n.
fn join(list: &mut [u8], n: usize, key: &[u8], estimate: u64)
    requires fact_1 { length list.old ≡ list_size }
    requires fact_2 { n < 64 }
    requires fact_3 { length key.now ≤ 64 }
    ensures { list.new ≡ put_place list.old n (joining key.now estimate) }
{
    list[n] = key.len() as u8;
    put_key(list, 65 + n * 64, key);
    put_eight(list, 4161 + n * 8, bytes_of(estimate));
}

// A part of `width` bytes taken out: what follows it up to `end` moves up, and zeros come before `end`.
fn close(list: &mut [u8], at: usize, end: usize, width: usize)
    requires fact_1 { at + width ≤ end }
    requires fact_2 { 1 ≤ width }
    requires fact_3 { end ≤ length list.old }
    ensures { list.new ≡ closed list.old at end width }
{
    // So would `copy_within`.
    for i in at..end {
        list[i] = or_zero(&list[0..end], i + width);
    }
}

// Place i of the n in use taken out.
fn remove(list: &mut [u8], i: usize, n: usize)
    requires fact_1 { length list.old ≡ list_size }
    requires fact_2 { (i < n) × (n ≤ 64) }
    ensures { list.new ≡ closed_place list.old i n }
{
    close(list, i, n, 1);
    close(list, 65 + i * 64, 65 + n * 64, 64);
    close(list, 4161 + i * 8, 4161 + n * 8, 8);
}

// An accepted update of a key, by the estimate that it left.
pub fn note(list: &mut [u8], n: usize, key: &[u8], estimate: u64, threshold: u64)
    requires fact_1 { Holds list.old n }
    requires fact_2 { KeyLong key.now }
    ensures { list.new ≡ encode (noted key.now estimate threshold (decode list.old)) }
{
    if let Some(i) = find(list, n, key) {
        put_eight(list, 4161 + i * 8, bytes_of(estimate));
        return;
    }
    if estimate < threshold {
        return;
    }
    if n == 64 {
        list[64] = 1;
        return;
    }
    join(list, n, key, estimate);
}

// A key taken off.
pub fn take_off(list: &mut [u8], n: usize, key: &[u8])
    requires fact_1 { Holds list.old n }
    requires fact_2 { KeyLong key.now }
    ensures { list.new ≡ encode (taken_off key.now (decode list.old)) }
{
    if let Some(i) = find(list, n, key) {
        remove(list, i, n);
    }
}

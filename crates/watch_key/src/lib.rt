// Whether a place of a watch list has a key, and what tells keys apart at first sight.
#![tactic(auto)]

ghost use Rattle.std.specs.Prelude.{◌≡◌, ◌+◌, ◌*◌, ◌<◌, ◌≤◌, length, get_or, take, drop};
ghost use Rattle.little_endian.specs.Bytes.{number};
ghost use Rattle.meter_keys.specs.Keys.{same_key};
ghost use Rattle.watch_list.specs.Layout.{list_size, place_at};
ghost use Rattle.watch_list.specs.Parts.{KeyLong};
ghost use Rattle.watch_key.specs.Digest.{digest_of};

use little_endian::number_of;
use meter_memory::eight;

fn word_at(bytes: &[u8], at: usize) -> u64
    requires { at + 8 ≤ length bytes.now }
    ensures { result ≡ number (take 8 (drop at bytes.now)) }
{
    number_of(eight(bytes, at))
}

// Whether two keys of one length are the same: by words of eight bytes, the first of which that differs tells it, then by the bytes that
// are left. The library's test of slices looks at all of both where the first four bytes are the same.
fn same_bytes(a: &[u8], b: &[u8]) -> bool
    requires { length a.now ≡ length b.now }
    ensures { result ≡ same_key a.now b.now }
{
    let words = a.len() / 8;
    for i in 0..words {
        if word_at(a, i * 8) != word_at(b, i * 8) {
            return false;
        }
    }
    a[words * 8..] == b[words * 8..]
}

// Whether a place in use has a key.
pub fn has_key(list: &[u8], k: usize, key: &[u8]) -> bool
    requires fact_1 { length list.now ≡ list_size }
    requires fact_2 { (k < 64) × (get_or list.now k 0 ≤ 64) }
    requires fact_3 { KeyLong key.now }
    ensures { result ≡ same_key (place_at list.now k).key key.now }
{
    let size = key.len();
    if usize::from(list[k]) != size {
        return false;
    }
    let start = 65 + k * 64;
    let end = start + size;
    same_bytes(&list[start..end], key)
}

// What is looked at first of a key: its first and its last eight bytes, each as a number, in one; else its last two, else its only one.
pub fn digest(bytes: &[u8], start: usize, size: usize) -> u64
    requires { (1 ≤ size) × (start + size ≤ length bytes.now) }
    ensures { result ≡ digest_of bytes.now start size }
{
    let end = start + size;
    if size >= 8 {
        return word_at(bytes, start) ^ word_at(bytes, end - 8);
    }
    if size >= 2 {
        return u64::from(u16::from_le_bytes([bytes[end - 2], bytes[end - 1]]));
    }
    u64::from(bytes[end - 1])
}

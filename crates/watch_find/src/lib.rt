// Where a key is in a watch list.
#![tactic(auto)]

ghost use Rattle.std.specs.Prelude.{◌≡◌, true, false, ◌+◌, ◌<◌, ◌≤◌, IfSome, unwrap_or};
ghost use Rattle.meter_keys.specs.Keys.{same_key};
ghost use Rattle.watch_list.specs.Layout.{place_at, places_from};
ghost use Rattle.watch_list.specs.Parts.{index_of, Holds, KeyLong};
ghost use Rattle.watch_find.specs.Scan.{Sought, AllDiffer, Past};

use watch_key::{digest, has_key};

// Whether a place cannot have a key, by the key's digest. Where it differs, the place has another key or one of another length.
fn differs(list: &[u8], k: usize, key: &[u8], sought: u64) -> bool
    requires fact_1 { Sought list.now key.now sought }
    requires fact_2 { k < 64 }
    ensures { result ≡ true → same_key (place_at list.now k).key key.now ≡ false }
{
    digest(list, 65 + k * 64, key.len()) != sought
}

// Whether none of eight places can have a key: eight to a turn of a loop, which the compiler unrolls.
fn eight_differ(list: &[u8], k: usize, key: &[u8], sought: u64) -> bool
    requires fact_1 { Sought list.now key.now sought }
    requires fact_2 { k + 8 ≤ 64 }
    ensures { result ≡ true → AllDiffer list.now k 8 key.now }
{
    for i in 0..8 {
        if !differs(list, k + i, key, sought) {
            return false;
        }
    }
    true
}

// A place in use before which none has a key: the first of eight of which one may have it, else where fewer than eight are left.
fn eights(list: &[u8], n: usize, key: &[u8]) -> usize
    requires fact_1 { Holds list.now n }
    requires fact_2 { KeyLong key.now }
    ensures upper_bound { result ≤ n }
    ensures past { Past list.now n key.now result }
{
    let sought = digest(key, 0, key.len());
    for turn in 0..n / 8 {
        let k = 8 * turn;
        if !eight_differ(list, k, key, sought) {
            return k;
        }
    }
    n / 8 * 8
}

// The first place in use that has a key.
pub fn find(list: &[u8], n: usize, key: &[u8]) -> Option<usize>
    requires fact_1 { Holds list.now n }
    requires fact_2 { KeyLong key.now }
    ensures value { unwrap_or result n ≡ index_of key.now (places_from list.now n 0) }
    ensures upper_bound { IfSome result (λ k. k < n) }
{
    for k in eights(list, n, key)..n {
        if has_key(list, k, key) {
            return Some(k);
        }
    }
    None
}

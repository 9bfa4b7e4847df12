// Whether a watch list's bytes are sound, and how many of its places are in use.
#![tactic(auto)]

ghost use Rattle.std.specs.Prelude.{◌≡◌, ◌<◌, ◌≤◌, length, take};
ghost use Rattle.watch_list.specs.Layout.{list_size, sound};
ghost use Rattle.watch_sound.specs.Lengths.{longest_key, above_at, too_long};

// The longest key that place k may have if n places are in use: 64 bytes in one of these, none in another. Tested by a sum: of `k < n` the
// compiler makes tests of wider numbers than bytes, which takes twice the instructions.
fn longest_key(k: u8, n: u8) -> u8
    requires fact_1 { k < 64 }
    requires fact_2 { n ≤ 64 }
    ensures { result ≡ longest_key k n }
{
    if k + (128 - n) < 128 { 64 } else { 0 }
}

// Whether a byte is above a bound: 1 or 0.
#[tactic(auto, unfolding(crate::specs::Lengths::above_at))]
fn above(byte: u8, bound: u8) -> u8
    ensures { (result ≡ above_at bound byte) × (result ≤ 1) }
{
    (bound < byte) as u8
}

// How many of 64 keys are too long if n places are in use. Without a branch, so that the compiler takes many at once.
fn too_long(lengths: &[u8], n: u8) -> u8
    requires fact_1 { length lengths.now ≡ 64 }
    requires fact_2 { n ≤ 64 }
    ensures { (result ≡ too_long n lengths.now) × (result ≤ 64) }
{
    let mut count = 0u8;
    for (k, &length) in lengths.iter().enumerate() {
        count += above(length, longest_key(k as u8, n));
    }
    count
}

// Whether a list is sound, and how many of its places have a key; in a sound list these come first. Both are promised of every list, which
// an `Option` of the places would not say.
#[derive(Clone, Copy)]
pub struct Usage {
    pub sound: bool,
    pub places: usize,
}

// Reads a list's key lengths and mark. A place with a key is one whose key is too long for a free place.
pub fn usage_of(list: &[u8]) -> Usage
    requires { length list.now ≡ list_size }
    ensures sound_value { result.sound ≡ sound list.now }
    ensures places_value { result.places ≡ too_long 0 (take 64 list.now) }
{
    let n = too_long(&list[0..64], 0);
    let over = too_long(&list[0..64], n) + above(list[64], 1);
    Usage {
        sound: over == 0,
        places: n as usize,
    }
}

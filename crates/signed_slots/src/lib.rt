// Sums of the slots of two signed groups, taken as unmerged, all eight at once: a word of 64 bits has a slot in each of its bytes,
// no sum of two magnitudes passes its byte, and signs, which are as good as random, are bits and no branches.
#![tactic(auto)]

ghost use Rattle.std.specs.Prelude.{◌≡◌, ◌<◌, ◌^◌};
ghost use Rattle.signed_slots.specs.Slots.{ones, lows};
ghost use Rattle.signed_slots.specs.Slots as spec;

// The highest bit of each byte, as the lowest.
fn signs(word: u64) -> u64
    ensures { result ≡ spec.signs ones word }
{
    (word >> 7) & 72340172838076673
}

// The seven bits below.
fn magnitudes(word: u64) -> u64
    ensures { result ≡ spec.magnitudes lows word }
{
    word & 9187201950435737471
}

// Bytes of seven bits, each taken from 128 where a byte of flags is 1.
fn folded(flags: u64, word: u64) -> u64
    requires fact_1 { spec.folded flags word < 2 ^ 64 }
    requires fact_2 { spec.spread flags < 2 ^ 64 }
    ensures { result ≡ spec.folded flags word }
{
    (word ^ (flags * 127)) + flags
}

// Where two signs differ.
fn apart(word: u64, source: u64) -> u64
    ensures { result ≡ spec.apart ones word source }
{
    signs(word) ^ signs(source)
}

// The sum of two magnitudes of one sign; of two signs the first less the second, 128 higher.
fn total(word: u64, source: u64) -> u64
    ensures { result ≡ spec.total ones lows word source }
{
    magnitudes(word) + folded(apart(word, source), magnitudes(source))
}

// Where the second magnitude is the larger of two signs: the difference is below 128.
fn past(word: u64, source: u64) -> u64
    ensures { result ≡ spec.past ones lows word source }
{
    apart(word, source) & (signs(total(word, source)) ^ 72340172838076673)
}

// The magnitudes of the sums.
fn size(word: u64, source: u64) -> u64
    ensures { result ≡ spec.size ones lows word source }
{
    folded(past(word, source), magnitudes(total(word, source)))
}

// Their signs: the first's, or the other where the second magnitude is the larger; plus where the sum is 0.
fn minus(word: u64, source: u64) -> u64
    ensures { result ≡ spec.minus ones lows word source }
{
    (signs(word) ^ past(word, source)) & signs(size(word, source) + 9187201950435737471)
}

// The sums, a slot in each byte.
pub fn sums(word: u64, source: u64) -> u64
    ensures { result ≡ spec.sums ones lows word source }
{
    size(word, source) | (minus(word, source) * 128)
}

// Where two magnitudes of one sign sum up to more than 127.
pub fn over(word: u64, source: u64) -> u64
    ensures { result ≡ spec.over ones lows word source }
{
    signs(total(word, source)) & (apart(word, source) ^ 72340172838076673)
}

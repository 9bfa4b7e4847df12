// A signed meter's calls for C and Rust. Each function passes its arguments to the proved call and hands its answer out; include/meter.h
// declares it.
#![tactic(auto)]

ghost use Rattle.std.specs.Prelude.{◌≡◌};
ghost use Rattle.signed.specs.Signed.{cleared, updated, estimated, united, subtracted};

use answer::{Answer, give};
use signed::SignedAnswer;

#[unsafe(no_mangle)]
pub extern "C" fn meter_signed_clear(
    d: usize,
    w: usize,
    memory: &mut [u8],
    place: &mut u64,
    figure: &mut u64,
) -> u32
    ensures value { result ≡ (cleared d w memory.old).answer.status }
    ensures place_after { place.new ≡ (cleared d w memory.old).answer.position }
    ensures figure_after { figure.new ≡ (cleared d w memory.old).answer.value }
    ensures memory_after { memory.new ≡ (cleared d w memory.old).memory }
{
    give(Answer::from(signed::clear(d, w, memory)), place, figure)
}

#[unsafe(no_mangle)]
pub extern "C" fn meter_signed_update(
    d: usize,
    w: usize,
    memory: &mut [u8],
    key: &[u8],
    amount: i32,
    place: &mut u64,
    figure: &mut u64,
) -> u32
    ensures value { result ≡ (updated d w memory.old key.now amount).answer.status }
    ensures place_after { place.new ≡ (updated d w memory.old key.now amount).answer.position }
    ensures figure_after { figure.new ≡ (updated d w memory.old key.now amount).answer.value }
    ensures memory_after { memory.new ≡ (updated d w memory.old key.now amount).memory }
{
    give(
        Answer::from(signed::update(d, w, memory, key, amount)),
        place,
        figure,
    )
}

// An answer whose figure is an integer, as a host takes it.
fn give_signed(a: SignedAnswer, place: &mut u64, figure: &mut i64) -> u32
    ensures value { result ≡ a.status }
    ensures place_after { place.new ≡ a.position }
    ensures figure_after { figure.new ≡ a.value }
{
    let value = a.value;
    *place = a.position;
    *figure = value;
    a.status as u32
}

#[unsafe(no_mangle)]
pub extern "C" fn meter_signed_estimate(
    d: usize,
    w: usize,
    memory: &[u8],
    key: &[u8],
    place: &mut u64,
    figure: &mut i64,
) -> u32
    ensures value { result ≡ (estimated d w memory.now key.now).status }
    ensures place_after { place.new ≡ (estimated d w memory.now key.now).position }
    ensures figure_after { figure.new ≡ (estimated d w memory.now key.now).value }
{
    give_signed(
        SignedAnswer::from(signed::estimate(d, w, memory, key)),
        place,
        figure,
    )
}

#[unsafe(no_mangle)]
pub extern "C" fn meter_signed_unite(
    d: usize,
    w: usize,
    memory: &mut [u8],
    source: &[u8],
    place: &mut u64,
    figure: &mut u64,
) -> u32
    ensures value { result ≡ (united d w memory.old source.now).answer.status }
    ensures place_after { place.new ≡ (united d w memory.old source.now).answer.position }
    ensures figure_after { figure.new ≡ (united d w memory.old source.now).answer.value }
    ensures memory_after { memory.new ≡ (united d w memory.old source.now).memory }
{
    give(
        Answer::from(signed::unite(d, w, memory, source)),
        place,
        figure,
    )
}

#[unsafe(no_mangle)]
pub extern "C" fn meter_signed_subtract(
    d: usize,
    w: usize,
    memory: &mut [u8],
    source: &[u8],
    place: &mut u64,
    figure: &mut u64,
) -> u32
    ensures value { result ≡ (subtracted d w memory.old source.now).answer.status }
    ensures place_after { place.new ≡ (subtracted d w memory.old source.now).answer.position }
    ensures figure_after { figure.new ≡ (subtracted d w memory.old source.now).answer.value }
    ensures memory_after { memory.new ≡ (subtracted d w memory.old source.now).memory }
{
    give(
        Answer::from(signed::subtract(d, w, memory, source)),
        place,
        figure,
    )
}

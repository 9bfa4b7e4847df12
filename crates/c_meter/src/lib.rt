// A meter's calls for C and Rust. Each function passes its arguments to the proved call and hands its answer out; include/meter.h declares it.
#![tactic(auto)]

ghost use Rattle.std.specs.Prelude.{◌≡◌};
ghost use Rattle.meter.specs.Meter.{cleared, updated, estimated, widest, united};

use answer::{Answer, give};

#[unsafe(no_mangle)]
pub extern "C" fn meter_clear(
    d: usize,
    w: usize,
    memory: &mut [u8],
    place: &mut u64,
    figure: &mut u64,
) -> u32
    ensures value { result ≡ (cleared d w memory.old).answer.status }
    ensures place_after { place.new ≡ (cleared d w memory.old).answer.position }
    ensures figure_after { figure.new ≡ (cleared d w memory.old).answer.value }
    ensures memory_after { memory.new ≡ (cleared d w memory.old).memory }
{
    give(Answer::from(meter::clear(d, w, memory)), place, figure)
}

#[unsafe(no_mangle)]
pub extern "C" fn meter_update(
    d: usize,
    w: usize,
    memory: &mut [u8],
    key: &[u8],
    amount: u32,
    place: &mut u64,
    figure: &mut u64,
) -> u32
    ensures value { result ≡ (updated d w memory.old key.now amount).answer.status }
    ensures place_after { place.new ≡ (updated d w memory.old key.now amount).answer.position }
    ensures figure_after { figure.new ≡ (updated d w memory.old key.now amount).answer.value }
    ensures memory_after { memory.new ≡ (updated d w memory.old key.now amount).memory }
{
    give(
        Answer::from(meter::update(d, w, memory, key, amount)),
        place,
        figure,
    )
}

#[unsafe(no_mangle)]
pub extern "C" fn meter_estimate(
    d: usize,
    w: usize,
    memory: &[u8],
    key: &[u8],
    place: &mut u64,
    figure: &mut u64,
) -> u32
    ensures value { result ≡ (estimated d w memory.now key.now).status }
    ensures place_after { place.new ≡ (estimated d w memory.now key.now).position }
    ensures figure_after { figure.new ≡ (estimated d w memory.now key.now).value }
{
    give(
        Answer::from(meter::estimate(d, w, memory, key)),
        place,
        figure,
    )
}

#[unsafe(no_mangle)]
pub extern "C" fn meter_widest(
    d: usize,
    w: usize,
    memory: &[u8],
    place: &mut u64,
    figure: &mut u64,
) -> u32
    ensures value { result ≡ (widest d w memory.now).status }
    ensures place_after { place.new ≡ (widest d w memory.now).position }
    ensures figure_after { figure.new ≡ (widest d w memory.now).value }
{
    give(Answer::from(meter::widest(d, w, memory)), place, figure)
}

#[unsafe(no_mangle)]
pub extern "C" fn meter_unite(
    d: usize,
    w: usize,
    memory: &mut [u8],
    source: &[u8],
    place: &mut u64,
    figure: &mut u64,
) -> u32
    ensures value { result ≡ (united d w memory.old source.now).answer.status }
    ensures place_after { place.new ≡ (united d w memory.old source.now).answer.position }
    ensures figure_after { figure.new ≡ (united d w memory.old source.now).answer.value }
    ensures memory_after { memory.new ≡ (united d w memory.old source.now).memory }
{
    give(
        Answer::from(meter::unite(d, w, memory, source)),
        place,
        figure,
    )
}

// Watch lists for C and Rust. Each function passes its arguments to the proved call and hands its answer out; include/meter.h declares it.
#![tactic(auto)]

ghost use Rattle.std.specs.Prelude.{◌≡◌};
ghost use Rattle.watch.specs.Watch.{list_cleared, watched, removed};

use answer::{Answer, give};

#[unsafe(no_mangle)]
pub extern "C" fn meter_watch_clear(list: &mut [u8], place: &mut u64, figure: &mut u64) -> u32
    ensures value { result ≡ (list_cleared list.old).answer.status }
    ensures place_after { place.new ≡ (list_cleared list.old).answer.position }
    ensures figure_after { figure.new ≡ (list_cleared list.old).answer.value }
    ensures list_after { list.new ≡ (list_cleared list.old).memory }
{
    give(Answer::from(watch::clear(list)), place, figure)
}

#[unsafe(no_mangle)]
pub extern "C" fn meter_watch_update(
    d: usize,
    w: usize,
    memory: &mut [u8],
    list: &mut [u8],
    key: &[u8],
    amount: u32,
    threshold: u64,
    place: &mut u64,
    figure: &mut u64,
) -> u32
    ensures value { result ≡ (watched d w memory.old list.old key.now amount threshold).answer.status }
    ensures place_after { place.new ≡ (watched d w memory.old list.old key.now amount threshold).answer.position }
    ensures figure_after { figure.new ≡ (watched d w memory.old list.old key.now amount threshold).answer.value }
    ensures memory_after { memory.new ≡ (watched d w memory.old list.old key.now amount threshold).memory }
    ensures list_after { list.new ≡ (watched d w memory.old list.old key.now amount threshold).list }
{
    give(
        Answer::from(watch::update(d, w, memory, list, key, amount, threshold)),
        place,
        figure,
    )
}

#[unsafe(no_mangle)]
pub extern "C" fn meter_watch_remove(
    list: &mut [u8],
    key: &[u8],
    place: &mut u64,
    figure: &mut u64,
) -> u32
    ensures value { result ≡ (removed list.old key.now).answer.status }
    ensures place_after { place.new ≡ (removed list.old key.now).answer.position }
    ensures figure_after { figure.new ≡ (removed list.old key.now).answer.value }
    ensures list_after { list.new ≡ (removed list.old key.now).memory }
{
    give(Answer::from(watch::remove(list, key)), place, figure)
}

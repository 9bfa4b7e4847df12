// Images for C and Rust. Each function passes its arguments to the proved call and hands its answer out; include/meter.h declares it.
#![tactic(auto)]

ghost use Rattle.std.specs.Prelude.{◌≡◌};
ghost use Rattle.image_format.specs.Write.{written};
ghost use Rattle.image_format.specs.Read.{taken};

#[unsafe(no_mangle)]
pub extern "C" fn meter_image_write(
    d: usize,
    w: usize,
    memory: &[u8],
    words: &mut [u32],
    place: &mut u64,
    figure: &mut u64,
) -> u32
    ensures value { result ≡ (written d w memory.now words.old).answer.status }
    ensures place_after { place.new ≡ (written d w memory.now words.old).answer.position }
    ensures figure_after { figure.new ≡ (written d w memory.now words.old).answer.value }
    ensures words_after { words.new ≡ (written d w memory.now words.old).words }
{
    answer::give(image::write(d, w, memory, words), place, figure)
}

#[unsafe(no_mangle)]
pub extern "C" fn meter_image_read(
    d: usize,
    w: usize,
    memory: &mut [u8],
    words: &[u32],
    place: &mut u64,
    figure: &mut u64,
) -> u32
    ensures value { result ≡ (taken d w memory.old words.now).answer.status }
    ensures place_after { place.new ≡ (taken d w memory.old words.now).answer.position }
    ensures figure_after { figure.new ≡ (taken d w memory.old words.now).answer.value }
    ensures memory_after { memory.new ≡ (taken d w memory.old words.now).memory }
{
    answer::give(image::read(d, w, memory, words), place, figure)
}

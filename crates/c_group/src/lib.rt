// Layout codes for C and Rust. Each function passes its arguments to the proved call and hands its answer out; include/meter.h declares it.
#![tactic(auto)]

ghost use Rattle.std.specs.Prelude.{◌≡◌};
ghost use Rattle.group_codes.specs.Pack.{packed, unpacked};

use answer::Answer;

#[unsafe(no_mangle)]
pub extern "C" fn meter_pack(
    m0: u8,
    m1: u8,
    m2: u8,
    m3: u8,
    place: &mut u64,
    figure: &mut u64,
) -> u32
    ensures value { result ≡ (packed m0 m1 m2 m3).status }
    ensures place_after { place.new ≡ (packed m0 m1 m2 m3).position }
    ensures figure_after { figure.new ≡ (packed m0 m1 m2 m3).value }
{
    answer::give(
        Answer::from(group_codes::pack(m0, m1, m2, m3)),
        place,
        figure,
    )
}

#[unsafe(no_mangle)]
pub extern "C" fn meter_unpack(
    code: u32,
    merges: &mut [u8; 4],
    place: &mut u64,
    figure: &mut u64,
) -> u32
    ensures value { result ≡ (unpacked code).answer.status }
    ensures place_after { place.new ≡ (unpacked code).answer.position }
    ensures figure_after { figure.new ≡ (unpacked code).answer.value }
    ensures merges_after { merges.new ≡ (unpacked code).merges }
{
    match group_codes::unpack(code) {
        Ok(unpacked) => {
            *merges = unpacked;
            answer::give(answer::accepted(0), place, figure)
        }
        Err(why) => {
            *merges = [0; 4];
            answer::give(answer::refused(why.number()), place, figure)
        }
    }
}

// Feeds for C and Rust. Each function passes its arguments to the proved call and hands its answer out; include/meter.h declares it.
#![tactic(auto)]

ghost use Rattle.std.specs.Prelude.{◌≡◌};
ghost use Rattle.feed.specs.Answers.{record_answer};
ghost use Rattle.feed.specs.Head.{headed};
ghost use Rattle.feed.specs.Record.{recorded};
ghost use Rattle.feed_lengths.specs.Lengths.{words_taken};

#[unsafe(no_mangle)]
pub extern "C" fn meter_feed_head(words: &[u32], place: &mut u64, figure: &mut u64) -> u32
    ensures value { result ≡ (headed words.now).status }
    ensures place_after { place.new ≡ (headed words.now).position }
    ensures figure_after { figure.new ≡ (headed words.now).value }
{
    answer::give(feed::head(words), place, figure)
}

#[unsafe(no_mangle)]
pub extern "C" fn meter_feed_record(
    d: usize,
    w: usize,
    memory: &mut [u8],
    before: u64,
    words: &[u32],
    place: &mut u64,
    figure: &mut u64,
) -> u32
    ensures value { result ≡ (record_answer (recorded d w memory.old before words.now).outcome).status }
    ensures place_after { place.new ≡ (record_answer (recorded d w memory.old before words.now).outcome).position }
    ensures figure_after { figure.new ≡ (record_answer (recorded d w memory.old before words.now).outcome).value }
    ensures memory_after { memory.new ≡ (recorded d w memory.old before words.now).memory }
{
    answer::give(
        feed::answer(feed::record(d, w, memory, before, words)),
        place,
        figure,
    )
}

// How many words the record or the end at the front takes, so that a host finds the next one.
#[unsafe(no_mangle)]
pub extern "C" fn meter_feed_taken(words: &[u32]) -> usize
    ensures { result ≡ words_taken words.now }
{
    feed::words_taken(words)
}

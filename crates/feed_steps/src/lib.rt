// One step of a run: bytes are received, a record is carried out, and its line is put behind those to be written.
#![tactic(auto)]

ghost use Rattle.std.specs.Prelude.{◌≡◌, true, false, ◌+◌, ◌*◌, ◌^◌, ◌≤◌, ◌<◌, length, take};
ghost use Rattle.geometry.specs.Checks.{bad_shape};
ghost use Rattle.feed.specs.Record.{recorded};
ghost use Rattle.word_bytes.specs.Words.{whole_words};
ghost use Rattle.feed_lines.specs.Step.{progress, bytes_needed};
ghost use Rattle.feed_io.specs.Buffers.{Within, unused, Held};
ghost use Rattle.feed_steps.specs.Run.{Stepped};

use feed_io::Output;
use feed_lines::Progress;
use feed_state::{State, receive};
use std::io::{Stdin, Stdout};

// The words of the longest record.
const WORDS: usize = 25;

// One record or the end, from the bytes at hand.
fn next(memory: &mut [u8], d: usize, w: usize, bytes: &[u8], before: u64, records: u64) -> Progress
    requires fact_1 { bad_shape d w (length memory.old) ≡ 0 }
    requires fact_2 { before < 2 ^ 63 }
    requires fact_3 { records < 2 ^ 63 }
    ensures value { result ≡ progress d w memory.old before records (take 25 (whole_words bytes.now)) }
    ensures memory_after { memory.new ≡ (recorded d w memory.old before (take 25 (whole_words bytes.now))).memory }
    ensures taken_bound { (result.taken ≤ 25) × (4 * result.taken ≤ length bytes.now) }
{
    let mut words = [0u32; WORDS];
    let n = word_bytes::assemble(bytes, &mut words);
    feed_lines::step(d, w, memory, before, records, &words[..n])
}

// The bytes of the longest record, and the most of a line.
const LONGEST: usize = 100;

const LINE: usize = 64;

// The bytes that must be at hand for the record that bytes begin with.
fn needed(bytes: &[u8]) -> usize
    ensures value { result ≡ bytes_needed bytes.now }
    ensures upper_bound { result ≤ 100 }
{
    let mut words = [0u32; 1];
    let n = word_bytes::assemble(bytes, &mut words);
    4 * feed::words_needed(&words[..n])
}

// One record or the end whose bytes are at hand: carry it out, and put its line behind those at hand.
fn carry_out(
    memory: &mut [u8],
    d: usize,
    w: usize,
    input: &[u8],
    output: &mut [u8],
    s: State,
) -> State
    requires memory_value_1 { bad_shape d w (length memory.old) ≡ 0 }
    requires memory_value_2 { s.runs ≡ true }
    requires memory_value_3 { s.output.failed ≡ false }
    requires within_1 { Within s.input input.now }
    requires within_2 { Held (bytes_needed (unused s.input input.now)) s.input input.now }
    requires at_in_bounds { s.output.at + 64 ≤ length output.old }
    requires words_bound_1 { s.words < 2 ^ 63 }
    requires words_bound_2 { s.records < 2 ^ 63 }
    ensures within_2_1 { Within result.input input.now }
    ensures within_2_2 { result.output.at ≤ length output.new }
    ensures within_2_3 { result.output.failed ≡ false }
    ensures words_bound_2 { (result.words ≤ s.words + 25) × (result.records ≡ s.records + 1) × (result.runs ≡ true → s.words + 1 ≤ result.words) }
    ensures stepped { Stepped d w memory.old s input.now output.old
        memory.new result input.now output.new }
{
    let i = s.input;
    let p = next(memory, d, w, &input[i.start..i.end], s.words, s.records);
    let line = p.line;
    let at = feed_io::append(output, s.output.at, feed_text::text_of(line));
    State {
        input: feed_io::after(i, 4 * p.taken),
        output: Output { at, failed: false },
        words: p.words,
        records: p.records,
        runs: feed_line::continues(line),
        ended: feed_line::is_end(line),
    }
}

// One record or the end: its first word tells how many bytes have to be at hand.
fn receive_one(
    from: Stdin,
    to: Stdout,
    memory: &mut [u8],
    d: usize,
    w: usize,
    input: &mut [u8],
    output: &mut [u8],
    s: State,
) -> State
    requires memory_value_1 { bad_shape d w (length memory.old) ≡ 0 }
    requires memory_value_2 { s.runs ≡ true }
    requires memory_value_3 { s.output.failed ≡ false }
    requires within_1 { Within s.input input.old }
    requires within_2 { 100 ≤ length input.old }
    requires at_in_bounds_1 { s.output.at ≤ length output.old }
    requires at_in_bounds_2 { 64 ≤ length output.old }
    requires words_bound_1 { s.words < 2 ^ 63 }
    requires words_bound_2 { s.records < 2 ^ 63 }
    ensures within_2_1 { Within result.input input.new }
    ensures within_2_2 { result.output.at ≤ length output.new }
    ensures words_bound_2 { (result.words ≤ s.words + 25) × (result.records ≤ s.records + 1) × (result.runs ≡ true → s.words + 1 ≤ result.words) }
    ensures stepped { Stepped d w memory.old s input.old output.old
        memory.new result input.new output.new }
{
    let a = receive(from, to, input, output, s, 4);
    if a.output.failed {
        return a;
    }
    let n = needed(&input[a.input.start..a.input.end]);
    let b = receive(from, to, input, output, a, n);
    if b.output.failed {
        return b;
    }
    carry_out(memory, d, w, input, output, b)
}

// One record or the end. Where the bytes of the longest record are at hand, so are its own, and nothing has to be read for it.
pub fn step(
    from: Stdin,
    to: Stdout,
    memory: &mut [u8],
    d: usize,
    w: usize,
    input: &mut [u8],
    output: &mut [u8],
    s: State,
) -> State
    requires memory_value_1 { bad_shape d w (length memory.old) ≡ 0 }
    requires memory_value_2 { s.runs ≡ true }
    requires memory_value_3 { s.output.failed ≡ false }
    requires within_1 { Within s.input input.old }
    requires within_2 { 100 ≤ length input.old }
    requires at_in_bounds_1 { s.output.at ≤ length output.old }
    requires at_in_bounds_2 { 64 ≤ length output.old }
    requires words_bound_1 { s.words < 2 ^ 63 }
    requires words_bound_2 { s.records < 2 ^ 63 }
    ensures within_2_1 { Within result.input input.new }
    ensures within_2_2 { result.output.at ≤ length output.new }
    ensures words_bound_2 { (result.words ≤ s.words + 25) × (result.records ≤ s.records + 1) × (result.runs ≡ true → s.words + 1 ≤ result.words) }
    ensures stepped { Stepped d w memory.old s input.old output.old
        memory.new result input.new output.new }
{
    let i = s.input;
    if LONGEST <= i.end - i.start && LINE <= output.len() - s.output.at {
        return carry_out(memory, d, w, input, output, s);
    }
    receive_one(from, to, memory, d, w, input, output, s)
}

// Runs a feed from standard input into a cleared meter, and prints a line for its head, each record and its end.
#![tactic(auto)]

ghost use Rattle.std.specs.Prelude.{◌≡◌, true, false, ◌+◌, ◌^◌, ◌≤◌, ◌<◌, length, take};
ghost use Rattle.geometry.specs.Checks.{bad_shape};
ghost use Rattle.feed.specs.Head.{headed};
ghost use Rattle.word_bytes.specs.Words.{whole_words};
ghost use Rattle.feed_lines.specs.Line.{head_line};
ghost use Rattle.feed_lines.specs.Feed.{feed_text};
ghost use Rattle.feed_lines.specs.Bounds.{FittingLine};
ghost use Rattle.feed_io.specs.Buffers.{Within, unused};
ghost use Rattle.feed_steps.specs.Run.{Ran, seen};
ghost use Rattle.run_feed.specs.Printed.{Printed, due_after_end, due_after_head};

use feed_io::{Input, Output};
use feed_line::Line;
use feed_state::State;
use std::io::{Stdin, Stdout};

// The most bytes that the program lends to a meter: 8 rows of 4,096 slots.
const MEMORY: usize = 36864;

// The bytes of the program's buffers, for its input and for its output.
const BUFFER: usize = 65536;

// Every loop ends: this many records are more than any run has time for.
const TURNS: u64 = 288230376151711744;

// Records until one stops the feed or it ends.
fn run_records(
    from: Stdin,
    to: Stdout,
    memory: &mut [u8],
    d: usize,
    w: usize,
    input: &mut [u8],
    output: &mut [u8],
    first: State,
) -> State
    requires memory_value_1 { bad_shape d w (length memory.old) ≡ 0 }
    requires memory_value_2 { first.words ≡ 1 }
    requires memory_value_3 { first.records ≡ 0 }
    requires memory_value_4 { first.output.failed ≡ false }
    requires within_1 { Within first.input input.old }
    requires within_2 { 100 ≤ length input.old }
    requires at_in_bounds_1 { first.output.at ≤ length output.old }
    requires at_in_bounds_2 { 64 ≤ length output.old }
    ensures within_2_1 { Within result.input input.new }
    ensures within_2_2 { result.output.at ≤ length output.new }
    ensures bound { result.runs ≡ true → 2 ^ 58 < result.words }
    ensures ran { Ran d w memory.old first input.old output.old
        memory.new result input.new output.new }
{
    let mut s = first;
    for _ in 0..TURNS {
        if !s.runs {
            return s;
        }
        s = feed_steps::step(from, to, memory, d, w, input, output, s);
    }
    s
}

// Any byte after the end record stops the feed.
fn after_end(from: Stdin, to: Stdout, input: &mut [u8], output: &mut [u8], s: State) -> Output
    requires within_1 { Within s.input input.old }
    requires within_2 { 100 ≤ length input.old }
    requires at_in_bounds_1 { s.output.at ≤ length output.old }
    requires at_in_bounds_2 { 64 ≤ length output.old }
    ensures at_in_bounds_2 { result.at ≤ length output.new }
    ensures printed { Printed (seen s input.old) s.input.more (due_after_end s input.old output.old)
        result output.new }
{
    let a = feed_state::receive(from, to, input, output, s, 1);
    let o = a.output;
    if o.failed {
        return o;
    }
    if a.input.start == a.input.end {
        return o;
    }
    let line = Line::Stopped {
        status: answer::BAD_WORD,
        index: s.words,
    };
    let at = feed_io::append(output, o.at, feed_text::text_of(line));
    Output { at, failed: false }
}

// The head's line, from the bytes at hand.
fn head(bytes: &[u8]) -> Line
    ensures value { result ≡ head_line (headed (take 1 (whole_words bytes.now))) }
    ensures fitting_line { FittingLine result }
{
    let mut words = [0u32; 1];
    let n = word_bytes::assemble(bytes, &mut words);
    feed_lines::head(&words[..n])
}

// The records after an accepted head, on a cleared meter.
fn run_meter(
    from: Stdin,
    to: Stdout,
    memory: &mut [u8],
    d: usize,
    w: usize,
    input: &mut [u8],
    output: &mut [u8],
    i: Input,
    out: usize,
) -> Output
    requires memory_value_1 { bad_shape d w (length memory.old) ≡ 0 }
    requires memory_value_2 { i.start + 4 ≤ i.end }
    requires within_1 { Within i input.old }
    requires within_2 { 100 ≤ length input.old }
    requires out_in_bounds_1 { out ≤ length output.old }
    requires out_in_bounds_2 { 64 ≤ length output.old }
    ensures at_in_bounds { result.at ≤ length output.new }
    ensures printed { Printed (length (unused i input.old)) i.more (due_after_head d w i input.old out output.old)
        result output.new }
{
    feed_lines::start(d, w, memory);
    let first = State {
        input: feed_io::after(i, 4),
        output: Output {
            at: out,
            failed: false,
        },
        words: 1,
        records: 0,
        runs: true,
        ended: false,
    };
    let last = run_records(from, to, memory, d, w, input, output, first);
    if !last.ended {
        return last.output;
    }
    after_end(from, to, input, output, last)
}

// The whole feed. Gives the bytes of output at hand.
fn run(from: Stdin, to: Stdout, memory: &mut [u8], input: &mut [u8], output: &mut [u8]) -> Output
    requires fact_1 { 36864 ≤ length memory.old }
    requires fact_2 { 100 ≤ length input.old }
    requires fact_3 { 64 ≤ length output.old }
    ensures at_in_bounds { result.at ≤ length output.new }
    ensures printed { Printed 0 true feed_text result output.new }
{
    let unread = Input {
        start: 0,
        end: 0,
        more: true,
    };
    let i = feed_io::refill(from, input, unread, 4);
    let line = head(&input[i.start..i.end]);
    let out = feed_io::append(output, 0, feed_text::text_of(line));
    let Line::Geometry { d, w } = line else {
        return Output {
            at: out,
            failed: false,
        };
    };
    let n = feed_lines::size(d, w);
    run_meter(from, to, &mut memory[..n], d, w, input, output, i, out)
}

fn main(rt: HostRuntime) {
    let from = rt.stdin();
    let to = rt.stdout();
    let mut memory = [0u8; MEMORY];
    let mut input = [0u8; BUFFER];
    let mut output = [0u8; BUFFER];
    let r = run(from, to, &mut memory, &mut input, &mut output);
    feed_io::flush(to, &output, r.at);
}

// Where a run is, and the bytes that it receives.
#![tactic(auto)]

ghost use Rattle.std.specs.Prelude.{◌≤◌, length};
ghost use Rattle.feed_io.specs.Buffers.{Within};
ghost use Rattle.feed_state.specs.State.{Received};

use feed_io::{Input, Output};
use std::io::{Stdin, Stdout};

// Where the run is: the input and output at hand, the words and records before this point, and whether a record follows or the end was
// read.
#[derive(Clone, Copy)]
pub struct State {
    pub input: Input,
    pub output: Output,
    pub words: u64,
    pub records: u64,
    pub runs: bool,
    pub ended: bool,
}

// Reads on until n bytes are at hand or the input has ended. The lines at hand are written before a read, which may wait.
pub fn receive(
    from: Stdin,
    to: Stdout,
    input: &mut [u8],
    output: &[u8],
    s: State,
    n: usize,
) -> State
    requires within_1 { Within s.input input.old }
    requires within_2 { n ≤ 100 }
    requires within_3 { 100 ≤ length input.old }
    requires at_in_bounds_1 { s.output.at ≤ length output.now }
    requires at_in_bounds_2 { 64 ≤ length output.now }
    ensures { Received n s input.old output.now result input.new }
{
    let reads = feed_io::is_short(s.input, n);
    let o = feed_io::make_room(to, output, s.output.at, reads);
    if o.failed {
        return State {
            output: o,
            runs: false,
            ended: false,
            ..s
        };
    }
    State {
        input: feed_io::refill(from, input, s.input, n),
        output: o,
        ..s
    }
}

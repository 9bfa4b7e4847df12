// Standard input, read in pieces. No byte is lost or read twice, however few a read brings.
ghost use Rattle.std.specs.Prelude.{◌≡◌, ◌⊎◌, false, ◌+◌, ◌-◌, ◌≤◌, ◌<◌, length, take, IfSome};
ghost use Rattle.feed_io.specs.Buffers.{Within, advanced, Filled, Refilled, Held};

use std::io::{Read, Stdin};

// The bytes of the buffer that are read and not yet used, and whether more may come.
#[derive(Clone, Copy)]
pub struct Input {
    pub start: usize,
    pub end: usize,
    pub more: bool,
}

// One read to the place behind the bytes at hand: how many came. None at the end of the input, and where the read failed.
fn read_more(mut from: Stdin, buffer: &mut [u8], at: usize) -> Option<usize>
    requires { at ≤ length buffer.old }
    ensures some_read { IfSome result (λ got. (0 < got) × (at + got ≤ length buffer.new)) }
    ensures buffer_unchanged { take at buffer.new ≡ take at buffer.old }
{
    match from.read(&mut buffer[at..]) {
        Ok(0) | Err(_) => None,
        Ok(got) => Some(got),
    }
}

// Whether a read is due for n bytes to be at hand.
pub fn is_short(i: Input, n: usize) -> bool
    requires { i.start ≤ i.end }
    ensures { result ≡ false → (n ≤ i.end - i.start) ⊎ (i.more ≡ false) }
{
    i.end - i.start < n && i.more
}

// Reads on until n bytes are at hand or the input has ended.
pub fn refill(from: Stdin, buffer: &mut [u8], i: Input, n: usize) -> Input
    requires fact_1 { Within i buffer.old }
    requires fact_2 { n ≤ 100 }
    requires fact_3 { 100 ≤ length buffer.old }
    ensures refilled { Refilled n i buffer.old result buffer.new }
    ensures held { Held n result buffer.new }
{
    let left = i.end - i.start;
    if n <= left {
        return i;
    }
    if !i.more {
        return i;
    }
    buffer.copy_within(i.start..i.end, 0);
    fill(from, buffer, left, n)
}

// The bytes at the front and, behind them, as many as come before there are n.
fn fill(from: Stdin, buffer: &mut [u8], front: usize, n: usize) -> Input
    requires fact_1 { front ≤ length buffer.old }
    requires fact_2 { n ≤ 100 }
    requires fact_3 { 100 ≤ length buffer.old }
    ensures { Filled n front buffer.old result buffer.new }
{
    let mut end = front;
    // A read may bring fewer bytes than are wanted, so their number is no count of turns.
    while end < n {
        let Some(got) = read_more(from, buffer, end) else {
            return Input {
                start: 0,
                end,
                more: false,
            };
        };
        end += got;
    }
    Input {
        start: 0,
        end,
        more: true,
    }
}

// The bytes after the first n.
pub fn after(i: Input, n: usize) -> Input
    requires { i.start + n ≤ i.end }
    ensures { result ≡ advanced i n }
{
    Input {
        start: i.start + n,
        ..i
    }
}

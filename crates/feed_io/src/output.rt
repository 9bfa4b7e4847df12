// Standard output, gathered and written in blocks.
ghost use Rattle.std.specs.Prelude.{◌≡◌, ◌++◌, ◌+◌, ◌<◌, ◌≤◌, length, take, IfSome};
ghost use Rattle.feed_text.specs.Text.{content};
ghost use Rattle.feed_io.specs.Buffers.{Cleared};

use feed_text::Text;
use std::io::{Stdout, Write};

// The most bytes of a line.
const LINE: usize = 64;

// The bytes of the buffer that are to be written, and whether a write has failed. Then there are none, and nothing more is written: with
// `at` 0 the last flush has no case of its own, as it would for an enum.
#[derive(Clone, Copy)]
pub struct Output {
    pub at: usize,
    pub failed: bool,
}

// The text behind the first bytes of the buffer. Gives the number of bytes that are now to be written.
pub fn append(out: &mut [u8], at: usize, t: Text) -> usize
    requires fact_1 { at + t.length ≤ length out.old }
    requires fact_2 { t.length ≤ 64 }
    ensures value { result ≡ at + t.length }
    ensures out_after { take result out.new ≡ take at out.old ++ content t }
{
    let end = at + t.length;
    out[at..end].copy_from_slice(&t.bytes[..t.length]);
    end
}

// One write of bytes. None is a write that took none or failed.
fn write_some(mut to: Stdout, bytes: &[u8]) -> Option<usize>
    ensures { IfSome result (λ put. (0 < put) × (put ≤ length bytes.now)) }
{
    match to.write(bytes) {
        Ok(put) if put > 0 => Some(put),
        _ => None,
    }
}

// All bytes at hand are written, or a write fails. A write that a signal interrupts has failed, which `write_all` would try again.
pub fn flush(to: Stdout, out: &[u8], at: usize) -> Output
    requires { at ≤ length out.now }
    ensures { result.at ≡ 0 }
{
    let mut done = 0;
    while done < at {
        let Some(put) = write_some(to, &out[done..at]) else {
            return Output {
                at: 0,
                failed: true,
            };
        };
        done += put;
    }
    Output {
        at: 0,
        failed: false,
    }
}

// Space for a line. The lines at hand are written first if there is none, or if a read follows: who waits for them may be who sends.
pub fn make_room(to: Stdout, out: &[u8], at: usize, reads: bool) -> Output
    requires fact_1 { at ≤ length out.now }
    requires fact_2 { 64 ≤ length out.now }
    ensures { Cleared reads out.now at result }
{
    if at > 0 && (reads || out.len() - at < LINE) {
        return flush(to, out, at);
    }
    Output { at, failed: false }
}

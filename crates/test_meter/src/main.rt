// A meter's calls run by the compiled code; what they print is compared with `stdout` beside src/.
#![tactic(auto)]

ghost use Rattle.std.specs.Prelude.{◌≤◌, length};

use answer::Answer;
use hash::Hash;
use std::io;
use std::io::Stdout;

// An answer: status, position and value.
fn show(out: Stdout, a: Answer) -> io::Result<()> {
    println!(out; " {} {} {}", a.status, a.position, a.value)
}

// All bytes of a memory, by their hash.
fn digest(out: Stdout, memory: &[u8]) -> io::Result<()> {
    let state = Hash::start().run(memory).state;
    println!(out; "memory {state:08x}")
}

fn clear(out: Stdout, d: usize, w: usize, memory: &mut [u8]) -> io::Result<()> {
    print!(out; "clear")?;
    show(out, Answer::from(meter::clear(d, w, memory)))?;
    digest(out, memory)
}

fn update(
    out: Stdout,
    d: usize,
    w: usize,
    memory: &mut [u8],
    key: &[u8],
    amount: u32,
) -> io::Result<()> {
    print!(out; "update")?;
    show(out, Answer::from(meter::update(d, w, memory, key, amount)))?;
    digest(out, memory)
}

fn estimate(out: Stdout, d: usize, w: usize, memory: &[u8], key: &[u8]) -> io::Result<()> {
    print!(out; "estimate")?;
    show(out, Answer::from(meter::estimate(d, w, memory, key)))
}

fn widest(out: Stdout, d: usize, w: usize, memory: &[u8]) -> io::Result<()> {
    print!(out; "widest")?;
    show(out, Answer::from(meter::widest(d, w, memory)))
}

fn unite(out: Stdout, d: usize, w: usize, memory: &mut [u8], source: &[u8]) -> io::Result<()> {
    print!(out; "unite")?;
    show(out, Answer::from(meter::unite(d, w, memory, source)))?;
    digest(out, memory)
}

// Functions are short, since the check of one costs more than its length.
fn added(out: Stdout, m: &mut [u8], amount: u32) -> io::Result<()> {
    update(out, 1, 32, m, b"a", amount)?;
    estimate(out, 1, 32, m, b"a")?;
    widest(out, 1, 32, m)
}

fn wider(out: Stdout, m: &mut [u8]) -> io::Result<()> {
    update(out, 1, 32, m, b"b", 70000)?;
    update(out, 1, 32, m, b"c", 4294967295)?;
    update(out, 1, 32, m, b"c", 1)
}

fn asked(out: Stdout, m: &[u8]) -> io::Result<()> {
    estimate(out, 1, 32, m, b"a")?;
    estimate(out, 1, 32, m, b"b")?;
    estimate(out, 1, 32, m, b"c")?;
    estimate(out, 1, 32, m, b"never")?;
    widest(out, 1, 32, m)
}

// Widening in a meter of one row.
fn one_row(out: Stdout) -> io::Result<()> {
    let mut m = [255u8; 36];
    clear(out, 1, 32, &mut m)?;
    added(out, &mut m, 255)?;
    added(out, &mut m, 1)?;
    wider(out, &mut m)?;
    asked(out, &m)
}

fn two_meters(out: Stdout, m: &mut [u8], s: &mut [u8]) -> io::Result<()> {
    clear(out, 2, 64, m)?;
    clear(out, 2, 64, s)?;
    update(out, 2, 64, m, b"tenant-7", 1500)?;
    update(out, 2, 64, m, b"tenant-8", 200)?;
    update(out, 2, 64, s, b"tenant-8", 100)?;
    update(out, 2, 64, s, b"tenant-9", 65536)
}

fn united(out: Stdout, m: &[u8]) -> io::Result<()> {
    estimate(out, 2, 64, m, b"tenant-7")?;
    estimate(out, 2, 64, m, b"tenant-8")?;
    estimate(out, 2, 64, m, b"tenant-9")?;
    widest(out, 2, 64, m)
}

// Two meters of two rows, and their union.
fn two_rows(out: Stdout) -> io::Result<()> {
    let mut m = [1u8; 144];
    let mut s = [2u8; 144];
    two_meters(out, &mut m, &mut s)?;
    unite(out, 2, 64, &mut m, &s)?;
    digest(out, &s)?;
    united(out, &m)
}

// Eight rows.
fn eight_rows(out: Stdout) -> io::Result<()> {
    let mut m = [9u8; 288];
    clear(out, 8, 32, &mut m)?;
    update(
        out,
        8,
        32,
        &mut m,
        b"0123456789012345678901234567890123456789012345678901234567890123",
        300,
    )?;
    estimate(
        out,
        8,
        32,
        &m,
        b"0123456789012345678901234567890123456789012345678901234567890123",
    )?;
    estimate(out, 8, 32, &m, b"a")?;
    widest(out, 8, 32, &m)
}

fn refused_clearings(out: Stdout, m: &mut [u8]) -> io::Result<()> {
    clear(out, 0, 33, m)?;
    clear(out, 9, 32, m)?;
    clear(out, 1, 33, m)?;
    clear(out, 1, 16, m)?;
    clear(out, 1, 32768, m)?;
    clear(out, 1, 65536, m)?;
    clear(out, 1, 16384, m)?;
    clear(out, 1, 64, m)
}

fn refused_updates(out: Stdout, m: &mut [u8]) -> io::Result<()> {
    update(out, 2, 32, m, b"", 1)?;
    update(out, 1, 32, m, b"", 1)?;
    update(
        out,
        1,
        32,
        m,
        b"01234567890123456789012345678901234567890123456789012345678901234",
        1,
    )?;
    update(out, 1, 32, m, b"a", 1)
}

fn refused_reads(out: Stdout, m: &[u8], longer: &[u8]) -> io::Result<()> {
    estimate(out, 1, 32, m, b"a")?;
    estimate(out, 1, 32, m, b"")?;
    estimate(out, 1, 48, m, b"")?;
    widest(out, 1, 32, m)?;
    widest(out, 1, 32, longer)
}

fn refused_unions(out: Stdout, m: &mut [u8], longer: &[u8]) -> io::Result<()> {
    let s = [0u8; 36];
    unite(out, 1, 32, m, &s)?;
    unite(out, 1, 32, m, longer)?;
    clear(out, 1, 32, m)?;
    let bad = [7u8; 36];
    unite(out, 1, 32, m, &bad)
}

// Each number once at least, and the order in which they are tested.
fn refused(out: Stdout) -> io::Result<()> {
    let mut m = [7u8; 36];
    let longer = [0u8; 37];
    refused_clearings(out, &mut m)?;
    refused_updates(out, &mut m)?;
    refused_reads(out, &m, &longer)?;
    refused_unions(out, &mut m, &longer)
}

// The same byte in places from..to.
fn put(m: &mut [u8], from: usize, to: usize, byte: u8)
    requires from_le_to { from ≤ to }
    requires in_bounds { to ≤ length m.old }
{
    m[from..to].fill(byte);
}

fn full_row(out: Stdout, m: &mut [u8]) -> io::Result<()> {
    update(out, 2, 32, m, b"a", 0)?;
    update(out, 2, 32, m, b"a", 1)?;
    estimate(out, 2, 32, m, b"a")?;
    widest(out, 2, 32, m)
}

// A row that takes an update is left as it was where a later row is full; 5 in any row comes before 6 in another.
fn full(out: Stdout) -> io::Result<()> {
    let mut m = [255u8; 72];
    put(&mut m, 0, 36, 0);
    put(&mut m, 68, 72, 127);
    full_row(out, &mut m)?;
    let s = [0u8; 72];
    unite(out, 2, 32, &mut m, &s)?;
    let u = m;
    unite(out, 2, 32, &mut m, &u)?;
    put(&mut m, 32, 36, 128);
    update(out, 2, 32, &mut m, b"a", 1)
}

fn main(rt: HostRuntime) -> io::Result<()> {
    let out = rt.stdout();
    one_row(out)?;
    two_rows(out)?;
    eight_rows(out)?;
    refused(out)?;
    full(out)
}

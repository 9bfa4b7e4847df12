// A signed meter's calls run by the compiled code; what they print is compared with `stdout` beside src/.
#![tactic(auto)]

use answer::Answer;
use hash::Hash;
use signed::SignedAnswer;
use std::io;
use std::io::Stdout;

fn text(out: Stdout, s: &str) -> io::Result<()> {
    print!(out; "{s}")
}

fn digits(out: Stdout, n: u64) -> io::Result<()> {
    print!(out; "{n}")
}

fn decimal(out: Stdout, n: u64) -> io::Result<()> {
    text(out, " ")?;
    digits(out, n)
}

// An integer. Its negation need not fit: the least has none.
fn integer(out: Stdout, v: i64) -> io::Result<()> {
    if v < 0 {
        text(out, " -")?;
        digits(out, (-(v + 1)) as u64 + 1)?;
        return Ok(());
    }
    decimal(out, v as u64)
}

// All bytes of a memory, by their hash.
fn digest(out: Stdout, memory: &[u8]) -> io::Result<()> {
    let h = Hash::start().run(memory);
    let state = h.state;
    println!(out; " memory {state:08x}")
}

// An answer, status, position and value, and the memory that the call leaves.
fn show(out: Stdout, a: Answer, memory: &[u8]) -> io::Result<()> {
    decimal(out, a.status as u64)?;
    decimal(out, a.position)?;
    decimal(out, a.value)?;
    digest(out, memory)
}

fn show_signed(out: Stdout, a: SignedAnswer) -> io::Result<()> {
    decimal(out, a.status as u64)?;
    decimal(out, a.position)?;
    integer(out, a.value)?;
    text(out, "\n")
}

fn clear(out: Stdout, d: usize, w: usize, memory: &mut [u8]) -> io::Result<()> {
    text(out, "clear")?;
    show(out, Answer::from(signed::clear(d, w, memory)), memory)
}

fn update(
    out: Stdout,
    d: usize,
    w: usize,
    memory: &mut [u8],
    key: &[u8],
    amount: i32,
) -> io::Result<()> {
    text(out, "update")?;
    show(
        out,
        Answer::from(signed::update(d, w, memory, key, amount)),
        memory,
    )
}

fn estimate(out: Stdout, d: usize, w: usize, memory: &[u8], key: &[u8]) -> io::Result<()> {
    text(out, "estimate")?;
    show_signed(out, SignedAnswer::from(signed::estimate(d, w, memory, key)))
}

fn unite(out: Stdout, d: usize, w: usize, memory: &mut [u8], source: &[u8]) -> io::Result<()> {
    text(out, "unite")?;
    show(
        out,
        Answer::from(signed::unite(d, w, memory, source)),
        memory,
    )
}

fn subtract(out: Stdout, d: usize, w: usize, memory: &mut [u8], source: &[u8]) -> io::Result<()> {
    text(out, "subtract")?;
    show(
        out,
        Answer::from(signed::subtract(d, w, memory, source)),
        memory,
    )
}
// Functions are short, since the check of one costs more than its length.
fn one(out: Stdout, m: &mut [u8], key: &[u8], amount: i32) -> io::Result<()> {
    update(out, 1, 32, m, key, amount)?;
    estimate(out, 1, 32, m, key)
}

fn both(out: Stdout, m: &mut [u8], key: &[u8], amount: i32, other: i32) -> io::Result<()> {
    one(out, m, key, amount)?;
    one(out, m, key, other)
}

// Beside -5: 127 is held and 128 is not, and the sibling is added with its sign. 32767 is held by 16 bits and 32768 is not.
fn merges(out: Stdout, m: &mut [u8]) -> io::Result<()> {
    one(out, m, b"z", -5)?;
    both(out, m, b"r", 127, 1)?;
    both(out, m, b"r", 32644, 1)
}

// Amounts at both ends, by a key whose sign is plus and one whose sign is minus: 2^31 - 1 is held by 32 bits, 2^31 is not.
fn ends(out: Stdout, m: &mut [u8]) -> io::Result<()> {
    both(out, m, b"j", 2147483647, -2147483648)?;
    both(out, m, b"tenant-20", -2147483648, 2147483647)
}

// In the end a widened counter has 0, which is plus.
fn one_row(out: Stdout) -> io::Result<()> {
    let mut m = [255u8; 36];
    clear(out, 1, 32, &mut m)?;
    merges(out, &mut m)?;
    ends(out, &mut m)?;
    one(out, &mut m, b"r", -32768)
}

fn two_keys(out: Stdout, m: &mut [u8], amount: i32, other: i32) -> io::Result<()> {
    clear(out, 3, 32, m)?;
    update(out, 3, 32, m, b"tenant-1", amount)?;
    update(out, 3, 32, m, b"tenant-20", other)
}

fn asked(out: Stdout, m: &[u8]) -> io::Result<()> {
    estimate(out, 3, 32, m, b"tenant-1")?;
    estimate(out, 3, 32, m, b"tenant-20")
}

// A source taken away, which leaves wide counters small.
fn away(out: Stdout, m: &mut [u8], s: &[u8]) -> io::Result<()> {
    subtract(out, 3, 32, m, s)?;
    asked(out, m)
}

fn added(out: Stdout, m: &mut [u8], s: &[u8]) -> io::Result<()> {
    unite(out, 3, 32, m, s)?;
    unite(out, 3, 32, m, s)?;
    asked(out, m)
}

fn two_meters(out: Stdout, m: &mut [u8], s: &mut [u8]) -> io::Result<()> {
    two_keys(out, m, 300, -5)?;
    two_keys(out, s, 299, -100000)?;
    away(out, m, s)?;
    added(out, m, s)
}

// In the end a copy is taken away.
fn sources(out: Stdout) -> io::Result<()> {
    let mut m = [1u8; 108];
    let mut s = [2u8; 108];
    two_meters(out, &mut m, &mut s)?;
    let copy = m;
    away(out, &mut m, &copy)
}

fn byte(out: Stdout, b: u8) -> io::Result<()> {
    decimal(out, b as u64)
}

fn at(out: Stdout, m: &[u8], i: usize) -> io::Result<()> {
    if i < m.len() {
        byte(out, m[i])?;
    }
    Ok(())
}

fn set(m: &mut [u8], i: usize, byte: u8) {
    if i < m.len() {
        m[i] = byte;
    }
}

// The counters of tenant-8, whose signs are minus, minus, plus, minus, minus.
fn counters(out: Stdout, m: &[u8]) -> io::Result<()> {
    at(out, m, 6)?;
    at(out, m, 50)?;
    at(out, m, 93)?;
    at(out, m, 112)?;
    at(out, m, 148)?;
    text(out, "\n")
}

fn others(out: Stdout, d: usize, m: &mut [u8]) -> io::Result<()> {
    update(out, d, 32, m, b"tenant-1", 3)?;
    update(out, d, 32, m, b"tenant-9", -20)?;
    update(out, d, 32, m, b"tenant-4", 40)
}

fn median(out: Stdout, d: usize, m: &mut [u8]) -> io::Result<()> {
    clear(out, d, 32, m)?;
    update(out, d, 32, m, b"tenant-8", 10)?;
    counters(out, m)?;
    others(out, d, m)?;
    estimate(out, d, 32, m, b"tenant-8")?;
    estimate(out, d, 32, m, b"tenant-1")
}

// Rows of other signs, and the medians of five and of three.
fn medians(out: Stdout) -> io::Result<()> {
    let mut m = [9u8; 180];
    median(out, 5, &mut m)?;
    median(out, 3, &mut m[0..108])
}

fn refused_clearings(out: Stdout, m: &mut [u8]) -> io::Result<()> {
    clear(out, 10, 33, m)?;
    clear(out, 2, 33, m)?;
    clear(out, 2, 32768, m)?;
    clear(out, 2, 32, m)?;
    clear(out, 1, 64, m)
}

fn refused_calls(out: Stdout, d: usize, w: usize, m: &mut [u8], none: &[u8]) -> io::Result<()> {
    update(out, d, w, m, none, 1)?;
    estimate(out, d, w, m, none)?;
    unite(out, d, w, m, none)?;
    subtract(out, d, w, m, none)
}

fn refused_by_none(out: Stdout, m: &mut [u8], none: &[u8]) -> io::Result<()> {
    refused_calls(out, 2, 32, m, none)?;
    refused_calls(out, 1, 64, m, none)?;
    refused_calls(out, 1, 32, m, none)
}

// The numbers of a call's own arguments. The groups, which are not valid, are not read.
fn refused(out: Stdout) -> io::Result<()> {
    let mut m = [255u8; 36];
    let long = [97u8; 65];
    refused_clearings(out, &mut m)?;
    refused_by_none(out, &mut m, b"")?;
    one(out, &mut m, &long, 1)
}

fn planted(out: Stdout, m: &mut [u8], i: usize, byte: u8) -> io::Result<()> {
    set(m, i, byte);
    one(out, m, b"tenant-1", 1)
}

// 80 hex is minus zero alone, and 128 in a counter of two slots, whose minus zero is 8000 hex.
fn minus_zero(out: Stdout, m: &mut [u8]) -> io::Result<()> {
    planted(out, m, 0, 128)?;
    planted(out, m, 32, 1)?;
    set(m, 0, 0);
    planted(out, m, 1, 128)
}

// 5 in a source comes before 13 in the meter.
fn source_first(out: Stdout) -> io::Result<()> {
    let mut m = [0u8; 36];
    minus_zero(out, &mut m)?;
    let mut s = [0u8; 36];
    set(&mut s, 34, 2);
    unite(out, 1, 32, &mut m, &s)
}

fn ones(m: &mut [u8], i: usize, j: usize, k: usize) {
    set(m, i, 255);
    set(m, j, 255);
    set(m, k, 255);
}

// 2^63 - 1 in the first group of row 0.
fn plant_full(m: &mut [u8]) {
    ones(m, 0, 1, 2);
    ones(m, 3, 4, 5);
    set(m, 6, 255);
    set(m, 7, 127);
    set(m, 32, 127);
}

fn tried(out: Stdout, m: &mut [u8], s: &[u8], key: &[u8]) -> io::Result<()> {
    update(out, 3, 32, m, key, -1)?;
    estimate(out, 3, 32, m, key)?;
    unite(out, 3, 32, m, s)
}

fn repaired(out: Stdout, m: &mut [u8], s: &[u8], key: &[u8], i: usize) -> io::Result<()> {
    set(m, i, 0);
    tried(out, m, s, key)
}

// 5 in any group comes before 13 in any, and 13 before 6: row 0 is full, row 1 has minus zero, row 2 a merge byte that is not valid. By the
// key's sign in row 0, -1 passes 2^63 - 1 there.
fn order(out: Stdout, m: &mut [u8], s: &[u8], key: &[u8]) -> io::Result<()> {
    plant_full(m);
    set(m, 44, 128);
    set(m, 106, 2);
    tried(out, m, s, key)?;
    repaired(out, m, s, key, 106)?;
    repaired(out, m, s, key, 44)
}

// 2^63 - 1 is held.
fn full(out: Stdout, m: &mut [u8], key: &[u8]) -> io::Result<()> {
    update(out, 3, 32, m, key, 0)?;
    update(out, 3, 32, m, key, 1)?;
    update(out, 3, 32, m, key, -1)
}

// A copy added passes 2^63 - 1, and taken away does not; taken away again it leaves minus 2^63 - 1, and no third time.
fn copies(out: Stdout, m: &mut [u8], copy: &[u8]) -> io::Result<()> {
    unite(out, 3, 32, m, copy)?;
    subtract(out, 3, 32, m, copy)?;
    subtract(out, 3, 32, m, copy)?;
    subtract(out, 3, 32, m, copy)
}

fn contents(out: Stdout) -> io::Result<()> {
    let mut m = [0u8; 108];
    let s = m;
    order(out, &mut m, &s, b"tenant-8")?;
    full(out, &mut m, b"tenant-8")?;
    let copy = m;
    copies(out, &mut m, &copy)?;
    one(out, &mut m[0..36], b"tenant-8", 0)
}

fn main(rt: HostRuntime) -> io::Result<()> {
    let out = rt.stdout();
    one_row(out)?;
    sources(out)?;
    medians(out)?;
    refused(out)?;
    source_first(out)?;
    contents(out)
}

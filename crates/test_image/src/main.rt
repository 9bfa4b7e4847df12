// Images written and read by the compiled code; what is printed is compared with `stdout` beside src/.
#![tactic(auto)]

ghost use Rattle.std.specs.Prelude.{◌≤◌, ◌<◌};

use answer::Answer;
use std::io;
use std::io::Stdout;

// A memory before an image is read into it, and lent words before one is written: no image gives either.
const BYTE: u8 = 0xaa;

const WORD: u32 = 0xeeeeeeee;

fn answer(out: Stdout, a: Answer) -> io::Result<()> {
    print!(out; " {} {} {}", a.status, a.position, a.value)
}

fn show_words(out: Stdout, words: &[u32]) -> io::Result<()> {
    for word in words {
        print!(out; " {word:08x}")?;
    }
    println!(out)
}

fn show_bytes(out: Stdout, memory: &[u8]) -> io::Result<()> {
    for byte in memory {
        print!(out; " {byte:02x}")?;
    }
    println!(out)
}

// What a read answers, and what it leaves in a memory.
fn read(out: Stdout, d: usize, w: usize, memory: &mut [u8], words: &[u32]) -> io::Result<()> {
    let a = image::read(d, w, memory, words);
    print!(out; "read")?;
    answer(out, a)?;
    if a.status == 0 {
        return show_bytes(out, memory);
    }
    if memory.iter().all(|&byte| byte == BYTE) {
        return println!(out; " kept");
    }
    println!(out; " changed")
}

// What a write answers, and what it leaves in the lent words.
fn write(out: Stdout, d: usize, w: usize, memory: &[u8], words: &mut [u32]) -> io::Result<()> {
    let a = image::write(d, w, memory, words);
    print!(out; "write")?;
    answer(out, a)?;
    show_words(out, words)
}

// A read of the first `n` words.
fn read_part(out: Stdout, words: [u32; 40], n: usize) -> io::Result<()>
    requires { n ≤ 40 }
{
    let mut memory = [BYTE; 36];
    read(out, 1, 32, &mut memory, &words[0..n])
}

// The image of a memory of one row of 32 slots, in `n` lent words, and read back.
fn both(out: Stdout, memory: [u8; 36], n: usize) -> io::Result<()>
    requires { n ≤ 40 }
{
    let mut words = [WORD; 40];
    write(out, 1, 32, &memory, &mut words[0..n])?;
    read_part(out, words, n)
}

// A read of the first `n` words after word `i` has become `word` and word `j` has become `other`.
fn faulty(
    out: Stdout,
    words: [u32; 40],
    n: usize,
    i: usize,
    word: u32,
    j: usize,
    other: u32,
) -> io::Result<()>
    requires { (n ≤ 40) × ((i < 40) × (j < 40)) }
{
    let mut bad = words;
    bad[i] = word;
    bad[j] = other;
    read_part(out, bad, n)
}

// A group of one counter; one of a counter of level 2 and four of level 0; one of pairs and slots; one of slots.
fn levels() -> [u8; 36] {
    [
        0x01, 0x23, 0x45, 0x67, 0x89, 0xab, 0xcd, 0xef, 0x78, 0x56, 0x34, 0x12, 0xff, 0x01, 0x02,
        0x03, 0xfe, 0xff, 0x0a, 0x0b, 0x2c, 0x01, 0x0c, 0x0d, 0, 0, 0, 0, 0, 0, 0, 0x07, 0x7f,
        0x07, 0x11, 0,
    ]
}

fn writes(out: Stdout) -> io::Result<()> {
    let clear = [0u8; 36];
    both(out, clear, 37)?;
    both(out, clear, 35)?;
    both(out, clear, 34)?;
    both(out, levels(), 26)?;
    let mut invalid = [0u8; 36];
    invalid[35] = 0x02;
    both(out, invalid, 37)?;
    both(out, invalid, 0)?;
    let mut words = [WORD; 2];
    write(out, 0, 33, &clear, &mut words)?;
    write(out, 9, 32, &clear, &mut words)?;
    write(out, 1, 31, &clear, &mut words)?;
    write(out, 1, 16, &clear, &mut words)?;
    write(out, 1, 32768, &clear, &mut words)?;
    write(out, 1, 65536, &clear, &mut words)?;
    write(out, 2, 32, &clear, &mut words)?;
    write(out, 8, 16384, &clear, &mut words)
}

// Two rows of 64 slots, every group one counter.
fn rows(out: Stdout) -> io::Result<()> {
    let mut memory = [0u8; 144];
    memory[64..72].fill(0x7f);
    memory[136..].fill(0x7f);
    memory[0] = 0x09;
    memory[72] = 0x05;
    let mut words = [WORD; 60];
    write(out, 2, 64, &memory, &mut words)?;
    let mut restored = [BYTE; 144];
    read(out, 2, 64, &mut restored, &words[0..54])?;
    let mut half = [BYTE; 72];
    read(out, 1, 64, &mut half, &words[0..54])
}

fn head_and_layout(out: Stdout, words: [u32; 40]) -> io::Result<()> {
    faulty(out, words, 0, 39, 0, 39, 0)?;
    faulty(out, words, 35, 0, 0x20000051, 39, 0)?;
    faulty(out, words, 35, 0, 0x10000251, 39, 0)?;
    faulty(out, words, 35, 0, 0x10000252, 39, 0)?;
    faulty(out, words, 35, 0, 0x10000052, 39, 0)?;
    faulty(out, words, 35, 0, 0x10000050, 39, 0)?;
    faulty(out, words, 35, 0, 0x10000061, 39, 0)?;
    faulty(out, words, 35, 0, 0x100000f1, 39, 0)?;
    faulty(out, words, 35, 0, 0x10000101, 39, 0)?;
    faulty(out, words, 35, 0, 0x100001f1, 39, 0)?;
    faulty(out, words, 35, 0, 0x10000052, 1, 0x30000000)?;
    faulty(out, words, 1, 39, 0, 39, 0)?;
    faulty(out, words, 35, 1, 0x10000051, 39, 0)?;
    faulty(out, words, 35, 1, 0x2006f910, 39, 0)?;
    faulty(out, words, 35, 1, 0x20080000, 39, 0)?;
    faulty(out, words, 35, 1, 0x28000000, 2, 0x40000000)
}

fn counts(out: Stdout, words: [u32; 40]) -> io::Result<()> {
    faulty(out, words, 35, 2, 0x30000100, 39, 0)?;
    faulty(out, words, 35, 2, 0x31000000, 39, 0)?;
    faulty(out, words, 35, 2, 0x40000000, 39, 0)?;
    faulty(out, words, 35, 33, 0x300000ff, 39, 0)?;
    faulty(out, words, 35, 33, 0x30000100, 34, 0x40000000)?;
    faulty(out, words, 20, 39, 0, 39, 0)?;
    faulty(out, words, 34, 39, 0, 39, 0)
}

fn ends(out: Stdout, words: [u32; 40]) -> io::Result<()> {
    faulty(out, words, 35, 34, 0x30000000, 39, 0)?;
    faulty(out, words, 35, 34, 0x40000023, 39, 0)?;
    faulty(out, words, 36, 39, 0, 39, 0)?;
    faulty(out, words, 36, 34, 0x40000023, 39, 0)?;
    faulty(out, words, 35, 34, 0x48000022, 39, 0)
}

// Words 2 to 4 are a counter of level 3, and words 5 and 6 one of level 2.
fn wide_counts(out: Stdout, words: [u32; 40]) -> io::Result<()> {
    faulty(out, words, 26, 2, 0x3000ffff, 39, 0)?;
    faulty(out, words, 26, 2, 0x30010000, 39, 0)?;
    faulty(out, words, 3, 2, 0x30010000, 39, 0)?;
    faulty(out, words, 3, 39, 0, 39, 0)?;
    faulty(out, words, 26, 3, 0x31000000, 39, 0)?;
    faulty(out, words, 26, 4, 0x31000000, 3, 0x20000000)?;
    faulty(out, words, 26, 5, 0x30000100, 6, 0x40000000)?;
    faulty(out, words, 26, 6, 0x31000000, 39, 0)?;
    faulty(out, words, 26, 11, 0x3000ffff, 39, 0)?;
    faulty(out, words, 26, 11, 0x30010000, 39, 0)
}

fn main(rt: HostRuntime) -> io::Result<()> {
    let out = rt.stdout();
    writes(out)?;
    rows(out)?;
    let clear = [0u8; 36];
    let mut words = [WORD; 40];
    write(out, 1, 32, &clear, &mut words)?;
    head_and_layout(out, words)?;
    counts(out, words)?;
    ends(out, words)?;
    let memory = levels();
    let mut other = [WORD; 40];
    write(out, 1, 32, &memory, &mut other)?;
    wide_counts(out, other)?;
    let mut restored = [BYTE; 36];
    read(out, 0, 32, &mut restored, &words)?;
    read(out, 1, 48, &mut restored, &words)?;
    read(out, 1, 64, &mut restored, &words)
}

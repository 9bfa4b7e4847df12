// Cases run by the compiled code; what they print is compared with `stdout` beside src/.
#![tactic(auto)]

ghost use Rattle.std.specs.Prelude.{◌≡◌, true};
ghost use Rattle.geometry.specs.Geometry.{valid_width};

use answer::Refusal;
use group::Group;
use hash::Hash;
use std::io;
use std::io::Stdout;

fn text(out: Stdout, s: &str) -> io::Result<()> {
    print!(out; "{s}")
}

// A number after a space.
fn decimal(out: Stdout, n: u64) -> io::Result<()> {
    print!(out; " {n}")
}

// Digits of a number after a space.
fn hex(out: Stdout, n: u64, digits: usize) -> io::Result<()> {
    print!(out; " {n:0digits$x}")
}

fn byte(out: Stdout, b: u8) -> io::Result<()> {
    hex(out, b as u64, 2)
}

// FNV's own vectors: the hash of a run of bytes without a row.
fn vector(out: Stdout, s: &[u8]) -> io::Result<()> {
    let h = Hash::start().run(s);
    text(out, "fnv")?;
    hex(out, h.state as u64, 8)?;
    text(out, "\n")
}

// The hash and the slot of a key in a row.
fn lands(out: Stdout, row: u8, key: &[u8], w: usize) -> io::Result<()>
    requires { valid_width w ≡ true }
{
    let h = Hash::start().in_row(row, key);
    text(out, "lands")?;
    hex(out, h.state as u64, 8)?;
    decimal(out, meter_keys::row_slot(Hash::start(), w, key, row) as u64)?;
    text(out, "\n")
}

// The status, the eight count bytes from the last slot to the first, and the merge byte.
fn outcome(out: Stdout, refusal: Option<Refusal>, g: Group) -> io::Result<()> {
    decimal(out, status(refusal))?;
    hex(out, little_endian::number_of(g.counts), 16)?;
    byte(out, g.merge)?;
    text(out, "\n")
}

fn status(refusal: Option<Refusal>) -> u64 {
    match refusal {
        None => 0,
        Some(why) => why.number() as u64,
    }
}

// An update as the meter makes it in one row: the group is the first of a row of 32 slots.
fn update(g: Group, slot: usize, amount: u32) -> (Option<Refusal>, Group) {
    let mut row = [0u8; 36];
    meter_memory::store(&mut row, 32, 0, g);
    let found = meter_row::update_one(&mut row, 32, slot % 8, amount);
    (found.status.err(), meter_memory::load(&row, 32, 0))
}

// The group's own call, and the row's beside it.
fn add(out: Stdout, g: Group, slot: usize, amount: u32) -> io::Result<Group> {
    let sum = group::add(g, slot, amount);
    let after = sum.unwrap_or(g);
    text(out, "add")?;
    outcome(out, sum.err(), after)?;
    let (refusal, in_row) = update(g, slot, amount);
    text(out, "row")?;
    outcome(out, refusal, in_row)?;
    Ok(after)
}

fn unite(out: Stdout, g: Group, source: Group) -> io::Result<Group> {
    let union = group::unite(g, source);
    let after = union.unwrap_or(g);
    text(out, "unite")?;
    outcome(out, union.err(), after)?;
    Ok(after)
}

fn read(out: Stdout, g: Group, slot: usize) -> io::Result<()> {
    let c = group::counter(g, slot);
    text(out, "counter")?;
    decimal(out, status(c.err()))?;
    decimal(out, c.map_or(0, |c| c.value))?;
    decimal(out, c.map_or(0, |c| c.level) as u64)?;
    text(out, "\n")
}

fn answer(out: Stdout, figure: Result<u64, Refusal>) -> io::Result<()> {
    decimal(out, status(figure.err()))?;
    decimal(out, figure.unwrap_or(0))?;
    text(out, "\n")
}

fn code(out: Stdout, merge: u8) -> io::Result<()> {
    text(out, "code")?;
    answer(out, group_codes::code(merge))
}

fn widest(out: Stdout, merge: u8) -> io::Result<()> {
    text(out, "widest")?;
    answer(out, group::widest(merge))
}

fn pack(out: Stdout, a: u8, b: u8, c: u8, d: u8) -> io::Result<()> {
    text(out, "pack")?;
    answer(out, group_codes::pack(a, b, c, d))
}

fn unpack(out: Stdout, code: u32) -> io::Result<()> {
    let unpacked = group_codes::unpack(code);
    text(out, "unpack")?;
    decimal(out, status(unpacked.err()))?;
    for m in unpacked.unwrap_or([0; 4]) {
        byte(out, m)?;
    }
    text(out, "\n")
}

// The valid merge bytes.
fn valid(out: Stdout) -> io::Result<()> {
    text(out, "valid")?;
    for m in 0..=255u8 {
        if group::is_valid(m) {
            byte(out, m)?;
        }
    }
    text(out, "\n")
}

fn clear() -> Group {
    Group {
        counts: [0; 8],
        merge: 0,
    }
}

fn vectors(out: Stdout) -> io::Result<()> {
    vector(out, b"")?;
    vector(out, b"a")?;
    vector(out, b"b")?;
    vector(out, b"c")?;
    vector(out, b"d")?;
    vector(out, b"e")?;
    vector(out, b"f")?;
    vector(out, b"fo")?;
    vector(out, b"foo")?;
    vector(out, b"foob")?;
    vector(out, b"fooba")?;
    vector(out, b"foobar")?;
    vector(out, b"\0")?;
    vector(out, b"a\0")?;
    vector(out, b"foobar\0")?;
    vector(out, b"ch")?;
    vector(out, b"chongo")?;
    vector(out, b"chongo was here!")?;
    vector(out, b"chongo was here!\n")
}

fn slots(out: Stdout) -> io::Result<()> {
    lands(out, 0, b"tenant-7", 32)?;
    lands(out, 7, b"tenant-7", 32)?;
    lands(out, 0, b"tenant-7", 16384)?;
    lands(out, 7, b"tenant-7", 16384)
}

// P1 to P8, P11 and P12 of document 01, run.
fn worked(out: Stdout) -> io::Result<()> {
    let p1 = add(
        out,
        Group {
            counts: [0, 255, 3, 0, 253, 255, 95, 11],
            merge: 0x10,
        },
        1,
        3,
    )?;
    add(out, p1, 5, 5)?;
    let at_255 = add(out, clear(), 2, 255)?;
    add(out, at_255, 2, 0)?;
    add(out, at_255, 2, 1)?;
    add(out, clear(), 3, 65535)?;
    add(out, clear(), 3, 65536)?;
    let p7 = add(out, clear(), 0, 4294967295)?;
    add(out, p7, 0, 1)?;
    let full = Group {
        counts: [255; 8],
        merge: 0x7f,
    };
    add(out, full, 6, 0)?;
    add(out, full, 6, 1)?;
    let p11 = unite(out, add(out, clear(), 0, 200)?, add(out, clear(), 0, 100)?)?;
    unite(out, p11, add(out, clear(), 1, 7)?)?;
    Ok(())
}

// A slot number counts by its remainder by 8; an invalid group comes back as it was.
fn others(out: Stdout) -> io::Result<()> {
    let g = add(out, clear(), 11, 300)?;
    read(out, g, 2)?;
    read(out, g, 3)?;
    read(out, g, 4)?;
    read(out, g, 19)?;
    let bad = Group {
        counts: [1, 2, 3, 4, 5, 6, 7, 8],
        merge: 0x02,
    };
    add(out, bad, 0, 1)?;
    unite(out, bad, g)?;
    unite(out, g, bad)?;
    read(out, bad, 0)?;
    let full = Group {
        counts: [255; 8],
        merge: 0x7f,
    };
    unite(out, full, clear())?;
    unite(out, full, g)?;
    Ok(())
}

fn codes(out: Stdout) -> io::Result<()> {
    code(out, 0x00)?;
    code(out, 0x70)?;
    code(out, 0x44)?;
    code(out, 0x07)?;
    code(out, 0x77)?;
    code(out, 0x7f)?;
    code(out, 0x02)?;
    code(out, 0x08)?;
    code(out, 0x80)?;
    widest(out, 0x00)?;
    widest(out, 0x44)?;
    widest(out, 0x07)?;
    widest(out, 0x7f)?;
    widest(out, 0x09)?;
    pack(out, 0x70, 0x44, 0x00, 0x00)?;
    pack(out, 0x7f, 0x7f, 0x7f, 0x7f)?;
    pack(out, 0x7f, 0x7f, 0x7f, 0x03)?;
    unpack(out, 74360)?;
    unpack(out, 456975)?;
    unpack(out, 456976)
}

fn main(rt: HostRuntime) -> io::Result<()> {
    let out = rt.stdout();
    vectors(out)?;
    slots(out)?;
    worked(out)?;
    others(out)?;
    valid(out)?;
    codes(out)
}

// One key is sent in packets of 64 bytes, past four gibibytes. The estimate is printed at every 2^28 bytes, and compared with the true
// sum in `stdout` beside src/.
#![tactic(auto)]

use std::io;
use std::io::Stdout;

// As many packets as make 2^28 bytes.
fn send(memory: &mut [u8]) {
    for _ in 0..4194304u32 {
        let _ = meter::update(1, 32, memory, b"tenant-7", 64);
    }
}

fn ask(out: Stdout, memory: &[u8]) -> io::Result<()> {
    let value = meter::estimate(1, 32, memory, b"tenant-7").unwrap_or(0);
    println!(out; "{value}")
}

fn main(rt: HostRuntime) -> io::Result<()> {
    let out = rt.stdout();
    let mut memory = [0u8; 36];
    let _ = meter::clear(1, 32, &mut memory);
    for _ in 0..17u32 {
        send(&mut memory);
        ask(out, &memory)?;
    }
    Ok(())
}

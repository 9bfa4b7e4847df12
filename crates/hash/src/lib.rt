// FNV-1a of 32 bits, and the slot and the sign of a hash.
#![tactic(auto)]

ghost use Rattle.std.specs.Prelude.{◌≡◌, ◌%◌, ◌^◌, ◌<◌};
ghost use Rattle.hash.specs.Hash.{basis, fnv_step, fnv, row_hash, slot_of, sign_of};

// The running hash.
#[derive(Clone, Copy)]
pub struct Hash {
    pub state: u32,
}

impl Hash {
    pub fn start() -> Hash
        ensures { result.state ≡ basis }
    {
        Hash { state: 2166136261 }
    }

    // The hash advanced by a byte.
    #[tactic(auto, unfolding(crate::specs::Hash::fnv_step))]
    pub fn step(self, byte: u8) -> Hash
        ensures { result.state ≡ fnv_step self.state byte }
    {
        let mixed = self.state ^ (byte as u32);
        Hash {
            state: mixed.wrapping_mul(16777619),
        }
    }

    // The hash advanced by a run of bytes.
    pub fn run(self, bytes: &[u8]) -> Hash
        ensures { result.state ≡ fnv self.state bytes.now }
    {
        let mut h = self;
        for &byte in bytes {
            h = h.step(byte);
        }
        h
    }

    // The hash of a key in a row, gone on from this state.
    pub fn in_row(self, row: u8, key: &[u8]) -> Hash
        ensures { result.state ≡ row_hash self.state row key.now }
    {
        self.step(row).run(key)
    }
}

// The slot of a hash in a row of w slots, where the width divides 2^32: the high part of a product.
pub fn scaled(hash: u32, w: usize) -> usize
    requires { 2 ^ 32 % w ≡ 0 }
    ensures value { result ≡ slot_of hash w }
    ensures upper_bound { result < w }
{
    (hash as usize * w) >> 32
}

// Whether the sign of a hash is minus: bit 15, which is below the bits that decide the slot.
pub fn sign(hash: u32) -> bool
    ensures { result ≡ sign_of hash }
{
    (hash >> 15) & 1 == 1
}

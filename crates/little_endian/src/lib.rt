// Eight bytes and the number that they make.
#![tactic(auto)]

ghost use Rattle.std.specs.Prelude.{◌≡◌};
ghost use Rattle.little_endian.specs.Bytes.{number, bytes};

// The count bytes as one number, the lowest slot least significant.
#[tactic(auto, using(crate::proofs::Bytes::number_eight))]
pub fn number_of(counts: [u8; 8]) -> u64
    ensures { result ≡ number counts }
{
    u64::from_le_bytes(counts)
}

// The eight bytes of a number, the lowest first.
#[tactic(auto, using(crate::proofs::Bytes::bytes_eight))]
pub fn bytes_of(number: u64) -> [u8; 8]
    ensures { result ≡ bytes 8 number }
{
    number.to_le_bytes()
}

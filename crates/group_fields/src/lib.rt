// A group's counters in slot order as bit fields of its count bytes, taken as one number: the counter that starts at slot k has its lowest
// bit at place 8 * k. Which fields are whose, the laws of this crate say by what is read of a group's slots.
#![tactic(auto)]

ghost use Rattle.std.specs.Prelude.{◌≡◌, ◌+◌, ◌^◌, ◌<◌, ◌≤◌};
ghost use Rattle.group_fields.specs.Fields.{no_fields, fields_of, counts_of, bits_at, put};

// The bits of eight count bytes.
#[derive(Clone, Copy)]
pub struct Fields {
    pub word: u64,
}

impl Fields {
    // No bit set.
    pub fn none() -> Fields
        ensures { result ≡ no_fields }
    {
        Fields { word: 0 }
    }

    // The bits of a group's count bytes.
    #[tactic(auto, unfolding(crate::specs::Fields::fields_of))]
    pub fn of(counts: [u8; 8]) -> Fields
        ensures { result ≡ fields_of counts }
    {
        Fields {
            word: little_endian::number_of(counts),
        }
    }

    // The count bytes again.
    #[tactic(auto, unfolding(crate::specs::Fields::counts_of))]
    pub fn counts(self) -> [u8; 8]
        ensures { result ≡ counts_of self }
    {
        little_endian::bytes_of(self.word)
    }

    // So many bits from a place on.
    pub fn bits_at(self, place: u8, bits: u8) -> u32
        requires fact_1 { place < 64 }
        requires fact_2 { bits ≤ 24 }
        ensures value { result ≡ bits_at self place bits }
        ensures upper_bound { result < 2 ^ 24 }
    {
        ((self.word >> (place as u32)) & ((1u64 << (bits as u32)) - 1)) as u32
    }

    // So many low bits of a value added at a place.
    pub fn put(self, place: u8, bits: u8, value: u32) -> Fields
        requires fact_1 { 1 ≤ bits }
        requires fact_2 { bits ≤ 24 }
        requires fact_3 { place + bits ≤ 64 }
        requires fact_4 { (put self place bits value).word < 2 ^ 64 }
        ensures { result ≡ put self place bits value }
    {
        Fields {
            word: self.word + ((value as u64 & ((1 << bits) - 1)) << place),
        }
    }
}

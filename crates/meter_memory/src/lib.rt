// Where rows and groups lie in a meter's memory.
#![tactic(auto)]

ghost use Rattle.std.specs.Prelude.{◌≡◌, ◌++◌, ◌+◌, ◌*◌, ◌<◌, ◌≤◌, length, take, drop};
ghost use Rattle.geometry.specs.Geometry.{RowIn};
ghost use Rattle.geometry.specs.Geometry as geometry;
ghost use Rattle.meter_memory.specs.Rows.{group_at, with_group};

use group::Group;

// Row r of a memory.
pub fn row_at(w: usize, memory: &[u8], r: usize) -> &[u8]
    requires { RowIn w r (length memory.now) }
    ensures result_value { result.now ≡ take (geometry.stride w) (drop (r * geometry.stride w) memory.now) }
    ensures result_len { length result.now ≡ geometry.stride w }
{
    let stride = geometry::stride(w);
    let start = r * stride;
    let end = start + stride;
    &memory[start..end]
}

// The eight bytes from `at` on.
pub fn eight(s: &[u8], at: usize) -> [u8; 8]
    requires { at + 8 ≤ length s.now }
    ensures { result ≡ take 8 (drop at s.now) }
{
    s[at..at + 8].try_into().unwrap()
}

// Eight bytes stored from `at` on.
pub fn put_eight(s: &mut [u8], at: usize, x: [u8; 8])
    requires { at + 8 ≤ length s.old }
    ensures { s.new ≡ take at s.old ++ x ++ drop (at + 8) s.old }
{
    s[at..at + 8].copy_from_slice(&x);
}

// Group g of a row.
#[tactic(auto, unfolding(crate::specs::Rows::group_at))]
pub fn load(row: &[u8], w: usize, g: usize) -> Group
    requires fact_1 { 8 * g + 8 ≤ w }
    requires fact_2 { w + g < length row.now }
    ensures { result ≡ group_at w row.now g }
{
    Group {
        counts: eight(row, 8 * g),
        merge: row[w + g],
    }
}

#[tactic(auto, unfolding(crate::specs::Rows::with_group))]
pub fn store(row: &mut [u8], w: usize, g: usize, x: Group)
    requires fact_1 { 8 * g + 8 ≤ w }
    requires fact_2 { w + g < length row.old }
    ensures { row.new ≡ with_group w row.old g x }
{
    put_eight(row, 8 * g, x.counts);
    row[w + g] = x.merge;
}

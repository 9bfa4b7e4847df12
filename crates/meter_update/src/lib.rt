// An update in the rows of a meter by the slots of the rows, and the least value of the counters that it leaves. Every row is tried before any
// is written.
#![tactic(auto)]

ghost use Rattle.std.specs.Prelude.{◌≡◌, cond, ◌≤◌, eqb, length};
ghost use Rattle.geometry.specs.Geometry.{RowsIn};
ghost use Rattle.geometry.specs.Geometry as geometry;
ghost use Rattle.answer.specs.Order.{earliest};
ghost use Rattle.answer.specs.Refusals.{status};
ghost use Rattle.meter_memory.specs.Rows.{of_rows, least};
ghost use Rattle.meter_row.specs.Slots.{SlotsIn, added_status, added_value, Added, added_rows};

use group::Group;
use meter_memory::{load, row_at};
use meter_row::{Found, update_row, value_of};

// The groups that an update leaves in the rows, the first status and the least value of the counters that are left.
#[derive(Clone, Copy)]
struct Trial {
    groups: [Group; 8],
    found: Found,
}

// An amount added in the slot's group of each row. Stores nothing. Where the counter holds the sum, no group is handed back in memory.
fn try_rows(d: usize, w: usize, memory: &[u8], slots: &[usize; 8], amount: u32) -> Trial
    requires fact_1 { 1 ≤ d }
    requires fact_2 { RowsIn d w (length memory.now) }
    requires fact_3 { SlotsIn d w slots.now }
    ensures status_value { status result.found.status ≡ earliest (of_rows (added_status w slots.now amount) (geometry.stride w) d 0 memory.now) }
    ensures value_value { result.found.value ≡ least (of_rows (added_value w slots.now amount) (geometry.stride w) d 0 memory.now) }
    ensures added { Added d w memory.now slots.now amount result.groups }
{
    let none = Group {
        counts: [0u8; 8],
        merge: 0,
    };
    let mut t = Trial {
        groups: [none; 8],
        found: Found {
            status: Ok(()),
            value: 0,
        },
    };
    let mut status = Ok(());
    let mut value = u64::MAX;
    // r is the row's number too.
    for r in 0..d {
        let slot = slots[r];
        let x = load(row_at(w, memory, r), w, slot / 8);
        if let Some(k) = group::add_in_place(x, slot, amount) {
            let counts = k.counts;
            t.groups[r] = Group {
                counts,
                merge: x.merge,
            };
            value = value.min(k.value);
        } else {
            let left = group::add_widening(x, slot, amount);
            let g = left.unwrap_or(x);
            t.groups[r] = g;
            status = answer::first(status, left.and(Ok(())));
            value = value.min(value_of(group::counter(g, slot)));
        }
    }
    t.found = Found { status, value };
    t
}

// An update of each row in the group of a slot, once every row is known to take it; the first status, and the least value of the counters
// that are left.
pub fn update_rows(d: usize, w: usize, memory: &mut [u8], slots: &[usize; 8], amount: u32) -> Found
    requires fact_1 { 1 ≤ d }
    requires fact_2 { RowsIn d w (length memory.old) }
    requires fact_3 { SlotsIn d w slots.now }
    ensures status_value { status result.status ≡ earliest (of_rows (added_status w slots.now amount) (geometry.stride w) d 0 memory.old) }
    ensures value_value { result.value ≡ least (of_rows (added_value w slots.now amount) (geometry.stride w) d 0 memory.old) }
    ensures memory_after { memory.new ≡ cond (eqb (status result.status) 0) (added_rows d w slots.now amount memory.old) memory.old }
{
    let t = try_rows(d, w, memory, slots, amount);
    if t.found.status.is_err() {
        return t.found;
    }
    let stride = geometry::stride(w);
    // r is the row's number too.
    for r in 0..d {
        let a = r * stride;
        let e = a + stride;
        update_row(&mut memory[a..e], w, slots[r], t.groups[r]);
    }
    t.found
}

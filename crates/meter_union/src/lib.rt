// The union of one row with a source row.
#![tactic(auto)]

ghost use Rattle.std.specs.Prelude.{◌≡◌, true, cond, ◌+◌, ◌-◌, ◌*◌, ◌/◌, ◌<◌, ◌≤◌, IfSome, IsNone, length};
ghost use Rattle.geometry.specs.Geometry.{valid_width};
ghost use Rattle.geometry.specs.Geometry as geometry;
ghost use Rattle.answer.specs.Refusals.{status};
ghost use Rattle.group_side.specs.Side.{stay_unmerged};
ghost use Rattle.meter_runs.specs.Runs.{InRows, counts_of, none_merged};
ghost use Rattle.meter_union.specs.Runs.{next_merged, groups_status};
ghost use Rattle.meter_union.specs.Union.{united_at, unite_status, unite_groups, unite_row};

use answer::Refusal;
use group::Group;
use meter_memory::{eight, load, store};
use meter_runs::{eight_unmerged, none_merged};

// Group g of a row united with that of a source row; if refused, as it was.
fn united_at(row: &[u8], source: &[u8], w: usize, g: usize) -> Group
    requires fact_1 { 8 * g + 8 ≤ w }
    requires fact_2 { w + g < length row.now }
    requires fact_3 { w + g < length source.now }
    ensures { result ≡ (united_at w source.now row.now g).group }
{
    let target = load(row, w, g);
    group::unite(target, load(source, w, g)).unwrap_or(target)
}

// The first eight groups, by number and from eight `from` on, some of which is merged in either row.
fn next_merged(row: &[u8], source: &[u8], w: usize, from: usize) -> Option<usize>
    requires fact_1 { length row.now ≡ geometry.stride w }
    requires fact_2 { length source.now ≡ geometry.stride w }
    requires fact_3 { from ≤ w / 64 }
    ensures some { IfSome result (λ e. (e < w / 64) × (e ≡ next_merged w row.now source.now (w / 64 - from) from)) }
    ensures none { IsNone result → w / 64 ≡ next_merged w row.now source.now (w / 64 - from) from }
{
    for e in from..w / 64 {
        if !eight_unmerged(row, source, w, 8 * e) {
            return Some(e);
        }
    }
    None
}

// Whether n groups of a row take those of a source row, the first of which is group `first`.
fn groups_status(row: &[u8], source: &[u8], w: usize, first: usize, n: usize) -> Result<(), Refusal>
    requires { InRows w n first row.now source.now }
    ensures { status result ≡ groups_status w source.now row.now n first }
{
    let mut status = Ok(());
    for g in first..first + n {
        let s = group::unite_status(load(row, w, g), load(source, w, g));
        // Of nearly all groups nothing is refused, and then nothing else is looked at.
        if s.is_err() {
            status = answer::first(status, s);
        }
    }
    status
}

// Whether a row takes a source row. Unmerged groups do. Only a row of 32 slots has groups left after its eights.
pub fn unite_status(row: &[u8], source: &[u8], w: usize) -> Result<(), Refusal>
    requires fact_1 { valid_width w ≡ true }
    requires fact_2 { length row.now ≡ geometry.stride w }
    requires fact_3 { length source.now ≡ geometry.stride w }
    ensures { status result ≡ unite_status w source.now row.now }
{
    let mut status = Ok(());
    let mut from = 0;
    while let Some(e) = next_merged(row, source, w, from) {
        status = answer::first(status, groups_status(row, source, w, 8 * e, 8));
        from = e + 1;
    }
    let first = w / 64 * 8;
    let n = w / 8 % 8;
    if none_merged(row, source, w, first, n) {
        return status;
    }
    answer::first(status, groups_status(row, source, w, first, n))
}

// n groups of a source row added into a row one by one, the first of which is group `first`.
fn unite_groups(row: &mut [u8], source: &[u8], w: usize, first: usize, n: usize)
    requires { InRows w n first row.old source.now }
    ensures { row.new ≡ unite_groups w source.now n first row.old }
{
    for g in first..first + n {
        let x = united_at(row, source, w, g);
        store(row, w, g, x);
    }
}

// Eight groups of a source row added into a row side by side, if none of the unions is merged. None of the groups is, in either row.
fn unite_side(row: &mut [u8], source: &[u8], w: usize, first: usize) -> bool
    requires fact_1 { InRows w 8 first row.old source.now }
    requires fact_2 { none_merged w 8 first row.old source.now ≡ true }
    ensures value { result ≡ stay_unmerged 8 (counts_of 8 first row.old) (counts_of 8 first source.now) }
    ensures row_after { row.new ≡ cond result (unite_groups w source.now 8 first row.old) row.old }
{
    let start = 8 * first;
    let end = start + 64;
    group_side::unite(&mut row[start..end], &source[start..end])
}

// The same one by one, whatever the unions are. No merge byte is read.
fn unite_unmerged(row: &mut [u8], source: &[u8], w: usize, first: usize)
    requires fact_1 { InRows w 8 first row.old source.now }
    requires fact_2 { none_merged w 8 first row.old source.now ≡ true }
    ensures { row.new ≡ unite_groups w source.now 8 first row.old }
{
    for g in first..first + 8 {
        let x = group_side::unite_unmerged(eight(row, 8 * g), eight(source, 8 * g));
        store(row, w, g, x);
    }
}

// Eight groups of a source row added into a row.
fn unite_eight(row: &mut [u8], source: &[u8], w: usize, first: usize)
    requires { InRows w 8 first row.old source.now }
    ensures { row.new ≡ unite_groups w source.now 8 first row.old }
{
    if !eight_unmerged(row, source, w, first) {
        unite_groups(row, source, w, first, 8);
        return;
    }
    if unite_side(row, source, w, first) {
        return;
    }
    unite_unmerged(row, source, w, first);
}

// A source row added into a row. Only a row of 32 slots has groups left after its eights.
pub fn unite_row(row: &mut [u8], source: &[u8], w: usize)
    requires fact_1 { valid_width w ≡ true }
    requires fact_2 { length row.old ≡ geometry.stride w }
    requires fact_3 { length source.now ≡ geometry.stride w }
    ensures { row.new ≡ unite_row w source.now row.old }
{
    for e in 0..w / 64 {
        unite_eight(row, source, w, 8 * e);
    }
    unite_groups(row, source, w, w / 64 * 8, w / 8 % 8);
}

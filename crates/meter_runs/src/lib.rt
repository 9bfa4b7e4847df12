// Runs of groups in a row and in a source row: whether some of them is merged, by their merge bytes.
#![tactic(auto)]

ghost use Rattle.std.specs.Prelude.{◌≡◌};
ghost use Rattle.meter_runs.specs.Runs.{InRows, none_merged};

// Whether none of n groups is merged in either of two rows, the first of which is group `first`.
pub fn none_merged(row: &[u8], source: &[u8], w: usize, first: usize, n: usize) -> bool
    requires { InRows w n first row.now source.now }
    ensures { result ≡ none_merged w n first row.now source.now }
{
    let start = w + first;
    let end = start + n;
    !group_side::any_merged(&row[start..end]) && !group_side::any_merged(&source[start..end])
}

// The same of eight groups, by one word of merge bytes of each row.
pub fn eight_unmerged(row: &[u8], source: &[u8], w: usize, first: usize) -> bool
    requires { InRows w 8 first row.now source.now }
    ensures { result ≡ none_merged w 8 first row.now source.now }
{
    let start = w + first;
    let end = start + 8;
    group_side::none_merged(&row[start..end], &source[start..end])
}

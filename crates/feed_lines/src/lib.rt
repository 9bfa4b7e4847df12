// A feed's run without its input and output: the head's line, a cleared meter, and one step for each record and the end.
#![tactic(auto)]

ghost use Rattle.std.specs.Prelude.{◌≡◌, ◌+◌, ◌^◌, ◌<◌, ◌≤◌, length, replicate};
ghost use Rattle.geometry.specs.Geometry as geometry;
ghost use Rattle.geometry.specs.Checks.{bad_shape};
ghost use Rattle.feed.specs.Answers.{record_answer};
ghost use Rattle.feed.specs.Head.{headed};
ghost use Rattle.feed.specs.Record.{recorded};
ghost use Rattle.feed_lines.specs.Line.{head_line, line_of};
ghost use Rattle.feed_lines.specs.Step as spec;
ghost use Rattle.feed_lines.specs.Step.{taken_by};
ghost use Rattle.feed_lines.specs.Bounds.{Fitting, FittingLine};

use answer::Answer;
use feed::Recorded;
use feed_line::Line;

// The largest width that the program lends memory for.
pub const MOST_SLOTS: usize = 4096;

// What a record or the end did: its line and the words that it took, with the words and records before the next.
#[derive(Clone, Copy)]
pub struct Progress {
    pub line: Line,
    pub taken: usize,
    pub words: u64,
    pub records: u64,
}

// The line of a head's answer.
#[tactic(auto, unfolding(crate::specs::Line::head_line))]
fn head_line(a: Answer) -> Line
    ensures { result ≡ head_line a }
{
    if a.status != 0 {
        return Line::Stopped {
            status: a.status,
            index: a.position,
        };
    }
    let w = feed::head_width(a.value);
    if w > MOST_SLOTS {
        return Line::Stopped {
            status: answer::WRONG_LENGTH,
            index: 0,
        };
    }
    Line::Geometry {
        d: feed::head_depth(a.value),
        w,
    }
}

// A feed's first line, from the words at hand.
pub fn head(words: &[u32]) -> Line
    ensures value { result ≡ head_line (headed words.now) }
    ensures fitting_line { FittingLine result }
{
    head_line(feed::head(words))
}

// The bytes of the meter of an accepted head.
pub fn size(d: usize, w: usize) -> usize
    requires { Fitting d w }
    ensures value { result ≡ geometry.size d w }
    ensures upper_bound { (result ≤ 36864) × (bad_shape d w result ≡ 0) }
{
    d * geometry::stride(w)
}

// The records start on a cleared meter. Its geometry has passed, so nothing is refused.
pub fn start(d: usize, w: usize, memory: &mut [u8])
    requires { bad_shape d w (length memory.old) ≡ 0 }
    ensures { memory.new ≡ replicate (geometry.size d w) 0 }
{
    let _ = meter::clear(d, w, memory);
}

// The line of a record or the end, after so many words of the feed and so many records.
#[tactic(auto, unfolding(crate::specs::Line::line_of))]
fn line_of(r: Recorded, before: u64, records: u64) -> Line
    requires { before + (record_answer r).position < 2 ^ 64 }
    ensures { result ≡ line_of r before records }
{
    match r {
        Recorded::Updated => Line::Updated,
        Recorded::Estimate { value } => Line::Estimate { value },
        Recorded::Ended => Line::End { records },
        Recorded::Refused { status, position } => {
            feed_line::refused_line(status, before + position)
        }
    }
}

// The words that a line's record took. After a stop nothing is read.
#[tactic(auto, unfolding(crate::specs::Step::taken_by))]
fn taken(l: Line, words: &[u32]) -> usize
    ensures { result ≡ taken_by l words.now }
{
    if feed_line::continues(l) || feed_line::is_end(l) {
        return feed::words_taken(words);
    }
    0
}

// One record or the end, from the words at hand.
pub fn step(
    d: usize,
    w: usize,
    memory: &mut [u8],
    before: u64,
    records: u64,
    words: &[u32],
) -> Progress
    requires memory_value_1 { bad_shape d w (length memory.old) ≡ 0 }
    requires memory_value_2 { length words.now ≤ 25 }
    requires before_bound_1 { before < 2 ^ 63 }
    requires before_bound_2 { records < 2 ^ 63 }
    ensures value { result ≡ spec.progress d w memory.old before records words.now }
    ensures memory_after { memory.new ≡ (recorded d w memory.old before words.now).memory }
    ensures taken_in_bounds { result.taken ≤ length words.now }
{
    let r = feed::record(d, w, memory, before, words);
    let line = line_of(r, before, records);
    let n = taken(line, words);
    let next = before + n as u64;
    let count = records + 1;
    Progress {
        line,
        taken: n,
        words: next,
        records: count,
    }
}

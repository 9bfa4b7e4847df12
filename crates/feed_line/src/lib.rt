// The program's lines: what follows each, and the line of a refused call.
#![tactic(auto)]

ghost use Rattle.std.specs.Prelude.{◌≡◌};
ghost use Rattle.feed_line.specs.Line as spec;
ghost use Rattle.feed_line.specs.Line.{is_end};

// A line prints a refusal's number, so that is what it holds.
#[derive(Clone, Copy, Debug, PartialEq, Eq)]
pub enum Line {
    Geometry { d: usize, w: usize },
    Updated,
    Estimate { value: u64 },
    End { records: u64 },
    Refused { status: u8 },
    Stopped { status: u8, index: u64 },
}

// Whether a record follows.
#[tactic(auto, unfolding(crate::specs::Line::continues))]
pub fn continues(l: Line) -> bool
    ensures { result ≡ spec.continues l }
{
    !matches!(l, Line::End { .. } | Line::Stopped { .. })
}

// Whether a line is the end's.
#[tactic(auto, unfolding(crate::specs::Line::is_end))]
pub fn is_end(l: Line) -> bool
    ensures { result ≡ is_end l }
{
    matches!(l, Line::End { .. })
}

#[tactic(auto, unfolding(crate::specs::Line::stops))]
fn stops(status: u8) -> bool
    ensures { result ≡ spec.stops status }
{
    matches!(
        status,
        answer::INVALID_DEPTH
            | answer::INVALID_WIDTH
            | answer::INVALID_KEY_LENGTH
            | answer::BAD_WORD
            | answer::BAD_PAYLOAD
    )
}

// The line of a call that was refused, by its number and the index of its word.
#[tactic(auto, unfolding(crate::specs::Line::refused_line))]
pub fn refused_line(status: u8, index: u64) -> Line
    ensures { result ≡ spec.refused_line status index }
{
    if stops(status) {
        return Line::Stopped { status, index };
    }
    Line::Refused { status }
}

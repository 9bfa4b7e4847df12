// The text of the program's lines, put together by value. No input or output.
#![tactic(auto)]

mod text;

ghost use Rattle.std.specs.Prelude.{◌≡◌, ◌≤◌};
ghost use Rattle.feed_text.specs.Text.{content};
ghost use Rattle.feed_text.specs.Line as spec;

use feed_line::Line;
pub use text::Text;
use text::{begin, pair, single};

// Each line begins with its word.
#[tactic(auto, unfolding(crate::specs::Line::text))]
pub fn text_of(l: Line) -> Text
    ensures result_value { content result ≡ spec.text l }
    ensures length_bound { result.length ≤ 64 }
{
    match l {
        Line::Geometry { d, w } => pair(b"geometry ", d as u64, b" ", w as u64),
        Line::Updated => begin(b"updated\n"),
        Line::Estimate { value } => single(b"estimate ", value),
        Line::End { records } => single(b"end ", records),
        Line::Refused { status } => single(b"refused ", status as u64),
        Line::Stopped { status, index } => pair(b"stopped ", status as u64, b" at ", index),
    }
}

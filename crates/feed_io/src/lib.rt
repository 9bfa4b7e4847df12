// The program's buffers: standard input read in pieces, and lines gathered for standard output.
#![tactic(auto)]

mod input;
mod output;

pub use input::{Input, after, is_short, refill};
pub use output::{Output, append, flush, make_room};

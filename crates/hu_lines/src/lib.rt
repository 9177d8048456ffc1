//! Lines from the pieces in which files are read: [`Lines`] takes the bytes of a run, in whatever pieces they come,
//! and gives each line as it ends; [`LineFault`] is the limit that a line passes; [`is_skipped`] tells which lines
//! hold no record. It stands on `hu_kind` for want of memory, and on `memchr` to find line feeds.
//!
//! Begin at [`Lines`]. What the lines of bytes are is defined in `specs/Pieces.antt`, the limits in
//! `specs/Limits.antt`, what a [`Lines`] is seen as in `specs/Lines.antt`, and what its calls give of a file that comes
//! in cuts in `specs/Cuts.antt`: by [`fed_gives_lines`] the lines of its bytes.
#![tactic(auto)]

mod laws;
mod limits;
mod lines;
mod skipped;

pub use laws::{
    fed_comes_first, fed_gives_lines, first_piece_comes_first, first_refusal_stands,
    held_comes_first, refusal_stands, rest_is_one_piece, whole_piece_comes_first,
};
pub use limits::{LARGEST_INPUT, LONGEST_LINE, LineFault};
pub use lines::{Fed, Lines};
pub use skipped::is_skipped;

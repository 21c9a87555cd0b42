//! The text of a document as the Language Server Protocol sees it: lines, positions in them, and changes.
//!
//! The protocol names a place in a text by a [`Position`], a line and a character, and changes a document by a
//! [`Change`], a new text for a [`Range`] of positions. A program reads bytes. A [`Text`] stands between the two:
//! it turns positions into byte offsets and back, in each of the protocol's three encodings, and applies changes.
//!
//! Each call says what it answers by a definition of `specs/`: `Lines` cuts a text into lines, `Positions` counts
//! in them, `Edits` replaces. The laws at the end tie these definitions to the protocol's own words.
#![tactic(auto)]

mod change;
mod cursor;
mod encoding;
mod laws;
mod position;
mod scan;
mod text;
mod walk;

pub use change::Change;
pub use cursor::positions_of;
pub use encoding::Encoding;
pub use laws::{
    changes_keep_the_rest, changes_keep_utf8, changes_of_the_whole, line_cuts, lines_joined,
    longest_runs, offsets_in_characters, offsets_in_line_ends, offsets_past_the_end,
    positions_between_characters, positions_in_the_text, positions_lead_back,
    positions_past_the_end, ranges_turned_round, round_trips,
};
pub use position::{Position, Range};
pub use scan::offset_of;
pub use text::Text;
pub use walk::Walk;

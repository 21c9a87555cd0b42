//! Laws of a board of texts, each a function that does nothing and whose contract is the law.
//!
//! `texts_after_events`: what each event does to the texts; so `texts_of_events` gives them from the events alone.
//! `one_list_of_texts`: the texts of a board have one list in path order, and boards with the same texts list them alike
//! (`texts_of_equal_sets`, `texts_as_a_list`). `jobs_and_pieces`: what a job and its piece do, and when a board is complete;
//! `rounds_of_work`: jobs and their pieces make it so.
#![tactic(auto)]

mod text_laws;
mod work_laws;

pub use text_laws::{
    one_list_of_texts, texts_after_events, texts_as_a_list, texts_of_equal_sets, texts_of_events,
};
pub use work_laws::{jobs_and_pieces, rounds_of_work};

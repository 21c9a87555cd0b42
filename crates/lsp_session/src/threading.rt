// How a session works with threads.

use work_index::Gate;

// The runtime, how many threads work on texts and link files, and the gate that they pass.
#[derive(Drop)]
pub struct Threading<'t, R, G: Gate> {
    pub rt: &'t R,
    pub workers: usize,
    pub gate: &'t G,
}

// Where a run stands between two takings.
#![tactic(auto)]

use ring::Queue;

// All that a run needs between two takings, beside the workspace.
#[derive(Clone, Copy)]
pub struct Run {
    pub validating: bool,
    pub chunk: usize,
    pub queue: Queue,
    pub steps: u32,
    pub changed: bool,
}

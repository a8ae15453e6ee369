// What the walk that fills the index keeps of the chunk at work. What the walk leaves in the workspace is proved in
// proofs/model/.
#[derive(Clone, Copy)]
pub struct FillState {
    // the chunks seen so far, where the numbers of the last stand, and its instructions so far
    pub seen: usize,
    pub numbers: usize,
    pub instrs: usize,
    // the next free word, and the words of a row
    pub free: usize,
    pub size: usize,
    // whether what a run left in the slots stays
    pub keep: bool,
}

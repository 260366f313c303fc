// What a run answers. What the answer and the two lent buffers must be, and the demands about a run, are in specs/; proofs/ has the theorems.
#![tactic(auto)]

// The four counts of a run: accepted and refused actions, events in the account, settled events.
#[derive(Clone, Copy, Debug, Default, PartialEq, Eq)]
pub struct Counts {
    pub accepted: usize,
    pub refused: usize,
    pub events: usize,
    pub settled: usize,
}

// What the programs share: standard input through a window, its chunks, the buffers that a run is handed and lent, the hash, and what a line of output is made of.
#![tactic(auto)]

pub mod chunk;
pub mod front;
pub mod hash;
pub mod room;
#[cfg(test)]
mod tests;
pub mod told;
pub mod window;

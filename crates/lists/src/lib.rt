// Lists on the wire: the record's bytes, the reader, the memory values, the writer and the walker; and the account's lines.
#![tactic(auto)]

pub mod bytes;
pub mod line;
pub mod memory;
pub mod reader;
pub mod walker;
pub mod writer;

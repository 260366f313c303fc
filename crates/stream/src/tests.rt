// An input that ends inside a chunk's count and goes on after its end, as a terminal can: what comes then is not read.
use crate::chunk::Chunk;
use crate::window::{CutShort, Input};
use std::io::{self, Read};

// Two bytes, then the end, then two bytes a read again.
#[derive(Drop)]
struct Resumed {
    reads: u8,
}

impl Read for Resumed {
    fn read(&mut self, buffer: &mut [u8]) -> io::Result<usize> {
        let has_ended = self.reads == 1;
        self.reads = self.reads.saturating_add(1);
        if has_ended {
            return Ok(0);
        }
        Ok(buffer.len().min(2))
    }
}

#[test]
fn nothing_is_read_after_the_end(rt: HostRuntime) {
    let mut reader = Resumed { reads: 0 };
    let mut buffer = [0u8; 8];
    let came: Result<Option<Chunk>, CutShort> = Input::new(&mut reader, &mut buffer).next_chunk(8);
    assert_eq!(rt; came, Err(CutShort { missing: 2 }));
    assert_eq!(rt; reader.reads, 2);
}

// What an item is made of, as bytes: its parts one after the other. A byte past the end reads as 0, and a number that does not fit is not written.
// Kept: each struct names its fields twice, since the gate refuses an impl that a derive of the repository's own writes, and a store has two structs for its queues, since the C interface has them.
use figure::{Address, Engine, Sizes};
use lists::bytes::{WORD, put_u32};
use shape::{Cache, InEntry, InQueue, OutEntry, OutQueue, Store};
use std::array;

// Bytes are taken off the front of a slice: a call of `Read` or `Write` for each of them took five times as long.
pub(crate) trait Coded {
    fn read(from: &mut &[u8]) -> Self;

    fn write(self, to: &mut &mut [u8]);
}

impl Coded for u8 {
    fn read(from: &mut &[u8]) -> u8 {
        from.split_off_first().copied().unwrap_or(0)
    }

    fn write(self, to: &mut &mut [u8]) {
        if let Some(byte) = to.split_off_first_mut() {
            *byte = self;
        }
    }
}

impl Coded for bool {
    fn read(from: &mut &[u8]) -> bool {
        u8::read(from) != 0
    }

    fn write(self, to: &mut &mut [u8]) {
        u8::from(self).write(to);
    }
}

impl<T: Coded + Copy, const N: usize> Coded for [T; N] {
    fn read(from: &mut &[u8]) -> [T; N] {
        array::from_fn(|_| T::read(from))
    }

    fn write(self, to: &mut &mut [u8]) {
        for x in self {
            x.write(to);
        }
    }
}

impl Coded for u32 {
    fn read(from: &mut &[u8]) -> u32 {
        let Some((word, rest)) = from.split_first_chunk::<WORD>() else {
            return u32::from_be_bytes(Coded::read(from));
        };
        *from = rest;
        u32::from_be_bytes(*word)
    }

    fn write(self, to: &mut &mut [u8]) {
        if let Some(word) = to.split_off_mut(..WORD) {
            put_u32(word, 0, self);
        }
    }
}

impl Coded for Address {
    fn read(from: &mut &[u8]) -> Address {
        Address(Coded::read(from))
    }

    fn write(self, to: &mut &mut [u8]) {
        self.0.write(to);
    }
}

impl Coded for Engine {
    fn read(from: &mut &[u8]) -> Engine {
        Engine(Coded::read(from))
    }

    fn write(self, to: &mut &mut [u8]) {
        self.0.write(to);
    }
}

impl Coded for Sizes {
    fn read(from: &mut &[u8]) -> Sizes {
        Sizes {
            engines: Coded::read(from),
            addresses: Coded::read(from),
            depth: Coded::read(from),
        }
    }

    fn write(self, to: &mut &mut [u8]) {
        self.engines.write(to);
        self.addresses.write(to);
        self.depth.write(to);
    }
}

impl Coded for Cache {
    fn read(from: &mut &[u8]) -> Cache {
        Cache {
            present: Coded::read(from),
            data: Coded::read(from),
        }
    }

    fn write(self, to: &mut &mut [u8]) {
        self.present.write(to);
        self.data.write(to);
    }
}

impl Coded for OutEntry {
    fn read(from: &mut &[u8]) -> OutEntry {
        OutEntry {
            address: Coded::read(from),
            data: Coded::read(from),
        }
    }

    fn write(self, to: &mut &mut [u8]) {
        self.address.write(to);
        self.data.write(to);
    }
}

impl Coded for OutQueue {
    fn read(from: &mut &[u8]) -> OutQueue {
        OutQueue {
            len: Coded::read(from),
            entries: Coded::read(from),
        }
    }

    fn write(self, to: &mut &mut [u8]) {
        self.len.write(to);
        self.entries.write(to);
    }
}

impl Coded for InEntry {
    fn read(from: &mut &[u8]) -> InEntry {
        InEntry {
            origin: Coded::read(from),
            address: Coded::read(from),
            data: Coded::read(from),
        }
    }

    fn write(self, to: &mut &mut [u8]) {
        self.origin.write(to);
        self.address.write(to);
        self.data.write(to);
    }
}

impl Coded for InQueue {
    fn read(from: &mut &[u8]) -> InQueue {
        InQueue {
            len: Coded::read(from),
            entries: Coded::read(from),
        }
    }

    fn write(self, to: &mut &mut [u8]) {
        self.len.write(to);
        self.entries.write(to);
    }
}

impl Coded for Store {
    fn read(from: &mut &[u8]) -> Store {
        Store {
            sizes: Coded::read(from),
            memory: Coded::read(from),
            caches: Coded::read(from),
            outs: Coded::read(from),
            ins: Coded::read(from),
        }
    }

    fn write(self, to: &mut &mut [u8]) {
        self.sizes.write(to);
        self.memory.write(to);
        self.caches.write(to);
        self.outs.write(to);
        self.ins.write(to);
    }
}

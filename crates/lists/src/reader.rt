// The reader: the sizes of a list, and where its memory and its actions begin.
ghost use Rattle.std.specs.Prelude.{◌≡◌};
ghost use Rattle.lists.specs.Read.{reading, read_of};

use crate::bytes::{RECORD, WORD, get_u32};
use figure::{ADDRESSES, Refused, Sizes, judge_sizes};

// The bytes before the memory values: the length field, the version and the three sizes.
pub const HEADER: usize = 8;

pub const VERSION: u8 = 1;

pub const MOST_ACTIONS: usize = 2048;

// The header, the most memory values and the most actions: 16,648 bytes.
pub const MOST_LIST: usize = HEADER + WORD * ADDRESSES + RECORD * MOST_ACTIONS;

// What the reader finds in a list that it takes.
// Kept: offsets and no slices, since what may not change needs them: read's clause (`read_of` of specs/Read) gives memory_at, actions_at and the count by number.
#[derive(Clone, Copy, Debug, PartialEq, Eq)]
pub struct Layout {
    pub sizes: Sizes,
    pub memory_at: usize,
    pub actions_at: usize,
    pub actions: usize,
}

// Takes any bytes, and answers the first refusal that applies.
pub fn read(s: &[u8]) -> Result<Layout, Refused>
    ensures { reading result ≡ read_of s.now }
{
    let [_, _, _, _, version, engines, addresses, depth, rest @ ..] = s else {
        return Err(Refused::TooShort);
    };
    if get_u32(s, 0) as usize != s.len() - WORD {
        return Err(Refused::LengthField);
    }
    if *version != VERSION {
        return Err(Refused::Version);
    }
    let sizes = Sizes {
        engines: *engines,
        addresses: *addresses,
        depth: *depth,
    };
    judge_sizes(sizes)?;
    let memory = WORD * usize::from(sizes.addresses);
    let Some(left) = rest.len().checked_sub(memory) else {
        return Err(Refused::MemoryCut);
    };
    if left % RECORD != 0 {
        return Err(Refused::ActionCut);
    }
    let actions = left / RECORD;
    if actions > MOST_ACTIONS {
        return Err(Refused::TooManyActions);
    }
    Ok(Layout {
        sizes,
        memory_at: HEADER,
        actions_at: HEADER + memory,
        actions,
    })
}

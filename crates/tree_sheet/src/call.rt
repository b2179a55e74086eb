// A call on a tree sheet with its arguments, and how it ended.
use cells::Kind;
use denial::Denial;

#[derive(PartialEq, Debug, Drop)]
pub enum Call<K: Kind> {
    Lay { fanout: u32, height: u32 },
    Enter { node: u32, cell: K },
    EnterWire { wire: u32, cell: K },
    Strike { node: u32 },
    Load { table: Vec<u8> },
    Release,
    Read { node: u32 },
    // into a buffer of so many bytes
    Publish { room: usize },
}

// What an accepted call answers.
#[derive(PartialEq, Debug, Drop)]
pub enum Answer<K: Kind> {
    Done,
    // the numerators of a node, and the denominator
    Cell(K, u64),
    // the bytes that were written
    Publication(Vec<u8>),
}

// How a call ended: with its answer, or denied.
pub type Outcome<K> = Result<Answer<K>, Denial>;

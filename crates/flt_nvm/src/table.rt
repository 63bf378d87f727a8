//! The table of blocks.
ghost use Rattle.std.specs.Prelude.{◌↔◌, ◌≤◌, IsTrue, length};
ghost use Rattle.flt_nvm.specs.Table.{IsRedundant, NoneFrom};

/// How a block is kept (AUTOSAR NvM: the block management types).
#[derive(Clone, Copy, Debug, PartialEq, Eq)]
pub enum Kind {
    /// One copy.
    Native,
    /// Two copies of the same bytes, 1 and 2.
    Redundant,
    /// This many blocks of one length, 1 to 8, each under an index of its own.
    Dataset(u8),
}

/// A block of the table.
#[derive(Clone, Copy, Debug, PartialEq, Eq)]
pub struct BlockCfg {
    /// Its identifier, 1 to 8191. 0 is the identifier of a call on all blocks, and no block has it.
    pub id: u16,
    /// How it is kept.
    pub kind: Kind,
    /// The most bytes that it holds, 1 to 128.
    pub length: u8,
}

/// Whether the block of this identifier is a redundant one. Where the table has several, the first counts.
pub fn is_redundant(table: &[BlockCfg], id: u16) -> bool
    ensures { IsTrue result ↔ IsRedundant table.now id }
{
    for block in table {
        if block.id == id {
            return block.kind == Kind::Redundant;
        }
    }
    false
}

/// How many rows the table has up to its last redundant one.
pub(crate) fn redundant_rows(table: &[BlockCfg]) -> usize
    ensures within { result ≤ length table.now }
    ensures none { NoneFrom result table.now }
{
    table
        .iter()
        .rposition(|block| block.kind == Kind::Redundant)
        .map_or(0, |last| last + 1)
}

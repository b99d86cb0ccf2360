// What is told apart (SCOPE, "The cache being counted"): byte addresses, block numbers and set numbers; exponents
// in bytes and document 000's exponents in words. The refusal numbers are in refusal.rt.
#![tactic(auto)]

ghost use Rattle.std.specs.Prelude.{◌≡◌};
ghost use Rattle.cache.specs.Cache.{block_of, set_of};
ghost use Rattle.units.specs.Exponents.{bytes_of};

pub use refusal::Refusal;

pub mod refusal;

// A byte address, 0 to ffffffff (hex).
#[derive(Clone, Copy, Debug, PartialEq, Eq)]
pub struct Addr(pub u32);

// The number of a block: an address divided by the block size.
#[derive(Clone, Copy, Debug, PartialEq, Eq)]
pub struct BlockNo(pub u32);

// The number of a set: a block number modulo the number of sets.
#[derive(Clone, Copy, Debug, PartialEq, Eq)]
pub struct SetNo(pub u32);

// A block size of 2^b bytes, by its exponent b. Only this is taken for a block size.
#[derive(Clone, Copy, Debug, PartialEq, Eq)]
pub struct ByteExp(pub u32);

// Document 000's block size of 2^n words of 8 bytes, by its exponent n.
#[derive(Clone, Copy, Debug, PartialEq, Eq)]
pub struct WordExp(pub u32);

impl Addr {
    // "addresses are 0 to ffffffff"
    pub const MOST: u32 = 4294967295;

    // Its block of 2^b bytes.
    pub fn block(self, b: ByteExp) -> BlockNo
        ensures { result.0 ≡ block_of b.0 self.0 }
    {
        BlockNo(self.0.checked_shr(b.0).unwrap_or(0))
    }
}

impl BlockNo {
    // The block 2^k times as large that holds it.
    pub fn wider(self, k: u32) -> BlockNo
        ensures { result.0 ≡ block_of k self.0 }
    {
        BlockNo(self.0.checked_shr(k).unwrap_or(0))
    }

    // The set of the block among 2^s sets.
    pub fn set(self, s: u32) -> SetNo
        ensures { result.0 ≡ set_of s self.0 }
    {
        match 1u32.checked_shl(s) {
            Some(sets) => SetNo(self.0 % sets),
            None => SetNo(self.0),
        }
    }
}

impl ByteExp {
    // The largest exponent that 32 bits hold, outside every limit.
    pub const MOST: u32 = 4294967295;
}

impl WordExp {
    // The same block size, counted in bytes. (No `From`: the largest exponents all become the largest, so nothing leads back.)
    pub fn in_bytes(self) -> ByteExp
        ensures { result.0 ≡ bytes_of self.0 }
    {
        ByteExp(self.0.saturating_add(3))
    }
}

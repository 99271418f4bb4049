//! Which partitions a block touches, read from its bytes in place.

ghost use Rattle.std.specs.Prelude.{◌≡◌};
ghost use Rattle.pl_block.specs.Block.{Content};
ghost use Rattle.pl_block.specs.Spelling.{IsBlock, block_spelling};
ghost use Rattle.pl_block.specs.Touching.{any_at, touches_between};

use bytes::Buf;

/// The bytes of an LSN, with which a spelling begins.
const LSN_LEN: usize = 8;

// Whether one of the partitions, two bytes each, is one from `lo` to `hi`.
fn any_at(bytes: &[u8], count: u16, lo: u16, hi: u16) -> bool
    ensures value { result ≡ any_at lo hi count bytes.now }
{
    let mut rest = bytes;
    for _ in 0..count {
        if rest.len() < 2 {
            return false;
        }
        let partition = rest.get_u16();
        if lo <= partition && partition <= hi {
            return true;
        }
    }
    false
}

/// Whether the block of this spelling touches a partition from `lo` to `hi`.
///
/// The annotations are read in place, up to the first that is in the range: nothing is decoded and
/// nothing allocated. Of bytes that spell no block nothing is said.
pub fn spelling_touches(spelling: &[u8], lo: u16, hi: u16) -> bool
    // Whether the block of the spelling touches a partition from `lo` to `hi`.
    ensures value { (b : Content) → IsBlock b → spelling.now ≡ block_spelling b →
        result ≡ touches_between lo hi b }
{
    if spelling.len() < LSN_LEN + 2 {
        return false;
    }
    let mut rest = spelling;
    rest.advance(LSN_LEN);
    let count = rest.get_u16();
    any_at(rest, count, lo, hi)
}

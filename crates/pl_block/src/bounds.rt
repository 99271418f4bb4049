//! The bounds that every crate shares, and the tests of them. The definitions cite each bound under
//! the same name, in small letters.

ghost use Rattle.std.specs.Prelude.{◌≡◌};
ghost use Rattle.pl_block.specs.Reading.{len_fault, lsn_fault, put_fault};

use crate::fault::Fault;

/// The last LSN that a block can have.
pub const LAST_LSN: u64 = 1 << 48;

/// How many LSNs above the hardened end may be written.
pub const WINDOW: u64 = 64;

/// The most bytes that a block can have.
pub const LONGEST_BLOCK: usize = 32_768;

/// The bytes of a page.
pub const PAGE_SIZE: usize = 8_192;

/// Whether a block can have the LSN.
pub(crate) fn check_lsn(lsn: u64) -> Result<(), Fault>
    ensures value { result ≡ lsn_fault lsn }
{
    if lsn == 0 || lsn > LAST_LSN {
        return Err(Fault::NumberOutOfRange);
    }
    Ok(())
}

/// Whether a Put can have this many bytes at the offset.
pub(crate) fn check_put(offset: u16, len: usize) -> Result<(), Fault>
    ensures value { result ≡ put_fault offset len }
{
    if len == 0 {
        return Err(Fault::EmptyPut);
    }
    if usize::from(offset).saturating_add(len) > PAGE_SIZE {
        return Err(Fault::PutPastPage);
    }
    Ok(())
}

/// Whether a block can have this many bytes.
pub(crate) fn check_len(len: usize) -> Result<(), Fault>
    ensures value { result ≡ len_fault len }
{
    if len > LONGEST_BLOCK {
        return Err(Fault::TooLong);
    }
    Ok(())
}

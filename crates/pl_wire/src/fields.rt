//! The fields of a reply. Each reader takes one from the front and leaves what follows it.

ghost use Rattle.std.specs.Prelude.{◌≡◌, ◌≤◌, Err, IfErr, IfOk, Ok, length};
ghost use Rattle.std.specs.Int.{w16, w32, w64};
ghost use Rattle.pl_block.specs.Faults.{Reads};
ghost use Rattle.pl_table.specs.Requests.Ops.{op_of_number, role_of_number};
ghost use Rattle.pl_wire.specs.declared.fault.WireFault.TheVariants.{OutOfRange, UnknownKind, UnknownRole};
ghost use Rattle.pl_wire.specs.Reading.{number_in};
ghost use Rattle.pl_wire.specs.ReplyReading.{byte_at, bytes_taken, count_at, number_taken, one_at, section_of_number};

use crate::fault::WireFault;
use bytes::Buf;
use pl_table::{Op, Role, Section};

pub(crate) fn take_u8(rest: &mut &[u8]) -> Result<u8, WireFault>
    ensures exact { Reads result rest.new.now (byte_at rest.old.now) }
{
    Ok(rest.try_get_u8()?)
}

pub(crate) fn take_u16(rest: &mut &[u8]) -> Result<u16, WireFault>
    ensures exact { Reads result rest.new.now (number_taken w16 rest.old.now) }
{
    Ok(rest.try_get_u16()?)
}

pub(crate) fn take_u32(rest: &mut &[u8]) -> Result<u32, WireFault>
    ensures exact { Reads result rest.new.now (number_taken w32 rest.old.now) }
{
    Ok(rest.try_get_u32()?)
}

pub(crate) fn take_u64(rest: &mut &[u8]) -> Result<u64, WireFault>
    ensures exact { Reads result rest.new.now (number_taken w64 rest.old.now) }
{
    Ok(rest.try_get_u64()?)
}

/// This many bytes.
pub(crate) fn take_bytes<'a>(rest: &mut &'a [u8], len: usize) -> Result<&'a [u8], WireFault>
    ensures ok { IfOk result (λ bytes.
        bytes_taken len rest.old.now ≡ Ok (bytes.now, rest.new.now)) }
    ensures err { IfErr result (λ fault. bytes_taken len rest.old.now ≡ Err fault) }
    ensures long { IfOk result (λ _. len ≤ length rest.old.now) }
{
    if rest.len() < len {
        return Err(WireFault::EndsInField);
    }
    let (bytes, after) = rest.split_at(len);
    *rest = after;
    Ok(bytes)
}

/// A count of at most this many.
#[tactic(auto, unfolding(crate::specs::ReplyReading::count_at))]
pub(crate) fn take_count(rest: &mut &[u8], most: u16) -> Result<u16, WireFault>
    ensures exact { Reads result rest.new.now (count_at most rest.old.now) }
    ensures counted { IfOk result (λ count. (2 ≤ length rest.old.now)
        × (count ≡ number_in w16 0 rest.old.now) × (count ≤ most)) }
{
    let count = take_u16(rest)?;
    if count > most {
        return Err(WireFault::OutOfRange);
    }
    Ok(count)
}

#[tactic(auto, unfolding(crate::specs::ReplyReading::one_at))]
pub(crate) fn take_role(rest: &mut &[u8]) -> Result<Role, WireFault>
    ensures exact { Reads result rest.new.now (one_at role_of_number UnknownRole rest.old.now) }
{
    let number = take_u8(rest)?;
    Role::of_number(number).ok_or(WireFault::UnknownRole)
}

#[tactic(auto, unfolding(crate::specs::ReplyReading::one_at))]
pub(crate) fn take_op(rest: &mut &[u8]) -> Result<Op, WireFault>
    ensures exact { Reads result rest.new.now (one_at op_of_number UnknownKind rest.old.now) }
{
    let number = take_u8(rest)?;
    Op::of_number(number).ok_or(WireFault::UnknownKind)
}

/// The section with this number, or `None` if there is none.
pub(crate) fn section_of(number: u8) -> Option<Section>
    ensures value { result ≡ section_of_number number }
{
    match number {
        1 => Some(Section::A),
        2 => Some(Section::B),
        3 => Some(Section::C),
        _ => None,
    }
}

#[tactic(auto, unfolding(crate::specs::ReplyReading::one_at))]
pub(crate) fn take_section(rest: &mut &[u8]) -> Result<Section, WireFault>
    ensures exact { Reads result rest.new.now (one_at section_of_number OutOfRange rest.old.now) }
{
    let number = take_u8(rest)?;
    section_of(number).ok_or(WireFault::OutOfRange)
}

//! What an address names, and the address after it.

ghost use Rattle.std.specs.Prelude.{◌≡◌, ◌<◌, ◌^◌};
ghost use Rattle.ga_ports.specs.Address.{address_target, advanced_address, IsTargetInRange};

use crate::side::PortSet;
use ga_word::Word18;

/// What an address names (DB001, addresses).
#[derive(Clone, Copy, PartialEq, Eq, Debug)]
pub enum AddressTarget {
    /// A cell of RAM, 0 to 63.
    Ram(u8),
    /// A cell of ROM, 0 to 63.
    Rom(u8),
    /// The register `io`.
    Io,
    /// One or more ports.
    Ports(PortSet),
    /// Nothing: neither memory nor `io` nor a port.
    Bad,
}

/// What the low nine bits of a number name.
#[inline(always)]
pub fn classify_address(address: u32) -> AddressTarget
    ensures value { result ≡ address_target address }
    ensures in_range { IsTargetInRange result }
{
    let low = address % 512;
    if low / 256 == 1 {
        let x = low ^ 0x155;
        if x == 8 {
            return AddressTarget::Io;
        }
        if x == 0 || x % 16 != 0 {
            return AddressTarget::Bad;
        }
        AddressTarget::Ports(PortSet::from_bits((x / 16) as u8))
    } else if low / 128 == 0 {
        AddressTarget::Ram((low % 64) as u8)
    } else {
        AddressTarget::Rom((low % 64) as u8)
    }
}

/// P after a word was read or written there: its low seven bits count up. An address with bit 8 set (a port, `io`, or
/// nothing) stays.
pub fn advance_p(p: u32) -> u32
    ensures value { result ≡ advanced_address p }
    ensures in_range { p < 2 ^ 10 → result < 2 ^ 10 }
{
    if p / 256 % 2 == 1 {
        p
    } else {
        p / 128 * 128 + (p + 1) % 128
    }
}

/// A after a word was read or written there, by the rule for P on A's own bits (this project's own choice).
pub fn advance_a(a: Word18) -> Word18
    ensures { result ≡ advanced_address a }
{
    Word18::from_low_bits(advance_p(a.get()))
}

//! Sides, and the sets of sides that an address names.

ghost use Rattle.std.specs.Prelude.{◌≡◌, ◌<◌, ◌≤◌, IfSome, IsSome, ◌↔◌, IsTrue};
ghost use Rattle.ga_ports.specs.Address.{single_side_set, has_side, side_of_single_set, can_transfer_over_side, IsSingleSideSet};

use std::marker::Model;

/// A side of a node, by the name of its link.
#[derive(Clone, Copy, PartialEq, Eq, Debug)]
pub enum Side {
    /// From an even column to the next, from an odd one to the one before (DB002).
    Right,
    /// From an even row to the next, from an odd one to the one before (DB002).
    Down,
    /// From an even column to the one before, from an odd one to the next (DB002).
    Left,
    /// From an even row to the one before, from an odd one to the next (DB002).
    Up,
}

impl Side {
    /// The side's number in a set.
    pub fn bit_in_set(self) -> u8
        ensures value { result ≡ single_side_set self }
        ensures in_range { result ≤ 8 }
    {
        match self {
            Side::Right => 8,
            Side::Down => 4,
            Side::Left => 2,
            Side::Up => 1,
        }
    }
}

/// A set of sides that isn't empty, which contracts see as a number: right 8, down 4, left 2, up 1.
#[derive(Clone, Copy, PartialEq, Eq, Debug)]
pub struct PortSet {
    sides: u8,
}

impl Model for PortSet {
    ghost use Rattle.std.specs.Prelude.{ℕ, ◌<◌};

    ghost Value = { ℕ };

    ghost view = { λ s. s.sides };

    ghost invariant = { λ s. (0 < s.sides) × (s.sides < 16) };

    ghost inverse = { λ n. record { sides = n } };
}

impl PortSet {
    /// The set of a number, where there is one.
    pub fn new(sides: u8) -> Option<Self>
        ensures valid { IsSome result ↔ ((0 < sides) × (sides < 16)) }
        ensures value { IfSome result (λ s. s ≡ sides) }
    {
        if 0 < sides && sides < 16 {
            Some(PortSet { sides })
        } else {
            None
        }
    }

    /// The set of a number.
    pub fn from_bits(sides: u8) -> Self
        requires { (0 < sides) × (sides < 16) }
        ensures { result ≡ sides }
    {
        PortSet { sides }
    }

    /// The set as a number.
    pub fn get(self) -> u8
        ensures value { result ≡ self }
        ensures in_range { (0 < result) × (result < 16) }
    {
        self.sides
    }

    /// Whether the set has the side.
    pub fn has(self, side: Side) -> bool
        ensures { result ≡ has_side self side }
    {
        match side {
            Side::Right => self.sides / 8 % 2 == 1,
            Side::Down => self.sides / 4 % 2 == 1,
            Side::Left => self.sides / 2 % 2 == 1,
            Side::Up => self.sides % 2 == 1,
        }
    }

    /// The side, where the set has no other.
    pub fn only_side(self) -> Option<Side>
        ensures found { IfSome result (λ side. self ≡ single_side_set side) }
        ensures side { IfSome result (λ side. side ≡ side_of_single_set self) }
        ensures none { IsSome result ↔ IsSingleSideSet self }
    {
        match self.sides {
            8 => Some(Side::Right),
            4 => Some(Side::Down),
            2 => Some(Side::Left),
            1 => Some(Side::Up),
            _ => None,
        }
    }
}

/// Whether a node that waits reading a set and one that waits writing a side can transfer over a side.
pub fn is_transfer_possible_over_side(reads: PortSet, writes: Side, side: Side) -> bool
    ensures { result ≡ can_transfer_over_side reads writes side }
{
    reads.has(side) && writes == side
}

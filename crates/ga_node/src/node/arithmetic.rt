//! Opcodes that compute.

use super::Node;
use crate::saved::Saved;
use ga_slots::Op;
use ga_word::Word18;

impl Node {
    ghost use Rattle.std.specs.Prelude.{◌≡◌, []};
    ghost use Rattle.ga_node.specs.Record.{record_of_node};
    ghost use Rattle.ga_node.specs.inner.Saving.{IsAccessWithoutReadMade};
    ghost use Rattle.ga_node.specs.Table.{opcode_effect};

    /// `+*`, multiply step: S is added to T where A is odd, and T and A are shifted right as one.
    pub(super) fn run_multiply_step(&mut self, saved: &mut Saved)
        requires { saved.old ≡ [] }
        ensures { IsAccessWithoutReadMade (opcode_effect Op.MultiplyStep (record_of_node self.old)) self.old self.new saved.new }
    {
        let top = self.top();
        let second = self.second();
        let a = self.a();
        let (high, low) = Word18::mul_step(top, second, a);
        self.set_a(saved, low);
        self.set_top(saved, high);
        self.go_on(saved);
    }

    /// `2*`: T is shifted left by one bit.
    pub(super) fn run_two_star(&mut self, saved: &mut Saved)
        requires { saved.old ≡ [] }
        ensures { IsAccessWithoutReadMade (opcode_effect Op.TwoStar (record_of_node self.old)) self.old self.new saved.new }
    {
        let top = self.top();
        self.set_top(saved, top.shl());
        self.go_on(saved);
    }

    /// `2/`: T is shifted right by one bit, and bit 17 stays.
    pub(super) fn run_two_slash(&mut self, saved: &mut Saved)
        requires { saved.old ≡ [] }
        ensures { IsAccessWithoutReadMade (opcode_effect Op.TwoSlash (record_of_node self.old)) self.old self.new saved.new }
    {
        let top = self.top();
        self.set_top(saved, top.shr());
        self.go_on(saved);
    }

    /// `invert`: each bit of T is turned.
    pub(super) fn run_invert(&mut self, saved: &mut Saved)
        requires { saved.old ≡ [] }
        ensures { IsAccessWithoutReadMade (opcode_effect Op.Invert (record_of_node self.old)) self.old self.new saved.new }
    {
        let top = self.top();
        let word = top.get();
        self.set_top(saved, Word18::from_low_bits(0x3ffff - word));
        self.go_on(saved);
    }

    /// `+`: T := T + S after a pop, with the carry where bit 9 of P is set.
    pub(super) fn run_plus(&mut self, saved: &mut Saved)
        requires { saved.old ≡ [] }
        ensures { IsAccessWithoutReadMade (opcode_effect Op.Plus (record_of_node self.old)) self.old self.new saved.new }
    {
        let top = self.top();
        let second = self.second();
        let p = self.p();
        if p / 512 % 2 == 1 {
            let old = self.carry();
            let (sum, carry) = top.add_carry(second, old);
            self.set_carry(saved, carry);
            self.pop_to(saved, sum);
            self.go_on(saved);
        } else {
            self.pop_to(saved, top.add(second));
            self.go_on(saved);
        }
    }

    /// `and`: T := T and S, bit by bit, after a pop.
    pub(super) fn run_and(&mut self, saved: &mut Saved)
        requires { saved.old ≡ [] }
        ensures { IsAccessWithoutReadMade (opcode_effect Op.And (record_of_node self.old)) self.old self.new saved.new }
    {
        let top = self.top();
        let second = self.second();
        let x = top.get();
        let y = second.get();
        self.pop_to(saved, Word18::from_low_bits(x & y));
        self.go_on(saved);
    }

    /// `or`: T := T exclusive-or S after a pop.
    pub(super) fn run_or(&mut self, saved: &mut Saved)
        requires { saved.old ≡ [] }
        ensures { IsAccessWithoutReadMade (opcode_effect Op.Or (record_of_node self.old)) self.old self.new saved.new }
    {
        let top = self.top();
        let second = self.second();
        let x = top.get();
        let y = second.get();
        self.pop_to(saved, Word18::from_low_bits(x ^ y));
        self.go_on(saved);
    }
}

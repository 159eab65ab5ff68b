//! Opcodes that change P: return, `ex`, jumps, call and loops.

use super::Node;
use crate::saved::Saved;
use ga_slots::{Op, target};
use ga_word::Word18;

impl Node {
    ghost use Rattle.std.specs.Prelude.{◌≡◌, ◌+◌, ◌<◌, ◌≤◌, [], length};
    ghost use Rattle.ga_node.specs.Record.{record_of_node};
    ghost use Rattle.ga_node.specs.Changes.{node_after_changes};
    ghost use Rattle.ga_node.specs.inner.Saving.{IsAccessWithoutReadMade, SavesOldValues, AreChangesMadeAndSaved};
    ghost use Rattle.ga_node.specs.Table.{opcode_effect, jump_changes, conditional_jump_changes};

    /// P := the address that the slot names, and the rest of the word is passed over.
    #[tactic(auto, using(crate::proofs::Saving::saves_as))]
    #[inline(always)]
    fn jump(&mut self, saved: &mut Saved)
        requires slot { (record_of_node self.old).slot < 3 }
        requires room { length saved.old + 2 ≤ 6 }
        ensures change { record_of_node self.new ≡ node_after_changes (jump_changes (record_of_node self.old)) (record_of_node self.old) }
        ensures saves { SavesOldValues (jump_changes (record_of_node self.old)) self.old saved.old self.new saved.new }
    {
        let p = self.p();
        let i = self.i();
        let slot = self.slot();
        let to = target(p, i, slot);
        self.leave(saved, to);
    }

    /// A jump where a condition holds; else the rest of the word is passed over.
    #[inline(always)]
    fn jump_where(&mut self, saved: &mut Saved, is_so: bool)
        requires slot { (record_of_node self.old).slot < 3 }
        requires empty { saved.old ≡ [] }
        ensures { AreChangesMadeAndSaved (conditional_jump_changes is_so (record_of_node self.old)) self.old self.new saved.new }
    {
        if is_so {
            self.jump(saved);
        } else {
            self.skip(saved);
        }
    }

    /// `;`, return: P := the low ten bits of R, and R is popped.
    pub(super) fn run_return(&mut self, saved: &mut Saved)
        requires { saved.old ≡ [] }
        ensures { IsAccessWithoutReadMade (opcode_effect Op.Return (record_of_node self.old)) self.old self.new saved.new }
    {
        let top = self.top_return();
        let p = top.get();
        self.set_p(saved, p % 1024);
        self.pop_return(saved);
        self.skip(saved);
    }

    /// `ex`, execute: P := the low ten bits of R, and R := the old P.
    pub(super) fn run_execute(&mut self, saved: &mut Saved)
        requires { saved.old ≡ [] }
        ensures { IsAccessWithoutReadMade (opcode_effect Op.Execute (record_of_node self.old)) self.old self.new saved.new }
    {
        let old = self.p();
        let top = self.top_return();
        let p = top.get();
        self.set_p(saved, p % 1024);
        self.set_top_return(saved, Word18::from_low_bits(old));
        self.skip(saved);
    }

    /// `jump`: P := the address that the slot names.
    #[inline(always)]
    pub(super) fn run_jump(&mut self, saved: &mut Saved)
        requires slot { (record_of_node self.old).slot < 3 }
        requires empty { saved.old ≡ [] }
        ensures { IsAccessWithoutReadMade (opcode_effect Op.Jump (record_of_node self.old)) self.old self.new saved.new }
    {
        self.jump(saved);
    }

    /// `call`: P is pushed on the return stack, and then a jump.
    pub(super) fn run_call(&mut self, saved: &mut Saved)
        requires slot { (record_of_node self.old).slot < 3 }
        requires empty { saved.old ≡ [] }
        ensures { IsAccessWithoutReadMade (opcode_effect Op.Call (record_of_node self.old)) self.old self.new saved.new }
    {
        let p = self.p();
        self.push_return(saved, Word18::from_low_bits(p));
        self.jump(saved);
    }

    /// `unext`: while R is not 0, R counts down and the word starts again; at 0, R is popped.
    pub(super) fn run_unext(&mut self, saved: &mut Saved)
        requires { saved.old ≡ [] }
        ensures { IsAccessWithoutReadMade (opcode_effect Op.Unext (record_of_node self.old)) self.old self.new saved.new }
    {
        let top = self.top_return();
        let count = top.get();
        if count == 0 {
            self.pop_return(saved);
            self.go_on(saved);
        } else {
            self.set_top_return(saved, Word18::from_low_bits(count - 1));
            self.start_again(saved);
        }
    }

    /// `next`: while R is not 0, R counts down and a jump follows; at 0, R is popped.
    pub(super) fn run_next(&mut self, saved: &mut Saved)
        requires slot { (record_of_node self.old).slot < 3 }
        requires empty { saved.old ≡ [] }
        ensures { IsAccessWithoutReadMade (opcode_effect Op.Next (record_of_node self.old)) self.old self.new saved.new }
    {
        let top = self.top_return();
        let count = top.get();
        if count == 0 {
            self.pop_return(saved);
            self.skip(saved);
        } else {
            self.set_top_return(saved, Word18::from_low_bits(count - 1));
            self.jump(saved);
        }
    }

    /// `if`: a jump where T is 0. T stays.
    pub(super) fn run_if(&mut self, saved: &mut Saved)
        requires slot { (record_of_node self.old).slot < 3 }
        requires empty { saved.old ≡ [] }
        ensures { IsAccessWithoutReadMade (opcode_effect Op.If (record_of_node self.old)) self.old self.new saved.new }
    {
        let top = self.top();
        let word = top.get();
        self.jump_where(saved, word == 0);
    }

    /// `-if`: a jump where bit 17 of T is 0. T stays.
    pub(super) fn run_minus_if(&mut self, saved: &mut Saved)
        requires slot { (record_of_node self.old).slot < 3 }
        requires empty { saved.old ≡ [] }
        ensures { IsAccessWithoutReadMade (opcode_effect Op.MinusIf (record_of_node self.old)) self.old self.new saved.new }
    {
        let top = self.top();
        let word = top.get();
        self.jump_where(saved, word / 131072 == 0);
    }
}

//! Opcodes that move words between the stacks and registers.

use super::Node;
use crate::saved::Saved;
use ga_slots::Op;

impl Node {
    ghost use Rattle.std.specs.Prelude.{◌≡◌, []};
    ghost use Rattle.ga_node.specs.Record.{record_of_node};
    ghost use Rattle.ga_node.specs.inner.Saving.{IsAccessWithoutReadMade};
    ghost use Rattle.ga_node.specs.Table.{opcode_effect};

    /// `drop`: the data stack is popped.
    pub(super) fn run_drop(&mut self, saved: &mut Saved)
        requires { saved.old ≡ [] }
        ensures { IsAccessWithoutReadMade (opcode_effect Op.Drop (record_of_node self.old)) self.old self.new saved.new }
    {
        self.pop_data(saved);
        self.go_on(saved);
    }

    /// `dup`: T is pushed on the data stack.
    pub(super) fn run_dup(&mut self, saved: &mut Saved)
        requires { saved.old ≡ [] }
        ensures { IsAccessWithoutReadMade (opcode_effect Op.Dup (record_of_node self.old)) self.old self.new saved.new }
    {
        let top = self.top();
        self.push_data(saved, top);
        self.go_on(saved);
    }

    /// `pop`: R is pushed on the data stack, and popped.
    pub(super) fn run_pop(&mut self, saved: &mut Saved)
        requires { saved.old ≡ [] }
        ensures { IsAccessWithoutReadMade (opcode_effect Op.Pop (record_of_node self.old)) self.old self.new saved.new }
    {
        let top = self.top_return();
        self.push_data(saved, top);
        self.pop_return(saved);
        self.go_on_seventh(saved);
    }

    /// `over`: S is pushed on the data stack.
    pub(super) fn run_over(&mut self, saved: &mut Saved)
        requires { saved.old ≡ [] }
        ensures { IsAccessWithoutReadMade (opcode_effect Op.Over (record_of_node self.old)) self.old self.new saved.new }
    {
        let second = self.second();
        self.push_data(saved, second);
        self.go_on(saved);
    }

    /// `a`: A is pushed on the data stack.
    pub(super) fn run_a(&mut self, saved: &mut Saved)
        requires { saved.old ≡ [] }
        ensures { IsAccessWithoutReadMade (opcode_effect Op.A (record_of_node self.old)) self.old self.new saved.new }
    {
        let a = self.a();
        self.push_data(saved, a);
        self.go_on(saved);
    }

    /// `push`: T is pushed on the return stack, and popped.
    pub(super) fn run_push(&mut self, saved: &mut Saved)
        requires { saved.old ≡ [] }
        ensures { IsAccessWithoutReadMade (opcode_effect Op.Push (record_of_node self.old)) self.old self.new saved.new }
    {
        let top = self.top();
        self.push_return(saved, top);
        self.pop_data(saved);
        self.go_on_seventh(saved);
    }

    /// `b!`, b store: B := the low nine bits of T, which is popped.
    pub(super) fn run_b_store(&mut self, saved: &mut Saved)
        requires { saved.old ≡ [] }
        ensures { IsAccessWithoutReadMade (opcode_effect Op.BStore (record_of_node self.old)) self.old self.new saved.new }
    {
        let top = self.top();
        let word = top.get();
        self.set_b(saved, word % 512);
        self.pop_data(saved);
        self.go_on(saved);
    }

    /// `a!`, a store: A := T, which is popped.
    pub(super) fn run_a_store(&mut self, saved: &mut Saved)
        requires { saved.old ≡ [] }
        ensures { IsAccessWithoutReadMade (opcode_effect Op.AStore (record_of_node self.old)) self.old self.new saved.new }
    {
        let top = self.top();
        self.set_a(saved, top);
        self.pop_data(saved);
        self.go_on(saved);
    }
}

//! What decides an event besides its opcode.

use ga_ports::AddressTarget;

/// What decides an event besides its opcode (DB001, opcodes).
#[derive(Clone, Copy, PartialEq, Eq, Debug)]
pub enum DecidingTestOrTarget {
    /// Nothing besides the opcode.
    Plain,
    /// The result of a test.
    TestResult(bool),
    /// What an address names.
    TargetChoice(AddressTarget),
}

impl DecidingTestOrTarget {
    ghost use Rattle.std.specs.Prelude.{◌≡◌};
    ghost use Rattle.ga_ports.specs.Address.{IsTargetInRange};
    ghost use Rattle.ga_event.specs.Flow.{deciding_target, deciding_test_holds};

    /// What the address names; nothing where there is none.
    pub(crate) fn target(self) -> AddressTarget
        requires { IsTargetInRange (deciding_target self) }
        ensures value { result ≡ deciding_target self }
        ensures in_range { IsTargetInRange result }
    {
        match self {
            DecidingTestOrTarget::TargetChoice(target) => target,
            _ => AddressTarget::Bad,
        }
    }

    /// Whether the test held.
    pub(crate) fn holds(self) -> bool
        ensures { result ≡ deciding_test_holds self }
    {
        match self {
            DecidingTestOrTarget::TestResult(held) => held,
            _ => false,
        }
    }
}

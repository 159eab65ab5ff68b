//! Events of a list, made on a lab.

ghost use Rattle.std.specs.Prelude.{◌≡◌, ◌⊎◌, None, Some, Ok, IsSome, IfOk, OnOk, IfErr};
ghost use Rattle.ga_event.specs.Apply.{event_refusal, event_result, replay};
ghost use Rattle.ga_lab.specs.Machine.{chip_of_machine, made_next_event, machine_with_event, own_or_writing_node};
ghost use Rattle.ga_lab.specs.declared.fault.LabFault.TheVariants.{Memory, Full};
ghost use Rattle.ga_check_report.specs.Checking.{HasAppendedEvents};

use ga_event::Event;
use ga_grid::NodeId;
use ga_lab::{Lab, LabFault, MadeEvent};

/// Makes the events one after another.
///
/// # Errors
/// [`LabFault::Full`] or [`LabFault::Memory`]; some of the events may be kept then.
pub(crate) fn make_all(lab: &mut Lab, events: &[Event]) -> Result<(), LabFault>
    requires { IsSome (replay (chip_of_machine lab.old) events.now) }
    ensures made { OnOk result (HasAppendedEvents lab.old events.now lab.new) }
    ensures there { OnOk result (replay (chip_of_machine lab.old) events.now ≡ Some (chip_of_machine lab.new)) }
    ensures faults { IfErr result (λ why. (why ≡ Full) ⊎ (why ≡ Memory)) }
{
    'events: for place in 0..events.len() {
        make(lab, events[place])?;
    }
    Ok(())
}

/// Makes an enabled event. A lab that can count no further event is out of memory.
///
/// # Errors
/// [`LabFault::Full`] or [`LabFault::Memory`].
pub(crate) fn make(lab: &mut Lab, event: Event) -> Result<MadeEvent, LabFault>
    requires { event_refusal (chip_of_machine lab.old) event ≡ None }
    ensures told { IfOk result (λ told. told ≡ made_next_event lab.old event) }
    ensures made { OnOk result (lab.new ≡ machine_with_event lab.old (Ok event)) }
    ensures chip { OnOk result (chip_of_machine lab.new ≡ (event_result (chip_of_machine lab.old) event).0) }
    ensures faults { IfErr result (λ why. (why ≡ Full) ⊎ (why ≡ Memory)) }
{
    // So the kept events can be replayed.
    let _chip = lab.chip();
    match lab.step(own_or_writing_node(event)) {
        Ok(made) => Ok(made),
        Err(LabFault::Full) => Err(LabFault::Full),
        Err(_) => Err(LabFault::Memory),
    }
}

/// The node whose step makes the event: of a pass the writer.
fn own_or_writing_node(event: Event) -> NodeId
    ensures { result ≡ own_or_writing_node event }
{
    match event {
        Event::Own(node) => node,
        Event::Pass { writer, .. } => writer,
    }
}

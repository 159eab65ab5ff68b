//! What a client of the Debug Adapter Protocol is shown, byte for byte, with the names that its schema has.

use crate::common::{CALLS_PROGRAM, assert_equal_values, lab_after_steps, lab_of_image};
use ga_dap_queries::{make_evaluate_body, make_exception_info_body, parse_variable};
use ga_dap_views::{
    Scope, SlotAddress, SourceFile, cell_at_chip_address, chip_address, disassemble_response_body,
    frame_id, make_scopes_body, make_threads_body, make_variables_body, node_of_frame,
    node_of_thread, open_calls, resolve_variables_reference, slot_address_after_steps,
    stack_trace_body, thread_id, variables_reference,
};
use ga_grid::NodeId;
use serde_json::Value;
use std::alloc::{AllocError, Global};
use std::process::Abort;
use std::test::Fail;

/// Asserts that a body was made, and its text.
fn assert_body(rt: &impl Abort, alloc: Global, body: &Result<Value, AllocError>, wanted: &str) {
    match body {
        Ok(value) => match value.to_string(alloc) {
            Ok(text) => assert_eq!(rt; text.as_str(), wanted),
            Err(_) => assert!(rt; false),
        },
        Err(_) => assert!(rt; false),
    }
}

/// Node 701 writes a word to the right.
const WRITER: &[u8] =
    b"ga144 1\nnode 701\np 000000\nram 00 004b12 0001d5 02aaaa 0089b2 010000\nend\n";

#[test]
fn numbers_mean_something(rt: HostRuntime) {
    let node = NodeId::new(127);
    assert_equal_values(&rt, &thread_id(node), &1701);
    assert_equal_values(&rt, &node_of_thread(1701), &Some(node));
    assert_equal_values(&rt, &node_of_thread(1018), &None);
    assert_equal_values(&rt, &frame_id(node, 2), &2035);
    assert_equal_values(&rt, &node_of_frame(2035), &Some((node, 2)));
    assert_equal_values(&rt, &variables_reference(node, Scope::Rom), &1022);
    assert_equal_values(
        &rt,
        &resolve_variables_reference(1022),
        &Some((node, Scope::Rom)),
    );
    assert_equal_values(&rt, &chip_address(node, 5), &0x701005);
    assert_equal_values(&rt, &cell_at_chip_address(0x701005), &Some((node, 5)));
    assert_equal_values(&rt, &cell_at_chip_address(0x0a1005), &None);
}

#[test]
fn threads_are_shown(rt: HostRuntime) -> Result<(), Fail> {
    let alloc = rt.alloc();
    let lab = lab_of_image(alloc, WRITER, 100)?;
    let body = make_threads_body(alloc, &lab, &[NodeId::new(0)]);
    let wanted =
        "{\"threads\":[{\"id\":1000,\"name\":\"000 runs\"},{\"id\":1701,\"name\":\"701 runs\"}]}";
    assert_body(&rt, alloc, &body, wanted);
    let body = make_exception_info_body(alloc, &lab, true, NodeId::new(127));
    let wanted =
        "{\"breakMode\":\"always\",\"description\":\"node 701 runs\",\"exceptionId\":\"stuck\"}";
    assert_body(&rt, alloc, &body, wanted);
    Ok(())
}

#[test]
fn scopes_are_shown(rt: HostRuntime) {
    let alloc = rt.alloc();
    let wanted =
        "{\"scopes\":[{\"expensive\":false,\"name\":\"Registers\",\"variablesReference\":1017},{\"expensive\":false,\"name\":\"Data stack\",\"variablesReference\":1018},{\"expensive\":false,\"name\":\"Return stack\",\"variablesReference\":1019},{\"expensive\":false,\"name\":\"Links\",\"variablesReference\":1020},{\"expensive\":true,\"indexedVariables\":64,\"name\":\"RAM\",\"variablesReference\":1021},{\"expensive\":true,\"indexedVariables\":64,\"name\":\"ROM\",\"variablesReference\":1022}]}";
    assert_body(
        &rt,
        alloc,
        &make_scopes_body(alloc, NodeId::new(127)),
        wanted,
    );
}

/// What is shown of node 701: the scope, the first variable and how many, and the body.
const VARIABLES: [(Scope, u64, u64, &str); 2] = [
    (
        Scope::Ram,
        1,
        2,
        "{\"variables\":[{\"memoryReference\":\"0x701001\",\"name\":\"[01]\",\"value\":\"0001d5 = 469\",\"variablesReference\":0},{\"memoryReference\":\"0x701002\",\"name\":\"[02]\",\"value\":\"02aaaa = 174762 = -87382\",\"variablesReference\":0}]}",
    ),
    (
        Scope::Registers,
        8,
        0,
        "{\"variables\":[{\"name\":\"i\",\"value\":\"000000 = 0\",\"variablesReference\":0},{\"name\":\"slot\",\"value\":\"4, a fetch is due\",\"variablesReference\":0},{\"name\":\"carry\",\"value\":\"0\",\"variablesReference\":0},{\"name\":\"io\",\"value\":\"015555 = 87381\",\"variablesReference\":0}]}",
    ),
];

#[test]
fn variables_are_shown(rt: HostRuntime) -> Result<(), Fail> {
    let alloc = rt.alloc();
    let lab = lab_of_image(alloc, WRITER, 100)?;
    for (scope, start, count, wanted) in VARIABLES {
        let body = make_variables_body(alloc, &lab, false, (NodeId::new(127), scope), start, count);
        assert_body(&rt, alloc, &body, wanted);
    }
    Ok(())
}

#[test]
fn a_register_is_asked_for(rt: HostRuntime) -> Result<(), Fail> {
    let alloc = rt.alloc();
    let lab = lab_of_image(alloc, WRITER, 100)?;
    let wanted = "{\"result\":\"00015d = 349\",\"variablesReference\":0}";
    match parse_variable(alloc, "b")? {
        Some(one) => assert_body(
            &rt,
            alloc,
            &make_evaluate_body(alloc, &lab, false, NodeId::new(0), one),
            wanted,
        ),
        None => assert!(&rt; false),
    }
    assert_equal_values(&rt, &parse_variable(alloc, "[0g]")?.is_some(), &false);
    Ok(())
}

const FILE: SourceFile<'static> = SourceFile {
    name: "calls.f18",
    path: "/calls.f18",
};

/// The open calls of node 000 after seven steps.
const FRAMES: &str =
    "{\"stackFrames\":[{\"column\":7,\"id\":1,\"instructionPointerReference\":\"0x000005\",\"line\":9,\"name\":\"000 quad\",\"source\":{\"name\":\"calls.f18\",\"path\":\"/calls.f18\"}},{\"column\":3,\"id\":2,\"instructionPointerReference\":\"0x000003\",\"line\":6,\"name\":\"000 double\",\"source\":{\"name\":\"calls.f18\",\"path\":\"/calls.f18\"}},{\"column\":5,\"id\":3,\"instructionPointerReference\":\"0x000000\",\"line\":3,\"name\":\"000 main\",\"source\":{\"name\":\"calls.f18\",\"path\":\"/calls.f18\"}}],\"totalFrames\":3}";

/// The one frame of a node that nothing was loaded into.
const OUTSIDE: &str =
    "{\"stackFrames\":[{\"column\":0,\"id\":17,\"line\":0,\"name\":\"001 outside its memory\",\"presentationHint\":\"subtle\"}],\"totalFrames\":1}";

#[test]
fn frames_are_shown(rt: HostRuntime) -> Result<(), Fail> {
    let (lab, notes) = lab_after_steps(&rt, rt.alloc(), CALLS_PROGRAM, 7)?;
    for (node, wanted) in [(NodeId::new(0), FRAMES), (NodeId::new(1), OUTSIDE)] {
        let body = stack_trace_body(rt.alloc(), FILE, &lab, &notes, node, 0, 0);
        assert_body(&rt, rt.alloc(), &body, wanted);
    }
    Ok(())
}

#[test]
fn returned_calls_are_closed(rt: HostRuntime) -> Result<(), Fail> {
    let node = NodeId::new(0);
    let (lab, _) = lab_after_steps(&rt, rt.alloc(), CALLS_PROGRAM, 14)?;
    assert_equal_values(
        &rt,
        &slot_address_after_steps(&lab, node, 0),
        &Some(SlotAddress { cell: 0, slot: 0 }),
    );
    let calls = open_calls(&lab, node);
    assert_equal_values(&rt, &calls.len(), &1);
    match calls.first() {
        Some(call) => {
            assert_equal_values(&rt, &call.step, &3);
            // `call` is in slot 1 of cell 0.
            assert_equal_values(&rt, &call.at, &Some(SlotAddress { cell: 0, slot: 1 }));
        }
        None => assert!(&rt; false),
    }
    let (lab, _) = lab_after_steps(&rt, rt.alloc(), CALLS_PROGRAM, 15)?;
    assert_equal_values(&rt, &open_calls(&lab, node).len(), &0);
    Ok(())
}

#[test]
fn instructions_are_shown(rt: HostRuntime) -> Result<(), Fail> {
    let (lab, notes) = lab_after_steps(&rt, rt.alloc(), CALLS_PROGRAM, 0)?;
    let body = disassemble_response_body(rt.alloc(), FILE, &lab, &notes, NodeId::new(0), 4095, 4);
    let wanted =
        "{\"instructions\":[{\"address\":\"0x000fff\",\"instruction\":\"no memory\",\"presentationHint\":\"invalid\"},{\"address\":\"0x000000\",\"instruction\":\"@p call double\",\"instructionBytes\":\"005603\",\"line\":3,\"location\":{\"name\":\"calls.f18\",\"path\":\"/calls.f18\"},\"symbol\":\"main\"},{\"address\":\"0x000001\",\"instruction\":\"word 5\",\"instructionBytes\":\"000005\",\"line\":3,\"location\":{\"name\":\"calls.f18\",\"path\":\"/calls.f18\"}},{\"address\":\"0x000002\",\"instruction\":\"drop jump main\",\"instructionBytes\":\"03b700\",\"line\":3,\"location\":{\"name\":\"calls.f18\",\"path\":\"/calls.f18\"}}]}";
    assert_body(&rt, rt.alloc(), &body, wanted);
    Ok(())
}

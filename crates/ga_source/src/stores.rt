//! Stores of a constant address over the code of their own node.

ghost use Rattle.std.specs.Prelude.{◌≡◌, ◌<◌, [], ◌++◌, length, if◌then◌else◌, IfOk, OnOk};
ghost use Rattle.ga_source.specs.Reading.{is_data_cell};
ghost use Rattle.ga_source.specs.Reading.{p_after_item as p_behind_of};
ghost use Rattle.ga_source.specs.Stores.{cell_index, code_lines_with_line, code_lines_with_literal, code_lines_with_word, code_line_of_each_cell as code_lines_of, store_address, known_registers_after_opcode, known_registers_after_loop, is_unnamed_label as is_nameless_by, known_values_after_request, store_over_code_at_address, store_over_code_of_request, stores_with_optional_store, stores_over_code_of_program};

use super::group::CellGroup;
use super::program::Program;
use super::reading::resolve;
use ga_parser::{AssemblyItem, AssemblyRequest, Label, LocatedRequest};
use ga_ports::advance_p;
use ga_slots::Op;
use std::alloc::{AllocError, Global};

/// A store that writes a cell which holds code.
#[derive(Clone, Copy, PartialEq, Eq, Debug)]
pub struct StoreOverCode {
    /// The line of the store.
    pub line: u32,
    /// The cell that it writes.
    pub address: u32,
    /// The line of the code.
    pub code_line: u32,
}

/// What is known of A and B along the source, and of the word before.
#[derive(Clone, Copy)]
struct Known {
    a: Option<u32>,
    b: Option<u32>,
    /// The literal just before.
    literal: Option<u32>,
}

const NOTHING_KNOWN: Known = Known {
    a: None,
    b: None,
    literal: None,
};

impl Known {
    /// The address that an opcode stores at, where it is known.
    fn store_address(self, op: Op) -> Option<u32>
        ensures { result ≡ store_address self op }
    {
        match op {
            Op::StoreB => self.b,
            Op::Store | Op::StorePlus => self.a,
            _ => None,
        }
    }

    /// What is known after an opcode.
    fn after(self, op: Op) -> Self
        ensures { result ≡ known_registers_after_opcode self op }
    {
        let Known { a, b, literal } = self;
        let (a, b) = match op {
            Op::AStore => (literal, b),
            Op::BStore => (a, literal),
            Op::StorePlus | Op::FetchPlus => (a.map(|address| advance_p(address)), b),
            Op::MultiplyStep => (None, b),
            Op::Return | Op::Execute | Op::Jump | Op::Call => (None, None),
            _ => (a, b),
        };
        Known {
            a,
            b,
            literal: None,
        }
    }

    /// What is known after the end of a loop, which may move A more than once.
    fn past_loop(self, op: Op) -> Self
        ensures { result ≡ known_registers_after_loop self op }
    {
        Known {
            a: None,
            b: self.after(op).b,
            literal: None,
        }
    }

    /// What is known after a request. A named label may be reached from elsewhere.
    fn behind(self, program: &Program<'_>, request: AssemblyRequest) -> Self
        ensures { result ≡ known_values_after_request program.now self request }
    {
        match request {
            AssemblyRequest::PlaceItem(AssemblyItem::Literal(value)) => Known {
                a: self.a,
                b: self.b,
                literal: resolve(program.labels.as_slice(), value),
            },
            AssemblyRequest::PlaceItem(AssemblyItem::Opcode(op))
            | AssemblyRequest::PlaceItem(AssemblyItem::JumpToLaterLabel(op, _)) => self.after(op),
            AssemblyRequest::PlaceItem(AssemblyItem::JumpToEarlierLabel(op, _)) => self.past_loop(
                op,
            ),
            AssemblyRequest::Unext(_) => self.past_loop(Op::Unext),
            AssemblyRequest::MarkLabel(label) => {
                if is_unnamed_label(program.names.as_slice(), label) {
                    self
                } else {
                    NOTHING_KNOWN
                }
            }
            _ => self,
        }
    }
}

/// Whether a control word made the label.
fn is_unnamed_label(names: &[Label<'_>], label: usize) -> bool
    ensures { result ≡ is_nameless_by names.now label }
{
    match names.get(label) {
        Some(found) => found.name.is_empty(),
        None => false,
    }
}

/// The place of a cell among those of RAM and ROM, by its address.
fn index_of(address: u32) -> usize
    ensures index { result ≡ cell_index address }
    ensures in_range { result < 192 }
{
    let low = address % 256;
    (if low < 128 { low % 64 } else { 128 + low % 64 }) as usize
}

/// Notes that a cell holds code of a line.
fn note_line(code: &mut [u32], address: u32, line: u32)
    requires { length code.old ≡ 192 }
    ensures noted { code.new ≡ code_lines_with_line code.old address line }
    ensures size { length code.new ≡ 192 }
{
    code[index_of(address)] = line;
}

/// Notes the line of an item, where it is a literal: its cell is at P.
fn note_literal(code: &mut [u32], p: u32, line: u32, item: AssemblyItem)
    requires { length code.old ≡ 192 }
    ensures noted { code.new ≡ code_lines_with_literal code.old p line item }
    ensures size { length code.new ≡ 192 }
{
    if let AssemblyItem::Literal(_) = item {
        note_line(code, p, line);
    }
}

/// P after the literal of an item.
fn p_after_item(p: u32, item: AssemblyItem) -> u32
    ensures { result ≡ p_behind_of p item }
{
    match item {
        AssemblyItem::Literal(_) => advance_p(p),
        _ => p,
    }
}

/// Notes the lines of the cells of a group, which holds code.
#[tactic(auto, using(crate::proofs::Storing::literals_more))]
fn note_code(code: &mut [u32], group: &CellGroup)
    requires { length code.old ≡ 192 }
    ensures noted { code.new ≡ code_lines_with_word code.old group.now }
    ensures size { length code.new ≡ 192 }
{
    note_line(code, group.address, group.line());
    let mut p = advance_p(group.address);
    for (i, item) in group.items.as_slice().iter().enumerate() {
        note_literal(code, p, group.line_of(i), *item);
        p = p_after_item(p, *item);
    }
}

/// Notes the lines of the cells of a group, where it holds code.
fn note_group(code: &mut [u32], group: &CellGroup)
    requires { length code.old ≡ 192 }
    ensures noted { code.new ≡ (if is_data_cell group.now.items.items then code.old else code_lines_with_word code.old group.now) }
    ensures size { length code.new ≡ 192 }
{
    if !group.is_data() {
        note_code(code, group);
    }
}

/// Of each cell the line of its code, 0 where it holds none.
#[tactic(auto, using(crate::proofs::Storing::groups_more))]
fn code_line_of_each_cell(program: &Program<'_>) -> [u32; 192]
    ensures lines { result ≡ code_lines_of program.now }
    ensures size { length result ≡ 192 }
{
    let mut code = [0u32; 192];
    'groups: for group in &program.groups {
        note_group(&mut code, group);
    }
    code
}

/// The store at an address, where its cell is one of RAM that holds code. (A store to ROM changes nothing.)
fn store_over_code_at_address(code: &[u32], line: u32, address: u32) -> Option<StoreOverCode>
    requires { length code.now ≡ 192 }
    ensures { result ≡ store_over_code_at_address code.now line address }
{
    let code_line = code[index_of(address)];
    if code_line != 0 && address % 512 < 128 {
        Some(StoreOverCode {
            line,
            address: address % 64,
            code_line,
        })
    } else {
        None
    }
}

/// The store that a request asks for, where its address is known and its cell holds code.
fn store_over_code_of_request(
    code: &[u32],
    known: Known,
    asked: LocatedRequest,
) -> Option<StoreOverCode>
    requires { length code.now ≡ 192 }
    ensures { result ≡ store_over_code_of_request code.now known asked.line asked.request }
{
    match asked.request {
        AssemblyRequest::PlaceItem(AssemblyItem::Opcode(op)) => match known.store_address(op) {
            Some(address) => store_over_code_at_address(code, asked.line, address),
            None => None,
        },
        _ => None,
    }
}

/// Adds a store, where there is one.
fn add_store(
    stores: &mut Vec<StoreOverCode>,
    store: Option<StoreOverCode>,
) -> Result<(), AllocError>
    ensures { OnOk result (stores.new.items ≡ stores.old.items ++ stores_with_optional_store store []) }
{
    match store {
        Some(store) => {
            stores.push(store)?;
            Ok(())
        }
        None => Ok(()),
    }
}

/// Each store of the program whose address is a literal that the source gives to A or B before it, on a straight way, and that
/// writes a cell which holds code.
///
/// # Errors
/// Memory was refused.
#[tactic(auto, using(crate::proofs::Storing::store_step))]
pub fn find_stores_over_code(
    alloc: Global,
    program: &Program<'_>,
) -> Result<Vec<StoreOverCode>, AllocError>
    ensures { IfOk result (λ stores. stores.items ≡ stores_over_code_of_program program.now) }
{
    let code = code_line_of_each_cell(program);
    let mut stores = Vec::new(alloc);
    let mut known = NOTHING_KNOWN;
    for asked in &program.asked {
        add_store(
            &mut stores,
            store_over_code_of_request(&code, known, *asked),
        )?;
        known = known.behind(program, asked.request);
    }
    Ok(stores)
}

//! What source says of a cell in a comment: its address, and what it is to the code that P leads to.

use arrayvec::ArrayVec;
use ga_node::{Node, NodePlace};
use ga_ports::{AddressTarget, advance_p, classify_address};
use ga_slots::{Op, opcode, target};
use ga_word::Word18;
use std::io::Write;

/// The most bytes of a remark.
pub(crate) const REMARK_ROOM: usize = 80;

/// A remark.
pub(crate) type CommentText = ArrayVec<u8, REMARK_ROOM>;

/// One more than the greatest address of a cell: 00 to 3f is RAM, 80 to bf ROM.
const CELLS: usize = 192;

/// What a cell is to code.
#[derive(Clone, Copy, PartialEq, Eq)]
enum Role {
    /// Code doesn't come here.
    Unreached,
    /// The literal of an `@p`.
    Literal,
    /// The literal of an `@p`, which is 0.
    Zero,
    /// An instruction word.
    Code,
    /// An instruction word to which a jump leads.
    Label,
}

/// The role of each cell of a node for the code that its P leads to. A jump or a call leads to its address, each word but one
/// that ends with `;` or `jump` to the cell after it and its literals.
#[derive(Drop)]
pub(crate) struct CellRoles {
    roles: [Role; CELLS],
    /// The instruction words that were followed.
    followed: [bool; CELLS],
}

impl CellRoles {
    pub(crate) fn of(node: &Node) -> Self {
        let mut roles = CellRoles {
            roles: [Role::Unreached; CELLS],
            followed: [false; CELLS],
        };
        roles.note(node.get(NodePlace::P), Role::Code);
        for _round in 0..CELLS {
            if !roles.follow_all(node) {
                return roles;
            }
        }
        roles
    }

    /// What the cell at an address is.
    fn role(&self, address: u32) -> Role {
        match cell_of(address) {
            Some(cell) => self.roles.get(cell).copied().unwrap_or(Role::Unreached),
            None => Role::Unreached,
        }
    }

    /// The cell at an address is this, unless more is known of it.
    fn note(&mut self, address: u32, role: Role) {
        let is_more = match self.role(address) {
            Role::Unreached => true,
            Role::Literal | Role::Zero => role == Role::Code || role == Role::Label,
            Role::Code => role == Role::Label,
            Role::Label => false,
        };
        if !is_more {
            return;
        }
        if let Some(cell) = cell_of(address) {
            if let Some(place) = self.roles.get_mut(cell) {
                *place = role;
            }
        }
    }

    /// Follows each instruction word that wasn't followed before. False where there is none.
    fn follow_all(&mut self, node: &Node) -> bool {
        let mut is_more = false;
        for address in 0..CELLS as u32 {
            if self.begin(address) {
                self.follow(node, address);
                is_more = true;
            }
        }
        is_more
    }

    /// Whether an instruction word is to be followed, which it then is.
    fn begin(&mut self, address: u32) -> bool {
        let is_code = match self.role(address) {
            Role::Code | Role::Label => true,
            _ => false,
        };
        let Some(followed) = self.followed.get_mut(address as usize) else {
            return false;
        };
        let is_due = is_code && !*followed;
        if is_due {
            *followed = true;
        }
        is_due
    }

    /// Notes where an instruction word leads, and its literals.
    fn follow(&mut self, node: &Node, address: u32) {
        let word = word_at(node, address);
        let mut p = advance_p(address);
        for slot in 0..4u8 {
            match opcode(word, slot) {
                Op::FetchP => {
                    self.note(p, literal_role(node, p));
                    p = advance_p(p);
                }
                Op::StoreP => p = advance_p(p),
                Op::Return => return,
                Op::Jump => {
                    self.note_target(p, word, slot);
                    return;
                }
                Op::Call | Op::Next | Op::If | Op::MinusIf => {
                    self.note_target(p, word, slot);
                    self.note(p, Role::Code);
                    return;
                }
                Op::Execute => {
                    self.note(p, Role::Code);
                    return;
                }
                _ => {}
            }
        }
        self.note(p, Role::Code);
    }

    fn note_target(&mut self, p: u32, word: Word18, slot: u8) {
        if slot < 3 {
            self.note(target(p, word, slot), Role::Label);
        }
    }

    /// The remark of the cell at an address: `003: dup call 005` if a jump leads to it, `003  dup` for other code, `004  right`
    /// for a literal, and `005? dup` where no code leads. A literal 0, whose cell has no line, is written after the opcodes:
    /// `000  @p a!, 001 is 0`.
    pub(crate) fn remark(&self, word: u32, address: u32) -> CommentText {
        let mut remark = CommentText::new();
        let role = self.role(address);
        let mark = match role {
            Role::Label => ':',
            Role::Unreached => '?',
            Role::Literal | Role::Zero | Role::Code => ' ',
        };
        let _ = write!(remark, "{:03x}{} ", address, mark);
        match role {
            Role::Literal | Role::Zero => push_literal(&mut remark, word),
            Role::Unreached => push_opcodes(&mut remark, Word18::from_low_bits(word), address),
            Role::Code | Role::Label => {
                push_opcodes(&mut remark, Word18::from_low_bits(word), address);
                self.push_zeros(&mut remark, Word18::from_low_bits(word), address);
            }
        }
        remark
    }

    /// Adds the literals of a word that are 0.
    fn push_zeros(&self, remark: &mut CommentText, word: Word18, address: u32) {
        let mut p = advance_p(address);
        for slot in 0..4u8 {
            match opcode(word, slot) {
                Op::FetchP => {
                    if self.role(p) == Role::Zero {
                        let _ = write!(remark, ", {:03x} is 0", p);
                    }
                    p = advance_p(p);
                }
                Op::StoreP => p = advance_p(p),
                Op::Jump | Op::Call | Op::Next | Op::If | Op::MinusIf => return,
                Op::Return | Op::Execute => return,
                _ => {}
            }
        }
    }
}

/// What a cell is that is the literal of an `@p`.
fn literal_role(node: &Node, address: u32) -> Role {
    if word_at(node, address).get() == 0 {
        Role::Zero
    } else {
        Role::Literal
    }
}

/// The number of the cell that an address names, where it names one.
fn cell_of(address: u32) -> Option<usize> {
    match classify_address(address) {
        AddressTarget::Ram(cell) => Some(usize::from(cell)),
        AddressTarget::Rom(cell) => Some(128 + usize::from(cell)),
        _ => None,
    }
}

/// The word of the cell at an address, 0 where it names none.
fn word_at(node: &Node, address: u32) -> Word18 {
    Word18::from_low_bits(match classify_address(address) {
        AddressTarget::Ram(cell) => node.get(NodePlace::Ram(cell)),
        AddressTarget::Rom(cell) => node.get(NodePlace::Rom(cell)),
        _ => 0,
    })
}

/// Adds a literal: the name of a port or of a set of ports, or the number, below 0 from 20000 on.
fn push_literal(remark: &mut CommentText, word: u32) {
    if push_port(remark, word) {
        return;
    }
    let _ = if word < 0x2_0000 {
        write!(remark, "{}", word)
    } else {
        write!(remark, "-{}", 0x4_0000u32.saturating_sub(word))
    };
}

/// Adds the name of a port, of `io` or of a set of ports. False where the number is the address of none.
fn push_port(remark: &mut CommentText, address: u32) -> bool {
    let name = match address {
        0x1d5 => "right",
        0x115 => "down",
        0x175 => "left",
        0x145 => "up",
        0x15d => "io",
        _ => return push_ports(remark, address),
    };
    let _fits = remark.try_extend_from_slice(name.as_bytes());
    true
}

/// Adds the letters of a set of ports.
fn push_ports(remark: &mut CommentText, address: u32) -> bool {
    let bits = address ^ 0x155;
    if bits == 0 || bits % 16 != 0 || bits >= 0x100 {
        return false;
    }
    for (bit, letter) in [(0x80, b'r'), (0x40, b'd'), (0x20, b'l'), (0x10, b'u')] {
        let _fits = remark.try_push(if bits / bit % 2 == 1 { letter } else { b'-' });
    }
    true
}

/// Adds the opcodes of a word, up to one after which nothing is executed.
fn push_opcodes(remark: &mut CommentText, word: Word18, address: u32) {
    let mut p = advance_p(address);
    for slot in 0..4u8 {
        let op = opcode(word, slot);
        if slot > 0 {
            let _fits = remark.try_push(b' ');
        }
        let _fits = remark.try_extend_from_slice(op.name().as_bytes());
        match op {
            Op::FetchP | Op::StoreP => p = advance_p(p),
            Op::Jump | Op::Call | Op::Next | Op::If | Op::MinusIf => {
                push_target(remark, p, word, slot);
                return;
            }
            Op::Return | Op::Execute => return,
            _ => {}
        }
    }
}

/// Adds the address that a jump leads to, by name where it is that of a port.
fn push_target(remark: &mut CommentText, p: u32, word: Word18, slot: u8) {
    if slot < 3 {
        let address = target(p, word, slot);
        let _fits = remark.try_push(b' ');
        if !push_port(remark, address % 512) {
            let _ = write!(remark, "{:03x}", address);
        }
    }
}

//! Images that are read and refused, and those in which one byte is changed. Others are in `.ci/images` at the top.

use crate::common::assert_each_display_text;
use ga_image::{ImageFault, ImageFaultCause, parse};
use std::alloc::Global;
use std::process::Abort;
use std::test::Fail;

/// The number and the line of a refusal, or nothing where a text is accepted.
type Refusal = Option<(u8, u32)>;

fn refusal(alloc: Global, text: &[u8]) -> Refusal {
    let fault = parse(alloc, text).err()?;
    Some((fault.cause.number(), fault.line))
}

/// Asserts how a text is refused.
fn assert_refusal(rt: &impl Abort, alloc: Global, text: &[u8], wanted: Refusal) {
    assert_eq!(rt; refusal(alloc, text), wanted, "at {text:?}");
}

/// Lines after the end, which a session parses as commands.
const BEHIND: [(&[u8], Refusal); 3] = [
    (b"ga144 1\nend\n\n", Some((12, 3))),
    (b"ga144 1\nend\nend", Some((12, 3))),
    (
        b"ga144 1\nend\nxxxxxxxxxxxxxxxxxxxxxxxxxxxxxxxxxxxxxxxxxxxxxxxxxxxxxxxxxxxxxxxxxxxxxxxxxxxxxxxxxxxxxxxxxxxxxxxxxxxxxxxxxxxxxxxxxxxxxxxxxxxxxxxxxxxxxxxxxxxxxxxxxxxxxxxxxxxxxxxxxxxxxxxxxxxxxxxxxxxxxxxxxxxxxxxxxxxxxxxxx\nend\n",
        Some((18, 3)),
    ),
];

#[test]
fn lines_behind_the_end(rt: HostRuntime) {
    for (text, wanted) in BEHIND {
        assert_refusal(&rt, rt.alloc(), text, wanted);
    }
}

#[test]
fn shown(rt: HostRuntime) -> Result<(), Fail> {
    let fault = ImageFault {
        line: 3,
        cause: ImageFaultCause::WordOutOfRange,
    };
    let rows = [(fault, "line 3: a number is too great for its place")];
    assert_each_display_text(&rt, rt.alloc(), &rows)
}

/// Places of an image at which some bytes are good; and a cause, its line, and the bytes that are refused so there.
type Places = (&'static [usize], &'static [u8], (u8, u32, &'static [u8]));

const NONE: (u8, u32, &[u8]) = (0, 0, b"");

/// The places of `ga144 1`, `node 000`, `p 000000`, `end`.
const SMALL: (&[u8], &[Places]) = (
    b"ga144 1\nnode 000\np 000000\nend\n",
    &[
        (&[6], b"12", NONE),
        (&[13], b"01234567", (13, 2, b"89")),
        (&[14], b"01", (13, 2, b"23456789")),
        (&[15], b"0123456789", NONE),
        (&[17], b"abp", NONE),
        (&[19, 20, 21], b"0", (14, 3, b"123456789abcdefABCDEF")),
        (&[22], b"0123", (14, 3, b"456789abcdefABCDEF")),
        (&[23, 24], b"0123456789abcdefABCDEF", NONE),
    ],
);

/// The places of `ga144 2`, `node 717`, `slot 1`, `wait read r---`, `end`.
const STATES: (&[u8], &[Places]) = (
    b"ga144 2\nnode 717\nslot 1\nwait read r---\nend\n",
    &[
        (&[6], b"2", (12, 3, b"1")),
        (&[13], b"01234567", (13, 2, b"89")),
        (&[14], b"01", (13, 2, b"23456789")),
        (&[15], b"01234567", (13, 2, b"89")),
        (&[22], b"0123", (20, 5, b"4")),
        (&[34], b"r", NONE),
        (&[35], b"-d", NONE),
        (&[36], b"-l", NONE),
        (&[37], b"-u", NONE),
    ],
);

/// What comes of a byte at a place of a line: what the table says, or the first line is refused by 11, and any other by 12.
fn wanted(table: &[Places], at: usize, line: u32, byte: u8) -> Refusal {
    for (places, good, (cause, other, bytes)) in table {
        if !places.contains(&at) {
            continue;
        }
        if good.contains(&byte) {
            return None;
        }
        if bytes.contains(&byte) {
            return Some((*cause, *other));
        }
    }
    Some((if line == 1 { 11 } else { 12 }, line))
}

fn put(text: &mut [u8], at: usize, byte: u8) {
    if let Some(slot) = text.get_mut(at) {
        *slot = byte;
    }
}

/// Puts each byte at a place of a line of a text, and the old one back.
fn change_at(
    rt: &impl Abort,
    alloc: Global,
    text: &mut [u8],
    (at, line): (usize, u32),
    table: &[Places],
) {
    let old = text.get(at).copied().unwrap_or(0);
    for byte in 0..=255u8 {
        put(text, at, byte);
        let refusal = if byte == old {
            None
        } else {
            wanted(table, at, line, byte)
        };
        assert_refusal(rt, alloc, text, refusal);
    }
    put(text, at, old);
}

/// Puts each byte at each place of an image.
fn change(rt: &impl Abort, alloc: Global, image: &[u8], table: &[Places]) -> Result<(), Fail> {
    let mut text = image.to_vec(alloc)?;
    let mut line = 1u32;
    for (at, byte) in image.iter().enumerate() {
        change_at(rt, alloc, text.as_mut_slice(), (at, line), table);
        if *byte == b'\n' {
            line = line.saturating_add(1);
        }
    }
    for row in table {
        assert!(rt; row.0.iter().all(|place| *place < image.len()));
    }
    Ok(())
}

#[test]
fn every_byte(rt: HostRuntime) -> Result<(), Fail> {
    change(&rt, rt.alloc(), SMALL.0, SMALL.1)
}

#[test]
fn every_byte_of_the_second_format(rt: HostRuntime) -> Result<(), Fail> {
    change(&rt, rt.alloc(), STATES.0, STATES.1)
}

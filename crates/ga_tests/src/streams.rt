//! What some bytes begin with; messages taken from inputs that come in pieces, end, and fail; a text that is written whole or
//! not. Streams of the program that fail are in `.ci/io_faults` at the top.

use crate::common::{assert_each_display_text, assert_each_equal, assert_equal_values};
use ga_dap_protocol::{
    CONTENT_LIMIT, FrameError, FramePrefix, Inbox, NextMessage, parse_frame_prefix, push_frame,
};
use ga_text::write_all;
use std::alloc::{AllocError, Global};
use std::io;
use std::io::{Error, ErrorKind, Read, Write};
use std::process::Abort;
use std::test::Fail;

/// What each text begins with.
const FRONTS: &[(&[u8], FramePrefix)] = &[
    (
        b"Content-Length: 2\r\n\r\n{}",
        FramePrefix::Message { start: 21, end: 23 },
    ),
    (
        b"Content-Length: 2\r\n\r\n{}Con",
        FramePrefix::Message { start: 21, end: 23 },
    ),
    (
        b"Content-Length: 0\r\n\r\n",
        FramePrefix::Message { start: 21, end: 21 },
    ),
    (
        b"Content-Length: 0000002\r\n\r\n{}",
        FramePrefix::Message { start: 27, end: 29 },
    ),
    (
        b"Content-Length: 131072\r\n\r\n{}",
        FramePrefix::PartialMessage,
    ),
    (
        b"Content-Length: 131073",
        FramePrefix::NoMessage(FrameError::TooLong),
    ),
    (
        b"Content-Length: 9999999999",
        FramePrefix::NoMessage(FrameError::TooLong),
    ),
    (
        b"Content-Length: 00000002\r\n\r\n{}",
        FramePrefix::NoMessage(FrameError::TooManyDigits),
    ),
    (
        b"Content-Length: \r\n\r\n",
        FramePrefix::NoMessage(FrameError::NoDigit),
    ),
    (
        b"Content-Length: -2\r\n\r\n{}",
        FramePrefix::NoMessage(FrameError::NoDigit),
    ),
    (
        b"Content-Length:  2\r\n\r\n{}",
        FramePrefix::NoMessage(FrameError::NoDigit),
    ),
    (
        b"Content-Length: 2 \r\n\r\n{}",
        FramePrefix::NoMessage(FrameError::MissingHeaderEnd),
    ),
    (
        b"Content-Length: 2\n\n{}",
        FramePrefix::NoMessage(FrameError::MissingHeaderEnd),
    ),
    (
        b"Content-Length: 2\r\nContent-Type: a\r\n\r\n{}",
        FramePrefix::NoMessage(FrameError::MissingHeaderEnd),
    ),
    (
        b"Content-Length:2\r\n\r\n{}",
        FramePrefix::NoMessage(FrameError::WrongHeaderField),
    ),
    (
        b"content-length: 2\r\n\r\n{}",
        FramePrefix::NoMessage(FrameError::WrongHeaderField),
    ),
    (
        b"Content-Type: a\r\nContent-Length: 2\r\n\r\n{}",
        FramePrefix::NoMessage(FrameError::WrongHeaderField),
    ),
    (
        b"\nContent-Length: 2\r\n\r\n{}",
        FramePrefix::NoMessage(FrameError::WrongHeaderField),
    ),
    (b"{}", FramePrefix::NoMessage(FrameError::WrongHeaderField)),
];

#[test]
fn fronts_are_told(rt: HostRuntime) {
    for (text, wanted) in FRONTS {
        assert_eq!(rt; parse_frame_prefix(text), *wanted, "at {text:?}");
    }
}

/// Each beginning of a message is one, and asks for more.
#[test]
fn beginnings_ask_for_more(rt: HostRuntime) {
    let message = b"Content-Length: 12\r\n\r\n{\"seq\":1234}";
    for count in 0..message.len() {
        let (part, _) = message.as_slice().split_at(count);
        assert_eq!(rt;
            parse_frame_prefix(part),
            FramePrefix::PartialMessage,
            "at {count}"
        );
    }
    assert_equal_values(
        &rt,
        &parse_frame_prefix(message),
        &FramePrefix::Message { start: 22, end: 34 },
    );
}

/// The longest message is read back, and one byte more is too long.
#[test]
fn the_bound_is_within(rt: HostRuntime) -> Result<(), Fail> {
    let mut content = Vec::new(rt.alloc());
    content.resize(CONTENT_LIMIT, b' ')?;
    let mut text = Vec::new(rt.alloc());
    push_frame(rt.alloc(), &mut text, &content)?;
    let whole = FramePrefix::Message {
        start: 26,
        end: 26 + 131_072,
    };
    assert_equal_values(&rt, &parse_frame_prefix(&text), &whole);
    content.push(b' ')?;
    text.clear();
    push_frame(rt.alloc(), &mut text, &content)?;
    assert_equal_values(
        &rt,
        &parse_frame_prefix(&text),
        &FramePrefix::NoMessage(FrameError::TooLong),
    );
    Ok(())
}

/// The text of each cause.
#[test]
fn causes_are_said(rt: HostRuntime) -> Result<(), Fail> {
    let causes = [
        (
            FrameError::WrongHeaderField,
            "the header does not begin with `Content-Length: `",
        ),
        (FrameError::NoDigit, "`Content-Length` is no number"),
        (FrameError::TooLong, "`Content-Length` is more than 131072"),
        (
            FrameError::TooManyDigits,
            "`Content-Length` has more than seven digits",
        ),
        (
            FrameError::MissingHeaderEnd,
            "the header does not end behind `Content-Length`",
        ),
        (FrameError::CutShort, "the input ends within a message"),
    ];
    assert_each_display_text(&rt, rt.alloc(), &causes)
}

/// Returns at most a given number of bytes a call, and fails at one call.
#[derive(Drop)]
struct Pieces {
    left: &'static [u8],
    most: usize,
    calls: u32,
    fails_at: u32,
}

impl Read for Pieces {
    fn read(&mut self, buf: &mut [u8]) -> io::Result<usize> {
        self.calls = self.calls.saturating_add(1);
        if self.calls == self.fails_at {
            return Err(Error::from(ErrorKind::Interrupted));
        }
        let count = self.most.min(buf.len()).min(self.left.len());
        let (front, rest) = self.left.split_at(count);
        buf[..count].copy_from_slice(front);
        self.left = rest;
        Ok(count)
    }
}

fn in_pieces(text: &'static [u8], most: usize) -> Pieces {
    Pieces {
        left: text,
        most,
        calls: 0,
        fails_at: 0,
    }
}

/// How the messages of an input ended.
#[derive(Clone, Copy, PartialEq, Eq, Debug)]
enum Ending {
    End,
    Wrong(FrameError),
    Failed,
}

/// The content parts of an input's messages, one line each, and how it ended.
fn taken(alloc: Global, mut reader: Pieces) -> Result<(Vec<u8>, Ending), AllocError> {
    let mut inbox = Inbox::new(alloc);
    let mut contents = Vec::new(alloc);
    for _ in 0..1000 {
        match inbox.next(&mut reader)? {
            NextMessage::Message(content) => {
                contents.extend_from_slice(&content)?;
                contents.push(b'\n')?;
            }
            NextMessage::End => return Ok((contents, Ending::End)),
            NextMessage::NoMessage(why) => return Ok((contents, Ending::Wrong(why))),
            NextMessage::Failed => return Ok((contents, Ending::Failed)),
        }
    }
    Ok((contents, Ending::Failed))
}

/// Asserts what is taken of an input, in pieces of each length.
fn assert_taken(
    rt: &impl Abort,
    alloc: Global,
    text: &'static [u8],
    contents: &[u8],
    ending: Ending,
) -> Result<(), AllocError> {
    for most in 1..=text.len() + 1 {
        let got = taken(alloc, in_pieces(text, most))?;
        assert_each_equal(rt, &got.0, contents);
        assert_equal_values(rt, &got.1, &ending);
    }
    Ok(())
}

const THREE: &[u8] =
    b"Content-Length: 2\r\n\r\n{}Content-Length: 0\r\n\r\nContent-Length: 7\r\n\r\n[1,2,3]";

#[test]
fn an_input_in_any_pieces_is_the_same_messages(rt: HostRuntime) -> Result<(), Fail> {
    assert_taken(&rt, rt.alloc(), THREE, b"{}\n\n[1,2,3]\n", Ending::End)?;
    assert_taken(&rt, rt.alloc(), b"", b"", Ending::End)?;
    Ok(())
}

#[test]
fn a_broken_frame_is_told_behind_what_is_whole(rt: HostRuntime) -> Result<(), Fail> {
    let cases: [(&'static [u8], FrameError); 4] = [
        (
            b"Content-Length: 2\r\n\r\n{}\n",
            FrameError::WrongHeaderField,
        ),
        (
            b"Content-Length: 2\r\n\r\n{}Content-Length: x",
            FrameError::NoDigit,
        ),
        (
            b"Content-Length: 2\r\n\r\n{}Content-Length: 2000000\r\n\r\n",
            FrameError::TooLong,
        ),
        (
            b"Content-Length: 2\r\n\r\n{}Content-Length: 2\r\n\r\n{",
            FrameError::CutShort,
        ),
    ];
    for (text, why) in cases {
        assert_taken(&rt, rt.alloc(), text, b"{}\n", Ending::Wrong(why))?;
    }
    Ok(())
}

/// A read that fails loses nothing: a further call takes what comes after it.
#[test]
fn a_failed_read_is_told(rt: HostRuntime) -> Result<(), Fail> {
    for fails_at in 1..20 {
        let mut reader = in_pieces(THREE, 5);
        reader.fails_at = fails_at;
        let mut inbox = Inbox::new(rt.alloc());
        let mut contents = Vec::new(rt.alloc());
        let mut failed = 0u32;
        for _ in 0..5 {
            match inbox.next(&mut reader)? {
                NextMessage::Message(content) => contents.extend_from_slice(&content)?,
                NextMessage::Failed => failed = failed.saturating_add(1),
                _ => {}
            }
        }
        assert_each_equal(&rt, &contents, b"{}[1,2,3]");
        assert!(rt; failed <= 1);
        assert!(rt; failed == 1 || fails_at > 14);
    }
    Ok(())
}

/// What is known without a read.
#[test]
fn what_was_read_is_known(rt: HostRuntime) -> Result<(), Fail> {
    let mut reader = in_pieces(THREE, 1000);
    let mut inbox = Inbox::new(rt.alloc());
    assert!(rt; !inbox.has_next());
    for left in [2u32, 1, 0] {
        assert!(rt; matches!(inbox.next(&mut reader)?, NextMessage::Message(_)));
        assert_eq!(rt; inbox.has_next(), left > 0);
    }
    Ok(())
}

/// Takes up to five bytes at a call, and fails at one call.
#[derive(Drop)]
struct Narrow {
    taken: usize,
    calls: u32,
    fails_at: u32,
}

impl Write for Narrow {
    fn write(&mut self, buf: &[u8]) -> io::Result<usize> {
        self.calls = self.calls.saturating_add(1);
        if self.calls == self.fails_at {
            return Err(Error::from(ErrorKind::Interrupted));
        }
        let count = buf.len().min(5);
        self.taken = self.taken.saturating_add(count);
        Ok(count)
    }

    fn flush(&mut self) -> io::Result<()> {
        self.calls = self.calls.saturating_add(1);
        if self.calls == self.fails_at {
            return Err(Error::from(ErrorKind::Other));
        }
        Ok(())
    }
}

// Three writes and the flush, of which each fails in turn: no call comes after the failed one.
#[test]
fn a_write_or_the_flush_fails(rt: HostRuntime) {
    for (fails_at, calls, taken) in [(1, 1, 0), (2, 2, 5), (3, 3, 10), (4, 4, 12), (5, 4, 12)] {
        let mut writer = Narrow {
            taken: 0,
            calls: 0,
            fails_at,
        };
        let is_written = write_all(&mut writer, b"twelve bytes").is_ok();
        let wanted = (calls, taken, fails_at > 4);
        assert_equal_values(&rt, &(writer.calls, writer.taken, is_written), &wanted);
    }
}

// The flush comes after a text of any length.
#[test]
fn a_long_text_is_flushed(rt: HostRuntime) -> Result<(), Fail> {
    let mut text = Vec::new(rt.alloc());
    text.resize(100_000, b'x')?;
    let mut writer = Narrow {
        taken: 0,
        calls: 0,
        fails_at: 0,
    };
    let is_written = write_all(&mut writer, &text).is_ok();
    let wanted = (20_001, 100_000, true);
    assert_equal_values(&rt, &(writer.calls, writer.taken, is_written), &wanted);
    Ok(())
}

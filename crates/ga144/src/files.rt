//! The files that the command line names.

use ga_explorer::{complete_end_line, is_image_lacking_end_line};
use std::fs::File;
use std::io;
use std::io::{Chain, ErrorKind, Read, Stdin, Take};

/// The most bytes of a file: the bound of an input.
pub const MAX_FILE_BYTES: u64 = 16_777_216;

/// The bytes of a file, as far as one more than the bound.
pub fn read_file(rt: &HostRuntime, path: &str) -> io::Result<Vec<u8>> {
    let mut text = Vec::new(rt.alloc());
    File::open(rt, path)?
        .take(MAX_FILE_BYTES + 1)
        .read_to_end(&mut text)?;
    Ok(text)
}

/// The text before standard input, and how many bytes may be read after it.
#[derive(Drop)]
pub struct TextBeforeStdin {
    text: Vec<u8>,
    behind: u64,
}

impl TextBeforeStdin {
    /// What is read: the text, and then standard input.
    pub fn reader(&self, rt: &HostRuntime) -> Chain<&[u8], Take<Stdin>> {
        self.text.as_slice().chain(rt.stdin().take(self.behind))
    }
}

/// The text of a file, ended so that commands can follow it, or nothing if no file is named. After an image without its line
/// `end` nothing is read.
///
/// # Errors
/// The exit status, as the file can't be read, which was reported.
pub fn read_text_before_stdin(rt: &HostRuntime, file: Option<&str>) -> Result<TextBeforeStdin, u8> {
    let Some(name) = file else {
        return Ok(TextBeforeStdin {
            text: Vec::new(rt.alloc()),
            behind: u64::MAX,
        });
    };
    let mut text = text_of(rt, name)?;
    if is_image_lacking_end_line(text.as_slice()) {
        return Ok(TextBeforeStdin { text, behind: 0 });
    }
    match complete_end_line(&mut text) {
        Ok(()) => Ok(TextBeforeStdin {
            text,
            behind: u64::MAX,
        }),
        Err(_) => Err(unread(rt, name, "out of memory", 1)),
    }
}

/// The text of a file.
///
/// # Errors
/// The exit status, as the file can't be read, which was reported.
fn text_of(rt: &HostRuntime, name: &str) -> Result<Vec<u8>, u8> {
    match read_file(rt, name) {
        Ok(text) => {
            if text.len() as u64 > MAX_FILE_BYTES {
                return Err(unread(rt, name, "more than 16777216 bytes", 1));
            }
            Ok(text)
        }
        Err(why) => Err(unread_for(rt, name, &why)),
    }
}

/// The text of the file that gives the chip, if one is named.
///
/// # Errors
/// The exit status, as the file can't be read, which was reported.
pub fn read_chip_file(rt: &HostRuntime, file: &Option<String>) -> Result<Option<Vec<u8>>, u8> {
    match file {
        None => Ok(None),
        Some(name) => Ok(Some(text_of(rt, name.as_str())?)),
    }
}

/// Reports why a file can't be read. Returns 1 if memory is exhausted, else 2.
fn unread_for(rt: &HostRuntime, name: &str, why: &io::Error) -> u8 {
    let status = if why.kind() == ErrorKind::OutOfMemory {
        1
    } else {
        2
    };
    let _ = eprintln!(rt; "ga144: {name}: {why}");
    status
}

fn unread(rt: &HostRuntime, name: &str, why: &str, status: u8) -> u8 {
    let _ = eprintln!(rt; "ga144: {name}: {why}");
    status
}

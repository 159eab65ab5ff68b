//! What a session of exploring begins on: an image, or source, which may have a chip of its own.
ghost use Rattle.std.specs.Prelude.{◌≡◌, IfOk, IfErr, IfSome, Some, None};
ghost use Rattle.ga_explorer.specs.Opening.{begins_as_image, optional_image_text, is_read_as_image, OpensTextBeforeCommands, OpensExplorer, OpensSourceOnImage, OpensSource, IsDebugInfoOf};
ghost use Rattle.ga_explorer.specs.inner.{IsLabOpenError};
ghost use Rattle.ga_console.specs.Run.{IsOpenedOnImage as OpensImage, IsFaultOfImage};
ghost use Rattle.ga_image.specs.Given.{ranges_of_given_words, given_ranges_of_image};
ghost use Rattle.ga_text.specs.Lines.{lines_of_text};

use crate::explorer::Explorer;
use ga_console::open_lab_from_image;
use ga_debug_info::{
    DebugInfo, debug_info_of_source, find_stray_character_in_image, find_stray_character_in_source,
    report_faults, report_out_of_memory, report_stores_over_code, report_stray_character,
};
use ga_image::{GivenWords, ImageFault, ImageFaultCause, given_words};
use ga_lab::Lab;
use ga_source::assemble_source_text;
use ga_state_expectations::{check_source_expectations, report_expectations_error};
use ga_text::write_all;
use std::alloc::Global;
use std::io::Write;

/// The fault of an image for which memory was wanting.
pub(crate) const NO_MEMORY: ImageFault = ImageFault {
    line: 0,
    cause: ImageFaultCause::Memory,
};

/// Why a session doesn't begin.
#[derive(Clone, Copy, PartialEq, Eq)]
pub(crate) enum OpenError {
    /// The image has this fault, or memory was wanting for it.
    Image(ImageFault),
    /// The source has a fault, or an allocation failed for it. This was written to standard error.
    Source,
}

/// Whether a text is an image: its first line is that of a format. Otherwise it is source.
pub(crate) fn is_image(text: &[u8]) -> bool
    ensures { result ≡ begins_as_image text.now }
{
    text.starts_with(b"ga144".as_slice())
}

/// Whether a text is read as an image: never where another image is given for the chip.
pub(crate) fn is_read_as_image(chip: &Option<Vec<u8>>, text: &[u8]) -> bool
    ensures { result ≡ is_read_as_image (optional_image_text chip.now) text.now }
{
    match chip {
        Some(_) => false,
        None => is_image(text),
    }
}

/// A lab to be explored whose load is the chip of a text, an image or source; or that of another image, if one is given, and
/// the text is its source. For source, `errors` gets what `ga144 asm` writes there: a fault, or stores over code.
///
/// # Errors
/// The image's first fault, a fault of the source, or out of memory.
pub(crate) fn open_text<E: Write>(
    alloc: Global,
    errors: &mut E,
    text: Vec<u8>,
    chip: Option<Vec<u8>>,
    limit: u32,
) -> Result<Explorer, OpenError>
    ensures ok { IfOk result (λ begun. OpensTextBeforeCommands (optional_image_text chip) text.items limit begun) }
    ensures err { IfErr result (λ why. IsLabOpenError (optional_image_text chip) text.items why) }
{
    match chip {
        Some(image) => open_on_image(alloc, errors, text.as_slice(), image, limit),
        None => open_alone(alloc, errors, text, limit),
    }
}

/// A lab that has as its load the chip of an image, with notes of the cells of a source.
///
/// # Errors
/// A fault of the source, or else the image's first, or want of memory.
fn open_on_image<E: Write>(
    alloc: Global,
    errors: &mut E,
    source: &[u8],
    image: Vec<u8>,
    limit: u32,
) -> Result<Explorer, OpenError>
    ensures ok { IfOk result (λ begun. OpensSourceOnImage source.now image.items limit begun) }
    ensures err { IfErr result (λ why. IsLabOpenError (Some image.items) source.now why) }
{
    let notes = note_source(alloc, errors, source);
    let _written = report_stray_character(errors, find_stray_character_in_source(source));
    let Some(notes) = notes else {
        return Err(OpenError::Source);
    };
    let edited = find_stray_character_in_image(image.as_slice());
    match open_with_words(alloc, image, limit) {
        Ok((lab, given)) => Ok(Explorer::of(lab, Some(with_words(notes, given)))),
        Err(fault) => {
            let _written = report_stray_character(errors, edited);
            tell_chip(errors);
            Err(OpenError::Image(fault))
        }
    }
}

/// Debug info of a chip whose words were given so.
fn with_words(notes: DebugInfo, given: GivenWords) -> DebugInfo
    ensures { result ≡ record notes { given = given } }
{
    let DebugInfo {
        notes: cells,
        names,
        words,
        given: _,
        expectations,
    } = notes;
    DebugInfo {
        notes: cells,
        names,
        words,
        given,
        expectations,
    }
}

/// A lab that has as its load the chip of an image, and the words that the image gives.
///
/// # Errors
/// The image's first fault, or want of memory.
fn open_with_words(
    alloc: Global,
    image: Vec<u8>,
    limit: u32,
) -> Result<(Lab, GivenWords), ImageFault>
    ensures ok { IfOk result (λ opened. OpensImage image.items limit opened.0) }
    ensures given { IfOk result (λ opened. ranges_of_given_words opened.1 ≡ given_ranges_of_image (lines_of_text image.items)) }
    ensures err { IfErr result (λ fault. IsFaultOfImage image.items fault) }
{
    let Ok(given) = given_words(alloc, image.as_slice()) else {
        return Err(NO_MEMORY);
    };
    match open_lab_from_image(alloc, image, limit) {
        Ok(lab) => Ok((lab, given)),
        Err(fault) => Err(fault),
    }
}

/// Reports which image was refused, and what is expected.
fn tell_chip<E: Write>(errors: &mut E) {
    let told =
        b"ga144: the chip is refused: --chip takes the lines that dump writes, ga144 2 to end, and no other\n";
    let _ = write_all(errors, told);
}

/// Debug info of the cells of a source; or none, and the reason is reported.
fn note_source<E: Write>(alloc: Global, errors: &mut E, source: &[u8]) -> Option<DebugInfo>
    ensures { IfSome result (λ notes. IsDebugInfoOf source.now notes) }
{
    if let Err(why) = check_source_expectations(alloc, source) {
        let _written = report_expectations_error(alloc, errors, &why);
        return None;
    }
    match assemble_source_text(alloc, source) {
        Ok(assembled) => {
            if report_stores_over_code(alloc, errors, &assembled).is_ok() {
                if let Ok(notes) = debug_info_of_source(
                    alloc,
                    source,
                    assembled.programs.as_slice(),
                ) {
                    return Some(notes);
                }
            }
            let _written = report_out_of_memory(errors);
            None
        }
        Err(fault) => {
            let _written = report_faults(alloc, errors, source, fault);
            None
        }
    }
}

/// A lab that has as its load the chip of a text, an image or source.
///
/// # Errors
/// The image's first fault, a fault of the source, or want of memory.
fn open_alone<E: Write>(
    alloc: Global,
    errors: &mut E,
    text: Vec<u8>,
    limit: u32,
) -> Result<Explorer, OpenError>
    ensures ok { IfOk result (λ begun. OpensExplorer text.items limit begun) }
    ensures err { IfErr result (λ why. IsLabOpenError None text.items why) }
{
    if is_image(text.as_slice()) {
        let edited = find_stray_character_in_image(text.as_slice());
        return match open_with_words(alloc, text, limit) {
            Ok((lab, given)) => Ok(Explorer::of(lab, Some(DebugInfo::for_image(alloc, given)))),
            Err(fault) => {
                let _written = report_stray_character(errors, edited);
                Err(OpenError::Image(fault))
            }
        };
    }
    let opened = open_source(alloc, errors, text.as_slice(), limit);
    let _written = report_stray_character(errors, find_stray_character_in_source(text.as_slice()));
    match opened {
        Some(begun) => Ok(begun),
        None => Err(OpenError::Source),
    }
}

/// A lab whose load is the chip of a source, with debug info of its cells; or none, and the reason is reported.
fn open_source<E: Write>(
    alloc: Global,
    errors: &mut E,
    source: &[u8],
    limit: u32,
) -> Option<Explorer>
    ensures { IfSome result (λ begun. OpensSource source.now limit begun) }
{
    if let Err(why) = check_source_expectations(alloc, source) {
        let _written = report_expectations_error(alloc, errors, &why);
        return None;
    }
    match assemble_source_text(alloc, source) {
        Ok(assembled) => {
            if report_stores_over_code(alloc, errors, &assembled).is_ok() {
                if let Ok(notes) = debug_info_of_source(
                    alloc,
                    source,
                    assembled.programs.as_slice(),
                ) {
                    if let Ok(lab) = Lab::new(alloc, assembled.chip, limit) {
                        return Some(Explorer::of(lab, Some(notes)));
                    }
                }
            }
            let _written = report_out_of_memory(errors);
            None
        }
        Err(fault) => {
            let _written = report_faults(alloc, errors, source, fault);
            None
        }
    }
}

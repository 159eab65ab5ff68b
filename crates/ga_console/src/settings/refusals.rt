//! What is wrong with a command line that clap accepts, in the form of clap's errors.
use crate::settings::CommandLineFault;
use std::alloc::Global;

/// Reports that there is one session alone of a condition, in the form of clap's errors.
pub(super) fn no_later_session(alloc: Global) -> CommandLineFault {
    match String::from_str(
        alloc,
        "error: invalid value for '--session <K>': with '--never <COND>' K is 1\n\n\
        For more information, try '--help'.\n",
    ) {
        Ok(text) => CommandLineFault::Refused(text),
        Err(_) => CommandLineFault::Memory,
    }
}

/// Reports that a session isn't JSON, in the form of clap's errors.
pub(super) fn no_json_session(alloc: Global) -> CommandLineFault {
    match String::from_str(
        alloc,
        "error: invalid value for '--session <K>': a session is lines of text; leave out '--json'\n\n\
        For more information, try '--help'.\n",
    ) {
        Ok(text) => CommandLineFault::Refused(text),
        Err(_) => CommandLineFault::Memory,
    }
}

/// Reports that one end is expected of all orders alone, in the form of clap's errors.
pub(super) fn no_same(alloc: Global) -> CommandLineFault {
    match String::from_str(
        alloc,
        "error: the argument '--same' cannot be used with '--session <K>' or '--never <COND>'\n\n\
        For more information, try '--help'.\n",
    ) {
        Ok(text) => CommandLineFault::Refused(text),
        Err(_) => CommandLineFault::Memory,
    }
}

/// Reports that a session and conditions need a single file, in the form of clap's errors.
pub(super) fn no_further_file(alloc: Global) -> CommandLineFault {
    match String::from_str(
        alloc,
        "error: invalid value for '[FILE]...': with '--session <K>' or '--never <COND>' there is one FILE\n\n\
        For more information, try '--help'.\n",
    ) {
        Ok(text) => CommandLineFault::Refused(text),
        Err(_) => CommandLineFault::Memory,
    }
}

/// Reports that these digits are no number of a kind of end, in the form of clap's errors.
pub(super) fn no_kind(alloc: Global, digits: &str) -> CommandLineFault {
    match format!(in alloc;
        "error: invalid value '{digits}' for '--session <K>': K is a decimal number without leading zeros\n\n\
        For more information, try '--help'.\n"
    ) {
        Ok(text) => CommandLineFault::Refused(text),
        Err(_) => CommandLineFault::Memory,
    }
}

/// Reports that these words are no step, in the form of clap's errors.
pub(super) fn no_step(alloc: Global, name: &str, node: &str, step: &str) -> CommandLineFault {
    match format!(in alloc;
        "error: invalid value '{node} {step}' for '--{name} <NNN> <K>': NNN is a node, 000 to 717 \
        with columns 00 to 17, and K a step, a decimal number or last\n\nFor more information, try '--help'.\n"
    ) {
        Ok(text) => CommandLineFault::Refused(text),
        Err(_) => CommandLineFault::Memory,
    }
}

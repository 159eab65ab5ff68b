//! The lines of the command line, as clap has them.
use clap::builder::ValueParser;
use clap::{Arg, ArgAction, Command, value_parser};
use std::alloc::{AllocError, Global};

/// What `ga144 --version` writes after the name: the version, and the kit that proves it.
const VERSION: &str = "1.0 (rattle-kit-13f logic dac8208d650f15bf)";

/// What `ga144 debug --help` writes after the options.
const COMMANDS: &str = "\
Reads from standard input: an image (lines `ga144 1` to `end`), then commands, one a line, each answered on
standard output. So a person at a terminal types: cat IMAGE - | ga144 debug

Commands (NNN is a node, three decimal digits; K a step, counted from 1; HH two hexadecimal digits):
  step NNN           make the node's next event
  back               take the newest event back
  rewind NNN K       take step K of the node back, with all that depends on it
  node NNN           show the node
  mem NNN HH         show a word of its memory
  trace NNN          show its steps
  why NNN K MMM J    show by which events step K of NNN led to step J of MMM
  count              show how many events are kept and were made
  dump               show the chip as an image
  quit               end

Exit status: 0 done, 1 image refused, 2 a stream failed, 3 command line refused.";

/// What `ga144 explore --help` writes after the options. `{commands}` is replaced by the lines of its commands.
const EXPLORING: &str = "\
Reads an image or source (up to its line `end`) from FILE, or from standard input without FILE, and then commands from standard
input; it has each command of debug. At a terminal: ga144 explore fault.f18

A FILE of source needs no line `end`. Lines of FILE after its line `end` are read as the first commands.

Further commands (NNN and MMM are nodes, K is a step, HH two and X six hexadecimal digits):
{commands}

COND is one of:
  NNN VALUE OP N         a value of NNN compares so with the number N
  pass NNN MMM OP N      such a word was transferred from NNN to MMM
  pass NNN MMM J         word number J was transferred from NNN to MMM
  step NNN K             step K of NNN was made
  stop, stop NNN         a node, or NNN, stopped
  wait NNN               NNN began to wait
  mem NNN HH = N         the word at that address of NNN is N
  p NNN X                P of NNN is X
  reach NNN X            NNN fetches next, at X
  change NNN HH [= N]    NNN wrote at that address, or wrote N
  broken                 an expectation of the source was broken
COND or COND ..          ends at the first that holds
VALUE: t s r p a b i, d2 to d9, r1 to r8, io, slot, carry, step, [HH]   OP: = != < <= > >=
N in COND: 12, -3, 0x1f, six hexadecimal digits, a port, a label        X: also a label, or line L

Exit status: 0 done, 1 image refused, 2 a stream failed, 3 command line refused, 7 a command refused (--strict).";

/// What `ga144 race --help` writes after the options.
const RACES: &str = "\
Reads an image (lines `ga144 1` to `end`) from standard input. Worker w, from 0 on, steps the node with the number w.

Exit status: 0 done, 1 image refused, 2 a stream failed, 3 command line refused, 4 race not finished.";

/// What `ga144 check --help` writes after the options.
const ENDS: &str = "\
Reads an image or source as explore does, and nothing after its line `end`. Searches the states that its nodes reach, in whatever order they
run. The program need not end.

Of source with lines `expect ..` it prints, for each, whether it holds in every order, is broken, or isn't known; with --session K instead
the lines `step NNN` that lead to what breaks the Kth; with --ends its ends, as without such lines. Of several files it prints each answer
after a line `FILE:`.

An end is a state in which no node has an event, or states that lead to each other and to no other: some nodes go on for ever there, and the
others make no further step. Prints the number of states and, for each kind of end, what the nodes do there, and which of them are not
clean: stopped, waiting to write, or waiting to read from a node that isn't clean, that goes on, or that waits for them in turn.
`at least`: a bound was met, so there may be others. The line `stopped ..` names the bound.
With --session K it writes instead the lines `step NNN` that lead to the Kth kind of end.
With --never it looks for an event after which a condition of explore's `run until` holds, and prints `never`, or the first such event that
it found, with the number of events up to it; with --session 1 instead the lines that lead there. `stuck NNN` is one more condition: NNN makes
no further step, whatever comes. A state counts neither steps nor words, so `step NNN K`, `NNN step OP N` and `pass NNN MMM J` are none.
With --same the last line is `one end: ..`, as of an expectation: it holds if there is one end in every order. It is broken by two ends.
With --settled the idle nodes wait before the first step, so that a look sees them wait. A session has these steps first.

Exit status: 0 each end is clean, or each expectation holds, or a session is written, 1 image or source refused, or no such kind or session,
2 a stream failed, 3 command line refused, 5 an end isn't clean, or an expectation is broken, or there are two ends and --same, 6 a bound was
met, and none of these was found. With --never: 0 never, 5 reached, 6 a bound was met. Of several files: the first 1 or 2, else 5 before 6
before 0.";

/// What `ga144 dap --help` says.
const EDITOR: &str = "\
An editor starts it (docs/EDITORS.md). It is a server of the Debug Adapter Protocol over standard input and output.

Exit status: 0 done, 1 out of memory, 2 a stream failed or a frame was broken, 3 command line refused.";

/// What `ga144 draw --help` writes after the options.
const PICTURES: &str = "\
Reads what explore reads: an image or source, from FILE if there is one, then commands, one a line. Carries them out without an answer,
and then writes one SVG: a vertical line for each node that isn't idle or independent, its own events as marks, transfers as arrows with
their word, waits dotted, io reads (looks) dashed. The title of an event is its text, with the name of its opcode.

Exit status: 0 done, 1 image or step refused, 2 a stream failed, 3 command line refused.";

/// The notation of source, as help shows it.
const NOTATION: &str = "Source, words apart by blanks, tabs and line ends:
  node YXX                    the program of a node begins
  : NAME                      a label; NAME calls it, NAME ; jumps to it
  12 -3 0x1f right r--- 'NAME literals: numbers, ports, addresses of labels
  X ,                         a cell with a value
  ..                          fill the cell
  org N                       go on at the address N
  /p X  /a X  /b X            registers at load
  begin again until -until next unext while -while repeat for *next
  if -if ahead else then      control words
  +cy -cy                     bit 9 of the addresses of labels
  \\ comment to the line's end   ( comment )
  and the opcodes by their names";

pub(super) const GREATEST_LIMIT: u32 = 4_000_000;

pub(super) const GREATEST_EXPLORED: u32 = 100_000_000;

pub(super) const MOST_WORKERS: u32 = 16;

pub(super) const MOST_CALLS: u32 = 100_000;

// What help says of each option.
const WORKERS: &str = "How many workers there are, 1 to 16";

const CALLS: &str = "How many calls each worker makes, 1 to 100000";

const STATES: &str = "How many states are stored at most, 1 to 4294967295 [default: 1000000]";

const SECONDS: &str = "How many seconds the search may take, 1 to 4294967295";

const SETTLED: &str = "Let each node whose first event is to wait for code make it first";

const SESSION: &str = "Write the session of the Kth kind of end, counted from 1";

const NEVER: &str = "Find an event after which COND holds: COND or COND .., as of run until";

const SHOWN_ENDS: &str = "Show the ends of source that has expectations, too";

const SAME: &str = "Expect that all orders have the same end";

const OBJECTS: &str = "Print JSON objects, one a line (docs/JSON.md)";

const PROGRESS: &str = "Print on standard error, each second, how many states there are";

const CAUSE: &str = "Grey out all but the events on which step K (or last) of the node NNN depends";

const REWIND: &str =
    "Colour orange what a rollback of step K (or last) of the node NNN would remove";

const FROM: &str = "Draw from the Pth event on, counted from 1";

const TO: &str = "Draw up to the Pth event, counted from 1";

const ALL: &str = "Draw idle and independent nodes too";

const ONLY: &str = "Leave out what is neither such a cause nor would be removed";

const MARKED: &str = "Mark races: steps that yield another word in another order";

const FOLD: &str =
    "Draw runs of N or more fetches and opcodes of a node as one mark, 0 for none [default: 3]";

const LIMIT: &str = "How many events are kept at most, 1 to 4000000 [default: 1000000]";

const EXPLORED: &str =
    "How many events the history has at most, 1 to 100000000 [default: 20000000]";

const CHIP: &str =
    "Begin on the chip of this file, an image as dump writes it, with the lines of the source";

const STRICT: &str = "End at the first refused command, with the exit status 7";

/// The command lines of the program, as clap has them.
pub(super) fn program<'a>(alloc: Global) -> Result<Command<'a>, AllocError> {
    Command::new(alloc, "ga144")
        .bin_name("ga144")?
        .version(VERSION)
        .subcommand_required(true)
        .about("Simulates the GreenArrays GA144, with a debugger that takes steps back")
        .subcommand(debug_line(alloc)?)?
        .subcommand(explore_line(alloc)?)?
        .subcommand(race_line(alloc)?)?
        .subcommand(check_line(alloc)?)?
        .subcommand(editor_line(alloc)?)?
        .subcommand(source_line(alloc)?)?
        .subcommand(list_line(alloc)?)?
        .subcommand(image_line(alloc)?)?
        .subcommand(draw_line(alloc)?)
}

fn debug_line<'a>(alloc: Global) -> Result<Command<'a>, AllocError> {
    Command::new(alloc, "debug")
        .about("Load an image, step its nodes, and take any step back with all that depends on it")
        .after_help(COMMANDS)
        .arg(limit_option(alloc))
}

fn explore_line<'a>(alloc: Global) -> Result<Command<'a>, AllocError> {
    Command::new(alloc, "explore")
        .about("Debug, and make events up to a condition")
        .after_help(EXPLORING)
        .arg(file_argument(alloc, "An image or source"))?
        .arg(flag(alloc, "strict", STRICT))?
        .arg(flag(alloc, "json", OBJECTS))?
        .arg(chip_option(alloc))?
        .arg(explored_option(alloc))
}

fn race_line<'a>(alloc: Global) -> Result<Command<'a>, AllocError> {
    Command::new(alloc, "race")
        .about("Let workers step the nodes at the same time")
        .after_help(RACES)
        .arg(number_option(alloc, "workers", WORKERS, MOST_WORKERS).required(true))?
        .arg(number_option(alloc, "calls", CALLS, MOST_CALLS).required(true))?
        .arg(limit_option(alloc))
}

fn check_line<'a>(alloc: Global) -> Result<Command<'a>, AllocError> {
    Command::new(alloc, "check")
        .about("Search every order of the nodes of a program, and show its kinds of end")
        .after_help(ENDS)
        .arg(number_option(alloc, "most", STATES, u32::MAX).value_name("N"))?
        .arg(number_option(alloc, "seconds", SECONDS, u32::MAX).value_name("N"))?
        .arg(flag(alloc, "settled", SETTLED))?
        .arg(number_option(alloc, "session", SESSION, u32::MAX).value_name("K"))?
        .arg(named_option(alloc, "never", NEVER).value_name("COND"))?
        .arg(flag(alloc, "ends", SHOWN_ENDS))?
        .arg(flag(alloc, "same", SAME))?
        .arg(flag(alloc, "json", OBJECTS))?
        .arg(flag(alloc, "progress", PROGRESS))?
        .arg(files_argument(alloc, "An image or source"))
}

fn editor_line<'a>(alloc: Global) -> Result<Command<'a>, AllocError> {
    let line = Command::new(alloc, "dap")
        .about("Serve an editor, which debugs source in its own windows")
        .after_help(EDITOR);
    Ok(line)
}

fn source_line<'a>(alloc: Global) -> Result<Command<'a>, AllocError> {
    Command::new(alloc, "asm")
        .about("Read source up to its end or to a line 'end', and write the image of its chip")
        .after_help(NOTATION)
        .arg(flag(alloc, "json", OBJECTS))?
        .arg(file_argument(alloc, "The source"))
}

fn list_line<'a>(alloc: Global) -> Result<Command<'a>, AllocError> {
    Command::new(alloc, "list")
        .about("Read source, and write each cell's address, word, opcodes and source line")
        .after_help(NOTATION)
        .arg(file_argument(alloc, "The source"))
}

fn image_line<'a>(alloc: Global) -> Result<Command<'a>, AllocError> {
    Command::new(alloc, "dis")
        .about("Read an image, and write source of the same memories, A, B and P")
        .arg(file_argument(alloc, "The image"))
}

fn draw_line<'a>(alloc: Global) -> Result<Command<'a>, AllocError> {
    Command::new(alloc, "draw")
        .about("Carry out a session's commands, and draw the history")
        .after_help(PICTURES)
        .arg(step_option(alloc, "cause", CAUSE))?
        .arg(step_option(alloc, "rewind", REWIND))?
        .arg(number_option(alloc, "from", FROM, u32::MAX).value_name("P"))?
        .arg(number_option(alloc, "to", TO, u32::MAX).value_name("P"))?
        .arg(flag(alloc, "all", ALL))?
        .arg(flag(alloc, "only", ONLY))?
        .arg(fold_option(alloc))?
        .arg(flag(alloc, "races", MARKED))?
        .arg(chip_option(alloc))?
        .arg(explored_option(alloc))?
        .arg(file_argument(alloc, "An image or source"))
}

/// From how many own steps on a run of them is drawn as one mark.
fn fold_option<'a>(alloc: Global) -> Arg<'a> {
    named_option(alloc, "fold", FOLD)
        .value_parser(value_parser!(u32))
        .value_name("N")
}

fn flag<'a>(alloc: Global, name: &'a str, help: &'a str) -> Arg<'a> {
    named_option(alloc, name, help).action(ArgAction::SetTrue)
}

fn limit_option<'a>(alloc: Global) -> Arg<'a> {
    number_option(alloc, "limit", LIMIT, GREATEST_LIMIT)
}

/// How many events a session of exploring keeps at most.
fn explored_option<'a>(alloc: Global) -> Arg<'a> {
    number_option(alloc, "limit", EXPLORED, GREATEST_EXPLORED)
}

/// A file that has the chip.
fn chip_option<'a>(alloc: Global) -> Arg<'a> {
    named_option(alloc, "chip", CHIP).value_name("DUMP")
}

/// A step: its node, and its number.
const STEP: [&str; 2] = ["NNN", "K"];

fn step_option<'a>(alloc: Global, name: &'a str, help: &'a str) -> Arg<'a> {
    named_option(alloc, name, help)
        .num_args(2)
        .value_names(&STEP)
}

/// An option of this name.
fn named_option<'a>(alloc: Global, name: &'a str, help: &'a str) -> Arg<'a> {
    Arg::new(alloc, name).long(name).help(help)
}

/// A number from 1 to the greatest.
fn number_option<'a>(alloc: Global, name: &'a str, help: &'a str, greatest: u32) -> Arg<'a> {
    named_option(alloc, name, help).value_parser(numbers_to(greatest))
}

fn numbers_to<'a>(greatest: u32) -> ValueParser<'a> {
    value_parser!(u32).range(1..=i64::from(greatest))
}

/// A file that is read before standard input.
fn file_argument<'a>(alloc: Global, help: &'a str) -> Arg<'a> {
    Arg::new(alloc, "FILE").help(help)
}

/// Files that are read one after another.
fn files_argument<'a>(alloc: Global, help: &'a str) -> Arg<'a> {
    file_argument(alloc, help).num_args(0..)
}

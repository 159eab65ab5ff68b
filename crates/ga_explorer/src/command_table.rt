//! The table of the commands: of each its name, its form, and what `help` prints. The queries that only a text answers.

ghost use Rattle.std.specs.Prelude.{◌≡◌, map};
ghost use Rattle.ga_text.specs.Output.{WritesSomeText};
ghost use Rattle.ga_explorer.specs.Commands.{command_table, text_query_of_word, text_query_name, text_query_text};
ghost use Rattle.ga_explorer.specs.inner.{command_entry_of_row};

use crate::forms::{CommandClass, Row, say_command, say_help};
use ga_explorer_text::{chip_overview, write_saved_session};
use ga_lab::Lab;
use ga_text::{WriteResult, Writer};
use std::io::Write;

/// The commands, in the order of `help`.
static ROWS: &[Row] = &[
    Row {
        name: b"run",
        class: CommandClass::Change,
        form: b"run [greedy|random SEED] [N] [until COND]",
        does: b"\n                      make up to N events, in rounds or in this order\nCOND: NNN VALUE OP N, pass NNN MMM OP N, pass NNN MMM J, step NNN K, stop, stop NNN,\n      wait NNN, mem NNN HH = N, p NNN X, reach NNN X, change NNN HH [= N], broken, COND or COND\nVALUE: t s r p a b i, d2 to d9, r1 to r8, io, slot, carry, step, [HH]\nOP: = != < <= > >=   N: a number, a port, a label   X: an address, a label, line N\n",
        more: b"answers: reached M EVENT, made M, quiet M or full M: how many events, and why no more\nexample: run 1000 until stop or 001 t = 0x150\n",
        usage: "  run [N] [until COND]   make events in rounds, at most N: each node that has an event makes one, in the order of their names\n  run greedy ..          each node as long as it has an event\n  run random SEED ..     nodes drawn by a generator with this seed\n",
    },
    Row {
        name: b"chip",
        class: CommandClass::Query,
        form: b"chip",
        does: b"                  what each node does\n",
        more: b"answers: rows 7 to 0 of nodes: . made no step, * runs, x stopped, @ waits for code, ? reads, ! writes\nexample: chip\n",
        usage: "  chip                   show what each node does\n",
    },
    Row {
        name: b"who",
        class: CommandClass::Query,
        form: b"who",
        does: b"                   who waits for whom, and which nodes can never go on\n",
        more: b"answers: for each that waits what it does, and the nodes that it awaits; then stuck, ring, ended and idle\nexample: who\n",
        usage: "  who                    show who waits for whom, and which nodes can never go on\n",
    },
    Row {
        name: b"effects",
        class: CommandClass::Query,
        form: b"effects NNN K",
        does: b"         what rewind NNN K would remove\n",
        more: b"answers: effects X N, and for each of N nodes its first step that it would remove, and their number\nexample: effects 001 last\n",
        usage: "  effects NNN K          show what rewind NNN K would remove, and remove nothing\n",
    },
    Row {
        name: b"words",
        class: CommandClass::Query,
        form: b"words NNN MMM",
        does: b"         the words transferred from NNN to MMM\n",
        more: b"answers: words NNN MMM C, and for each of C words its number, the steps of both nodes and the word\nexample: words 000 001\n",
        usage: "  words NNN MMM          show the words transferred from NNN to MMM\n",
    },
    Row {
        name: b"writes",
        class: CommandClass::Query,
        form: b"writes NNN HH",
        does: b"         the steps that wrote the cell HH of NNN, the newest first\n",
        more: b"answers: for each the step, the opcode and the word\nexample: writes 001 20\n",
        usage: "  writes NNN HH          show the steps that wrote the cell HH of NNN, the newest first\n",
    },
    Row {
        name: b"at",
        class: CommandClass::Query,
        form: b"at NNN K [N]",
        does: b"          N steps before and after step K of NNN, with registers\n",
        more: b"answers: for each the step, what it did, and the registers t, s, r, a, b and p after it\nexample: at 001 last 5\n",
        usage: "  at NNN K [N]           show the steps from K - N to K + N of NNN, each with the registers after it [N: 3]\n",
    },
    Row {
        name: b"whence",
        class: CommandClass::Query,
        form: b"whence NNN K [VALUE] [from L]",
        does: b"\n                      the steps whose values went into what step K of NNN made, or\n                      into a register, a word of a stack or a cell as it is after step K\n",
        more: b"answers: the nearest 100, each with its number and > the number of the step that used its value\nexample: whence 001 last, or whence 001 last r\n",
        usage: "  whence NNN K [VALUE] [from L]\n                         show the steps whose values went into what step K of NNN made, or into a register or cell after it\n",
    },
    Row {
        name: b"because",
        class: CommandClass::Query,
        form: b"because NNN K [N]",
        does: b"     N steps before step K at which a value decided where NNN continued\nK of effects, at, whence, because: a step's number, or last\n",
        more: b"answers: for each the step and the word that it tested, and below it the step that made that word\nexample: because 001 last\n",
        usage: "  because NNN K [N]      show the last N steps of NNN before its step K at which a value decided where it continued [N: 3]\n",
    },
    Row {
        name: b"races",
        class: CommandClass::Query,
        form: b"races [NNN]",
        does: b"           steps that yield another word in another order, and how\n",
        more: b"answers: races N, and for each of N steps the other word, and two commands that lead there\nexample: races 001\n",
        usage: "  races [NNN]            show the steps that yield another word in another order, and the commands that lead there\n",
    },
    Row {
        name: b"expectations",
        class: CommandClass::Query,
        form: b"expectations",
        does: b"          the status of each line expect of the source\n",
        more: b"answers: for each whether it is held, broken and by what, or pending: it depends on what comes or on other orders\nexample: expectations\n",
        usage: "  expectations           show the status of each line expect of the source: held, broken or pending\n",
    },
    Row {
        name: b"save",
        class: CommandClass::Query,
        form: b"save",
        does: b"                  the history as lines of debug\n",
        more: b"answers: step NNN for each event, the oldest first\nexample: save\n",
        usage: "  save                   show the history as lines step NNN\n",
    },
    Row {
        name: b"help",
        class: CommandClass::Query,
        form: b"help [COMMAND]",
        does: b"        these lines, or more of one command\n",
        more: b"answers: the command's form and what it does, what it answers, and an example\nexample: help why\n",
        usage: "  help                   show the commands\n",
    },
    Row {
        name: b"step",
        class: CommandClass::Change,
        form: b"step NNN",
        does: b"              make the next event of NNN\n",
        more: b"answers: NNN K and what the step did, or pass WWW K RRR J W: it moved the word W from WWW to RRR\nexample: step 001\n",
        usage: "",
    },
    Row {
        name: b"back",
        class: CommandClass::Change,
        form: b"back [[NNN] until COND]",
        does: b"\n                      undo the newest event; or the newest after which COND held, and all\n                      later ones; or such a step of NNN, with its dependents\n",
        more: b"answers: removed X kept M: X events were removed, and M are left; or none if there is no such event\nexample: back until change 001 20\n",
        usage: "  back until COND        undo the newest event after which COND held, and all later ones\n  back NNN until COND    roll back the newest such step of NNN, with its dependents\n",
    },
    Row {
        name: b"rewind",
        class: CommandClass::Change,
        form: b"rewind NNN K",
        does: b"          remove step K of NNN, with its dependents\n",
        more: b"answers: removed X kept M: X events were removed, and M are left\nexample: rewind 001 4\n",
        usage: "",
    },
    Row {
        name: b"node",
        class: CommandClass::Query,
        form: b"node NNN",
        does: b"              the state of NNN\n",
        more: b"answers: the state, the registers and both stacks, the top first\nexample: node 001\n",
        usage: "",
    },
    Row {
        name: b"mem",
        class: CommandClass::Query,
        form: b"mem NNN HH",
        does: b"            the word at HH of the memory of NNN\n",
        more: b"answers: mem NNN HH W: RAM below 80, ROM from there on\nexample: mem 001 20\n",
        usage: "",
    },
    Row {
        name: b"trace",
        class: CommandClass::Query,
        form: b"trace NNN",
        does: b"             the steps of NNN\n",
        more: b"answers: trace NNN C, and C events, the oldest first\nexample: trace 001\n",
        usage: "",
    },
    Row {
        name: b"why",
        class: CommandClass::Query,
        form: b"why NNN K MMM J",
        does: b"       by which events step K of NNN led to step J of MMM\n",
        more: b"answers: chain C, and C events from the cause to its effect; or independent\nexample: why 000 3 001 7, did step 3 of 000 lead to step 7 of 001?\n",
        usage: "",
    },
    Row {
        name: b"count",
        class: CommandClass::Query,
        form: b"count",
        does: b"                 how many events the history has, and how many were made\n",
        more: b"answers: kept K made M limit L\nexample: count\n",
        usage: "",
    },
    Row {
        name: b"dump",
        class: CommandClass::Query,
        form: b"dump",
        does: b"                  the chip as an image\n",
        more: b"answers: an image of format 2, which every command reads\nexample: dump\n",
        usage: "",
    },
    Row {
        name: b"quit",
        class: CommandClass::Query,
        form: b"quit",
        does: b"                  end\n",
        more: b"answers: nothing\nexample: quit\n",
        usage: "",
    },
];

/// The commands.
#[tactic(auto, unfolding(crate::specs::Commands::command_table))]
pub(crate) fn command_table() -> &'static [Row]
    ensures { map command_entry_of_row result.now ≡ command_table }
{
    ROWS
}

/// A query that only a text answers.
#[derive(Clone, Copy, PartialEq, Eq)]
pub enum TextQuery {
    /// `chip`: what each node does.
    Chip,
    /// `save`: debugger commands that make the history again.
    Save,
    /// `help`: the commands.
    Help,
    /// `help` of one command, by its place among them.
    CommandHelp(usize),
}

/// The query that is spelled by one word and that only a text answers.
#[tactic(auto, unfolding(crate::specs::Commands::text_query_of_word))]
pub(crate) fn text_query_of_word(name: &[u8]) -> Option<TextQuery>
    ensures { result ≡ text_query_of_word name.now }
{
    match name {
        b"chip" => Some(TextQuery::Chip),
        b"save" => Some(TextQuery::Save),
        b"help" => Some(TextQuery::Help),
        _ => None,
    }
}

impl TextQuery {
    /// The word with which a line spells it.
    pub fn name(self) -> &'static [u8]
        ensures { result.now ≡ text_query_name self }
    {
        match self {
            TextQuery::Chip => b"chip",
            TextQuery::Save => b"save",
            TextQuery::Help => b"help",
            TextQuery::CommandHelp(_) => b"help",
        }
    }

    /// Writes its text.
    ///
    /// # Errors
    /// A write failed.
    pub fn write_text<W: Write>(self, lab: &Lab, writer: &mut Writer<'_, W>) -> WriteResult
        ensures { WritesSomeText result (λ text. text ≡ text_query_text lab.now self) W.contents writer.old writer.new }
    {
        match self {
            TextQuery::Chip => writer.write_blocks(chip_overview(lab).as_slice()),
            TextQuery::Save => write_saved_session(lab, writer),
            TextQuery::Help => say_help(writer),
            TextQuery::CommandHelp(place) => say_command(place, writer),
        }
    }
}

//! What `help` answers, and the answer to a line that is no command.

ghost use Rattle.std.specs.Prelude.{◌≡◌, ◌++◌, codes, map, option_map, option_copied, slice_get};
ghost use Rattle.ga_text.specs.Output.{WritesSomeText, WritesExactly};
ghost use Rattle.ga_explorer.specs.Forms.{command_row_text, command_rows_text, command_details_text, command_index_from_place};
ghost use Rattle.ga_explorer.specs.Commands.{command_table, command_help_text, command_index_of_name};
ghost use Rattle.ga_explorer.specs.NoCommand.{command_usage_of_name, usage_of_similar_command, suggested_command_usage, command_word, begins_with_byte_order_mark, ends_with_carriage_return, has_leading_or_trailing_blank, has_upper_case_letter, command_suggestion, unknown_command_text};
ghost use Rattle.ga_explorer.specs.Classes.{command_class_of_line};
ghost use Rattle.ga_explorer.specs.inner.{command_entry_of_row};
ghost use Rattle.ga_text.specs.Parsing.{split_at_space};

use crate::command_table::command_table;
use ga_parser::is_within_one_edit;
use ga_text::{WriteResult, Writer, split_at_space};
use std::fmt;
use std::io::Write;

/// Whether a command changes the machine.
#[derive(Clone, Copy, PartialEq, Eq)]
pub enum CommandClass {
    /// It reads the machine, and changes nothing.
    Query,
    /// It makes events or removes some.
    Change,
}

/// A command of a session of exploring.
pub(crate) struct Row {
    /// The word that a line of it begins with.
    pub(crate) name: &'static [u8],
    /// Whether it changes the machine.
    pub(crate) class: CommandClass,
    /// The form of the command. What is in brackets may be left out.
    pub(crate) form: &'static [u8],
    /// What `help` writes after the form, up to the line's end.
    pub(crate) does: &'static [u8],
    /// What `help` of this command says besides: what it answers, and an example.
    pub(crate) more: &'static [u8],
    /// The command's lines in `ga144 explore --help`; none of a command that `debug` has.
    pub(crate) usage: &'static str,
}

/// Says what `help` answers: each command's form, and what it does.
///
/// # Errors
/// A write failed.
pub(crate) fn say_help<W: Write>(writer: &mut Writer<'_, W>) -> WriteResult
    ensures { WritesSomeText result (λ text. text ≡ command_rows_text command_table)
        W.contents writer.old writer.new }
{
    say_rows(command_table(), writer)
}

fn say_rows<W: Write>(rows: &[Row], writer: &mut Writer<'_, W>) -> WriteResult
    ensures { WritesSomeText result (λ text. text ≡ command_rows_text (map command_entry_of_row rows.now))
        W.contents writer.old writer.new }
{
    'rows: for row in rows {
        write_help_row(row, writer)?;
    }
    Ok(())
}

fn write_help_row<W: Write>(row: &Row, writer: &mut Writer<'_, W>) -> WriteResult
    ensures { WritesExactly result (command_row_text (command_entry_of_row row.now)) W.contents writer.old writer.new }
{
    writer.write_blocks(row.form)?;
    writer.write_blocks(row.does)
}

/// What `ga144 explore --help` says of the commands.
pub struct CommandUsage;

impl fmt::Display for CommandUsage {
    fn fmt<W: fmt::Write>(&self, f: &mut fmt::Formatter<W>) -> fmt::Result {
        for row in command_table() {
            f.write_str(row.usage)?;
        }
        Ok(())
    }
}

/// Says what `help` of one command answers, by its place: its form, what it does, what it answers, and an example.
///
/// # Errors
/// A write failed.
pub(crate) fn say_command<W: Write>(place: usize, writer: &mut Writer<'_, W>) -> WriteResult
    ensures { WritesSomeText result (λ text. text ≡ command_help_text place)
        W.contents writer.old writer.new }
{
    match row_in(command_table(), place) {
        Some(row) => say_about(row, writer),
        None => Ok(()),
    }
}

fn say_about<W: Write>(row: &Row, writer: &mut Writer<'_, W>) -> WriteResult
    ensures { WritesExactly result (command_details_text (command_entry_of_row row.now)) W.contents writer.old writer.new }
{
    write_help_row(row, writer)?;
    writer.write_blocks(row.more)
}

/// The place among some commands of the one with this name.
fn place_among(rows: &'static [Row], word: &[u8]) -> Option<usize>
    ensures { result ≡ command_index_from_place word.now 0 (map command_entry_of_row rows.now) }
{
    let mut place = 0;
    'rows: for row in rows {
        if row.name == word {
            return Some(place);
        }
        place += 1;
    }
    None
}

/// The place of the command of this name.
pub(crate) fn place_of(word: &[u8]) -> Option<usize>
    ensures { result ≡ command_index_of_name word.now }
{
    place_among(command_table(), word)
}

/// The command at a place.
pub(crate) fn row_in(rows: &'static [Row], place: usize) -> Option<&'static Row>
    ensures { option_copied result ≡ slice_get rows.now place }
{
    rows.get(place)
}

/// The class of the command whose name a line begins with; none if that is no command.
pub fn command_class_of_line(line: &[u8]) -> Option<CommandClass>
    ensures { result ≡ command_class_of_line line.now }
{
    match place_of(command_word(line)) {
        Some(place) => class_at(place),
        None => None,
    }
}

/// The class of the command at a place.
fn class_at(place: usize) -> Option<CommandClass>
    ensures { result ≡ option_map (λ row. row.class) (slice_get command_table place) }
{
    match row_in(command_table(), place) {
        Some(row) => Some(row.class),
        None => None,
    }
}

/// The word that a line begins with.
fn command_word(line: &[u8]) -> &[u8]
    ensures { result.now ≡ command_word (split_at_space line.now) line.now }
{
    match split_at_space(line) {
        Some((word, _)) => word,
        None => line,
    }
}

/// Says that a line is no command, and what to write in its place.
///
/// # Errors
/// A write failed.
pub(crate) fn write_syntax_error<W: Write>(line: &[u8], writer: &mut Writer<'_, W>) -> WriteResult
    ensures { WritesSomeText result (λ text. text ≡ unknown_command_text line.now)
        W.contents writer.old writer.new }
{
    writer.write_text(b"no 31 syntax: ")?;
    say_cure(line, writer)
}

/// Says what to write in place of a line that is no command.
fn say_cure<W: Write>(line: &[u8], writer: &mut Writer<'_, W>) -> WriteResult
    ensures { WritesExactly result ((command_suggestion line.now ++ codes "\n")) W.contents writer.old writer.new }
{
    writer.write_blocks(command_suggestion(line))?;
    writer.write_text(b"\n")
}

/// What to write in place of a line that is no command.
pub fn command_suggestion(line: &[u8]) -> &'static [u8]
    ensures { result.now ≡ command_suggestion line.now }
{
    let word = command_word(line);
    if begins_with_byte_order_mark(line) {
        b"a byte order mark stands before the command; leave it out"
    } else if ends_with_carriage_return(line) {
        b"a carriage return ends the line; end it with a line feed alone"
    } else if is_blank(line) {
        b"a blank stands at an end of the line; leave it out"
    } else if has_upper_case_letter(word) {
        b"the command is in upper case; write it in lower case"
    } else {
        suggested_command_usage(word)
    }
}

/// Whether a line begins with the byte order mark of UTF-8.
fn begins_with_byte_order_mark(line: &[u8]) -> bool
    ensures { result ≡ begins_with_byte_order_mark line.now }
{
    line.starts_with(b"\xef\xbb\xbf".as_slice())
}

/// Whether a line ends with a carriage return.
fn ends_with_carriage_return(line: &[u8]) -> bool
    ensures { result ≡ ends_with_carriage_return line.now }
{
    line.ends_with(b"\r".as_slice())
}

/// Whether a line begins or ends with a blank or a tab.
fn is_blank(line: &[u8]) -> bool
    ensures { result ≡ has_leading_or_trailing_blank line.now }
{
    line.starts_with(b" ".as_slice())
        || line.starts_with(b"\t".as_slice())
        || line.ends_with(b" ".as_slice())
        || line.ends_with(b"\t".as_slice())
}

/// Whether a letter of a word is in upper case.
#[tactic(auto, using(crate::proofs::Finding::upper_at, std::proofs::lemmas::List::drop_all), unfolding(crate::specs::NoCommand::has_upper_case_letter))]
fn has_upper_case_letter(word: &[u8]) -> bool
    ensures { result ≡ has_upper_case_letter word.now }
{
    'letters: for letter in word {
        if letter.is_ascii_uppercase() {
            return true;
        }
    }
    false
}

/// The form of the command of this name; else of the first whose name is the word but for one letter; else of `help`.
fn suggested_command_usage(word: &[u8]) -> &'static [u8]
    ensures { result.now ≡ suggested_command_usage word.now }
{
    match form_in(command_table(), word) {
        Some(form) => form,
        None => match usage_of_similar_command(command_table(), word) {
            Some(form) => form,
            None => b"help",
        },
    }
}

/// The form of the command of this name.
#[tactic(auto, using(crate::proofs::Finding::named_here, crate::proofs::Finding::named_behind, std::proofs::lemmas::List::drop_all), unfolding(crate::specs::NoCommand::command_usage_of_name))]
fn form_in(rows: &'static [Row], word: &[u8]) -> Option<&'static [u8]>
    ensures { option_map (λ form. form.now) result ≡ command_usage_of_name word.now (map command_entry_of_row rows.now) }
{
    'rows: for row in rows {
        if row.name == word {
            return Some(row.form);
        }
    }
    None
}

/// The form of the first command whose name is this word but for one letter.
#[tactic(auto, using(crate::proofs::Finding::near_here, crate::proofs::Finding::near_behind, std::proofs::lemmas::List::drop_all), unfolding(crate::specs::NoCommand::usage_of_similar_command))]
fn usage_of_similar_command(rows: &'static [Row], word: &[u8]) -> Option<&'static [u8]>
    ensures { option_map (λ form. form.now) result ≡ usage_of_similar_command word.now (map command_entry_of_row rows.now) }
{
    'rows: for row in rows {
        if is_within_one_edit(word, row.name) {
            return Some(row.form);
        }
    }
    None
}

//! The words of a command line, as `clap` takes them.

use crate::words::{
    ABOUT, Choice, Described, STATUS, VERSION, Value, WHENS, commands, pattern_options,
};
use clap::builder::ValueParser;
use clap::{Arg, ArgAction, Command};
use std::alloc::{AllocError, Global};

/// An option of a command.
fn option_arg<'w>(alloc: Global, option: &'static Choice) -> Arg<'w> {
    let arg = Arg::new(alloc, option.name)
        .long(option.name)
        .help(option.help);
    let arg = match option.letter {
        Some(letter) => arg.short(letter),
        None => arg,
    };
    if let Value::Nothing = option.value {
        return arg.action(ArgAction::SetTrue);
    }
    let arg = arg.value_name(option.value.name()).action(ArgAction::Set);
    match option.value {
        Value::Number => arg.value_parser(ValueParser::Unsigned(0, u64::MAX)),
        Value::When => arg.value_parser(ValueParser::Names(&WHENS)),
        Value::Rules => arg.required(true),
        Value::Nothing => arg,
    }
}

/// The command with these options.
fn with_options<'w>(
    alloc: Global,
    command: Command<'w>,
    options: &'static [Choice],
) -> Result<Command<'w>, AllocError> {
    let mut command = command;
    for option in options {
        command = command.arg(option_arg(alloc, option))?;
    }
    Ok(command)
}

/// The command with its words, and its files after them.
fn with_words<'w>(
    alloc: Global,
    command: Command<'w>,
    described: &'static Described,
) -> Result<Command<'w>, AllocError> {
    let mut command = command;
    for word in described.words {
        command = command.arg(Arg::new(alloc, word).required(true))?;
    }
    if !described.has_files {
        return Ok(command);
    }
    let files = Arg::new(alloc, "FILE")
        .action(ArgAction::Append)
        .num_args(0..);
    command.arg(files)
}

/// The words of one command.
fn command<'w>(alloc: Global, described: &'static Described) -> Result<Command<'w>, AllocError> {
    let command = Command::new(alloc, described.name)
        .about(described.about)
        .after_help(described.examples);
    let command = with_words(alloc, command, described)?;
    let command = with_options(alloc, command, described.options)?;
    with_options(alloc, command, pattern_options())
}

/// The program with its commands.
fn with_commands<'w>(alloc: Global, program: Command<'w>) -> Result<Command<'w>, AllocError> {
    let mut program = program;
    for described in commands() {
        program = program.subcommand(command(alloc, described)?)?;
    }
    Ok(program)
}

/// The words of the program.
pub(crate) fn program<'w>(alloc: Global) -> Result<Command<'w>, AllocError> {
    let program = Command::new(alloc, "loft")
        .about(ABOUT)
        .version(VERSION)
        .after_help(STATUS)
        .subcommand_required(true)
        .arg_required_else_help(true);
    with_commands(alloc, program)
}

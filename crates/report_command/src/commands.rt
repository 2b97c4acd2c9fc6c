//! The commands, and how the parser gets them and their arguments out of tables.

use crate::table::{
    CommandArgument, OF_A_RECORD, OF_A_RUN, OF_A_SEARCH, OF_A_VIEW, OF_ALL, OF_RUNS, Position,
    UNTIL_HELP,
};
use clap::builder::ValueRange;
use clap::{Arg, ArgAction, Command};
use std::alloc::{AllocError, Global};

/// The commands by their names.
#[derive(Clone, Copy, PartialEq, Eq)]
pub(crate) enum CommandName {
    Check,
    Run,
    Replay,
    Show,
    Races,
    Search,
}

/// What help says of a command.
#[derive(Clone, Copy)]
pub(crate) struct CommandRow {
    command: CommandName,
    /// How it is called, behind the program's name.
    word: &'static str,
    about: &'static str,
    /// What its help ends with.
    after_help: Option<&'static str>,
}

/// How rows are read.
const NOTATION: &str = "\
A row: the line in the record, the thread, what it did, and where.
  load32 4096 = 5             it read 4 bytes at 4096, and got 5; an atomic instruction says so: atomic load32
  store32 4096 <- 6 (had 5)   it wrote 6, where 5 stood
  add 4096 +1 = 6             in one step it added 1 and got what stood there, 6; so are sub, and, or, xor
  xchg 4096 <- 1 = 0          in one step it wrote 1 and got what stood there, 0
  cmpxchg 4096 0 -> 1         in one step it found 0 and wrote 1
  cmpxchg 4096 0 -> 1: has 2  it found 2 in place of 0, and wrote nothing
  sleeps on 4096 while 1      it found 1 and sleeps until a notify of 4096, as on a futex
  notify 4096: wakes t1       it woke t1
  ... at queue.head           the static data that is there
  main+0x4a queue.c:27        where: the function, how many bytes behind its start, the line of source";

/// All of them, in the order of the help.
static COMMANDS: [CommandRow; 6] = [
    CommandRow {
        command: CommandName::Check,
        word: "check",
        about: "Reads a module, and says how many functions of its own it has",
        after_help: None,
    },
    CommandRow {
        command: CommandName::Run,
        word: "run",
        about: "Runs a function of a module, and prints how its threads ended",
        after_help: None,
    },
    CommandRow {
        command: CommandName::Replay,
        word: "replay",
        about: "Runs a record again by one thread, and prints what the run printed",
        after_help: None,
    },
    CommandRow {
        command: CommandName::Show,
        word: "show",
        about: "Shows the entries of a record in words, with the place in the module of each",
        after_help: Some(NOTATION),
    },
    CommandRow {
        command: CommandName::Races,
        word: "races",
        about: "Tells which accesses of a recorded run race: two threads touch a byte, one writes it, and nothing orders them",
        after_help: None,
    },
    CommandRow {
        command: CommandName::Search,
        word: "search",
        about: "Runs a function of a module on one thread along many schedules, and prints how the runs end",
        after_help: Some(UNTIL_HELP),
    },
];

impl CommandName {
    /// The command that a word calls, if it calls one.
    pub(crate) fn of(word: &str) -> Option<CommandName> {
        COMMANDS
            .iter()
            .find(|row| row.word == word)
            .map(|row| row.command)
    }
}

fn arg_of<'a>(alloc: Global, row: &CommandArgument<'static>) -> Result<Arg<'a>, AllocError> {
    let argument = row.argument;
    let count = match row.position {
        Position::Rest => ValueRange::new(0..),
        _ if argument.is_flag() => ValueRange::EMPTY,
        _ => ValueRange::SINGLE,
    };
    let arg = Arg::new(alloc, argument.name)
        .help(row.help)
        .hide(row.is_hidden)
        .value_name(argument.value_name)
        .value_parser(argument.kind.parser())
        .default_values(row.defaults)
        .num_args(count)
        .required(matches!(row.position, Position::Own | Position::Required));
    let arg = match row.position {
        Position::Own => arg,
        Position::Rest => arg.allow_negative_numbers(true),
        Position::Option | Position::Required if argument.kind.is_list() => {
            arg.long(argument.name)
                .value_delimiter(',')
                .action(ArgAction::Append)
        }
        Position::Option | Position::Required => arg.long(argument.name),
    };
    arg.conflicts_with_all(row.conflicts)?
        .requires_all(row.needs)
}

/// Adds those arguments of a table that a command takes, in the table's order.
fn add<'a>(
    alloc: Global,
    command: CommandName,
    table: &[CommandArgument<'static>],
    args: &mut Vec<Arg<'a>>,
) -> Result<(), AllocError> {
    for row in table {
        if row.commands.contains(&command) {
            args.push(arg_of(alloc, row)?)?;
        }
    }
    Ok(())
}

/// The arguments that a command takes, in the order of its help.
fn args_of<'a>(alloc: Global, command: CommandName) -> Result<Vec<Arg<'a>>, AllocError> {
    let mut args = Vec::new(alloc);
    add(alloc, command, &OF_A_RUN, &mut args)?;
    add(alloc, command, &OF_RUNS, &mut args)?;
    add(alloc, command, &OF_A_SEARCH, &mut args)?;
    add(alloc, command, &OF_A_RECORD, &mut args)?;
    add(alloc, command, &OF_A_VIEW, &mut args)?;
    add(alloc, command, &OF_ALL, &mut args)?;
    Ok(args)
}

fn command_of<'a>(alloc: Global, row: &CommandRow) -> Result<Command<'a>, AllocError> {
    let args = args_of(alloc, row.command)?;
    let command = Command::new(alloc, row.word).about(row.about);
    let command = match row.after_help {
        Some(line) => command.after_help(line),
        None => command,
    };
    command.args(args)
}

/// The whole command line.
pub(crate) fn commands<'a>(alloc: Global) -> Result<Command<'a>, AllocError> {
    let mut subcommands = Vec::new(alloc);
    for row in &COMMANDS {
        subcommands.push(command_of(alloc, row)?)?;
    }
    let command = Command::new(alloc, "wathread")
        .version("0.1.0")
        .about("A proved interpreter of WebAssembly modules whose threads share one linear memory")
        .subcommand_required(true)
        .subcommands(subcommands)?;
    command.bin_name("wathread")
}

/// The command whose usage is shown: this one, or the whole command line.
pub(crate) fn usage_of<'a>(
    alloc: Global,
    command: Option<CommandName>,
) -> Result<Command<'a>, AllocError> {
    for row in &COMMANDS {
        if command == Some(row.command) {
            let call = format!(in alloc; "wathread {}", row.word)?;
            return command_of(alloc, row)?.bin_name(&call);
        }
    }
    commands(alloc)
}

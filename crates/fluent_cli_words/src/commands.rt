//! The commands of the program, for `clap`.

ghost use Rattle.std.specs.Prelude.{IfOk};
ghost use Rattle.clap.specs.Words.{App, with_subcommand};
ghost use Rattle.fluent_cli_words.specs.Commands.{IsArgument, Reads, alone, bare_program, command_of, program, rule_of_row};

use clap::{Arg, ArgAction, Command};
use std::alloc::{AllocError, Global};

/// The version of the program.
const VERSION: &str = "0.1.0";

/// How words are read into an argument, with what help calls its value.
#[derive(Clone, Copy)]
enum Form {
    /// An option with a value.
    Option(&'static str),
    /// An option that may be given again.
    RepeatedOption(&'static str),
    /// An option without a value.
    Flag,
    /// A word that has to be there.
    OneWord(&'static str),
    /// Any number of words.
    AnyWords(&'static str),
    /// One or more words.
    SomeWords(&'static str),
}

/// An argument of a command.
#[derive(Clone, Copy)]
struct Row {
    form: Form,
    name: &'static str,
    help: &'static str,
}

/// A command without subcommands: its arguments are in the order in which help has them.
#[derive(Clone, Copy)]
struct Table {
    name: &'static str,
    about: &'static str,
    rows: &'static [Row],
}

const CHECK: Table = Table {
    name: "check",
    about: "Finds what is wrong with files, which count as one source: status 1 if there is an error",
    rows: &[
        Row {
            form: Form::Option("TAG"),
            name: "language",
            help: "The language of the files, as 'pl': selects on numbers are held against its plural categories",
        },
        Row {
            form: Form::RepeatedOption("FILE"),
            name: "reference",
            help: "A file or folder of the language that the files were translated from (may be given again)",
        },
        Row {
            form: Form::RepeatedOption("FILE"),
            name: "with",
            help: "A file or folder that is loaded with each of the others, as that of a brand's terms (may be given again)",
        },
        Row {
            form: Form::Option("FOLDER"),
            name: "translation",
            help: "Checks each file in this folder against that of the same path in the folder of --reference",
        },
        Row {
            form: Form::Option("FORMAT"),
            name: "format",
            help: "How findings are written: text, json, github or sarif [default: text]",
        },
        Row {
            form: Form::Flag,
            name: "quiet",
            help: "Tells only what makes the status 1, without the counts",
        },
        Row {
            form: Form::Flag,
            name: "strict",
            help: "Ends with status 1 where there is a warning, too",
        },
        Row {
            form: Form::Flag,
            name: "every",
            help: "Tells each finding, also where the first three with one cause would stand for all",
        },
        Row {
            form: Form::Flag,
            name: "caret",
            help: "Shows below each finding its line, with a mark under the place",
        },
        Row {
            form: Form::Flag,
            name: "color",
            help: "Colors errors and warnings, as a terminal shows them",
        },
        Row {
            form: Form::Flag,
            name: "each",
            help: "Checks each file for itself: none counts for another",
        },
        Row {
            form: Form::Flag,
            name: "all-categories",
            help: "Wants each plural category of the language, also those of fractions alone",
        },
        Row {
            form: Form::RepeatedOption("NAME"),
            name: "function",
            help: "A function that the application adds (may be given again)",
        },
        Row {
            form: Form::RepeatedOption("KIND"),
            name: "allow",
            help: "A kind of finding that is not told (may be given again), one of{n}\
            unreadable, id-taken, function-id, repeated-attribute, repeated-variant,{n}\
            missing-message, missing-attribute, missing-value, missing-term, missing-term-attribute,{n}\
            missing-function, not-a-function, cycle, too-many-placeables, may-open-too-many, refers-to-unclean,{n}\
            variable-not-given, unused-argument, not-a-number, plural-category, unused-category,{n}\
            not-translated, not-in-reference, unknown-variable, variable-left-out, term-left-out, function-left-out",
        },
        Row {
            form: Form::AnyWords("FILE"),
            name: "file",
            help: "Files of one language, in the order in which they are read; a folder stands for those in it, '-' for standard input",
        },
    ],
};

const SHOW: Table = Table {
    name: "show",
    about: "Shows a message as an application would, and what goes wrong in it on standard error",
    rows: &[
        Row {
            form: Form::Option("TAG"),
            name: "language",
            help: "The language whose plural rules are used [default: en]",
        },
        Row {
            form: Form::RepeatedOption("FILE"),
            name: "fallback",
            help: "A file that is asked where those before it lack the message (may be given again)",
        },
        Row {
            form: Form::RepeatedOption("NAME=VALUE"),
            name: "text",
            help: "An argument that is a text, also where it reads as a number (may be given again)",
        },
        Row {
            form: Form::Flag,
            name: "strict",
            help: "Ends with status 1 where there was an error",
        },
        Row {
            form: Form::RepeatedOption("FILE"),
            name: "with",
            help: "A file or folder that is loaded with each of the others, as that of a brand's terms (may be given again)",
        },
        Row {
            form: Form::RepeatedOption("NAME"),
            name: "function",
            help: "A function that the application adds: what it gives is shown as NAME() (may be given again)",
        },
        Row {
            form: Form::OneWord("FILE"),
            name: "file",
            help: "The file of the message",
        },
        Row {
            form: Form::OneWord("ID[.ATTRIBUTE]"),
            name: "id",
            help: "The message, or an attribute of it",
        },
        Row {
            form: Form::AnyWords("NAME=VALUE"),
            name: "argument",
            help: "Arguments: each a number where its value reads as one, and else a text",
        },
    ],
};

const LIST: Table = Table {
    name: "list",
    about: "Lists messages and terms, with the variables that each asks for",
    rows: &[Row {
        form: Form::SomeWords("FILE"),
        name: "file",
        help: "Files of one language, in the order in which they are read",
    }],
};

/// The argument of a row.
fn argument<'a>(alloc: Global, row: &Row) -> Arg<'a>
    ensures { IsArgument (rule_of_row row.now) result }
{
    let argument = Arg::new(alloc, row.name).help(row.help);
    match row.form {
        Form::Option(value) => argument.long(row.name).value_name(value),
        Form::RepeatedOption(value) => argument
            .long(row.name)
            .value_name(value)
            .action(ArgAction::Append),
        Form::Flag => argument.long(row.name).action(ArgAction::SetTrue),
        Form::OneWord(value) => argument.value_name(value).required(true),
        Form::AnyWords(value) => argument
            .value_name(value)
            .num_args(0..)
            .action(ArgAction::Append),
        Form::SomeWords(value) => argument
            .value_name(value)
            .required(true)
            .num_args(1..)
            .action(ArgAction::Append),
    }
}

/// The command of a table.
fn command<'a>(alloc: Global, table: &Table) -> Result<Command<'a>, AllocError>
    ensures { IfOk result (Reads (alone (command_of table.now))) }
{
    let mut command = Command::new(alloc, table.name).about(table.about);
    for row in table.rows {
        command = command.arg(argument(alloc, row))?;
    }
    Ok(command)
}

/// Adds a subcommand, if that could be made.
fn with_subcommand<'a>(
    command: Command<'a>,
    subcommand: Result<Command<'a>, AllocError>,
) -> Result<Command<'a>, AllocError>
    ensures { IfOk result (λ c. (app added : App) → Reads app command.entry → IfOk subcommand.entry (Reads added) → Reads (with_subcommand app added.top) c) }
{
    command.subcommand(subcommand?)
}

/// The program without its subcommands.
fn bare_program<'a>(alloc: Global) -> Result<Command<'a>, AllocError>
    ensures { IfOk result (Reads (alone bare_program)) }
{
    let command = Command::new(alloc, "fluent")
        .about("Checks, shows and lists messages in FTL files")
        .version(VERSION)
        .no_binary_name(true)
        .subcommand_required(true)
        .arg_required_else_help(true);
    command.bin_name("fluent")
}

/// The program with its subcommands.
pub fn program<'a>(alloc: Global) -> Result<Command<'a>, AllocError>
    ensures { IfOk result (Reads program) }
{
    let program = bare_program(alloc)?;
    let program = with_subcommand(program, command(alloc, &CHECK))?;
    let program = with_subcommand(program, command(alloc, &SHOW))?;
    with_subcommand(program, command(alloc, &LIST))
}

//! The commands of the program, by the table of `forms`, as `clap` takes them.
ghost use Rattle.std.specs.Prelude.{◌≡◌, IfOk, false};
ghost use Rattle.clap.specs.Words.{app_of, rule_of};
ghost use Rattle.clap.specs.declared.builder.command.Command.TheViews.{out-Command};
ghost use Rattle.wg_words.specs.Commands.{IsApp, program_app, command_app, rule_in, with_rules, app_in};

use crate::forms::{Argument, Arity, FORMS, Form};
use clap::{Arg, Command};
use std::alloc::{AllocError, Global};

// A command as far as it is made, unless memory ran out.
type Made<'a> = Result<Command<'a>, AllocError>;

// The argument as `clap` takes it.
fn made_argument<'a>(alloc: Global, argument: &Argument) -> Arg<'a>
    ensures rule { rule_of result ≡ rule_in argument.now }
    ensures local { result.global ≡ false }
{
    let (name, arity) = *argument;
    match arity {
        Arity::Word => Arg::new(alloc, name).required(true),
        Arity::Several => Arg::new(alloc, name).required(true).num_args(1..),
        Arity::Required => Arg::new(alloc, name).long(name).required(true),
        Arity::Optional => Arg::new(alloc, name).long(name),
    }
}

// The command with these arguments more.
fn with_arguments<'a>(alloc: Global, command: Command<'a>, arguments: &[Argument]) -> Made<'a>
    requires local { (out-Command command).has_globals ≡ false }
    ensures { IfOk result (IsApp (with_rules rule_in (app_of command.entry) arguments.now)) }
{
    let mut command = command;
    for argument in arguments {
        command = command.arg(made_argument(alloc, argument))?;
    }
    Ok(command)
}

// The command of one form.
fn made_command<'a>(alloc: Global, form: &Form) -> Made<'a>
    ensures { IfOk result (IsApp (app_in form.now)) }
{
    let (name, words, options) = *form;
    let command = with_arguments(alloc, Command::new(alloc, name), words)?;
    with_arguments(alloc, command, options)
}

fn program<'a>(alloc: Global) -> Command<'a>
    ensures { IsApp program_app result }
{
    Command::new(alloc, "webgraph")
        .no_binary_name(true)
        .subcommand_required(true)
}

/// The command line of the program: the words begin with the subcommand, which is required.
pub fn command<'a>(alloc: Global) -> Result<Command<'a>, AllocError>
    ensures { IfOk result (IsApp command_app) }
{
    let forms = FORMS.as_slice();
    let mut line = program(alloc);
    for form in forms {
        match made_command(alloc, form) {
            Ok(command) => line = line.subcommand(command)?,
            Err(error) => {
                // a call, since falling out of scope would be a step for each of its fields
                drop(line);
                return Err(error);
            }
        }
    }
    Ok(line)
}

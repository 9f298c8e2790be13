// What clap is given, made of the tables of subcommands and options.
ghost use Rattle.std.specs.Prelude.{◌≡◌, ◌++◌, ◌∷◌, [], IfOk, codes, map, true};
ghost use Rattle.clap.specs.Words.{app_of, args_of, new_app, rule_of, shape_of, subcommand_names};
ghost use Rattle.clap.specs.Words.{with_subcommand};
ghost use Rattle.command_line.specs.Commands.{is_plain, needing_subcommand, program_shape, top_of};
ghost use Rattle.command_line.specs.Commands.{shape_by, with_rules};
ghost use Rattle.command_line.specs.Names.{all_names, name_by, name_of};
ghost use Rattle.command_line.specs.Options.{AreLocal, conflicts_of, excluded, ruled, view_by};
ghost use Rattle.command_line.specs.Options.{view_of};

use crate::options::{Argument, Rule};
use crate::tables::*;
use crate::texts::{self, ABOUT, AFTER_HELP, Texts};
use clap::{Arg, ArgAction, Command};
use std::alloc::{AllocError, Global};

/// The command line of the program.
pub fn command<'a>(alloc: Global) -> Result<Command<'a>, AllocError>
    ensures names { IfOk result (λ c. subcommand_names c ≡ all_names) }
    ensures top { IfOk result (λ c. top_of c ≡ program_shape) }
{
    let mut command = program(alloc)?;
    for kind in &Kind::ALL {
        command = with_subcommand(command, subcommand(alloc, *kind)?)?;
    }
    Ok(command)
}

// The program with no subcommand.
fn program<'a>(alloc: Global) -> Result<Command<'a>, AllocError>
    ensures { IfOk result (λ c. (top_of c ≡ program_shape) × ((app_of c).subs ≡ [])) }
{
    needs_subcommand(Command::new(alloc, "detio"))
        .version("0.19.0")
        .about(ABOUT)
        .after_help(AFTER_HELP)
        .bin_name("detio")
}

fn needs_subcommand(command: Command<'_>) -> Command<'_>
    ensures { app_of result ≡ needing_subcommand (app_of command.entry) }
{
    command
        .subcommand_required(true)
        .arg_required_else_help(true)
}

// The command with one subcommand more.
fn with_subcommand<'a>(
    command: Command<'a>,
    subcommand: Command<'a>,
) -> Result<Command<'a>, AllocError>
    requires { is_plain subcommand ≡ true }
    ensures { IfOk result (λ c. app_of c
        ≡ with_subcommand (app_of command.entry) (shape_of subcommand.entry)) }
{
    command.subcommand(subcommand)
}

fn subcommand<'a>(alloc: Global, kind: Kind) -> Result<Command<'a>, AllocError>
    ensures { IfOk result (λ c. (name_of c ≡ name_by kind) × (is_plain c ≡ true)) }
{
    match kind {
        Kind::Check => check(alloc),
        Kind::Plain => plain(alloc),
        Kind::Explore => explore(alloc),
        Kind::Faults => faults(alloc),
        Kind::Minimise => minimise(alloc),
        Kind::Record => record(alloc),
        Kind::Replay => replay(alloc),
        Kind::Run => run(alloc),
        Kind::Rerun => rerun(alloc),
        Kind::Compare => compare(alloc),
        Kind::Draw => draw(alloc),
        Kind::Show => show(alloc),
        Kind::Make => make(alloc),
        Kind::Upgrade => upgrade(alloc),
    }
}

fn check<'a>(alloc: Global) -> Result<Command<'a>, AllocError>
    ensures { IfOk result (λ c. (name_of c ≡ codes "check") × (is_plain c ≡ true)) }
{
    built(alloc, CHECK, texts::CHECK)
}

fn plain<'a>(alloc: Global) -> Result<Command<'a>, AllocError>
    ensures { IfOk result (λ c. (name_of c ≡ codes "plain") × (is_plain c ≡ true)) }
{
    built(alloc, PLAIN, texts::PLAIN)
}

fn explore<'a>(alloc: Global) -> Result<Command<'a>, AllocError>
    ensures { IfOk result (λ c. (name_of c ≡ codes "explore") × (is_plain c ≡ true)) }
{
    built(alloc, EXPLORE, texts::EXPLORE)
}

fn faults<'a>(alloc: Global) -> Result<Command<'a>, AllocError>
    ensures { IfOk result (λ c. (name_of c ≡ codes "faults") × (is_plain c ≡ true)) }
{
    built(alloc, FAULTS, texts::FAULTS)
}

fn minimise<'a>(alloc: Global) -> Result<Command<'a>, AllocError>
    ensures { IfOk result (λ c. (name_of c ≡ codes "minimise") × (is_plain c ≡ true)) }
{
    built(alloc, MINIMISE, texts::MINIMISE)
}

fn record<'a>(alloc: Global) -> Result<Command<'a>, AllocError>
    ensures { IfOk result (λ c. (name_of c ≡ codes "record") × (is_plain c ≡ true)) }
{
    built(alloc, RECORD, texts::RECORD)
}

fn replay<'a>(alloc: Global) -> Result<Command<'a>, AllocError>
    ensures { IfOk result (λ c. (name_of c ≡ codes "replay") × (is_plain c ≡ true)) }
{
    built(alloc, REPLAY, texts::REPLAY)
}

fn run<'a>(alloc: Global) -> Result<Command<'a>, AllocError>
    ensures { IfOk result (λ c. (name_of c ≡ codes "run") × (is_plain c ≡ true)) }
{
    built(alloc, RUN, texts::RUN)
}

fn rerun<'a>(alloc: Global) -> Result<Command<'a>, AllocError>
    ensures { IfOk result (λ c. (name_of c ≡ codes "rerun") × (is_plain c ≡ true)) }
{
    built(alloc, RERUN, texts::RERUN)
}

fn compare<'a>(alloc: Global) -> Result<Command<'a>, AllocError>
    ensures { IfOk result (λ c. (name_of c ≡ codes "compare") × (is_plain c ≡ true)) }
{
    built(alloc, COMPARE, texts::COMPARE)
}

fn draw<'a>(alloc: Global) -> Result<Command<'a>, AllocError>
    ensures { IfOk result (λ c. (name_of c ≡ codes "draw") × (is_plain c ≡ true)) }
{
    built(alloc, DRAW, texts::DRAW)
}

fn show<'a>(alloc: Global) -> Result<Command<'a>, AllocError>
    ensures { IfOk result (λ c. (name_of c ≡ codes "show") × (is_plain c ≡ true)) }
{
    built(alloc, SHOW, texts::SHOW)
}

fn make<'a>(alloc: Global) -> Result<Command<'a>, AllocError>
    ensures { IfOk result (λ c. (name_of c ≡ codes "make") × (is_plain c ≡ true)) }
{
    built(alloc, MAKE, texts::MAKE)
}

fn upgrade<'a>(alloc: Global) -> Result<Command<'a>, AllocError>
    ensures { IfOk result (λ c. (name_of c ≡ codes "upgrade") × (is_plain c ≡ true)) }
{
    built(alloc, UPGRADE, texts::UPGRADE)
}

// A subcommand with its options and its help.
fn built<'a>(alloc: Global, given: Subcommand, texts: Texts) -> Result<Command<'a>, AllocError>
    ensures shape { IfOk result (λ c. shape_of c ≡ shape_by given) }
    ensures conflicts { IfOk result (λ c. map conflicts_of (args_of c)
        ≡ map excluded given.arguments.now) }
{
    let args = args_of(alloc, given.arguments)?;
    with_args(described(alloc, given.name, texts), args)
}

// A subcommand with its help and no option.
fn described<'a>(alloc: Global, name: &'static str, texts: Texts) -> Command<'a>
    ensures app { app_of result ≡ new_app name.now }
    ensures empty { args_of result ≡ [] }
{
    let command = Command::new(alloc, name)
        .about(texts.about)
        .long_about(texts.long_about)
        .after_help(texts.after_help);
    match texts.usage {
        Some(usage) => command.override_usage(usage),
        None => command,
    }
}

// The command with these arguments.
fn with_args<'a>(command: Command<'a>, args: Vec<Arg<'a>>) -> Result<Command<'a>, AllocError>
    requires { AreLocal args.items }
    ensures app { IfOk result (λ c. app_of c ≡ with_rules (app_of command.entry)
        (map rule_of args.entry.items)) }
    ensures conflicts { IfOk result (λ c. map conflicts_of (args_of c)
        ≡ map conflicts_of (args_of command.entry) ++ map conflicts_of args.entry.items) }
{
    command.args(args)
}

fn args_of<'a>(alloc: Global, arguments: &[Argument]) -> Result<Vec<Arg<'a>>, AllocError>
    ensures { IfOk result (λ made. map view_of made.items ≡ map view_by arguments.now) }
{
    let mut args = Vec::new(alloc);
    for argument in arguments {
        args.push(arg_of(alloc, *argument)?)?;
    }
    Ok(args)
}

fn arg_of<'a>(alloc: Global, argument: Argument) -> Result<Arg<'a>, AllocError>
    ensures { IfOk result (λ arg. view_of arg ≡ view_by argument) }
{
    let mut arg = Arg::new(alloc, argument.id).help(argument.help);
    for rule in argument.rules {
        arg = ruled(arg, argument.id, *rule)?;
    }
    Ok(arg)
}

// The argument of this name under one more rule.
fn ruled<'a>(arg: Arg<'a>, id: &'static str, rule: Rule) -> Result<Arg<'a>, AllocError>
    ensures { IfOk result (λ made. view_of made ≡ ruled id.now (view_of arg.entry) rule) }
{
    match rule {
        Rule::Flag => Ok(arg.long(id).action(ArgAction::SetTrue)),
        Rule::Named(value) => Ok(arg.long(id).value_name(value)),
        Rule::Three(values) => Ok(arg.long(id).num_args(3).value_names(values)),
        Rule::Place(value) => Ok(arg.value_name(value)),
        Rule::Many => Ok(arg.action(ArgAction::Append).num_args(0..)),
        Rule::Repeated => Ok(arg.action(ArgAction::Append)),
        Rule::Required => Ok(arg.required(true)),
        Rule::RequiredWithout(other) => arg.required_unless_present(other),
        Rule::Default(value) => Ok(arg.default_value(value)),
        Rule::Without(value) => Ok(arg.num_args(0..=1).default_missing_value(value)),
        Rule::Takes(parser) => Ok(arg.value_parser(parser)),
        Rule::Needs(other) => arg.requires_arg(other),
        Rule::Excludes(other) => arg.conflicts_with(other),
    }
}

ghost use Rattle.std.specs.Prelude.{◌≡◌, IfOk};
ghost use Rattle.clap.specs.Words.{app_of};
ghost use Rattle.wd_command.specs.Program.{IsApp, IsArg, check, flag, on_config, option, program, serve, top, word};

use clap::{Arg, ArgAction, Command};
use std::alloc::{AllocError, Global};

/// A word that stands at its place.
fn word<'a>(alloc: Global, name: &'a str) -> Arg<'a>
    ensures { IsArg (word name.entry.now) result }
{
    Arg::new(alloc, name)
}

/// An option with a value.
fn option<'a>(alloc: Global, name: &'a str) -> Arg<'a>
    ensures { IsArg (option name.entry.now) result }
{
    Arg::new(alloc, name).long(name)
}

/// An option without a value.
fn flag<'a>(alloc: Global, name: &'a str) -> Arg<'a>
    ensures { IsArg (flag name.entry.now) result }
{
    Arg::new(alloc, name).long(name).action(ArgAction::SetTrue)
}

/// `<config> [<const>]`, of a command of this name.
fn on_config<'a>(alloc: Global, name: &'a str) -> Result<Command<'a>, AllocError>
    ensures { IfOk result (IsApp (on_config name.entry.now)) }
{
    let config = word(alloc, "config");
    let constant = word(alloc, "const");
    Command::new(alloc, name).arg(config)?.arg(constant)
}

/// `serve <config> [<const>] [--threads n] [--help]`.
fn serve<'a>(alloc: Global) -> Result<Command<'a>, AllocError>
    ensures { IfOk result (IsApp serve) }
{
    let threads = option(alloc, "threads");
    let help = flag(alloc, "help");
    let begun = on_config(alloc, "serve")?;
    begun.arg(threads)?.arg(help)
}

/// `check <config> [<const>] [--help]`.
fn check<'a>(alloc: Global) -> Result<Command<'a>, AllocError>
    ensures { IfOk result (IsApp check) }
{
    let help = flag(alloc, "help");
    let begun = on_config(alloc, "check")?;
    begun.arg(help)
}

/// The program before its options and commands, to which clap adds none of its own.
fn top<'a>(alloc: Global) -> Command<'a>
    ensures { IsApp top result }
{
    Command::new(alloc, "workerd")
        .no_binary_name(true)
        .disable_help_flag(true)
        .disable_help_subcommand(true)
        .disable_version_flag(true)
}

/// The whole command line: `[--help] [--version]`, and then one of the two commands.
pub(crate) fn program<'a>(alloc: Global) -> Result<Command<'a>, AllocError>
    ensures { IfOk result (λ c. app_of c ≡ program) }
{
    let help = flag(alloc, "help");
    let version = flag(alloc, "version");
    let serve = serve(alloc)?;
    let check = check(alloc)?;
    let begun = top(alloc).arg(help)?.arg(version)?;
    begun.subcommand(serve)?.subcommand(check)
}

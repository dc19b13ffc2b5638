//! The commands, as `clap` knows them.
ghost use Rattle.std.specs.Prelude.{◌≡◌, IfOk, false};
ghost use Rattle.clap.specs.Words.{app_of, rule_of, with_rule};
ghost use Rattle.optra_text.specs.CommandForms.{auction_app, audit_app, bare_app, check_app, compress_app, house_app, option_rule, pay_app, plan_app, tables_app, demo_app, value_rule};

use clap::{Arg, ArgAction, Command};
use std::alloc::{AllocError, Global};

/// plan --net DIR --bids FILE --stops FILE [--steps K] [--budget B] [--cert FILE]
pub fn plan_command<'a>(alloc: Global) -> Result<Command<'a>, AllocError>
    ensures { IfOk result (λ command. app_of command ≡ plan_app) }
{
    let command = tables_command(alloc, "plan")?;
    let command = with_option(alloc, command, "steps", false)?;
    let command = with_option(alloc, command, "budget", false)?;
    let command = with_option(alloc, command, "cert", false)?;
    Ok(command)
}

/// check --net DIR --bids FILE --stops FILE --cert FILE
pub fn check_command<'a>(alloc: Global) -> Result<Command<'a>, AllocError>
    ensures { IfOk result (λ command. app_of command ≡ check_app) }
{
    let command = tables_command(alloc, "check")?;
    let command = with_option(alloc, command, "cert", true)?;
    Ok(command)
}

/// audit --net DIR --bids FILE --stops FILE --times FILE
pub fn audit_command<'a>(alloc: Global) -> Result<Command<'a>, AllocError>
    ensures { IfOk result (λ command. app_of command ≡ audit_app) }
{
    let command = tables_command(alloc, "audit")?;
    let command = with_option(alloc, command, "times", true)?;
    Ok(command)
}

/// pay --net DIR --bids FILE --stops FILE [--steps K] [--budget B]
pub fn pay_command<'a>(alloc: Global) -> Result<Command<'a>, AllocError>
    ensures { IfOk result (λ command. app_of command ≡ pay_app) }
{
    let command = tables_command(alloc, "pay")?;
    let command = with_option(alloc, command, "steps", false)?;
    let command = with_option(alloc, command, "budget", false)?;
    Ok(command)
}

/// compress --net DIR --bids FILE --stops FILE --times FILE
pub fn compress_command<'a>(alloc: Global) -> Result<Command<'a>, AllocError>
    ensures { IfOk result (λ command. app_of command ≡ compress_app) }
{
    let command = tables_command(alloc, "compress")?;
    let command = with_option(alloc, command, "times", true)?;
    Ok(command)
}

/// auction --net DIR --bids FILE --stops FILE --rules FILE --actions FILE [--certs PREFIX]
pub fn auction_command<'a>(alloc: Global) -> Result<Command<'a>, AllocError>
    ensures { IfOk result (λ command. app_of command ≡ auction_app) }
{
    let command = tables_command(alloc, "auction")?;
    let command = with_option(alloc, command, "rules", true)?;
    let command = with_option(alloc, command, "actions", true)?;
    let command = with_option(alloc, command, "certs", false)?;
    Ok(command)
}

/// house --net DIR --bids FILE --stops FILE --rules FILE --actions FILE --journal FILE
pub fn house_command<'a>(alloc: Global) -> Result<Command<'a>, AllocError>
    ensures { IfOk result (λ command. app_of command ≡ house_app) }
{
    let command = tables_command(alloc, "house")?;
    let command = with_option(alloc, command, "rules", true)?;
    let command = with_option(alloc, command, "actions", true)?;
    let command = with_option(alloc, command, "journal", true)?;
    Ok(command)
}

/// demo SEED SIZE
pub fn demo_command<'a>(alloc: Global) -> Result<Command<'a>, AllocError>
    ensures { IfOk result (λ command. app_of command ≡ demo_app) }
{
    let command = bare_command(alloc, "demo");
    let command = with_value(alloc, command, "seed")?;
    let command = with_value(alloc, command, "size")?;
    Ok(command)
}

/// A command that needs the network's folder, the bids and the stops.
pub(crate) fn tables_command<'a>(alloc: Global, name: &'a str) -> Result<Command<'a>, AllocError>
    ensures { IfOk result (λ command. app_of command ≡ tables_app name.entry.now) }
{
    let command = bare_command(alloc, name);
    let command = with_option(alloc, command, "net", true)?;
    let command = with_option(alloc, command, "bids", true)?;
    let command = with_option(alloc, command, "stops", true)?;
    Ok(command)
}

/// A command without options, help or version.
fn bare_command<'a>(alloc: Global, name: &'a str) -> Command<'a>
    ensures { app_of result ≡ bare_app name.entry.now }
{
    Command::new(alloc, name)
        .no_binary_name(true)
        .disable_help_flag(true)
        .disable_version_flag(true)
}

/// The command with one more option, which takes one value and is given at most once.
pub(crate) fn with_option<'a>(
    alloc: Global,
    command: Command<'a>,
    name: &'a str,
    is_required: bool,
) -> Result<Command<'a>, AllocError>
    ensures { IfOk result (λ more. app_of more ≡ with_rule (app_of command.entry) (option_rule
        name.entry.now is_required)) }
{
    command.arg(option(alloc, name, is_required))
}

/// An option.
fn option<'a>(alloc: Global, name: &'a str, is_required: bool) -> Arg<'a>
    ensures rule { rule_of result ≡ option_rule name.entry.now is_required }
    ensures local { result.global ≡ false }
{
    Arg::new(alloc, name)
        .long(name)
        .required(is_required)
        .action(ArgAction::Set)
}

/// The command with one more value, which is required and has no option name.
fn with_value<'a>(
    alloc: Global,
    command: Command<'a>,
    name: &'a str,
) -> Result<Command<'a>, AllocError>
    ensures { IfOk result (λ more. app_of more ≡ with_rule (app_of command.entry) (value_rule
        name.entry.now)) }
{
    command.arg(value(alloc, name))
}

/// A value that is required and has no option name.
fn value<'a>(alloc: Global, name: &'a str) -> Arg<'a>
    ensures rule { rule_of result ≡ value_rule name.entry.now }
    ensures local { result.global ≡ false }
{
    Arg::new(alloc, name).required(true).action(ArgAction::Set)
}

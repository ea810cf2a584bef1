//! The words that each command takes after its name: one function per argument, and one per
//! command.

ghost use Rattle.std.specs.Prelude.{◌≡◌, IfOk, false};
ghost use Rattle.clap.specs.Words.{app_of, rule_of};
ghost use Rattle.command_line.specs.Options as spec;

use clap::builder::ValueParser;
use clap::{Arg, Command};
use std::alloc::{AllocError, Global};

/// The most steps that a run may be given, and that may come before its update.
const MAX_STEPS: u64 = 10_000_000;

/// The most that a load may be asked for.
const MAX_LOAD: u64 = 1_000;

/// The name of the file that the command reads.
fn file<'a>(alloc: Global) -> Arg<'a>
    ensures { (rule_of result ≡ spec.file) × (result.global ≡ false) }
{
    Arg::new(alloc, "file").required(true)
}

/// The name of the file with the patch of an update.
fn patch<'a>(alloc: Global) -> Arg<'a>
    ensures { (rule_of result ≡ spec.patch) × (result.global ≡ false) }
{
    Arg::new(alloc, "patch").long("patch")
}

/// After how many steps the update is asked for.
fn at<'a>(alloc: Global) -> Arg<'a>
    ensures { (rule_of result ≡ spec.at) × (result.global ≡ false) }
{
    Arg::new(alloc, "at")
        .long("at")
        .value_parser(ValueParser::unsigned(0, MAX_STEPS))
}

/// The name of the file that the program reads as its input.
fn input<'a>(alloc: Global) -> Arg<'a>
    ensures { (rule_of result ≡ spec.input) × (result.global ≡ false) }
{
    Arg::new(alloc, "input").long("input")
}

/// What the choices of a drawn schedule are drawn from.
fn seed<'a>(alloc: Global) -> Arg<'a>
    ensures { (rule_of result ≡ spec.seed) × (result.global ≡ false) }
{
    Arg::new(alloc, "seed")
        .long("seed")
        .value_parser(ValueParser::unsigned(0, u64::MAX))
}

/// The name of the file with a schedule.
fn schedule<'a>(alloc: Global) -> Arg<'a>
    ensures { (rule_of result ≡ spec.schedule) × (result.global ≡ false) }
{
    Arg::new(alloc, "schedule").long("schedule")
}

/// The most steps that the run may make.
fn steps<'a>(alloc: Global) -> Arg<'a>
    ensures { (rule_of result ≡ spec.steps) × (result.global ≡ false) }
{
    Arg::new(alloc, "steps")
        .long("steps")
        .value_parser(ValueParser::unsigned(1, MAX_STEPS))
}

/// The name of the file that the history goes to.
fn history<'a>(alloc: Global) -> Arg<'a>
    ensures { (rule_of result ≡ spec.history) × (result.global ≡ false) }
{
    Arg::new(alloc, "history").long("history")
}

/// The name of the file with the old program.
fn old<'a>(alloc: Global) -> Arg<'a>
    ensures { (rule_of result ≡ spec.old) × (result.global ≡ false) }
{
    Arg::new(alloc, "old").required(true)
}

/// The name of the file with the new program.
fn new<'a>(alloc: Global) -> Arg<'a>
    ensures { (rule_of result ≡ spec.new) × (result.global ≡ false) }
{
    Arg::new(alloc, "new").required(true)
}

/// The name of the file with the mapping.
fn mapping<'a>(alloc: Global) -> Arg<'a>
    ensures { (rule_of result ≡ spec.mapping) × (result.global ≡ false) }
{
    Arg::new(alloc, "map").required(true)
}

/// The name of the file that the patch goes to.
fn output<'a>(alloc: Global) -> Arg<'a>
    ensures { (rule_of result ≡ spec.output) × (result.global ≡ false) }
{
    Arg::new(alloc, "output").short('o').required(true)
}

/// How large the texts of a load are.
fn number<'a>(alloc: Global) -> Arg<'a>
    ensures { (rule_of result ≡ spec.number) × (result.global ≡ false) }
{
    Arg::new(alloc, "number")
        .required(true)
        .value_parser(ValueParser::unsigned(1, MAX_LOAD))
}

/// A command with no words of its own for help and for the version.
fn bare<'a>(alloc: Global, name: &'a str) -> Command<'a>
    ensures { app_of result ≡ spec.bare name.entry.now }
{
    Command::new(alloc, name)
        .disable_help_flag(true)
        .disable_version_flag(true)
        .disable_help_subcommand(true)
}

/// A command that takes a file alone.
fn file_command<'a>(alloc: Global, name: &'a str) -> Result<Command<'a>, AllocError>
    ensures { IfOk result (λ c. app_of c ≡ spec.file_app name.entry.now) }
{
    bare(alloc, name).arg(file(alloc))
}

/// `check FILE`
pub(crate) fn check_command<'a>(alloc: Global) -> Result<Command<'a>, AllocError>
    ensures { IfOk result (λ c. app_of c ≡ spec.check_app) }
{
    file_command(alloc, "check")
}

/// `points FILE`
pub(crate) fn points_command<'a>(alloc: Global) -> Result<Command<'a>, AllocError>
    ensures { IfOk result (λ c. app_of c ≡ spec.points_app) }
{
    file_command(alloc, "points")
}

/// `transform FILE`
pub(crate) fn transform_command<'a>(alloc: Global) -> Result<Command<'a>, AllocError>
    ensures { IfOk result (λ c. app_of c ≡ spec.transform_app) }
{
    file_command(alloc, "transform")
}

/// `run FILE [--patch P --at N] [--input F] [--seed N] [--schedule F] [--steps N] [--history F]`
pub(crate) fn run_command<'a>(alloc: Global) -> Result<Command<'a>, AllocError>
    ensures { IfOk result (λ c. app_of c ≡ spec.run_app) }
{
    file_command(alloc, "run")?
        .arg(patch(alloc))?
        .arg(at(alloc))?
        .arg(input(alloc))?
        .arg(seed(alloc))?
        .arg(schedule(alloc))?
        .arg(steps(alloc))?
        .arg(history(alloc))
}

/// `patch OLD NEW MAP -o OUT`
pub(crate) fn patch_command<'a>(alloc: Global) -> Result<Command<'a>, AllocError>
    ensures { IfOk result (λ c. app_of c ≡ spec.patch_app) }
{
    bare(alloc, "patch")
        .arg(old(alloc))?
        .arg(new(alloc))?
        .arg(mapping(alloc))?
        .arg(output(alloc))
}

/// `upgrade FILE -o OUT`
pub(crate) fn upgrade_command<'a>(alloc: Global) -> Result<Command<'a>, AllocError>
    ensures { IfOk result (λ c. app_of c ≡ spec.upgrade_app) }
{
    file_command(alloc, "upgrade")?.arg(output(alloc))
}

/// `load N`
pub(crate) fn load_command<'a>(alloc: Global) -> Result<Command<'a>, AllocError>
    ensures { IfOk result (λ c. app_of c ≡ spec.load_app) }
{
    bare(alloc, "load").arg(number(alloc))
}

//! The command that the words of a call are.

ghost use Rattle.std.specs.Prelude.{◌≡◌, IfOk, map, string_bytes};
ghost use Rattle.command_line.specs.Command as spec;
ghost use Rattle.command_line.specs.Laws as laws;
ghost use Rattle.command_line.specs.Views as view;

use crate::matches::{file_in, found_in, name_in, number_in, small_number_in, text_in};
use crate::options::{
    check_command, load_command, patch_command, points_command, run_command, transform_command,
    upgrade_command,
};
use std::alloc::{AllocError, Global};

/// The most steps of a run that was given no number of them.
const DEFAULT_STEPS: u64 = 1_000_000;

/// The update that a run is asked for.
#[derive(Clone, Copy, PartialEq, Eq)]
pub struct UpdateWords<'a> {
    /// The name of the file with the patch.
    pub patch: &'a str,
    /// After how many steps it is asked for, from 0 to 10,000,000.
    pub at: u64,
}

/// What a run is asked to do.
#[derive(Clone, Copy, PartialEq, Eq)]
pub struct RunWords<'a> {
    /// The name of the file with the program.
    pub file: &'a str,
    /// The update that it is asked for.
    pub update: Option<UpdateWords<'a>>,
    /// The name of the file that the program reads as its input.
    pub input: Option<&'a str>,
    /// What the choices of a drawn schedule are drawn from.
    pub seed: Option<u64>,
    /// The name of the file with a schedule; not beside a seed.
    pub schedule: Option<&'a str>,
    /// The most steps that the run may make, from 1 to 10,000,000.
    pub steps: u64,
    /// The name of the file that the history goes to.
    pub history: Option<&'a str>,
}

/// The files of a patch that is made.
#[derive(Clone, Copy, PartialEq, Eq)]
pub struct PatchWords<'a> {
    /// The name of the file with the old program.
    pub old: &'a str,
    /// The name of the file with the new program.
    pub new: &'a str,
    /// The name of the file with the mapping.
    pub map: &'a str,
    /// The name of the file that the patch goes to.
    pub output: &'a str,
}

/// The files of a patch whose format is made the newest one.
#[derive(Clone, Copy, PartialEq, Eq)]
pub struct UpgradeWords<'a> {
    /// The name of the file with the patch.
    pub file: &'a str,
    /// The name of the file that the patch goes to.
    pub output: &'a str,
}

/// What the words ask for. Each command has the names of its files, and `Load` the size of its
/// texts.
#[derive(Clone, Copy, PartialEq, Eq)]
pub enum Command<'a> {
    /// The words are no command.
    Usage,
    /// Whether the source is accepted, and how much it has of each kind.
    Check(&'a str),
    /// The places of the program that mappings can name.
    Points(&'a str),
    /// The program as it is transformed for updates.
    Transform(&'a str),
    /// A run of the program.
    Run(RunWords<'a>),
    /// A patch from one program to another.
    Patch(PatchWords<'a>),
    /// The same patch in the newest format.
    Upgrade(UpgradeWords<'a>),
    /// Two programs and a mapping between them, made as large as this number from 1 to 1000 says.
    Load(u32),
}

fn check_in<'a>(alloc: Global, words: &'a [String]) -> Result<Command<'a>, AllocError>
    ensures { IfOk result (λ c.
        view.command c ≡ spec.check_of (map string_bytes words.entry.now)) }
{
    let command = match found_in(check_command(alloc)?, words)? {
        Some(matches) => Command::Check(file_in(&matches)),
        None => Command::Usage,
    };
    Ok(command)
}

fn points_in<'a>(alloc: Global, words: &'a [String]) -> Result<Command<'a>, AllocError>
    ensures { IfOk result (λ c.
        view.command c ≡ spec.points_of (map string_bytes words.entry.now)) }
{
    let command = match found_in(points_command(alloc)?, words)? {
        Some(matches) => Command::Points(file_in(&matches)),
        None => Command::Usage,
    };
    Ok(command)
}

fn transform_in<'a>(alloc: Global, words: &'a [String]) -> Result<Command<'a>, AllocError>
    ensures { IfOk result (λ c.
        view.command c ≡ spec.transform_of (map string_bytes words.entry.now)) }
{
    let command = match found_in(transform_command(alloc)?, words)? {
        Some(matches) => Command::Transform(file_in(&matches)),
        None => Command::Usage,
    };
    Ok(command)
}

/// The update of a patch and a number of steps, where both are given.
fn update_of<'a>(patch: Option<&'a str>, at: Option<u64>) -> Option<UpdateWords<'a>>
    ensures { view.update result ≡ spec.update_of (view.text patch.entry) at }
{
    Some(UpdateWords {
        patch: patch?,
        at: at?,
    })
}

/// Whether one of the two is given without the other.
fn is_half(patch: Option<&str>, at: Option<u64>) -> bool
    ensures { result ≡ spec.is_half (view.text patch.entry) at }
{
    if patch.is_some() {
        at.is_none()
    } else {
        at.is_some()
    }
}

/// A run follows a schedule or draws one from a seed, and not both; half an update is none.
fn run_on<'a>(is_half: bool, run: RunWords<'a>) -> Command<'a>
    ensures { view.command result ≡ spec.run_on is_half (view.run run.entry) }
{
    if is_half || (run.seed.is_some() && run.schedule.is_some()) {
        return Command::Usage;
    }
    Command::Run(run)
}

fn run_in<'a>(alloc: Global, words: &'a [String]) -> Result<Command<'a>, AllocError>
    ensures { IfOk result (λ c.
        view.command c ≡ spec.run_of (map string_bytes words.entry.now)) }
{
    let Some(matches) = found_in(run_command(alloc)?, words)? else {
        return Ok(Command::Usage);
    };
    let patch = text_in(&matches, "patch");
    let at = number_in(&matches, "at");
    let run = RunWords {
        file: file_in(&matches),
        update: update_of(patch, at),
        input: text_in(&matches, "input"),
        seed: number_in(&matches, "seed"),
        schedule: text_in(&matches, "schedule"),
        steps: number_in(&matches, "steps").unwrap_or(DEFAULT_STEPS),
        history: text_in(&matches, "history"),
    };
    Ok(run_on(is_half(patch, at), run))
}

fn patch_in<'a>(alloc: Global, words: &'a [String]) -> Result<Command<'a>, AllocError>
    ensures { IfOk result (λ c.
        view.command c ≡ spec.patch_of (map string_bytes words.entry.now)) }
{
    let Some(matches) = found_in(patch_command(alloc)?, words)? else {
        return Ok(Command::Usage);
    };
    Ok(Command::Patch(PatchWords {
        old: name_in(&matches, "old"),
        new: name_in(&matches, "new"),
        map: name_in(&matches, "map"),
        output: name_in(&matches, "output"),
    }))
}

fn upgrade_in<'a>(alloc: Global, words: &'a [String]) -> Result<Command<'a>, AllocError>
    ensures { IfOk result (λ c.
        view.command c ≡ spec.upgrade_of (map string_bytes words.entry.now)) }
{
    let Some(matches) = found_in(upgrade_command(alloc)?, words)? else {
        return Ok(Command::Usage);
    };
    Ok(Command::Upgrade(UpgradeWords {
        file: file_in(&matches),
        output: name_in(&matches, "output"),
    }))
}

/// A load of this size; no number is none.
fn load_on<'a>(number: Option<u32>) -> Command<'a>
    ensures { view.command result ≡ spec.load_on number }
{
    match number {
        Some(number) => Command::Load(number),
        None => Command::Usage,
    }
}

fn load_in<'a>(alloc: Global, words: &'a [String]) -> Result<Command<'a>, AllocError>
    ensures { IfOk result (λ c.
        view.command c ≡ spec.load_of (map string_bytes words.entry.now)) }
{
    let Some(matches) = found_in(load_command(alloc)?, words)? else {
        return Ok(Command::Usage);
    };
    Ok(load_on(small_number_in(&matches, "number")))
}

/// The command that the words are, of which the first is its name. An `Err` is want of memory.
pub fn command_of<'a>(alloc: Global, words: &'a [String]) -> Result<Command<'a>, AllocError>
    ensures command { IfOk result (λ c.
        view.command c ≡ spec.command_of (map string_bytes words.entry.now)) }
    ensures fair { IfOk result (λ c. laws.IsFairCommand (view.command c)) }
{
    let Some(name) = words.first() else {
        return Ok(Command::Usage);
    };
    match name.as_str() {
        "check" => check_in(alloc, words),
        "points" => points_in(alloc, words),
        "transform" => transform_in(alloc, words),
        "run" => run_in(alloc, words),
        "patch" => patch_in(alloc, words),
        "upgrade" => upgrade_in(alloc, words),
        "load" => load_in(alloc, words),
        _ => Ok(Command::Usage),
    }
}

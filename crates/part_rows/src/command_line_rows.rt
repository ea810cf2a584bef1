//! What words ask for.

use command_line::laws::command_is_fair_law;
use command_line::{Command, PatchWords, RunWords, UpdateWords, command_of};
use row_calls::{RowsDiffer, compare, judged};
use std::alloc::{AllocError, Global};

/// The words, and the command with what it was given.
#[rattlefmt::skip]
const ROWS: &[(&str, &str)] = &[
    ("", "usage"),
    ("a.c", "usage"),
    ("--help", "usage"),
    ("--version", "usage"),
    ("help", "usage"),
    ("check", "usage"),
    ("check a b", "usage"),
    ("check a", "check a"),
    ("check --help", "usage"),
    ("check help", "check help"),
    ("check a --seed 1", "usage"),
    ("points a", "points a"),
    ("points -h", "usage"),
    ("points --version", "usage"),
    ("points -- -h", "points -h"),
    ("transform", "usage"),
    ("transform a", "transform a"),
    ("transform a b", "usage"),
    ("transform -- -h", "transform -h"),
    ("transform a --steps 1", "usage"),
    ("load", "usage"),
    ("load 0", "usage"),
    ("load 1", "load 1"),
    ("load 1000", "load 1000"),
    ("load +07", "load 7"),
    ("load 1001", "usage"),
    ("load 4294967297", "usage"),
    ("load x", "usage"),
    ("load -1", "usage"),
    ("load 1 2", "usage"),
    ("load --help", "usage"),
    ("run", "usage"),
    ("run a.c", "run a.c steps 1000000"),
    ("run -- -x", "run -x steps 1000000"),
    ("run a.c b.c", "usage"),
    ("run a.c --seed 1", "run a.c seed 1 steps 1000000"),
    ("run a.c --seed=+01", "run a.c seed 1 steps 1000000"),
    ("run --seed 18446744073709551615 a.c", "run a.c seed 18446744073709551615 steps 1000000"),
    ("run --seed 18446744073709551616 a.c", "usage"),
    ("run a.c --seed one", "usage"),
    ("run a.c --seed", "usage"),
    ("run a.c --seed 1 --seed 1", "usage"),
    ("run a.c --steps 0", "usage"),
    ("run a.c --steps 10000000", "run a.c steps 10000000"),
    ("run a.c --steps 10000001", "usage"),
    ("run a.c --schedule s", "run a.c schedule s steps 1000000"),
    ("run a.c --seed 1 --schedule s", "usage"),
    ("run a.c --history=h", "run a.c steps 1000000 history h"),
    ("run a.c --hist h", "usage"),
    ("run a.c --input i", "run a.c input i steps 1000000"),
    ("run a.c --input", "usage"),
    ("run a.c --input i --input i", "usage"),
    ("check a.c --input i", "usage"),
    ("run a.c --patch p --at 5", "run a.c patch p at 5 steps 1000000"),
    ("run --at=5 a.c --patch=p", "run a.c patch p at 5 steps 1000000"),
    ("run a.c --patch p --at 10000000", "run a.c patch p at 10000000 steps 1000000"),
    ("run a.c --patch p --at 10000001", "usage"),
    ("run a.c --patch p --at x", "usage"),
    ("run a.c --patch p", "usage"),
    ("run a.c --at 5", "usage"),
    ("run a.c --at 5 --at 5 --patch p", "usage"),
    ("patch a b m -o p --at 5", "usage"),
    ("patch a b m -o p", "patch a b m p"),
    ("patch -o p a b m", "patch a b m p"),
    ("patch a -op b m", "patch a b m p"),
    ("patch a b m", "usage"),
    ("patch a b -o p", "usage"),
    ("patch a b m x -o p", "usage"),
    ("patch a b m -o", "usage"),
    ("patch a b m -o p -o q", "usage"),
    ("patch a b m --output p", "usage"),
    ("upgrade p -o q", "upgrade p q"),
    ("upgrade -o q p", "upgrade p q"),
    ("upgrade p -oq", "upgrade p q"),
    ("upgrade p", "usage"),
    ("upgrade -o q", "usage"),
    ("upgrade p q -o r", "usage"),
    ("upgrade p -o q --at 5", "usage"),
];

fn words_of(alloc: Global, line: &str) -> Result<Vec<String>, AllocError> {
    let mut words = Vec::new(alloc);
    for word in line.split_whitespace() {
        words.push(String::from_str(alloc, word)?)?;
    }
    Ok(words)
}

fn put_option(text: &mut String, option: &str, value: Option<&str>) -> Result<(), AllocError> {
    match value {
        Some(value) => write!(text, " {option} {value}"),
        None => Ok(()),
    }
}

fn put_update(text: &mut String, update: Option<UpdateWords<'_>>) -> Result<(), AllocError> {
    match update {
        Some(UpdateWords { patch, at }) => write!(text, " patch {patch} at {at}"),
        None => Ok(()),
    }
}

fn put_seed(text: &mut String, seed: Option<u64>) -> Result<(), AllocError> {
    match seed {
        Some(seed) => write!(text, " seed {seed}"),
        None => Ok(()),
    }
}

fn put_run(text: &mut String, words: &RunWords<'_>) -> Result<(), AllocError> {
    write!(text, "run {}", words.file)?;
    put_update(text, words.update)?;
    put_option(text, "input", words.input)?;
    put_seed(text, words.seed)?;
    put_option(text, "schedule", words.schedule)?;
    write!(text, " steps {}", words.steps)?;
    put_option(text, "history", words.history)
}

fn put_patch(text: &mut String, words: &PatchWords<'_>) -> Result<(), AllocError> {
    let PatchWords {
        old,
        new,
        map,
        output,
    } = words;
    write!(text, "patch {old} {new} {map} {output}")
}

fn put_command(text: &mut String, command: &Command<'_>) -> Result<(), AllocError> {
    match command {
        Command::Usage => text.push_str("usage"),
        Command::Check(file) => write!(text, "check {file}"),
        Command::Points(file) => write!(text, "points {file}"),
        Command::Transform(file) => write!(text, "transform {file}"),
        Command::Run(words) => put_run(text, words),
        Command::Patch(words) => put_patch(text, words),
        Command::Upgrade(words) => write!(text, "upgrade {} {}", words.file, words.output),
        Command::Load(n) => write!(text, "load {n}"),
    }
}

fn asked(alloc: Global, line: &str) -> Result<String, AllocError> {
    let words = words_of(alloc, line)?;
    let mut text = String::new(alloc);
    put_command(&mut text, &command_of(alloc, words.as_slice())?)?;
    Ok(text)
}

fn differing_rows(alloc: Global) -> Result<String, AllocError> {
    let mut differing = String::new(alloc);
    for (line, wanted) in ROWS {
        compare(&mut differing, line, wanted, &asked(alloc, line)?)?;
    }
    Ok(differing)
}

#[test]
fn the_words_are_the_command(rt: HostRuntime) -> Result<(), RowsDiffer> {
    command_is_fair_law();
    judged(differing_rows(rt.alloc()))
}

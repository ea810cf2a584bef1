//! What `clap` finds in the words of a command.

ghost use Rattle.std.specs.Prelude.{◌≡◌, IfOk, IfSome, option_map, map, string_bytes};
ghost use Rattle.clap.specs.Words.{IsUnsignedIn, app_of, first_of, found_of, rows_of};
ghost use Rattle.command_line.specs.Command as spec;
ghost use Rattle.command_line.specs.Bare as bare;
ghost use Rattle.command_line.specs.Options as options;
ghost use Rattle.command_line.specs.Views as view;

use clap::error::ErrorKind;
use clap::{ArgMatches, Command};
use std::alloc::AllocError;

/// What was found in the words, or nothing where the command doesn't take them.
pub(crate) fn found_in<'a>(
    command: Command<'a>,
    words: &'a [String],
) -> Result<Option<ArgMatches<'a>>, AllocError>
    ensures { bare.IsBare (app_of command.entry) → IfOk result (λ found.
        option_map (λ m. rows_of (found_of m)) found
        ≡ options.found (app_of command.entry) (map string_bytes words.entry.now)) }
{
    match command.try_get_matches_from(words) {
        Ok(matches) => Ok(Some(matches)),
        Err(error) => match error.kind() {
            ErrorKind::OutOfMemory => Err(AllocError),
            _ => Ok(None),
        },
    }
}

/// The text of an argument.
pub(crate) fn text_in<'a>(matches: &ArgMatches<'a>, name: &str) -> Option<&'a str>
    ensures { view.text result ≡ first_of name.now (rows_of (found_of matches.now)) }
{
    matches.get_str(name)
}

/// The name of a file that has to be named.
pub(crate) fn name_in<'a>(matches: &ArgMatches<'a>, name: &str) -> &'a str
    ensures { result.now ≡ spec.name_in name.now (rows_of (found_of matches.now)) }
{
    text_in(matches, name).unwrap_or("")
}

/// The name of the file that is read.
pub(crate) fn file_in<'a>(matches: &ArgMatches<'a>) -> &'a str
    ensures { result.now ≡ spec.file_in (rows_of (found_of matches.now)) }
{
    text_in(matches, "file").unwrap_or("")
}

/// The number of an option, where it was given. `clap` has tested its text.
pub(crate) fn number_in(matches: &ArgMatches<'_>, name: &str) -> Option<u64>
    ensures { IfSome (first_of name.now (rows_of (found_of matches.now)))
        (IsUnsignedIn 0 options.max_seed)
        → result ≡ spec.number_in name.now (rows_of (found_of matches.now)) }
{
    text_in(matches, name)?.parse::<u64>().ok()
}

/// The number of an argument that is 1000 at most, where it was given. `clap` has tested its text.
pub(crate) fn small_number_in(matches: &ArgMatches<'_>, name: &str) -> Option<u32>
    ensures { IfSome (first_of name.now (rows_of (found_of matches.now)))
        (IsUnsignedIn 1 options.max_load)
        → result ≡ spec.number_in name.now (rows_of (found_of matches.now)) }
{
    text_in(matches, name)?.parse::<u32>().ok()
}

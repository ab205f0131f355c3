//! Single values among the matches of a command.

ghost use Rattle.std.specs.Prelude.{◌≡◌};
ghost use Rattle.clap.specs.Walk.{rows_of};
ghost use Rattle.clap.specs.Matches.{found_of};
ghost use Rattle.ci_cli_words.specs.Words.{Reads, HasWord, HasValue, number_of, is_set};

use clap::ArgMatches;

/// The value of an argument, if it has one.
pub(crate) fn word_in<'a>(found: &ArgMatches<'a>, argument: &str) -> Option<&'a str>
    ensures { Reads (HasWord argument.now (rows_of (found_of found.now))) result }
{
    found.get_str(argument)
}

/// The value of an option, if it has one that doesn't begin with `-`.
pub(crate) fn text_in<'a>(found: &ArgMatches<'a>, option: &str) -> Option<&'a str>
    ensures { Reads (HasValue option.now (rows_of (found_of found.now))) result }
{
    let text = word_in(found, option)?;
    if text.starts_with('-') {
        return None;
    }
    Some(text)
}

/// The number that an option has, if it is one of 64 bits.
pub(crate) fn number_in(found: &ArgMatches<'_>, option: &str) -> Option<u64>
    ensures { result ≡ number_of 64 option.now (rows_of (found_of found.now)) }
{
    found.get_one(option)
}

/// The same of 32 bits.
pub(crate) fn short_number_in(found: &ArgMatches<'_>, option: &str) -> Option<u32>
    ensures { result ≡ number_of 32 option.now (rows_of (found_of found.now)) }
{
    found.get_one(option)
}

/// The same of 16 bits, as a port is.
pub(crate) fn port_in(found: &ArgMatches<'_>, option: &str) -> Option<u16>
    ensures { result ≡ number_of 16 option.now (rows_of (found_of found.now)) }
{
    found.get_one(option)
}

/// Is the flag among the words?
pub(crate) fn is_set(found: &ArgMatches<'_>, flag: &str) -> bool
    ensures { result ≡ is_set flag.now (rows_of (found_of found.now)) }
{
    let value: Option<bool> = found.get_one(flag);
    value.unwrap_or(false)
}

//! Whether an option is given.

ghost use Rattle.std.specs.Prelude.{◌≡◌, is_some};
ghost use Rattle.trace_command.specs.Tracing.{value_of};

use clap::ArgMatches;

/// The option has a value.
pub fn is_given(matches: &ArgMatches, name: &str) -> bool
    ensures { result ≡ is_some (value_of matches.now name.now) }
{
    match matches.get_str(name) {
        Some(_) => true,
        None => false,
    }
}

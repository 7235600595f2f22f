//! A command of flags and of options with a whole number, as clap takes it, without help and version.
ghost use Rattle.std.specs.Prelude.{◌≡◌, [], false};
ghost use Rattle.clap.specs.Words.{IsPlainArg, app_of, args_of, first_value, found_of, groups_of, rule_of};
ghost use Rattle.clap.specs.declared.builder.command.Command.TheViews.{out-Command as fields_of};
ghost use Rattle.words.specs.Options.{bare as bare_app, flag_rule, is_true, number_rule};

use clap::{Arg, ArgAction, ArgMatches, Command, value_parser};
use std::alloc::Global;

/// A command of this name without its words: no help and no version, and its first word is the program's already.
pub fn bare<'a>(alloc: Global, name: &'a str) -> Command<'a>
    ensures app { app_of result ≡ bare_app name.entry.now }
    ensures empty { (args_of result ≡ []) × (groups_of result ≡ []) }
    ensures local { (fields_of result).has_globals ≡ false }
{
    Command::new(alloc, name)
        .no_binary_name(true)
        .disable_help_flag(true)
        .disable_version_flag(true)
}

/// The flag of this name.
pub fn flag<'a>(alloc: Global, name: &'a str) -> Arg<'a>
    ensures rule { rule_of result ≡ flag_rule name.entry.now }
    ensures plain { IsPlainArg result × (result.global ≡ false) }
{
    Arg::new(alloc, name).long(name).action(ArgAction::SetTrue)
}

/// The option of this name, with a whole number from 1 to the greatest.
pub fn number<'a>(alloc: Global, name: &'a str, greatest: u32) -> Arg<'a>
    ensures rule { rule_of result ≡ number_rule greatest name.entry.now }
    ensures plain { IsPlainArg result × (result.global ≡ false) }
{
    Arg::new(alloc, name)
        .long(name)
        .action(ArgAction::Set)
        .value_parser(value_parser!(u32).range(1..=i64::from(greatest)))
}

/// Whether the flag of this name is there.
pub fn is_flagged(matches: &ArgMatches<'_>, name: &str) -> bool
    ensures { result ≡ is_true (first_value (found_of matches.now) name.now) }
{
    match matches.get_str(name) {
        Some(text) => text == "true",
        None => false,
    }
}

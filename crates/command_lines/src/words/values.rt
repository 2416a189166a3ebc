//! Which words have values, and which values these are.

ghost use Rattle.std.specs.Prelude.{◌≡◌};
ghost use Rattle.command_lines.specs.Words.Values.{command_has_options, has_options, is_valued, takes_value};

use crate::{OptionName, Setting, StationCommand, command_of, option_of};

/// Whether a word is an option with a value, which is the next word.
pub fn takes_value(word: &str) -> bool
    ensures { result ≡ takes_value word.now }
{
    is_valued(option_of(word))
}

fn is_valued(option: Option<OptionName>) -> bool
    ensures { result ≡ is_valued option }
{
    match option {
        Some(OptionName::Valued(_)) => true,
        Some(OptionName::Alone(_)) => false,
        None => false,
    }
}

/// Whether a word is a command with options: they follow the name of its file, or its host.
pub fn has_options(word: &str) -> bool
    ensures { result ≡ has_options word.now }
{
    match command_of(word) {
        Some(command) => command_has_options(command),
        None => false,
    }
}

fn command_has_options(command: StationCommand) -> bool
    ensures { result ≡ command_has_options command }
{
    match command {
        StationCommand::Adapter => true,
        StationCommand::Scanner => true,
        StationCommand::Plant => true,
        StationCommand::Identity => true,
        _ => false,
    }
}

/// Which values an option has, in words. Empty if it has none.
pub fn value_words(option: &str) -> &'static str {
    match option_of(option) {
        Some(OptionName::Valued(setting)) => words_of(setting),
        _ => "",
    }
}

fn words_of(setting: Setting) -> &'static str {
    match setting {
        Setting::Address | Setting::PageAddress => {
            "an IPv4 address is four numbers below 256 with dots between them"
        }
        Setting::Tcp | Setting::Udp | Setting::PeerUdp | Setting::Page => "a port is 1 to 65535",
        Setting::Seconds => "the seconds are 1 to 1000000000",
        Setting::Record => "it is the name of a file, or of a plant's folder",
        Setting::RecordBytes => "the bytes are 1 to 18446744073709551615",
        Setting::State | Setting::Script | Setting::Report => "it is the name of a file",
        Setting::Incarnation => "an incarnation is 1 to 255",
        Setting::Inactivity => "the seconds are 0 to 3600",
        Setting::Serial => "a serial number is 1 to 4294967295",
        Setting::Name => "a name has 1 to 32 bytes",
        Setting::PageHost => "the name of a host has 1 to 253 letters, digits, dots and hyphens",
        Setting::Lose | Setting::Repeat | Setting::Reorder => "a percentage is 0 to 100",
        Setting::Delay => "the milliseconds are 0 to 60000",
        Setting::Seed => "a seed is 0 to 18446744073709551615",
    }
}

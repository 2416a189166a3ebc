//! The options of a station.

ghost use Rattle.std.specs.Prelude.{◌≡◌, ◌≤◌, ◌+◌, ◌∷◌, Err, true, length, map, IfOk, IfErr};
ghost use Rattle.std.specs.List.{list_all};
ghost use Rattle.command_lines.specs.StationOptions.{is_host_byte, option_of, options_after, usual, with_address, with_file, with_flag, with_host, with_name, with_number, with_percent, with_port, with_value};

use crate::station_numbers::{
    address_of, delay_of, inactivity_of, incarnation_of, percent_of, port_of, record_bytes_of,
    seconds_of, seed_of, serial_of,
};
use cip_types::Node;
use cip_types::limits::UDP_PORT;
use std::convert::AsStr;
use thiserror::Error;

/// The longest name of a station, in bytes.
const LONGEST_NAME: usize = 32;

/// The most bytes of a record, if no option says it.
const RECORD_BYTES: u64 = 1_073_741_824;

/// The longest name of a host, in bytes.
const LONGEST_HOST: usize = 253;

/// The options of a station, with the usual values of those that are left out.
#[derive(Clone, Copy, PartialEq, Eq)]
pub struct Options {
    /// The address of the sockets; the profile's if it is left out.
    pub address: Option<Node>,
    /// An adapter's TCP port, or that of a scanner's targets. If it is left out: the one of the profile's description, or the
    /// standard's.
    pub tcp: Option<u16>,
    /// The station's UDP port.
    pub udp: u16,
    /// The UDP port of the station's peers.
    pub peer_udp: u16,
    /// The seconds until the station ends.
    pub seconds: Option<u32>,
    /// The number of words from the record's file on.
    pub record_from_end: Option<usize>,
    /// The most bytes of a record.
    pub record_bytes: u64,
    /// The number of words from the file of the station's state on.
    pub state_from_end: Option<usize>,
    /// The number of words from the file of the station's script on.
    pub script_from_end: Option<usize>,
    /// The number of words from the file of the report on.
    pub report_from_end: Option<usize>,
    /// The incarnation of this start.
    pub incarnation: Option<u8>,
    /// The seconds for which an adapter's stream may be silent; 0: without end. If it is left out: those of the profile's
    /// description, or the standard's.
    pub inactivity_s: Option<u16>,
    /// The station's serial number.
    pub serial: Option<u32>,
    /// The number of words from the station's name on.
    pub name_from_end: Option<usize>,
    /// Whether the datagrams of a multicast connection go once to the address of their group; if it is left out, the station's
    /// address decides.
    pub multicast: Option<bool>,
    /// Whether the port that a socket address item names is named and honoured.
    pub item_ports: bool,
    /// Whether the standard input is not read.
    pub no_input: bool,
    /// Whether only faults are reported.
    pub quiet: bool,
    /// The TCP port of the station's page.
    pub page: Option<u16>,
    /// The address of the page; that of this host alone if it is left out.
    pub page_address: Option<Node>,
    /// Whether the page takes calls.
    pub page_writes: bool,
    /// The number of words from the name of the host on by which browsers reach the page.
    pub page_host_from_end: Option<usize>,
    /// The percentage of the arriving datagrams that are lost.
    pub lose: u8,
    /// The percentage that arrive twice.
    pub repeat: u8,
    /// The percentage that the next one overtakes.
    pub reorder: u8,
    /// The most milliseconds that an arriving datagram waits.
    pub delay_ms: u16,
    /// The seed by which these are drawn.
    pub seed: u64,
}

/// The name of an option that has a value.
#[derive(Clone, Copy, PartialEq, Eq)]
pub enum Setting {
    Address,
    Tcp,
    Udp,
    PeerUdp,
    Seconds,
    Record,
    RecordBytes,
    State,
    Script,
    Report,
    Incarnation,
    Inactivity,
    Serial,
    Name,
    Page,
    PageAddress,
    PageHost,
    Lose,
    Repeat,
    Reorder,
    Delay,
    Seed,
}

/// The name of an option that has no value.
#[derive(Clone, Copy, PartialEq, Eq)]
pub enum Flag {
    Multicast,
    UnicastCopies,
    ItemPorts,
    Port2222,
    NoInput,
    Quiet,
    PageWrites,
}

/// The name of an option.
#[derive(Clone, Copy, PartialEq, Eq)]
pub enum OptionName {
    /// An option without a value.
    Alone(Flag),
    /// An option with a value, which is the next word.
    Valued(Setting),
}

/// Why words request no task. A number says how many words are left, from the wrong one on.
#[derive(Clone, Copy, Debug, PartialEq, Eq, Error)]
pub enum StationMisuse {
    /// There is no command.
    #[error("a command is missing")]
    NoCommand,
    /// The word is no command.
    #[error("no such command")]
    NoSuchCommand(usize),
    /// The command needs the name of a file.
    #[error("the name of a file is missing")]
    NoFile,
    /// The command needs the address of a host.
    #[error("the address of a host is missing")]
    NoHost,
    /// The command needs no names or three of them.
    #[error("three names are needed: vendor, product, catalog number")]
    ThreeNames(usize),
    /// The word is no name of a data sheet.
    #[error("no name: 1 to 32 printable characters, without quote and backslash")]
    BadName(usize),
    /// The word is no option.
    #[error("no such option")]
    NoSuchOption(usize),
    /// The option needs a value.
    #[error("the option needs a value")]
    NoValue(usize),
    /// The word is no value of its option.
    #[error("no such value of this option")]
    BadValue(usize),
    /// The word is no address.
    #[error("is no IPv4 address: that is four numbers below 256 with dots between them")]
    BadAddress(usize),
    /// An option of a plant is for one device.
    #[error("--address, --state, --script, --incarnation, --serial and --name are for one device, and a plant has several")]
    OneDevice,
}

/// The usual values.
fn usual() -> Options
    ensures { result ≡ usual }
{
    Options {
        address: None,
        tcp: None,
        udp: UDP_PORT,
        peer_udp: UDP_PORT,
        seconds: None,
        record_from_end: None,
        record_bytes: RECORD_BYTES,
        state_from_end: None,
        script_from_end: None,
        report_from_end: None,
        incarnation: None,
        inactivity_s: None,
        serial: None,
        name_from_end: None,
        multicast: None,
        item_ports: true,
        no_input: false,
        quiet: false,
        page: None,
        page_address: None,
        page_writes: false,
        page_host_from_end: None,
        lose: 0,
        repeat: 0,
        reorder: 0,
        delay_ms: 0,
        seed: 0,
    }
}

/// The option that a word names.
#[tactic(auto, unfolding(crate::specs::StationOptions::option_of))]
pub fn option_of(word: &str) -> Option<OptionName>
    ensures { result ≡ option_of word.now }
{
    match word {
        "--address" => Some(OptionName::Valued(Setting::Address)),
        "--tcp" => Some(OptionName::Valued(Setting::Tcp)),
        "--udp" => Some(OptionName::Valued(Setting::Udp)),
        "--peer-udp" => Some(OptionName::Valued(Setting::PeerUdp)),
        "--seconds" => Some(OptionName::Valued(Setting::Seconds)),
        "--record" => Some(OptionName::Valued(Setting::Record)),
        "--record-bytes" => Some(OptionName::Valued(Setting::RecordBytes)),
        "--state" => Some(OptionName::Valued(Setting::State)),
        "--script" => Some(OptionName::Valued(Setting::Script)),
        "--report" => Some(OptionName::Valued(Setting::Report)),
        "--incarnation" => Some(OptionName::Valued(Setting::Incarnation)),
        "--inactivity" => Some(OptionName::Valued(Setting::Inactivity)),
        "--serial" => Some(OptionName::Valued(Setting::Serial)),
        "--name" => Some(OptionName::Valued(Setting::Name)),
        "--multicast" => Some(OptionName::Alone(Flag::Multicast)),
        "--unicast-copies" => Some(OptionName::Alone(Flag::UnicastCopies)),
        "--item-ports" => Some(OptionName::Alone(Flag::ItemPorts)),
        "--port-2222" => Some(OptionName::Alone(Flag::Port2222)),
        "--no-input" => Some(OptionName::Alone(Flag::NoInput)),
        "--quiet" => Some(OptionName::Alone(Flag::Quiet)),
        "--page" => Some(OptionName::Valued(Setting::Page)),
        "--page-address" => Some(OptionName::Valued(Setting::PageAddress)),
        "--page-host" => Some(OptionName::Valued(Setting::PageHost)),
        "--lose" => Some(OptionName::Valued(Setting::Lose)),
        "--repeat" => Some(OptionName::Valued(Setting::Repeat)),
        "--reorder" => Some(OptionName::Valued(Setting::Reorder)),
        "--delay" => Some(OptionName::Valued(Setting::Delay)),
        "--seed" => Some(OptionName::Valued(Setting::Seed)),
        "--page-writes" => Some(OptionName::Alone(Flag::PageWrites)),
        _ => None,
    }
}

/// The options that the words give. A later word takes the place of an earlier one for the same option.
///
/// The faults, at the first word that is wrong: `NoSuchOption`, `NoValue`, `BadValue`, `BadAddress`.
pub fn read_options<S: AsStr>(words: &[S]) -> Result<Options, StationMisuse>
    ensures { result ≡ options_after usual (map S.text words.now) }
{
    let mut options = usual();
    let mut rest = words;
    while let Some((name, after)) = rest.split_first() {
        let (next, behind) = with_option(options, name.as_str(), rest.len(), after)?;
        options = next;
        rest = behind;
    }
    Ok(options)
}

/// The options with the one of a word, and the words behind it and its value. So many words are left, from this one on.
#[tactic(auto, using(crate::proofs::OptionWords::unknown_left, crate::proofs::OptionWords::flagged, crate::proofs::OptionWords::lone_left, crate::proofs::OptionWords::valued_on, crate::proofs::OptionWords::valued_not))]
fn with_option<'a, S: AsStr>(
    options: Options,
    name: &str,
    left: usize,
    after: &'a [S],
) -> Result<(Options, &'a [S]), StationMisuse>
    requires { left ≡ length after.now + 1 }
    ensures taken { IfOk result (λ next. options_after options (name.now ∷ map S.text after.now)
        ≡ options_after next.0 (map S.text next.1.now)) }
    ensures shorter { IfOk result (λ next. length next.1.now ≤ length after.now) }
    ensures fault { IfErr result (λ fault. options_after options (name.now ∷ map S.text after.now) ≡ Err fault) }
{
    match option_of(name) {
        None => Err(StationMisuse::NoSuchOption(left)),
        Some(OptionName::Alone(flag)) => Ok((with_flag(options, flag), after)),
        Some(OptionName::Valued(setting)) => {
            let Some((value, behind)) = after.split_first() else {
                return Err(StationMisuse::NoValue(left));
            };
            match with_value(options, setting, value.as_str(), after.len()) {
                Ok(next) => Ok((next, behind)),
                Err(misuse) => Err(misuse),
            }
        }
    }
}

/// The options with one that has no value.
fn with_flag(options: Options, flag: Flag) -> Options
    ensures { result ≡ with_flag options flag }
{
    match flag {
        Flag::Multicast => Options {
            multicast: Some(true),
            ..options
        },
        Flag::UnicastCopies => Options {
            multicast: Some(false),
            ..options
        },
        Flag::ItemPorts => Options {
            item_ports: true,
            ..options
        },
        Flag::Port2222 => Options {
            item_ports: false,
            ..options
        },
        Flag::NoInput => Options {
            no_input: true,
            ..options
        },
        Flag::Quiet => Options {
            quiet: true,
            ..options
        },
        Flag::PageWrites => Options {
            page_writes: true,
            ..options
        },
    }
}

/// The options with a value for one of them; so many words are left, from the value on.
fn with_value(
    options: Options,
    setting: Setting,
    word: &str,
    left: usize,
) -> Result<Options, StationMisuse>
    ensures { result ≡ with_value options setting word.now left }
{
    match setting {
        Setting::Address | Setting::PageAddress => match address_of(word) {
            Some(address) => Ok(with_address(options, setting, address)),
            None => Err(StationMisuse::BadAddress(left)),
        },
        Setting::Record | Setting::State | Setting::Script | Setting::Report => Ok(with_file(
            options, setting, left,
        )),
        Setting::Name => with_name(options, word, left),
        Setting::PageHost => with_host(options, word, left),
        Setting::Tcp | Setting::Udp | Setting::PeerUdp | Setting::Page => match port_of(word) {
            Some(port) => Ok(with_port(options, setting, port)),
            None => Err(StationMisuse::BadValue(left)),
        },
        Setting::Seconds
        | Setting::RecordBytes
        | Setting::Incarnation
        | Setting::Inactivity
        | Setting::Serial
        | Setting::Delay
        | Setting::Seed => match with_number(options, setting, word) {
            Some(options) => Ok(options),
            None => Err(StationMisuse::BadValue(left)),
        },
        Setting::Lose | Setting::Repeat | Setting::Reorder => match percent_of(word) {
            Some(percent) => Ok(with_percent(options, setting, percent)),
            None => Err(StationMisuse::BadValue(left)),
        },
    }
}

/// The options with an address for one of them.
fn with_address(options: Options, setting: Setting, address: Node) -> Options
    ensures { result ≡ with_address options setting address }
{
    match setting {
        Setting::Address => Options {
            address: Some(address),
            ..options
        },
        Setting::PageAddress => Options {
            page_address: Some(address),
            ..options
        },
        _ => options,
    }
}

/// The options with the file of one of them, from which on so many words are left.
fn with_file(options: Options, setting: Setting, left: usize) -> Options
    ensures { result ≡ with_file options setting left }
{
    match setting {
        Setting::Record => Options {
            record_from_end: Some(left),
            ..options
        },
        Setting::State => Options {
            state_from_end: Some(left),
            ..options
        },
        Setting::Script => Options {
            script_from_end: Some(left),
            ..options
        },
        Setting::Report => Options {
            report_from_end: Some(left),
            ..options
        },
        _ => options,
    }
}

/// The options with a name, from which on so many words are left: it has 1 to 32 bytes.
fn with_name(options: Options, word: &str, left: usize) -> Result<Options, StationMisuse>
    ensures { result ≡ with_name options word.now left }
{
    if word.is_empty() || word.len() > LONGEST_NAME {
        return Err(StationMisuse::BadValue(left));
    }
    Ok(Options {
        name_from_end: Some(left),
        ..options
    })
}

/// The options with the name of a host, from which on so many words are left: it has 1 to 253 letters, digits, hyphens and dots.
///
/// RFC 1123, section 2.1.
fn with_host(options: Options, word: &str, left: usize) -> Result<Options, StationMisuse>
    ensures { result ≡ with_host options word.now left }
{
    if word.is_empty() || word.len() > LONGEST_HOST || !is_host(word.as_bytes()) {
        return Err(StationMisuse::BadValue(left));
    }
    Ok(Options {
        page_host_from_end: Some(left),
        ..options
    })
}

/// Whether each byte is one of the name of a host.
fn is_host(bytes: &[u8]) -> bool
    ensures { result ≡ list_all is_host_byte bytes.now }
{
    bytes.iter().all(|byte| is_host_byte(*byte))
}

/// Whether a byte is a letter, a digit, a hyphen or a dot.
fn is_host_byte(byte: u8) -> bool
    ensures { result ≡ is_host_byte byte }
{
    (byte >= b'0' && byte <= b'9')
        || (byte >= b'A' && byte <= b'Z')
        || (byte >= b'a' && byte <= b'z')
        || byte == b'-'
        || byte == b'.'
}

/// The options with a number for one of them, which is not a port; None if the word is no such number.
fn with_number(options: Options, setting: Setting, word: &str) -> Option<Options>
    ensures { result ≡ with_number options setting word.now }
{
    match setting {
        Setting::Seconds => Some(Options {
            seconds: Some(seconds_of(word)?),
            ..options
        }),
        Setting::RecordBytes => Some(Options {
            record_bytes: record_bytes_of(word)?,
            ..options
        }),
        Setting::Incarnation => Some(Options {
            incarnation: Some(incarnation_of(word)?),
            ..options
        }),
        Setting::Inactivity => Some(Options {
            inactivity_s: Some(inactivity_of(word)?),
            ..options
        }),
        Setting::Serial => Some(Options {
            serial: Some(serial_of(word)?),
            ..options
        }),
        Setting::Delay => Some(Options {
            delay_ms: delay_of(word)?,
            ..options
        }),
        Setting::Seed => Some(Options {
            seed: seed_of(word)?,
            ..options
        }),
        _ => None,
    }
}

/// The options with a percentage for one of them.
fn with_percent(options: Options, setting: Setting, percent: u8) -> Options
    ensures { result ≡ with_percent options setting percent }
{
    match setting {
        Setting::Lose => Options {
            lose: percent,
            ..options
        },
        Setting::Repeat => Options {
            repeat: percent,
            ..options
        },
        Setting::Reorder => Options {
            reorder: percent,
            ..options
        },
        _ => options,
    }
}

/// The options with a port for one of them.
fn with_port(options: Options, setting: Setting, port: u16) -> Options
    ensures { result ≡ with_port options setting port }
{
    match setting {
        Setting::Tcp => Options {
            tcp: Some(port),
            ..options
        },
        Setting::Udp => Options {
            udp: port,
            ..options
        },
        Setting::PeerUdp => Options {
            peer_udp: port,
            ..options
        },
        Setting::Page => Options {
            page: Some(port),
            ..options
        },
        _ => options,
    }
}

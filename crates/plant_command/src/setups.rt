//! The devices of a plant, before they live.

ghost use Rattle.std.specs.Prelude.{◌≡◌, ◌<◌, None, length, map, position, IfOk, IfSome};
ghost use Rattle.trace_words.specs.PointNames.Things.{devices_in};
ghost use Rattle.plant_command.specs.DeviceLines.{device_line};
ghost use Rattle.plant_command.specs.Setups.{AreApart, address_word, device_entry, ids_at, is_at, node_of, options_of, span_at, with_node};

use crate::failure::PlantFailure;
use crate::opening::PlantSetting;
use crate::paths::path_beside;
use cip_tables::Config;
use cip_types::{IdBlock, Node, OutOfMemory, part_of_ids};
use command_lines::Options;
use page_feed::FeedEnd;
use plant_rim::{
    DeviceSetup, FaultOptions, IncarnationSpan, MOST_SPANS, PlantDevice, PlantFile, SharedSteps,
};
use station_rim::{Rim, SharedDevices, report_line};
use station_setup::{UnusableProfile, is_scanner, names_in, profile_in};
use std::alloc::Global;
use std::rt::Files;
use std::sync::Wait;
use trace_words::{DeviceNames, Names, ReadNames};

/// A device of a plant, as its lines are typed: its name, its address, what is typed at it, and whether it is a scanner.
#[derive(Drop)]
pub(crate) struct Member {
    pub(crate) name: String,
    pub(crate) address: Node,
    pub(crate) typed: SharedSteps,
    pub(crate) scanner: bool,
}

/// The setup of a device, and the member of the plant that it is.
#[derive(Drop)]
pub(crate) struct MemberSetup {
    pub(crate) setup: DeviceSetup,
    pub(crate) member: Member,
}

/// The number of a device in its plant, from 0, and how many devices there are.
#[derive(Clone, Copy)]
struct Rank {
    place: usize,
    devices: usize,
}

/// Where the address of a device is said: in the file of its plant, whose devices have these lines, at the word of this number.
#[derive(Clone, Copy)]
struct AddressWord<'a> {
    file: &'a str,
    lines: &'a [u64],
    word: u32,
}

/// The line of the device of this number; 0 if there is none.
fn device_line(lines: &[u64], place: usize) -> u64
    ensures { result ≡ device_line lines.now place }
{
    match lines.get(place) {
        Some(line) => *line,
        None => 0,
    }
}

/// The number of the word that says the address of a device: its own one, or that of its profile.
fn address_word(address: Option<Node>) -> u32
    ensures { result ≡ address_word address }
{
    match address {
        Some(_) => 4,
        None => 3,
    }
}

/// The devices of a plant with their profiles, in the order of its file. Reports the first bad profile, and the first two
/// devices of one address.
pub(crate) fn setups_of<R>(
    rt: R,
    rim: &Rim,
    setting: &PlantSetting<'_>,
    plant: PlantFile,
    lines: &[u64],
    folder: Option<&str>,
) -> Result<Vec<MemberSetup>, PlantFailure>
where
    R: Files + AllocGlobal + Wait + Copy + Drop,
    ensures { IfOk result (λ setups. AreApart setups.items) }
{
    let mut setups: Vec<MemberSetup> = Vec::new(rt.alloc());
    let devices = plant.devices.as_slice().len();
    for (place, device) in plant.devices.into_vec().into_iter().enumerate() {
        let rank = Rank { place, devices };
        let at = AddressWord {
            file: setting.file,
            lines,
            word: address_word(device.address),
        };
        let set_up = setup_of(rt, rim, setting, folder, rank, device)?;
        report_shared(rt, rim, setups.as_slice(), &set_up.member, at)?;
        setups.push(set_up)?;
    }
    Ok(setups)
}

/// The names of devices at their addresses. OutOfMemory is the only fault.
pub(crate) fn device_names(
    alloc: Global,
    setups: &[MemberSetup],
) -> Result<DeviceNames, OutOfMemory>
    ensures { IfOk result (λ names. devices_in names ≡ map device_entry setups.now) }
{
    let mut names = DeviceNames::none(alloc);
    for set_up in setups {
        let member = &set_up.member;
        names.add(alloc, member.address, member.name.as_str())?;
    }
    Ok(names)
}

/// The incarnations of the device of this number of so many. A plant has at most 127; one of more has no spans.
fn span_at(device: usize, devices: usize) -> IncarnationSpan
    ensures { result ≡ span_at device devices }
{
    if device < devices && devices <= MOST_SPANS {
        IncarnationSpan::of(device, devices)
    } else {
        IncarnationSpan {
            first: 1,
            last: 255,
        }
    }
}

/// The connection ids of the device of this number of so many. A plant has at most 127; one of more has none.
fn ids_at(device: usize, devices: usize) -> IdBlock
    ensures { result ≡ ids_at device devices }
{
    if device < devices && devices <= MOST_SPANS {
        part_of_ids(device as u32, devices as u32)
    } else {
        IdBlock { first: 1, count: 0 }
    }
}

/// A device of a plant with its profile.
fn setup_of<R>(
    rt: R,
    rim: &Rim,
    setting: &PlantSetting<'_>,
    folder: Option<&str>,
    rank: Rank,
    device: PlantDevice,
) -> Result<MemberSetup, PlantFailure>
where
    R: Files + AllocGlobal + Wait + Copy + Drop,
{
    let alloc = rt.alloc();
    let name = device.name.as_str();
    let path = path_beside(alloc, setting.file, device.profile.as_str())?;
    let config = config_in(rt, rim, path.as_str(), device.address)?;
    let names = named_in(rt, rim, path.as_str())?;
    let scanner = is_scanner(&config);
    let address = device.address.unwrap_or(node_of(&config));
    let typed = SharedSteps::new(alloc)?;
    let member = Member {
        name: format!(in alloc; "{name}")?,
        address,
        typed: typed.share()?,
        scanner,
    };
    let options = options_of(setting.options, &device.faults, address);
    let folder = match folder {
        Some(folder) => Some(format!(in alloc; "{folder}")?),
        None => None,
    };
    let setup = DeviceSetup {
        place: rank.place,
        name: format!(in alloc; "{name}")?,
        config: with_node(config, address),
        names,
        devices: SharedDevices::none(alloc)?,
        options,
        script: device.script,
        span: span_at(rank.place, rank.devices),
        ids: ids_at(rank.place, rank.devices),
        typed,
        folder,
        page: feed_of(setting, rank.place)?,
        scanner,
    };
    Ok(MemberSetup { setup, member })
}

/// Where the device of this number tells the page of its plant, if there is one. OutOfMemory is the only fault.
fn feed_of(setting: &PlantSetting<'_>, place: usize) -> Result<Option<FeedEnd>, OutOfMemory> {
    match setting.page {
        Some(page) => Ok(Some(page.feed_end(place)?)),
        None => Ok(None),
    }
}

/// The options of a device at this address: those of its plant, with the faults that its own lines say.
fn options_of(all: &Options, faults: &FaultOptions, address: Node) -> Options
    ensures { result ≡ options_of all.now faults.now address }
{
    Options {
        address: Some(address),
        lose: faults.lose.unwrap_or(all.lose),
        repeat: faults.repeat.unwrap_or(all.repeat),
        reorder: faults.reorder.unwrap_or(all.reorder),
        delay_ms: faults.delay_ms.unwrap_or(all.delay_ms),
        seed: faults.seed.unwrap_or(all.seed),
        ..*all
    }
}

/// The address of a profile.
pub(crate) fn node_of(config: &Config) -> Node
    ensures { result ≡ node_of config.now }
{
    match config {
        Config::Adapter(profile) => profile.node,
        Config::Scanner(profile) => profile.node,
    }
}

/// A profile with this address in place of its own.
fn with_node(config: Config, node: Node) -> Config
    ensures { result ≡ with_node config node }
{
    match config {
        Config::Adapter(mut profile) => {
            profile.node = node;
            Config::Adapter(profile)
        }
        Config::Scanner(mut profile) => {
            profile.node = node;
            Config::Scanner(profile)
        }
    }
}

/// The configuration of a file, for a device at this address if its line says one. Reports why it is none.
fn config_in<R>(rt: R, rim: &Rim, path: &str, address: Option<Node>) -> Result<Config, PlantFailure>
where
    R: Files + AllocGlobal + Wait + Copy + Drop,
{
    let alloc = rt.alloc();
    let line = match profile_in(&rt, path, address) {
        Ok(config) => return Ok(config),
        Err(UnusableProfile::OutOfMemory) => return Err(PlantFailure::OutOfMemory),
        Err(UnusableProfile::Unread(fault)) => format!(in alloc; "eip_station: {path} {fault}\n")?,
        Err(UnusableProfile::Events) => {
            format!(in alloc; "eip_station: {path} has events behind the profile\n")?
        }
        Err(UnusableProfile::Bad(_, sentence) | UnusableProfile::Unserved(sentence)) => {
            format!(in alloc; "eip_station: {path}: {sentence}")?
        }
    };
    report_line(rt, rim, line.as_bytes());
    Err(PlantFailure::Bad)
}

/// The names that the profile of a file says. Reports each bad name line.
fn named_in<R>(rt: R, rim: &Rim, path: &str) -> Result<Names, PlantFailure>
where
    R: Files + AllocGlobal + Wait + Copy + Drop,
{
    let ReadNames { names, bad } = names_in(&rt, path)?;
    for it in bad.iter() {
        let (line, words) = (it.line, it.fault.words());
        let text = format!(in rt.alloc(); "eip_station: {path}: line {line}: {words}\n")?;
        report_line(rt, rim, text.as_bytes());
    }
    Ok(names)
}

/// Reports a device whose address an earlier one has, with the line and the word that say it. Ok if none has.
fn report_shared<R>(
    rt: R,
    rim: &Rim,
    setups: &[MemberSetup],
    member: &Member,
    at: AddressWord<'_>,
) -> Result<(), PlantFailure>
where
    R: AllocGlobal + Wait + Copy + Drop,
    ensures { IfOk result (λ _. position (is_at member.now.address) setups.now ≡ None) }
{
    let Some(place) = place_at(setups, member.address) else {
        return Ok(());
    };
    let (one, two) = (setups[place].member.name.as_str(), member.name.as_str());
    let line = device_line(at.lines, setups.len());
    let earlier = device_line(at.lines, place);
    let word = at.word;
    let mut text = format!(in rt.alloc(); "eip_station: {}: line {line}: word {word}: ", at.file)?;
    write!(text, "{two} has the address of {one} in line {earlier}\n")?;
    report_line(rt, rim, text.as_bytes());
    Err(PlantFailure::Bad)
}

/// The place of the first device with this address.
fn place_at(setups: &[MemberSetup], address: Node) -> Option<usize>
    ensures first { result ≡ position (is_at address) setups.now }
    ensures inside { IfSome result (λ place. place < length setups.now) }
{
    setups.iter().position(|set_up| is_at(set_up, address))
}

/// Whether a device has this address.
fn is_at(set_up: &MemberSetup, address: Node) -> bool
    ensures { result ≡ is_at address set_up.now }
{
    set_up.member.address == address
}

//! The names of a station's files, and the lines that say where a station and its page are.

ghost use Rattle.std.specs.Prelude.{◌≡◌, ◌++◌, IfOk, OnOk, option_map, string_bytes};
ghost use Rattle.eip_station.specs.Texts.{kind_word, page_text, ports_text, record_name, record_words, start_front, start_text, state_name, token_text};

use cip_types::{Node, OutOfMemory};
use station_port::StationPlace;
use std::alloc::Global;
use trace_words::push_node;

/// The state's file of a station: the one that is given, or one beside the profile. OutOfMemory is the only fault.
pub fn state_name(alloc: Global, given: Option<&str>, profile: &str) -> Result<String, OutOfMemory>
    ensures { IfOk result (λ name. string_bytes name
        ≡ state_name (option_map (λ name. name.now) given.entry) profile.now) }
{
    match given {
        Some(name) => Ok(format!(in alloc; "{name}")?),
        None => Ok(format!(in alloc; "{profile}.state")?),
    }
}

/// The record of a life, where this one is that of the first. OutOfMemory is the only fault.
pub fn record_name(alloc: Global, first: &str, life: u32) -> Result<String, OutOfMemory>
    ensures { IfOk result (λ name. string_bytes name ≡ record_name first.now life) }
{
    match life {
        1 => Ok(format!(in alloc; "{first}")?),
        _ => Ok(format!(in alloc; "{first}.life-{life}")?),
    }
}

/// The word of a station's kind.
pub fn kind_word(scanner: bool) -> &'static str
    ensures { result.now ≡ kind_word scanner }
{
    if scanner { "scanner" } else { "adapter" }
}

/// The line that says which station has started: its kind, its profile, its place, its incarnation and its record.
pub fn start_text(
    alloc: Global,
    kind: &str,
    profile: &str,
    place: &StationPlace,
    incarnation: u8,
    record: Option<&str>,
) -> Result<String, OutOfMemory>
    ensures { IfOk result (λ line. string_bytes line ≡ start_text kind.now profile.now place.now incarnation
        (option_map (λ name. name.now) record.entry)) }
{
    let mut line = String::new(alloc);
    push_front(&mut line, kind, profile)?;
    push_node(&mut line, place.address)?;
    push_ports(&mut line, place, incarnation)?;
    push_record(&mut line, record)?;
    Ok(line)
}

/// Appends the kind of a station and its profile.
fn push_front(line: &mut String, kind: &str, profile: &str) -> Result<(), OutOfMemory>
    ensures { OnOk result (string_bytes line.new ≡ string_bytes line.old ++ start_front kind.now profile.now) }
{
    write!(line, "eip_station: {kind} {profile} at ")?;
    Ok(())
}

/// Appends the ports of a station, and its incarnation.
fn push_ports(line: &mut String, place: &StationPlace, incarnation: u8) -> Result<(), OutOfMemory>
    ensures { OnOk result (string_bytes line.new ≡ string_bytes line.old ++ ports_text place.now incarnation) }
{
    let (tcp, udp) = (place.tcp, place.udp);
    write!(line, ", TCP {tcp}, UDP {udp}, incarnation {incarnation}, ")?;
    Ok(())
}

/// Appends the record of a station, or that there is none.
fn push_record(line: &mut String, record: Option<&str>) -> Result<(), OutOfMemory>
    ensures { OnOk result (string_bytes line.new ≡ string_bytes line.old
        ++ record_words (option_map (λ name. name.now) record.entry)) }
{
    match record {
        Some(record) => write!(line, "record {record}\n")?,
        None => line.push_str("no record\n")?,
    }
    Ok(())
}

/// The line that says where a page is. Only who reads it has the token.
pub fn page_text(
    alloc: Global,
    address: Node,
    port: u16,
    token: &str,
) -> Result<String, OutOfMemory>
    ensures { IfOk result (λ line. string_bytes line ≡ page_text address port token.now) }
{
    let mut line = format!(in alloc; "eip_station: page at http://")?;
    push_node(&mut line, address)?;
    write!(line, ":{port}/")?;
    push_token(&mut line, token)?;
    line.push_str("\n")?;
    Ok(line)
}

/// Appends a token, if there is one.
fn push_token(line: &mut String, token: &str) -> Result<(), OutOfMemory>
    ensures { OnOk result (string_bytes line.new ≡ string_bytes line.old ++ token_text token.now) }
{
    if !token.is_empty() {
        write!(line, "#{token}")?;
    }
    Ok(())
}

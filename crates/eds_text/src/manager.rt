//! The section of the Connection Manager.

ghost use Rattle.std.specs.Prelude.{◌≡◌, ◌++◌, ◌∷◌, [], OnOk, string_bytes, flat_map, codes};
ghost use Rattle.hex.specs.Hex.{encode_upper};
ghost use Rattle.cip_epath.specs.Path.{view_path};
ghost use Rattle.eds_text.specs.Manager.{byte_words, config_lines, connection_text, connections_text, fields_lines, format_bits, keyword_line, kind_bits, kind_lines, kind_word, manager_text, name_lines, o_t_line, path_line, point_line, sheet_path, trigger_bits};

use crate::connections::SheetConnection;
use adapter_table::InputPoint;
use cip_epath::class::ASSEMBLY;
use cip_epath::{ConnPath, put_path};
use cip_productions::Kind;
use cip_types::OutOfMemory;
use std::alloc::Global;
use trace_words::push_text;

/// Appends the section: these connections, numbered from 1 on.
#[tactic(auto, unfolding(crate::specs::Manager::manager_text))]
pub fn push_manager(
    alloc: Global,
    out: &mut String,
    config: Option<InputPoint>,
    connections: &[SheetConnection],
) -> Result<(), OutOfMemory>
    ensures { OnOk result (string_bytes out.new ≡ string_bytes out.old ++ manager_text config connections.now) }
{
    out.push_str(
        "
[Connection Manager]
        Object_Name = \"Connection Manager Object\";
        Object_Class_Code = 0x06;
",
    )?;
    push_connections(alloc, out, config, connections)
}

/// Appends connections, numbered from 1 on.
fn push_connections(
    alloc: Global,
    out: &mut String,
    config: Option<InputPoint>,
    connections: &[SheetConnection],
) -> Result<(), OutOfMemory>
    ensures { OnOk result (string_bytes out.new ≡ string_bytes out.old ++ connections_text config 1 connections.now) }
{
    for (index, connection) in connections.iter().enumerate() {
        push_connection(alloc, out, config, index as u64 + 1, connection)?;
    }
    Ok(())
}

/// Appends the connection of this number.
#[tactic(auto, unfolding(crate::specs::Manager::connection_text))]
fn push_connection(
    alloc: Global,
    out: &mut String,
    config: Option<InputPoint>,
    number: u64,
    connection: &SheetConnection,
) -> Result<(), OutOfMemory>
    ensures { OnOk result (string_bytes out.new ≡ string_bytes out.old
        ++ connection_text config number connection.now) }
{
    push_keyword(out, number)?;
    push_fields(alloc, out, config, connection)
}

/// Appends the keyword of the connection of this number.
#[tactic(auto, unfolding(crate::specs::Manager::keyword_line))]
fn push_keyword(out: &mut String, number: u64) -> Result<(), OutOfMemory>
    ensures { OnOk result (string_bytes out.new ≡ string_bytes out.old ++ keyword_line number) }
{
    Ok(write!(out, "        Connection{number} =\n")?)
}

/// Appends the fields of a connection.
#[tactic(auto, unfolding(crate::specs::Manager::fields_lines))]
fn push_fields(
    alloc: Global,
    out: &mut String,
    config: Option<InputPoint>,
    connection: &SheetConnection,
) -> Result<(), OutOfMemory>
    ensures { OnOk result (string_bytes out.new ≡ string_bytes out.old ++ fields_lines config connection.now) }
{
    push_kind(out, connection.changes, connection.kind)?;
    push_o_t(out, connection)?;
    push_point(out, connection.t_o_len, connection.produced)?;
    push_config(out, config)?;
    push_name(out, connection)?;
    push_path(alloc, out, config, connection)
}

/// Appends trigger, transport and connection parameters of a kind.
#[tactic(auto, unfolding(crate::specs::Manager::kind_lines))]
fn push_kind(out: &mut String, changes: bool, kind: Kind) -> Result<(), OutOfMemory>
    ensures { OnOk result (string_bytes out.new ≡ string_bytes out.old ++ kind_lines changes kind) }
{
    let (bits, triggers, formats) = (kind_bits(kind), trigger_bits(changes), format_bits(kind));
    Ok(write!(
        out,
        "                0x{bits}{triggers}0002,\n                0x{formats},\n"
    )?)
}

/// The digits of a kind.
fn kind_bits(kind: Kind) -> &'static str
    ensures { result.now ≡ kind_bits kind }
{
    match kind {
        Kind::ExclusiveOwner => "04",
        Kind::InputOnly => "02",
        Kind::ListenOnly => "01",
    }
}

/// The digits of the triggers: cyclic, and change of state or not.
fn trigger_bits(changes: bool) -> &'static str
    ensures { result.now ≡ trigger_bits changes }
{
    if changes { "03" } else { "01" }
}

/// The digits of sizes, priorities, types and formats.
fn format_bits(kind: Kind) -> &'static str
    ensures { result.now ≡ format_bits kind }
{
    match kind {
        Kind::ExclusiveOwner => "44640405",
        Kind::InputOnly => "44640305",
        Kind::ListenOnly => "44240305",
    }
}

/// Appends the point that is consumed: an output, or a heartbeat of no bytes.
#[tactic(auto, unfolding(crate::specs::Manager::o_t_line))]
fn push_o_t(out: &mut String, connection: &SheetConnection) -> Result<(), OutOfMemory>
    ensures { OnOk result (string_bytes out.new ≡ string_bytes out.old ++ o_t_line connection.now) }
{
    match connection.kind {
        Kind::ExclusiveOwner => push_point(out, connection.o_t_len, connection.consumed),
        Kind::InputOnly => push_text(out, "                Param1,0,,\n"),
        Kind::ListenOnly => push_text(out, "                Param1,0,,\n"),
    }
}

/// Appends a packet interval and a point.
#[tactic(auto, unfolding(crate::specs::Manager::point_line))]
fn push_point(out: &mut String, len: u64, instance: u32) -> Result<(), OutOfMemory>
    ensures { OnOk result (string_bytes out.new ≡ string_bytes out.old ++ point_line len instance) }
{
    Ok(write!(out, "                Param1,{len},Assem{instance},\n")?)
}

/// Appends that there is no proxy, and the configuration, if there is one.
#[tactic(auto, unfolding(crate::specs::Manager::config_lines))]
fn push_config(out: &mut String, config: Option<InputPoint>) -> Result<(), OutOfMemory>
    ensures { OnOk result (string_bytes out.new ≡ string_bytes out.old ++ config_lines config) }
{
    match config {
        Some(point) => {
            let (len, instance) = (point.len, point.instance);
            Ok(write!(
                out,
                "                ,,\n                {len},Assem{instance},\n"
            )?)
        }
        None => push_text(out, "                ,,\n                ,,\n"),
    }
}

/// Appends the name of a connection, and an empty help.
#[tactic(auto, unfolding(crate::specs::Manager::name_lines))]
fn push_name(out: &mut String, connection: &SheetConnection) -> Result<(), OutOfMemory>
    ensures { OnOk result (string_bytes out.new ≡ string_bytes out.old ++ name_lines connection.now) }
{
    let word = kind_word(connection.kind);
    let (consumed, produced) = (connection.consumed, connection.produced);
    Ok(write!(
        out,
        "                \"{word} {consumed} {produced}\",\n                \"\",\n"
    )?)
}

/// The word of a kind.
fn kind_word(kind: Kind) -> &'static str
    ensures { result.now ≡ kind_word kind }
{
    match kind {
        Kind::ExclusiveOwner => "Exclusive owner",
        Kind::InputOnly => "Input only",
        Kind::ListenOnly => "Listen only",
    }
}

/// Appends the path of a connection.
#[tactic(auto, unfolding(crate::specs::Manager::path_line))]
fn push_path(
    alloc: Global,
    out: &mut String,
    config: Option<InputPoint>,
    connection: &SheetConnection,
) -> Result<(), OutOfMemory>
    ensures { OnOk result (string_bytes out.new ≡ string_bytes out.old ++ path_line config connection.now) }
{
    let mut path = Vec::new(alloc);
    put_path(&mut path, &sheet_path(config, connection))?;
    out.push_str("                \"")?;
    push_byte_words(alloc, out, path.as_slice())?;
    push_text(out, "\";\n")
}

/// The path to configuration, consumed and produced point.
fn sheet_path<'a>(config: Option<InputPoint>, connection: &SheetConnection) -> ConnPath<'a>
    ensures { view_path result ≡ sheet_path config connection.now }
{
    ConnPath {
        key: None,
        inhibit: None,
        class: ASSEMBLY,
        config: config.map(|point| point.instance),
        consumed: connection.consumed,
        produced: connection.produced,
        segment: None,
    }
}

/// Appends bytes as pairs of digits with spaces between them.
#[tactic(auto, unfolding(crate::specs::Manager::byte_words))]
fn push_byte_words(alloc: Global, out: &mut String, bytes: &[u8]) -> Result<(), OutOfMemory>
    ensures { OnOk result (string_bytes out.new ≡ string_bytes out.old ++ byte_words bytes.now) }
{
    let [first, others @ ..] = bytes else {
        return Ok(());
    };
    push_byte(alloc, out, *first)?;
    push_other_bytes(alloc, out, others)
}

/// Appends bytes, each as a space and a pair of digits.
fn push_other_bytes(alloc: Global, out: &mut String, bytes: &[u8]) -> Result<(), OutOfMemory>
    ensures { OnOk result (string_bytes out.new ≡ string_bytes out.old
        ++ flat_map (λ other. codes " " ++ encode_upper (other ∷ [])) bytes.now) }
{
    for byte in bytes {
        out.push_str(" ")?;
        push_byte(alloc, out, *byte)?;
    }
    Ok(())
}

/// Appends a byte as a pair of digits.
fn push_byte(alloc: Global, out: &mut String, byte: u8) -> Result<(), OutOfMemory>
    ensures { OnOk result (string_bytes out.new ≡ string_bytes out.old ++ encode_upper (byte ∷ [])) }
{
    let digits = hex::encode_upper(alloc, &[byte])?;
    push_text(out, &digits)
}

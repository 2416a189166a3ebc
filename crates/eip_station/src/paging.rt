//! The page of a station: where it is served, its word and its token, and the line that names it.

use crate::failure::Failure;
use crate::program::Surroundings;
use crate::rules::{allowed_of, reports_page};
use crate::texts::page_text;
use command_lines::{Options, word_from_end};
use page_server::{OwnNames, PageSetting, Secrets, greeting_text, page_node};
use station_port::page_listener;
use station_rim::report_line;
use station_setup::SocketPlace;
use std::fs::{self, File};
use std::net::{Net, TcpListener, TcpStream};
use std::random::RandomSource;
use std::rt::{Clock, Files};
use std::sync::Wait;
use trace_words::push_digits;

/// The bytes of a word, and of a token.
const TOKEN_BYTES: usize = 16;

/// Sockets of the host.
pub trait HostNet: Net<Listener = TcpListener, Stream = TcpStream> {}

impl<R: Net<Listener = TcpListener, Stream = TcpStream>> HostNet for R {}

/// What a page shows: the name of its station or plant, the first file of a record, and the devices of a plant; and the name of
/// the host by which browsers reach it, if one is given.
#[derive(Clone, Copy)]
pub struct PageSubject<'a> {
    pub name: &'a str,
    pub record: Option<&'a str>,
    pub devices: Option<&'a [&'a str]>,
    pub host: Option<&'a str>,
}

/// Begins to serve a page at a port.
pub fn begin_page<R>(
    rt: R,
    shared: &Surroundings,
    options: &Options,
    port: u16,
    subject: PageSubject<'_>,
) -> Result<(), Failure>
where
    R: AllocGlobal + Files<File = File> + Clock + HostNet + RandomSource + Wait + Copy + Drop,
{
    let alloc = rt.alloc();
    let address = page_node(options.page_address);
    let listener = match page_listener(&rt, address, port) {
        Ok(listener) => listener,
        Err(fault) => return Err(Failure::at(fault, SocketPlace::new(address, port))),
    };
    let word = drawn_word(&rt)?;
    let token = token_of(&rt, options)?;
    let record = record_of(&rt, subject.record)?;
    let allowed = allowed_of(options, record.is_some());
    let devices = subject.devices.unwrap_or(&[]);
    let secrets = Secrets {
        word: word.as_bytes(),
        token: token.as_bytes(),
    };
    let page = PageSetting {
        listener,
        names: OwnNames::new(alloc, address, port, subject.host, secrets)?,
        allowed,
        greeting: greeting_text(alloc, subject.name, allowed, devices)?,
        record,
        is_plant: subject.devices.is_some(),
    };
    shared.page.open(&rt, page);
    if reports_page(options) {
        let line = page_text(alloc, address, port, token.as_str())?;
        report_line(rt, &shared.rim, line.as_bytes());
    }
    Ok(())
}

/// The name of the host by which browsers reach the page too, if one is given.
pub fn page_host<'a>(options: &Options, words: &'a [String]) -> Option<&'a str> {
    match options.page_host_from_end {
        Some(left) => Some(word_from_end(words, left)),
        None => None,
    }
}

/// A token that nobody can guess, if the page takes calls; else none.
fn token_of<R>(rt: &R, options: &Options) -> Result<String, Failure>
where
    R: AllocGlobal + RandomSource,
{
    if options.page_writes {
        drawn_word(rt)
    } else {
        Ok(String::new(rt.alloc()))
    }
}

/// A word that nobody can guess.
fn drawn_word<R>(rt: &R) -> Result<String, Failure>
where
    R: AllocGlobal + RandomSource,
{
    let mut bytes = [0u8; TOKEN_BYTES];
    if rt.fill_bytes(&mut bytes).is_err() {
        return Err(Failure::Token);
    }
    let mut word = String::new(rt.alloc());
    push_digits(&mut word, &bytes)?;
    Ok(word)
}

/// The name of the record's first file, if that is a file that can be read again.
fn record_of<R>(rt: &R, path: Option<&str>) -> Result<Option<String>, Failure>
where
    R: AllocGlobal + Files<File = File>,
{
    let Some(path) = path else {
        return Ok(None);
    };
    if matches!(fs::metadata(rt, path), Ok(found) if found.is_file()) {
        return Ok(Some(format!(in rt.alloc(); "{path}")?));
    }
    Ok(None)
}

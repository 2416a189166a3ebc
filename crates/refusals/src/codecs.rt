//! Texts of codecs, and a stream that is cut into messages.

use crate::calls::{Difference, MemoryCall, Refusals, Trial};
use cip_encap::{
    MessageView, SocketAddress, SplitFault, Splitter, put_connected_header, write_items,
    write_message,
};
use cip_epath::{ConnPath, Target, write_path, write_target};
use cip_fwdopen::{
    CloseRequest, OpenRequest, OpenService, Opened, write_close, write_closed, write_get,
    write_got, write_open, write_opened, write_refused,
};
use cip_netparams::{ConnectionType, NetParams, Priority};
use cip_router::Reply;
use cip_types::{ConnId, Fault, Items, Node, OutOfMemory, Triad};
use std::alloc::Global;

const TRIAD: Triad = Triad {
    serial: 1,
    vendor: 0x1234,
    originator: 0x1234_5678,
};

const PARAMS: NetParams = NetParams {
    size: 10,
    variable: false,
    priority: Priority::Scheduled,
    kind: ConnectionType::PointToPoint,
    redundant: false,
};

const OPENED: Opened = Opened {
    o_t_id: ConnId(0x1000_0001),
    t_o_id: ConnId(0x2000_0001),
    triad: TRIAD,
    o_t_api_us: 10_000,
    t_o_api_us: 10_000,
};

const TARGET: Target = Target {
    class: 4,
    instance: 300,
    attribute: Some(3),
};

/// A value, a path and a frame's data.
const BYTES: [u8; 8] = [0x20, 4, 0x24, 0x97, 0x2C, 0x96, 0x2C, 0x64];

/// A text that is written.
#[derive(Clone, Copy)]
enum Text {
    Message,
    Packet,
    Path,
    Target,
    Open,
    Close,
    Get,
    Got,
    Opened,
    Closed,
    Refused,
    Reply,
    OwnReply,
    Connected,
}

const TEXTS: [Text; 14] = [
    Text::Message,
    Text::Packet,
    Text::Path,
    Text::Target,
    Text::Open,
    Text::Close,
    Text::Get,
    Text::Got,
    Text::Opened,
    Text::Closed,
    Text::Refused,
    Text::Reply,
    Text::OwnReply,
    Text::Connected,
];

/// A message of the encapsulation.
fn message(alloc: Global) -> Result<Vec<u8>, OutOfMemory> {
    let message = MessageView {
        command: 0x6F,
        session: 1,
        status: 0,
        context: 7,
        options: 0,
        data: &BYTES,
    };
    write_message(alloc, &message)
}

/// Items with a socket address.
fn packet(alloc: Global) -> Result<Vec<u8>, OutOfMemory> {
    let socket = SocketAddress {
        port: 2222,
        address: Node(0xEFC0_0101),
    };
    write_items(alloc, &BYTES, Some(socket))
}

/// A connection path.
fn path(alloc: Global) -> Result<Vec<u8>, OutOfMemory> {
    let path = ConnPath {
        key: None,
        inhibit: None,
        class: 4,
        config: Some(151),
        consumed: 150,
        produced: 100,
        segment: None,
    };
    write_path(alloc, &path)
}

/// The data of a Forward_Open.
fn open(alloc: Global) -> Result<Vec<u8>, OutOfMemory> {
    let path: &[u8] = &BYTES;
    let request = OpenRequest {
        priority_tick: 10,
        ticks: 14,
        o_t_id: ConnId(0),
        t_o_id: ConnId(0x2000_0001),
        triad: TRIAD,
        multiplier: 2,
        o_t_rpi: 10_000,
        o_t_params: PARAMS,
        t_o_rpi: 10_000,
        t_o_params: PARAMS,
        trigger: 1,
        path,
    };
    write_open(alloc, OpenService::ForwardOpen, &request)
}

/// The data of a Forward_Close.
fn close(alloc: Global) -> Result<Vec<u8>, OutOfMemory> {
    let path: &[u8] = &BYTES;
    let request = CloseRequest {
        priority_tick: 10,
        ticks: 14,
        triad: TRIAD,
        path,
    };
    write_close(alloc, &request)
}

/// A refusal that names a connection.
fn refused(alloc: Global) -> Result<Vec<u8>, OutOfMemory> {
    let fault = Fault {
        general: 1,
        extended: Some(0x0113),
    };
    write_refused(alloc, 0x54, fault, Some(TRIAD))
}

/// The items before a connected message of eight bytes.
fn connected(alloc: Global) -> Result<Vec<u8>, OutOfMemory> {
    let mut out = Vec::new(alloc);
    put_connected_header(&mut out, ConnId(0x2000_0001), 7, 8)?;
    Ok(out)
}

/// A text of a writer.
struct Writing;

impl MemoryCall for Writing {
    type On = ();

    type Input = Text;

    type Given = Vec<u8>;

    fn make(alloc: Global, _on: &mut (), text: &Text) -> Result<Vec<u8>, OutOfMemory> {
        match text {
            Text::Message => message(alloc),
            Text::Packet => packet(alloc),
            Text::Path => path(alloc),
            Text::Target => write_target(alloc, &TARGET),
            Text::Open => open(alloc),
            Text::Close => close(alloc),
            Text::Get => write_get(alloc, &TARGET),
            Text::Got => write_got(alloc, &BYTES),
            Text::Opened => write_opened(alloc, OpenService::ForwardOpen, &OPENED),
            Text::Closed => write_closed(alloc, TRIAD),
            Text::Refused => refused(alloc),
            Text::Reply => Reply::Closed(TRIAD).write(alloc),
            Text::OwnReply => Reply::Own(0x4B, 0, &BYTES).write(alloc),
            Text::Connected => connected(alloc),
        }
    }

    fn is_same(given: &Vec<u8>, expected: &Vec<u8>) -> Result<bool, OutOfMemory> {
        Ok(given.as_slice() == expected.as_slice())
    }

    fn is_like(_on: &(), _twin: &()) -> Result<bool, OutOfMemory> {
        Ok(true)
    }
}

/// Two messages and a half, as bytes of a stream, in three pieces.
const PIECES: [&[u8]; 3] = [
    &[0x65, 0, 4, 0, 0, 0, 0, 0, 0, 0, 0, 0, 0, 0],
    &[0, 0, 0, 0, 0, 0, 0, 0, 0, 0, 1, 0, 0, 0, 4, 0, 0, 0],
    &[
        0, 0, 0, 0, 0, 0, 0, 0, 0, 0, 0, 0, 0, 0, 0, 0, 0, 0, 0, 0, 0x63, 0,
    ],
];

/// A piece of a stream that a splitter cuts.
struct Feeding;

impl MemoryCall for Feeding {
    type On = Splitter;

    type Input = &'static [u8];

    type Given = Vec<Items<u8>>;

    fn make(
        _alloc: Global,
        splitter: &mut Splitter,
        piece: &&'static [u8],
    ) -> Result<Vec<Items<u8>>, OutOfMemory> {
        match splitter.feed(piece) {
            Err(SplitFault::OutOfMemory | SplitFault::TooLong) => Err(OutOfMemory),
            Ok(messages) => Ok(messages),
        }
    }

    fn is_same(given: &Vec<Items<u8>>, expected: &Vec<Items<u8>>) -> Result<bool, OutOfMemory> {
        Ok(given == expected)
    }

    /// (what a splitter holds is seen in the messages of the pieces that follow)
    fn is_like(_splitter: &Splitter, _twin: &Splitter) -> Result<bool, OutOfMemory> {
        Ok(true)
    }
}

/// A splitter that is fed the pieces of a stream.
struct SplitStream;

impl Trial for SplitStream {
    type On = Splitter;

    type Input = ();

    fn begin(alloc: Global, _input: &()) -> Result<Splitter, OutOfMemory> {
        Ok(Splitter::new(alloc))
    }

    fn refuse(
        refusals: &mut Refusals,
        splitter: &mut Splitter,
        twin: &mut Splitter,
        _input: &(),
    ) -> Result<(), Difference> {
        refusals.in_calls::<Feeding>(splitter, twin, &PIECES)
    }
}

/// Refuses requests where texts are written and a stream is cut into messages.
pub fn refuse_codecs(refusals: &mut Refusals) -> Result<(), Difference> {
    refusals.in_calls::<Writing>(&mut (), &mut (), &TEXTS)?;
    refusals.in_trial::<SplitStream>(&())
}

//! Readers of the codecs.

use cip_datagram::{read_datagram, read_header};
use cip_encap::{
    Splitter, read_any_connected_items, read_any_items, read_connected_items, read_items,
    read_message,
};
use cip_epath::{
    key_serial, read_any_message_path, read_any_path, read_message_path, read_path, read_target,
};
use cip_fwdopen::{
    OpenService, read_close, read_close_reply, read_get_reply, read_open, read_open_reply,
    read_request,
};
use cip_netparams::{read16, read32};
use cip_router::read_router_request;
use std::alloc::Global;

/// Gives the bytes to each reader of a codec.
pub fn read_all(bytes: &[u8]) {
    let _path = read_path(bytes).is_ok();
    let _router = read_message_path(bytes).is_ok();
    let _any = read_any_path(bytes).is_ok();
    let _any_router = read_any_message_path(bytes).is_ok();
    let _serial = key_serial(bytes).is_some();
    let _target = read_target(bytes).is_ok();
    let _request = read_request(bytes).is_ok();
    let _open = read_open(OpenService::ForwardOpen, bytes).is_ok();
    let _large = read_open(OpenService::LargeForwardOpen, bytes).is_ok();
    let _close = read_close(bytes).is_ok();
    read_replies(bytes);
    read_packets(bytes);
    read_parameters(bytes);
}

fn read_replies(bytes: &[u8]) {
    let _opened = read_open_reply(bytes).is_ok();
    let _closed = read_close_reply(bytes).is_ok();
    let _value = read_get_reply(bytes).is_ok();
    let _routed = read_router_request(bytes);
}

fn read_packets(bytes: &[u8]) {
    let _datagram = read_datagram(bytes).is_ok();
    let _header = read_header(bytes).is_some();
    let _message = read_message(bytes).is_ok();
    let _items = read_items(bytes).is_ok();
    let _connected = read_connected_items(bytes).is_ok();
    let _any = read_any_items(bytes).is_ok();
    let _any_connected = read_any_connected_items(bytes).is_ok();
}

fn read_parameters(bytes: &[u8]) {
    if let Some((word, _)) = cip_types::fields::u16_at(bytes) {
        let _params = read16(word);
    }
    if let Some((word, _)) = cip_types::fields::u32_at(bytes) {
        let _params = read32(word);
    }
}

/// Gives the bytes to a splitter in two pieces, the first as long as the first byte says.
pub fn split(alloc: Global, bytes: &[u8]) {
    let Some((first, rest)) = bytes.split_first() else {
        return;
    };
    let (one, two) = rest.split_at(rest.len().min(usize::from(*first)));
    let mut splitter = Splitter::new(alloc);
    if splitter.feed(one).is_ok() {
        let _fed = splitter.feed(two).is_ok();
    }
}

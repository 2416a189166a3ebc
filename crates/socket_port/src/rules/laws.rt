//! A law of the place for a new stream. The call does nothing, and its contract is the law.

ghost use Rattle.socket_port.specs.Rules.Laws.{OwnersStay};

/// The stream with a session of a peer that owns an output makes room for no stream of another address. That of a peer with
/// another connection makes room for the first stream of another address alone.
pub fn owners_stay()
    ensures { OwnersStay }
{}

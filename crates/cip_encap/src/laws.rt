//! The law of each format: a written value is read back. The call does nothing, and its contract is the law.

ghost use Rattle.cip_encap.specs.ReadsBack.{MessageReadsBack, ItemsReadBack, ConnectedReadsBack};

/// A message is read back from its text, data from among its items, and a connected message from among its own.
pub fn reads_back()
    ensures message { MessageReadsBack }
    ensures items { ItemsReadBack }
    ensures connected { ConnectedReadsBack }
{}

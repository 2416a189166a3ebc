//! The law of each format: a written value is read back. The call does nothing, and its contract is the law.

ghost use Rattle.cip_datagram.specs.ReadsBack.{DatagramReadsBack, HeaderReadsBack};

/// A datagram is read back from its text, and a mode from its run/idle header.
pub fn reads_back()
    ensures datagram { DatagramReadsBack }
    ensures header { HeaderReadsBack }
{}

//! A written value is read as the same value. The calls do nothing: their contracts are the laws for each kind of word,
//! for whole traces, and for traces that are written piece by piece.

ghost use Rattle.trace_laws.specs.WordsBack.{NumbersReadBack, NodesReadBack, NodeListsReadBack, BytesReadBack, IdsReadBack, GeneralReadsBack, ExtendedReadsBack, ActionsReadBack};
ghost use Rattle.trace_laws.specs.Recording.{EventsReadBack, TracesBegin, TracesGrow};
ghost use Rattle.trace_laws.specs.TraceBack.{ScannerTraceReadsBack, TraceReadsBack};

/// Does nothing. Its contract is a law for callers: a number, an address, a list of addresses, bytes, a connection id,
/// a status and an action are read back from their words; and the trace of an adapter or of a scanner from its text, with
/// all recorded outcomes, if its profile is valid and no recorded reason is a mismatch that carries a refused status.
pub fn reads_back()
    ensures numbers { NumbersReadBack }
    ensures nodes { NodesReadBack }
    ensures node_lists { NodeListsReadBack }
    ensures bytes { BytesReadBack }
    ensures ids { IdsReadBack }
    ensures general { GeneralReadsBack }
    ensures extended { ExtendedReadsBack }
    ensures actions { ActionsReadBack }
    ensures trace { TraceReadsBack }
    ensures scanner_trace { ScannerTraceReadsBack }
{}

/// Does nothing. Its contract is a law for callers that write a trace piece by piece: the lines of a profile
/// (`push_config`) are the text of a trace without events; the line of an event more (`push_event`) and the lines of its
/// outcome under its number (`push_outcome`), appended, make the text of the trace with that entry; and the line of an
/// event, without its LF, is read as that event (`read_event_line`).
pub fn writes_piece_by_piece()
    ensures begins { TracesBegin }
    ensures grows { TracesGrow }
    ensures events { EventsReadBack }
{}

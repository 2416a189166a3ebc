//! The law of each format: a written value is read back. The call does nothing, and its contract is the law.

ghost use Rattle.cip_fwdopen.specs.ReadsBack.{OpenReadsBack, OpenedReadsBack, RefusedReadsBack, RefusedCloseReadsBack, RefusedGetReadsBack, CloseReadsBack, ClosedReadsBack, GetReadsBack, GotReadsBack};

/// Requests and replies are read back from their texts, and a refusal by each reader of replies.
pub fn reads_back()
    ensures forward_open { OpenReadsBack }
    ensures opened { OpenedReadsBack }
    ensures refused { RefusedReadsBack }
    ensures refused_close { RefusedCloseReadsBack }
    ensures refused_get { RefusedGetReadsBack }
    ensures forward_close { CloseReadsBack }
    ensures closed { ClosedReadsBack }
    ensures get { GetReadsBack }
    ensures got { GotReadsBack }
{}

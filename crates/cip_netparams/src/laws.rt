//! The law of each format: a written value is read back. The call does nothing, and its contract is the law.

ghost use Rattle.cip_netparams.specs.ReadsBack.{Word16ReadsBack, Word32ReadsBack, TriggerReadsBack};

/// Parameters are read back from their words, and a trigger from its byte.
pub fn reads_back()
    ensures word16 { Word16ReadsBack }
    ensures word32 { Word32ReadsBack }
    ensures trigger { TriggerReadsBack }
{}

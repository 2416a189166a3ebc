//! The law of each format: a written value is read back. The call does nothing, and its contract is the law.

ghost use Rattle.cip_epath.specs.ReadsBack.{PathReadsBack, TargetReadsBack};

/// A connection path is read back from its text, and so is the path of a request.
pub fn reads_back()
    ensures path { PathReadsBack }
    ensures target { TargetReadsBack }
{}

//! The law of a record on its way. A law call does nothing; its contract states the law.

ghost use Rattle.station_rim.specs.RecordLaw.{EntriesAreWrittenInOrder};

/// Whatever a recorder puts in and the writer of its files takes: the writer takes, in order, the entries that were accepted from
/// the recorder, each whole and once. So what it took is a beginning of them, and all of them once nothing is on its way.
pub fn entries_are_written_in_order()
    ensures { EntriesAreWrittenInOrder }
{}

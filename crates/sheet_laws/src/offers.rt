//! What a data sheet offers, and what a fresh adapter answers.

ghost use Rattle.sheet_laws.specs.Offers.{SheetsAreAdmitted};

/// A Forward_Open that a tool makes of a connection of a data sheet is admitted by a fresh adapter of the sheet's profile, as a
/// connection of the sheet's kind, whatever limits the maker states: at each packet interval of the sheet, and so at the first
/// one, by each trigger and T->O type of the sheet. One of a listen-only connection is refused for want of a supporter alone.
///
/// The law speaks of profiles without a fault that begin with two connection ids, as each does whose ids are those of its incarnation. A described device takes a request for one of whole milliseconds, rounded down, and its
/// sheet offers none that this makes too short.
///
/// Volume 1, chapter 3, Forward_Open service. Volume 1, chapter 7, electronic data sheets.
pub fn fresh_devices_admit_what_a_sheet_offers()
    ensures { SheetsAreAdmitted }
{}

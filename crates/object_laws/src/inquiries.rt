//! What an adapter answers to inquiries.

ghost use Rattle.object_laws.specs.Inquiries.{InquiriesChangeNothing};

/// An inquiry leaves the table of an adapter as it is. What is answered over no stream is answered over each open stream, byte for
/// byte, and its reply has at most 100 bytes: so much a forged request can turn on somebody else. Other bytes over no stream are
/// a bad frame.
///
/// The law holds of whole tables.
///
/// Volume 2, chapter 2, ListServices, ListIdentity and ListInterfaces.
pub fn inquiries_change_nothing()
    ensures { InquiriesChangeNothing }
{}

//! What a station does beside its device, as its options say.

ghost use Rattle.std.specs.Prelude.{◌≡◌};
ghost use Rattle.eip_station.specs.Rules.{allowed_of, has_next_life, left_ms, life_end, reads_lines, run_end, reports_page};

use crate::failure::Failure;
use command_lines::Options;
use page_server::Allowed;
use station::LifeEnd;
use station_record::RecordFault;
use station_setup::end_of;

/// Whether a station takes calls: from its input, or from its page.
pub fn reads_lines(options: &Options) -> bool
    ensures { result ≡ reads_lines options.now }
{
    !options.no_input || options.page_writes
}

/// What a page allows, whose station has a record that can be read again, or not.
pub fn allowed_of(options: &Options, has_record: bool) -> Allowed
    ensures { result ≡ allowed_of options.now has_record }
{
    Allowed {
        writes: options.page_writes,
        record: has_record,
    }
}

/// Whether a line says where the page is. It alone has the token of a page that takes calls.
pub fn reports_page(options: &Options) -> bool
    ensures { result ≡ reports_page options.now }
{
    !options.quiet || options.page_writes
}

/// When a life is over that begins so many milliseconds after its station, in milliseconds since it began.
pub fn left_ms(seconds: Option<u32>, begun_ms: u64) -> Option<u64>
    ensures { result ≡ left_ms seconds begun_ms }
{
    match end_of(seconds) {
        Some(end_ms) => Some(end_ms.saturating_sub(begun_ms)),
        None => None,
    }
}

/// How a life ends, whose record has ended for this reason or not.
pub fn life_end(end: LifeEnd, fault: Option<RecordFault>) -> Result<LifeEnd, Failure>
    ensures { result ≡ life_end end fault }
{
    match fault {
        Some(_) => Err(Failure::RecordEnd),
        None => Ok(end),
    }
}

/// Whether another life follows.
pub fn has_next_life(end: LifeEnd) -> bool
    ensures { result ≡ has_next_life end }
{
    matches!(end, LifeEnd::Restart { .. })
}

/// How a station ends, whose record was written whole or not.
pub fn run_end(ran: Result<(), Failure>, is_whole: bool) -> Result<(), Failure>
    ensures { result ≡ run_end ran is_whole }
{
    match ran {
        Ok(()) if !is_whole => Err(Failure::RecordEnd),
        ran => ran,
    }
}

//! The start of a station, which its options or its state's file count.

ghost use Rattle.std.specs.Prelude.{◌≡◌};
ghost use Rattle.station_setup.specs.Opening.Starts.{counting_of};
ghost use Rattle.station_setup.specs.Settings.{incarnation_in};

use command_lines::Options;
use station_record::{Start, StateFault};
use std::fs::File;
use std::random::RandomSource;
use std::rt::Files;

/// How a start comes to its incarnation.
#[derive(Clone, Copy, PartialEq, Eq)]
enum Counting {
    /// It is said, and no file counts it.
    Said(u8),
    /// The state's file counts it, unless one is said.
    Counted(Option<u8>),
}

/// The start of a life of a station with these options, whose profile has an incarnation of its own. It is counted in the state's
/// file of this path, unless the options say the incarnation and no such file. An incarnation of the options is that of the first
/// life; each further one has the next. The faults are those of `Start::begin`.
pub fn start_in<R>(
    rt: &R,
    options: &Options,
    path: &str,
    own: u8,
    life: u32,
) -> Result<Start, StateFault>
where
    R: AllocGlobal + Files<File = File> + RandomSource,
{
    match counting_of(options.incarnation, options.state_from_end.is_some(), life) {
        Counting::Said(incarnation) => Ok(Start::uncounted(rt, incarnation)),
        Counting::Counted(given) => Start::begin(rt, path, given, own),
    }
}

/// How a life comes to its incarnation, where the options say one and a state's file, or not.
fn counting_of(given: Option<u8>, has_file: bool, life: u32) -> Counting
    ensures { result ≡ counting_of given has_file life }
{
    match given {
        None => Counting::Counted(None),
        Some(first) if !has_file => Counting::Said(incarnation_in(first, life)),
        Some(first) if life == 1 => Counting::Counted(Some(first)),
        Some(_) => Counting::Counted(None),
    }
}

/// The incarnation of a life, from that of the first one on: 1 follows 255.
fn incarnation_in(first: u8, life: u32) -> u8
    ensures { result ≡ incarnation_in first life }
{
    let places = (u64::from(first) + 253 + u64::from(life)) % 255;
    places as u8 + 1
}

//! Why a port ends its streams.

ghost use Rattle.std.specs.Prelude.{◌≡◌, replicate, slice_index_or, slice_set, Some, None, IfOk};
ghost use Rattle.std.specs.List.{list_any};
ghost use Rattle.station_port.specs.Streams.Ends.{cause_or_cut, is_marked};

use cip_types::OutOfMemory;
use cip_types::limits::MOST_STREAMS;
use std::alloc::Global;
use std::marker::Model;
use udp_runner::EndCause;

/// Of each number the cause for which its stream is being ended, if it is. Contracts see a list.
#[derive(Drop)]
pub struct EndCauses {
    causes: Vec<Option<EndCause>>,
}

impl Model for EndCauses {
    ghost use Rattle.std.specs.Prelude.{List, Option};
    ghost use Rattle.udp_runner.specs.declared.report.EndCause.{EndCause};

    ghost Value = { List (Option EndCause) };

    ghost view = { λ e. e.causes.items };
}

impl EndCauses {
    /// No stream is being ended. The only fault is a refused allocation.
    pub fn new(alloc: Global) -> Result<EndCauses, OutOfMemory>
        ensures { IfOk result (λ causes. causes ≡ replicate 16 None) }
    {
        Ok(EndCauses {
            causes: vec![in alloc; None; MOST_STREAMS]?,
        })
    }

    /// Whether a stream is being ended.
    pub fn any(&self) -> bool
        ensures { result ≡ list_any is_marked self.now }
    {
        self.causes.iter().any(|cause| cause.is_some())
    }

    /// The stream of this number is being ended for this cause.
    pub fn mark(&mut self, number: u16, cause: EndCause)
        ensures { self.new ≡ slice_set self.old number (Some cause) }
    {
        self.put(number, Some(cause));
    }

    /// The stream of this number has ended: takes its cause, which is its peer's cut if there is no other.
    pub fn take_cause(&mut self, number: u16) -> EndCause
        ensures cause { result ≡ cause_or_cut (slice_index_or self.old number None) }
        ensures taken { self.new ≡ slice_set self.old number None }
    {
        let cause = match self.causes.get(usize::from(number)) {
            Some(Some(cause)) => *cause,
            _ => EndCause::Cut,
        };
        self.put(number, None);
        cause
    }

    /// Puts the cause of a number, if there is such a number.
    fn put(&mut self, number: u16, cause: Option<EndCause>)
        ensures { self.new ≡ slice_set self.old number cause }
    {
        let index = usize::from(number);
        if index < self.causes.len() {
            self.causes[index] = cause;
        }
    }
}

//! The datagrams of producers.

ghost use Rattle.std.specs.Prelude.{◌≡◌, ◌≤◌, length, IfOk};
ghost use Rattle.cip_datagram.specs.Datagram.{datagram_text};
ghost use Rattle.cip_productions.specs.Productions.{production_datagram, produced_by, sent, same_producer, by_number, by_due};

use crate::producing::next_count;
use crate::production::Producer;
use cip_datagram::{Datagram, fixed_part};
use cip_events::{Consumers, OutgoingDatagram, SmallBytes};
use cip_types::OutOfMemory;
use std::alloc::Global;

/// The bytes of a producer's next datagram.
#[inline(always)]
fn written_datagram(
    alloc: Global,
    producer: &Producer,
    input: &[u8],
) -> Result<SmallBytes, OutOfMemory>
    requires { length input.now ≤ 65533 }
    ensures { IfOk result (λ bytes. bytes
        ≡ datagram_text (production_datagram producer.now.id producer.now.production input.now)) }
{
    let datagram = Datagram {
        connection: producer.id,
        sequence: producer.production.sequence,
        count: next_count(&producer.production),
        data: input,
    };
    SmallBytes::joined(alloc, &fixed_part(&datagram), input)
}

/// The next datagram of a producer to these nodes, with the value of its point. OutOfMemory is the only fault.
///
/// Volume 1, chapter 3, class 1 transport; Volume 2, chapter 2, sequenced address item.
#[inline(always)]
pub fn sent_by(
    alloc: Global,
    nodes: Consumers,
    input: &[u8],
    producer: &Producer,
) -> Result<OutgoingDatagram, OutOfMemory>
    requires { length input.now ≤ 65533 }
    ensures { IfOk result (λ outgoing. outgoing ≡ sent (produced_by nodes input.now producer.now)) }
{
    let bytes = written_datagram(alloc, producer, input)?;
    Ok(OutgoingDatagram {
        address: producer.production.address,
        nodes,
        bytes,
    })
}

/// Whether two producers are the same.
pub fn same_producer(producer: &Producer, other: &Producer) -> bool
    ensures { result ≡ same_producer producer.now other.now }
{
    producer.production.producer == other.production.producer
}

/// Whether a producer has the lower number.
pub fn by_number(producer: &Producer, other: &Producer) -> bool
    ensures { result ≡ by_number producer.now other.now }
{
    producer.production.producer < other.production.producer
}

/// Whether a producer is due before another, or at the same time and has the lower number.
pub fn by_due(producer: &Producer, other: &Producer) -> bool
    ensures { result ≡ by_due producer.now other.now }
{
    let (due, later) = (producer.production.due.0, other.production.due.0);
    due < later || (due == later && by_number(producer, other))
}

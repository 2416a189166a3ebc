//! For which T->O ids a scanner's requests to open ask, and which ids new connections of an adapter have.

ghost use Rattle.device_laws.specs.Requests.{NewConnectionsAreRequested, ScannersAskOnce};

use answer_sizes::answers_are_small;
use cip_encap::reads_back;

/// At each event a scanner asks at most once for each T->O id that it allocates, and for no other id. A request of a
/// multicast slot asks for the id 0, the id for none.
///
/// Volume 1, chapter 3, Forward_Open service, network connection ids.
pub fn scanners_ask_once()
    ensures { ScannersAskOnce }
{
    reads_back();
    answers_are_small();
}

/// A new connection of an adapter has the T->O id for which its request asked, or, if it is multicast, an id of the
/// adapter's own.
///
/// Volume 1, chapter 3, Forward_Open service, network connection ids.
pub fn new_connections_are_requested()
    ensures { NewConnectionsAreRequested }
{}

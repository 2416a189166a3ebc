//! Frames that ask for no service of an opening, and devices over whose streams no others come.

ghost use Rattle.device_laws.specs.Plain.{PlainDevicesStayPlain};

use answer_sizes::answers_are_small;
use cip_encap::reads_back;

/// A device is plain over some of its streams if no waiting request that came over one of them has the service of an opening, and each
/// waiting request came over a stream or a class 3 connection. It stays so at each event at which no frame over one of these streams
/// asks an object for the service of an opening, whatever connections such a frame opens, of class 1 or 3, and whatever comes over the
/// device's other streams and over class 3 connections. It sends plain frames alone: they ask no object for that service, and open no
/// class 3 connection. So devices that exchange their own frames over these streams stay plain over them, whatever their applications
/// answer.
///
/// The law speaks of steps from a whole table that give an answer, and of every event but `Request`, which comes without a stream.
///
/// Volume 1, chapter 3, Forward_Open service, transport class 3.
pub fn plain_devices_stay_plain()
    ensures { PlainDevicesStayPlain }
{
    reads_back();
    answers_are_small();
}

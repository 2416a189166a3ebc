//! A scanner's request to open makes one connection at most.

ghost use Rattle.schedule_laws.specs.MadeOnce.{AnIdOpensOneConnection, SchedulesUseIdsOnce};

use crate::ids_are_drawn;
use adapter_table::laws::profiles_stay;
use cip_tables::laws::{blocks_grow, next_id_never_falls, tables_are_whole};
use device_laws::{
    class3_ids_are_carried, counters_never_fall, ids_are_carried, new_connections_are_requested,
    plain_devices_stay_plain, replies_carry_opened_ids, scanners_ask_once,
};

/// Each T->O id that a scanner allocated is used once at most: one request that asks for it waits on a stream, or one
/// connection was opened with it. An id that the scanner may still allocate is not used.
///
/// Volume 1, chapter 3, network connection ids and Forward_Open service.
pub fn ids_are_used_once()
    ensures { SchedulesUseIdsOnce }
{
    // A stream gives each frame once, a scanner asks for each id once, and an adapter asks for none.
    ids_are_drawn();
    ids_are_carried();
    class3_ids_are_carried();
    plain_devices_stay_plain();
    tables_are_whole();
    counters_never_fall();
    next_id_never_falls();
    profiles_stay();
    blocks_grow();
    scanners_ask_once();
    replies_carry_opened_ids();
    new_connections_are_requested();
}

/// Two connections that adapters opened with one T->O id of a scanner are one connection.
///
/// Volume 1, chapter 3, network connection ids.
pub fn an_id_opens_one_connection()
    ensures { AnIdOpensOneConnection }
{
    ids_are_used_once();
}

//! The names of general statuses, and of the extended statuses of the Connection Manager.

ghost use Rattle.std.specs.Prelude.{◌≡◌};
ghost use Rattle.trace_words.specs.StatusWords.Statuses.{status_name, status_name_from_10, status_name_from_20, extended_name, extended_name_from_011a, extended_name_from_012a, extended_name_from_0203, extended_name_from_0312, extended_name_from_0800};

/// The name of a general status.
///
/// Volume 1, appendix B, general status codes.
pub fn status_name(status: u8) -> &'static str
    ensures { result.now ≡ status_name status }
{
    match status {
        0x00 => "success",
        0x01 => "connection failure",
        0x02 => "resource unavailable",
        0x03 => "invalid parameter value",
        0x04 => "path segment error",
        0x05 => "path destination unknown",
        0x06 => "partial transfer",
        0x07 => "connection lost",
        0x08 => "service not supported",
        0x09 => "invalid attribute value",
        0x0A => "attribute list error",
        0x0B => "already in requested mode or state",
        0x0C => "object state conflict",
        0x0D => "object already exists",
        0x0E => "attribute not settable",
        0x0F => "privilege violation",
        _ => status_name_from_10(status),
    }
}

/// The name of a general status from 0x10 on.
fn status_name_from_10(status: u8) -> &'static str
    ensures { result.now ≡ status_name_from_10 status }
{
    match status {
        0x10 => "device state conflict",
        0x11 => "reply data too large",
        0x12 => "fragmentation of a primitive value",
        0x13 => "not enough data",
        0x14 => "attribute not supported",
        0x15 => "too much data",
        0x16 => "object does not exist",
        0x17 => "service fragmentation sequence not in progress",
        0x18 => "no stored attribute data",
        0x19 => "store operation failure",
        0x1A => "routing failure, request packet too large",
        0x1B => "routing failure, response packet too large",
        0x1C => "missing attribute list entry data",
        0x1D => "invalid attribute value list",
        0x1E => "embedded service error",
        0x1F => "vendor specific error",
        _ => status_name_from_20(status),
    }
}

/// The name of a general status from 0x20 on.
fn status_name_from_20(status: u8) -> &'static str
    ensures { result.now ≡ status_name_from_20 status }
{
    match status {
        0x20 => "invalid parameter",
        0x21 => "write-once value or medium already written",
        0x22 => "invalid reply received",
        0x23 => "buffer overflow",
        0x24 => "message format error",
        0x25 => "key failure in path",
        0x26 => "path size invalid",
        0x27 => "unexpected attribute in list",
        0x28 => "invalid member ID",
        0x29 => "member not settable",
        0x2A => "group 2 only server general failure",
        0x2B => "unknown Modbus error",
        0x2C => "attribute not gettable",
        0x2D => "instance not deletable",
        0x2E => "service not supported for specified path",
        _ => "another status",
    }
}

/// The name of an extended status that the Connection Manager has under general status 1.
///
/// Volume 1, chapter 3, Connection Manager extended status codes.
pub fn extended_name(status: u16) -> &'static str
    ensures { result.now ≡ extended_name status }
{
    match status {
        0x0100 => "connection in use or duplicate Forward_Open",
        0x0103 => "transport class and trigger combination not supported",
        0x0106 => "ownership conflict",
        0x0107 => "target connection not found",
        0x0108 => "invalid network connection parameter",
        0x0109 => "invalid connection size",
        0x0110 => "target for connection not configured",
        0x0111 => "RPI not supported",
        0x0112 => "RPI not acceptable",
        0x0113 => "out of connections",
        0x0114 => "vendor id or product code mismatch",
        0x0115 => "device type mismatch",
        0x0116 => "revision mismatch",
        0x0117 => "invalid produced or consumed application path",
        0x0118 => "invalid or inconsistent configuration application path",
        0x0119 => "non-listen only connection not opened",
        _ => extended_name_from_011a(status),
    }
}

/// The name of an extended status from 0x011A on.
fn extended_name_from_011a(status: u16) -> &'static str
    ensures { result.now ≡ extended_name_from_011a status }
{
    match status {
        0x011A => "target object out of connections",
        0x011B => "RPI is smaller than the production inhibit time",
        0x011C => "transport class not supported",
        0x011D => "production trigger not supported",
        0x011E => "direction not supported",
        0x011F => "invalid O->T fixed or variable size",
        0x0120 => "invalid T->O fixed or variable size",
        0x0121 => "invalid O->T priority",
        0x0122 => "invalid T->O priority",
        0x0123 => "invalid O->T network connection type",
        0x0124 => "invalid T->O network connection type",
        0x0125 => "invalid O->T redundant owner",
        0x0126 => "invalid configuration size",
        0x0127 => "invalid O->T size",
        0x0128 => "invalid T->O size",
        0x0129 => "invalid configuration application path",
        _ => extended_name_from_012a(status),
    }
}

/// The name of an extended status from 0x012A on.
fn extended_name_from_012a(status: u16) -> &'static str
    ensures { result.now ≡ extended_name_from_012a status }
{
    match status {
        0x012A => "invalid consuming application path",
        0x012B => "invalid producing application path",
        0x012C => "configuration symbol does not exist",
        0x012D => "consuming symbol does not exist",
        0x012E => "producing symbol does not exist",
        0x012F => "inconsistent application path combination",
        0x0130 => "inconsistent consume data format",
        0x0131 => "inconsistent produce data format",
        0x0132 => "null Forward_Open not supported",
        0x0133 => "connection time-out multiplier not acceptable",
        0x0134 => "mismatched T->O size",
        0x0135 => "mismatched T->O fixed or variable size",
        0x0136 => "mismatched T->O priority",
        0x0137 => "mismatched transport class",
        0x0138 => "mismatched T->O production trigger",
        0x0139 => "mismatched T->O production inhibit time",
        _ => extended_name_from_0203(status),
    }
}

/// The name of an extended status from 0x0203 on.
fn extended_name_from_0203(status: u16) -> &'static str
    ensures { result.now ≡ extended_name_from_0203 status }
{
    match status {
        0x0203 => "connection timed out",
        0x0204 => "unconnected request timed out",
        0x0205 => "parameter error in an unconnected request",
        0x0206 => "message too large for Unconnected_Send",
        0x0207 => "unconnected acknowledge without reply",
        0x0301 => "no buffer memory available",
        0x0302 => "network bandwidth not available for data",
        0x0303 => "no consumed connection id filter available",
        0x0304 => "not configured to send scheduled priority data",
        0x0305 => "schedule signature mismatch",
        0x0306 => "schedule signature validation not possible",
        0x0311 => "port not available",
        _ => extended_name_from_0312(status),
    }
}

/// The name of an extended status from 0x0312 on.
fn extended_name_from_0312(status: u16) -> &'static str
    ensures { result.now ≡ extended_name_from_0312 status }
{
    match status {
        0x0312 => "link address not valid",
        0x0315 => "invalid segment in the connection path",
        0x0316 => "error in the connection path of Forward_Close",
        0x0317 => "scheduling not specified",
        0x0318 => "link address to self invalid",
        0x0319 => "secondary resources unavailable",
        0x031A => "rack connection already established",
        0x031B => "module connection already established",
        0x031C => "miscellaneous",
        0x031D => "redundant connection mismatch",
        0x031E => "no more link consumer resources in the producing module",
        0x031F => "no link consumer resources configured in the producing module",
        _ => extended_name_from_0800(status),
    }
}

/// The name of an extended status from 0x0800 on.
fn extended_name_from_0800(status: u16) -> &'static str
    ensures { result.now ≡ extended_name_from_0800 status }
{
    match status {
        0x0800 => "network link in the path to the module is offline",
        0x0810 => "no target application data available",
        0x0811 => "no originator application data available",
        0x0812 => "node address has changed since the network was scheduled",
        0x0813 => "not configured for off-subnet multicast",
        0x0814 => "invalid produce or consume data format",
        _ => "another status",
    }
}

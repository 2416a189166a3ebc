//! The defects of profiles in words: what is wrong, its value, and what is allowed.

use crate::profile_faults::{Defect, LineName, PacketDirection, WaitingTime, WordPlace};
use adapter_table::{LARGEST_CLASS, LONGEST_INACTIVITY, MOST_OWN_CLASSES, PHYSICAL_ADDRESS};
use cip_productions::Kind;
use cip_types::limits::{
    LONGEST_CONFIG, LONGEST_POINT, LONGEST_RPI_US, LONGEST_WAIT_MS, MOST_POINTS, MOST_SLOTS,
};
use cip_types::{Node, OutOfMemory};
use list_identity::LONGEST_NAME;
use scanner_table::MOST_WAITING_OPENINGS;
use trace_lines::StatedNumber;
use trace_words::{push_node, push_text};

/// A limit as it is printed, with a comma before each three digits behind the first ones.
fn push_limit(out: &mut String, limit: u64) -> Result<(), OutOfMemory> {
    let billions = limit / 1_000_000_000;
    let millions = limit / 1_000_000 % 1_000;
    let thousands = limit / 1_000 % 1_000;
    let ones = limit % 1_000;
    match (billions, millions, thousands) {
        (0, 0, 0) => Ok(write!(out, "{ones}")?),
        (0, 0, _) => Ok(write!(out, "{thousands},{ones:03}")?),
        (0, _, _) => Ok(write!(out, "{millions},{thousands:03},{ones:03}")?),
        _ => Ok(write!(out, "{billions},{millions:03},{thousands:03},{ones:03}")?),
    }
}

/// What is wrong, behind the place of it. The line of an earlier place is looked up by this number.
pub fn push_defect(
    out: &mut String,
    defect: Defect,
    earlier: Option<u64>,
) -> Result<(), OutOfMemory> {
    match defect {
        Defect::Incarnation => push_text(
            out,
            "the incarnation is 0, and an incarnation is 1 to 255",
        ),
        Defect::NoFirstId | Defect::LateIds(_, _) => push_ids(out, defect),
        Defect::Mask(mask) => {
            push_text(out, "mask ")?;
            push_node(out, mask)?;
            push_text(out, " is not ones and then zeros")
        }
        Defect::NetworkAddress(node, mask) => push_network(out, node, mask),
        Defect::Major(major) => Ok(write!(
            out,
            "the major revision is {major}, and it is 1 to 127"
        )?),
        Defect::Minor(minor) => Ok(write!(
            out,
            "the minor revision is {minor}, and it is 1 to 255"
        )?),
        Defect::SameInstance(instance, other) => push_same(out, instance, other, earlier),
        Defect::SameGroup {
            slot,
            other,
            target,
            point,
        } => push_group(out, (slot, other), (target, point), earlier),
        Defect::Waiting(wait, ms) => push_waiting(out, wait, ms),
        Defect::Openings(_) | Defect::NoSerial => push_opening(out, defect),
        Defect::ClassInstance
        | Defect::NameLen(_)
        | Defect::AddressLen(_)
        | Defect::Inactivity(_) => push_described(out, defect),
        Defect::Limit(stated) => push_stated(out, stated),
        Defect::ExtraClass(_) | Defect::OtherClass(_) | Defect::SameClass(_) => {
            push_class(out, defect)
        }
        _ => push_count(out, defect),
    }
}

/// What is said of connection ids that are none.
fn push_ids(out: &mut String, defect: Defect) -> Result<(), OutOfMemory> {
    if let Defect::LateIds(first, count) = defect {
        write!(
            out,
            "{count} connection ids from {first} on end behind 4,294,967,295, and"
        )?;
    } else {
        push_text(out, "the first connection id is 0, and")?;
    }
    push_text(out, " a connection id is 1 to 4,294,967,295")
}

/// What is said of a scanner's openings that is none.
fn push_opening(out: &mut String, defect: Defect) -> Result<(), OutOfMemory> {
    match defect {
        Defect::Openings(most) => Ok(write!(
            out,
            "the most openings at one time are {most}, and they are 1 to {MOST_WAITING_OPENINGS}"
        )?),
        Defect::NoSerial => push_text(
            out,
            "the first serial number is 0, and a serial number is 1 to 65,535",
        ),
        _ => Ok(()),
    }
}

fn push_network(out: &mut String, node: Node, mask: Node) -> Result<(), OutOfMemory> {
    push_text(out, "address ")?;
    push_node(out, node)?;
    push_text(out, " is that of the network itself under mask ")?;
    push_node(out, mask)
}

/// Appends the number of an earlier line, if it is known.
fn push_line(out: &mut String, earlier: Option<u64>) -> Result<(), OutOfMemory> {
    match earlier {
        Some(line) => Ok(write!(out, "line {line}")?),
        None => push_text(out, "an earlier line"),
    }
}

fn push_same(
    out: &mut String,
    instance: u32,
    other: WordPlace,
    earlier: Option<u64>,
) -> Result<(), OutOfMemory> {
    write!(out, "instance {instance} is that of ")?;
    match other.line {
        LineName::Heartbeat => {
            let word = other.word;
            write!(out, "word {word} ")?;
        }
        _ => {
            push_line(out, earlier)?;
            push_text(out, " ")?;
        }
    }
    push_text(out, "too")
}

fn push_group(
    out: &mut String,
    (slot, other): (usize, usize),
    (target, point): (Node, u32),
    earlier: Option<u64>,
) -> Result<(), OutOfMemory> {
    write!(out, "slot {slot} takes point {point} of ")?;
    push_node(out, target)?;
    write!(out, " by multicast, and so does slot {other} of ")?;
    push_line(out, earlier)
}

fn push_waiting(out: &mut String, wait: WaitingTime, ms: u64) -> Result<(), OutOfMemory> {
    let name = match wait {
        WaitingTime::OpenTimeout => "open time-out",
        WaitingTime::Retry => "retry time",
    };
    write!(out, "the {name} is {ms} ms, and it is 1 to ")?;
    push_limit(out, LONGEST_WAIT_MS)
}

/// A value of a description that is none.
fn push_described(out: &mut String, defect: Defect) -> Result<(), OutOfMemory> {
    match defect {
        Defect::ClassInstance => push_text(
            out,
            "a point has the instance 0, by which a tool asks the class of Assembly itself",
        ),
        Defect::NameLen(len) => Ok(write!(
            out,
            "the name has {len} bytes, and a name has 0 to {LONGEST_NAME}"
        )?),
        Defect::AddressLen(len) => Ok(write!(
            out,
            "the physical address has {len} bytes, and a physical address has {PHYSICAL_ADDRESS}"
        )?),
        Defect::Inactivity(seconds) => {
            write!(
                out,
                "the inactivity time-out is {seconds} seconds, and it is 0 to "
            )?;
            push_limit(out, u64::from(LONGEST_INACTIVITY))
        }
        _ => Ok(()),
    }
}

/// A number of a limit of the maker's that is out of its range.
fn push_stated(out: &mut String, stated: StatedNumber) -> Result<(), OutOfMemory> {
    let (before, behind) = stated.number.phrases();
    let value = stated.value;
    write!(out, "{before}{value}{behind}")?;
    let range = stated.number.range();
    match range.least {
        0 => push_text(out, "at most ")?,
        least => write!(out, "{least} to ")?,
    }
    push_limit(out, u64::from(range.most))
}

/// A class that no object of the maker's own has.
fn push_class(out: &mut String, defect: Defect) -> Result<(), OutOfMemory> {
    match defect {
        Defect::ExtraClass(class) => Ok(write!(
            out,
            "class {class} is one too many, and an adapter has at most {MOST_OWN_CLASSES} own classes"
        )?),
        Defect::OtherClass(class) if (1..=LARGEST_CLASS).contains(&class) => Ok(write!(
            out,
            "class {class} is that of an object that each device has"
        )?),
        Defect::OtherClass(class) => {
            write!(out, "class {class} is none, and a class is 1 to ")?;
            push_limit(out, u64::from(LARGEST_CLASS))
        }
        Defect::SameClass(class) => Ok(write!(out, "class {class} is named twice")?),
        _ => Ok(()),
    }
}

/// A count of points or slots that is none.
fn push_count(out: &mut String, defect: Defect) -> Result<(), OutOfMemory> {
    match defect {
        Defect::NoInput => Ok(write!(
            out,
            "the adapter has no input, and an adapter has 1 to {MOST_POINTS} inputs"
        )?),
        Defect::ExtraOutput(instance) => Ok(write!(
            out,
            "output {instance} is one too many, and an adapter has at most {MOST_POINTS} outputs"
        )?),
        Defect::ExtraInput(instance) => Ok(write!(
            out,
            "input {instance} is one too many, and an adapter has 1 to {MOST_POINTS} inputs"
        )?),
        Defect::NoSlot => Ok(write!(
            out,
            "the scanner has no slot, and a scanner has 1 to {MOST_SLOTS} slots"
        )?),
        Defect::ExtraSlot(slot) => Ok(write!(
            out,
            "slot {slot} is one too many, and a scanner has 1 to {MOST_SLOTS} slots"
        )?),
        Defect::Listener(slot) => Ok(write!(
            out,
            "slot {slot} is listen-only, and a listen-only slot is multicast"
        )?),
        _ => push_length(out, defect),
    }
}

/// A length that is none.
fn push_length(out: &mut String, defect: Defect) -> Result<(), OutOfMemory> {
    match defect {
        Defect::OutputLen(instance, len) => {
            write!(out, "output {instance} has {len} bytes")?;
            push_point_range(out)
        }
        Defect::InputLen(instance, len) => {
            write!(out, "input {instance} has {len} bytes")?;
            push_point_range(out)
        }
        Defect::ConfigLen(instance, len) => {
            write!(out, "configuration {instance} has {len} bytes")?;
            push_config_range(out)
        }
        Defect::SlotOutput(slot, len) => {
            write!(out, "the output of slot {slot} has {len} bytes")?;
            push_point_range(out)
        }
        Defect::SlotInput(slot, len) => {
            write!(out, "the input of slot {slot} has {len} bytes")?;
            push_point_range(out)
        }
        Defect::SlotHeartbeat(slot, kind, len) => {
            let name = kind_words(kind);
            Ok(write!(
                out,
                "the output of slot {slot} has {len} bytes, and that of {name} slot has 0"
            )?)
        }
        Defect::SlotConfiguration(slot, len) => {
            write!(out, "the configuration of slot {slot} has {len} bytes")?;
            push_config_range(out)
        }
        Defect::SlotNoConfiguration(slot, len) => Ok(write!(
            out,
            "the configuration of slot {slot} has {len} bytes, and a slot that names no configuration has 0"
        )?),
        _ => push_time(out, defect),
    }
}

fn kind_words(kind: Kind) -> &'static str {
    match kind {
        Kind::ExclusiveOwner => "an exclusive-owner",
        Kind::InputOnly => "an input-only",
        Kind::ListenOnly => "a listen-only",
    }
}

fn push_point_range(out: &mut String) -> Result<(), OutOfMemory> {
    push_text(out, ", and a point has 1 to ")?;
    push_limit(out, LONGEST_POINT)
}

fn push_config_range(out: &mut String) -> Result<(), OutOfMemory> {
    push_text(out, ", and a configuration has 0 to ")?;
    push_limit(out, LONGEST_CONFIG)?;
    push_text(out, ", an even number")
}

/// A time of a slot that is none.
fn push_time(out: &mut String, defect: Defect) -> Result<(), OutOfMemory> {
    match defect {
        Defect::Interval(slot, direction, us) => {
            let way = match direction {
                PacketDirection::OriginatorToTarget => "O->T",
                PacketDirection::TargetToOriginator => "T->O",
            };
            write!(
                out,
                "the {way} packet interval of slot {slot} is {us} microseconds, and it is 1 to "
            )?;
            push_limit(out, u64::from(LONGEST_RPI_US))
        }
        Defect::Multiplier(slot, mult) => Ok(write!(
            out,
            "the time-out multiplier of slot {slot} is {mult}, and it is 0 to 7"
        )?),
        Defect::CyclicInhibit(slot, ms) => Ok(write!(
            out,
            "the inhibit time of slot {slot} is {ms} ms, and that of a cyclic slot is 0"
        )?),
        Defect::Inhibit(slot, ms, api) => Ok(write!(
            out,
            "the inhibit time of slot {slot} is {ms} ms, and it is 0 to {api}, its T->O packet interval"
        )?),
        Defect::NoPace(slot) => Ok(write!(
            out,
            "the inhibit time of slot {slot} is 0 ms, and where numbers are limited it is at least 1"
        )?),
        _ => Ok(()),
    }
}

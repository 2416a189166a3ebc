//! The sections of the classes that a described device has.

ghost use Rattle.std.specs.Prelude.{◌≡◌, ◌++◌, OnOk, string_bytes};
ghost use Rattle.eds_text.specs.Classes.{classes_text, interface_text, link_text, qos_text};

use adapter_table::{Description, Profile, QOS_CLASS};
use cip_types::OutOfMemory;
use trace_words::push_text;

/// Appends the sections of the classes that a described device has; none of a device without a description.
///
/// Volume 1, chapter 7, electronic data sheets: classes.
pub fn push_classes(out: &mut String, profile: &Profile) -> Result<(), OutOfMemory>
    ensures { OnOk result (string_bytes out.new ≡ string_bytes out.old ++ classes_text profile.now) }
{
    let Some(description) = &profile.description else {
        return Ok(());
    };
    push_interface(out)?;
    push_link(out, description)?;
    push_qos(out, profile.is_own_class(QOS_CLASS))
}

/// Appends the section of the TCP/IP Interface object.
#[tactic(auto, unfolding(crate::specs::Classes::interface_text))]
fn push_interface(out: &mut String) -> Result<(), OutOfMemory>
    ensures { OnOk result (string_bytes out.new ≡ string_bytes out.old ++ interface_text) }
{
    push_text(
        out,
        "
[TCP/IP Interface Class]
        Revision = 4;
        Object_Name = \"TCP/IP Interface Object\";
        Object_Class_Code = 0xF5;
        MaxInst = 1;
        Number_Of_Static_Instances = 1;
        Max_Number_Of_Dynamic_Instances = 0;
        Class_Attributes = 1,2,3,4,5,6,7;
        Instance_Attributes = 1,2,3,4,5,6,8,9,10,11,13;
",
    )
}

/// Appends the section of the Ethernet Link object.
#[tactic(auto, unfolding(crate::specs::Classes::link_text))]
fn push_link(out: &mut String, description: &Description) -> Result<(), OutOfMemory>
    ensures { OnOk result (string_bytes out.new ≡ string_bytes out.old ++ link_text description.now) }
{
    let speed = description.speed;
    Ok(write!(
        out,
        "
[Ethernet Link Class]
        Revision = 4;
        Object_Name = \"Ethernet Link Object\";
        Object_Class_Code = 0xF6;
        MaxInst = 1;
        Number_Of_Static_Instances = 1;
        Max_Number_Of_Dynamic_Instances = 0;
        Class_Attributes = 1,2,3,4,5,6,7;
        Instance_Attributes = 1,2,3,4,5,6,7,8,9,10,11;
        InterfaceSpeed1 = {speed};
        InterfaceLabel1 = \"Ethernet\";
"
    )?)
}

/// Appends the section of the QoS object, unless the maker's own has its class.
#[tactic(auto, unfolding(crate::specs::Classes::qos_text))]
fn push_qos(out: &mut String, own: bool) -> Result<(), OutOfMemory>
    ensures { OnOk result (string_bytes out.new ≡ string_bytes out.old ++ qos_text own) }
{
    if own {
        return Ok(());
    }
    push_text(
        out,
        "
[QoS Class]
        Revision = 1;
        Object_Name = \"QoS Object\";
        Object_Class_Code = 0x48;
        MaxInst = 1;
        Number_Of_Static_Instances = 1;
        Max_Number_Of_Dynamic_Instances = 0;
        Class_Attributes = 1,2,3,4,5,6,7;
        Instance_Attributes = 1,2,3,4,5,6,7,8;
",
    )
}

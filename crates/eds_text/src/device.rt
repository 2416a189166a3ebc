//! The sections of a data sheet that say which device it is of.

ghost use Rattle.std.specs.Prelude.{◌≡◌, ◌++◌, OnOk, string_bytes};
ghost use Rattle.eds_text.specs.Device.{device_text, name_line, number_line, number_lines, product_lines, type_line, vendor_lines};
ghost use Rattle.eds_text.specs.Names.{given_name, shown_names};
ghost use Rattle.eds_text.specs.Texts.{file_text};

use crate::names::SheetNames;
use cip_types::{Identity, OutOfMemory};
use trace_words::push_text;

/// The device types whose names a data sheet has.
///
/// Volume 1, chapter 6, device profiles.
const COMMUNICATIONS_ADAPTER: u16 = 12;

const GENERIC_DEVICE: u16 = 43;

/// Appends the section of the file. Its time does not depend on a clock, so that a profile has one data sheet.
#[tactic(auto, unfolding(crate::specs::Texts::file_text))]
pub fn push_file(out: &mut String) -> Result<(), OutOfMemory>
    ensures { OnOk result (string_bytes out.new ≡ string_bytes out.old ++ file_text) }
{
    push_text(
        out,
        "$ Electronic data sheet of an EtherNet/IP adapter

[File]
        DescText = \"EtherNet/IP adapter\";
        CreateDate = 01-01-2026;
        CreateTime = 00:00:00;
        Revision = 1.0;
",
    )
}

/// Appends the section of the device.
#[tactic(auto, unfolding(crate::specs::Device::device_text))]
pub fn push_device(
    out: &mut String,
    names: &SheetNames<'_>,
    identity: Identity,
) -> Result<(), OutOfMemory>
    ensures { OnOk result
        (string_bytes out.new ≡ string_bytes out.old ++ device_text (shown_names names.now) identity) }
{
    out.push_str("\n[Device]\n")?;
    push_vendor(out, names.vendor, identity)?;
    push_numbers(out, identity)?;
    push_product(out, names, identity)
}

/// Appends the number and the name of the vendor.
#[tactic(auto, unfolding(crate::specs::Device::vendor_lines))]
fn push_vendor(out: &mut String, given: Option<&str>, identity: Identity) -> Result<(), OutOfMemory>
    ensures { OnOk result (string_bytes out.new ≡ string_bytes out.old
        ++ vendor_lines (given_name given.entry) identity) }
{
    push_number_line(out, "VendCode", identity.vendor)?;
    push_name_line(out, "VendName", given, "Vendor", identity.vendor)
}

/// Appends the lines of device type, product code and revision.
#[tactic(auto, unfolding(crate::specs::Device::number_lines))]
fn push_numbers(out: &mut String, identity: Identity) -> Result<(), OutOfMemory>
    ensures { OnOk result (string_bytes out.new ≡ string_bytes out.old ++ number_lines identity) }
{
    push_number_line(out, "ProdType", identity.device_type)?;
    push_type_line(out, identity.device_type)?;
    push_number_line(out, "ProdCode", identity.product)?;
    push_number_line(out, "MajRev", u16::from(identity.major))?;
    push_number_line(out, "MinRev", u16::from(identity.minor))
}

/// Appends the names of the product, and the class of the device.
#[tactic(auto, unfolding(crate::specs::Device::product_lines))]
fn push_product(
    out: &mut String,
    names: &SheetNames<'_>,
    identity: Identity,
) -> Result<(), OutOfMemory>
    ensures { OnOk result (string_bytes out.new ≡ string_bytes out.old
        ++ product_lines (shown_names names.now) identity) }
{
    push_name_line(out, "ProdName", names.product, "Product", identity.product)?;
    push_name_line(out, "Catalog", names.catalog, "Catalog", identity.product)?;
    push_text(
        out,
        "\n[Device Classification]\n        Class1 = EtherNetIP;\n",
    )
}

/// Appends a line with a number.
#[tactic(auto, unfolding(crate::specs::Device::number_line))]
fn push_number_line(out: &mut String, key: &str, number: u16) -> Result<(), OutOfMemory>
    ensures { OnOk result (string_bytes out.new ≡ string_bytes out.old ++ number_line key.now number) }
{
    Ok(write!(out, "        {key} = {number};\n")?)
}

/// Appends a line with a name, or with a word and a number where no name is given.
#[tactic(auto, unfolding(crate::specs::Device::name_line))]
fn push_name_line(
    out: &mut String,
    key: &str,
    given: Option<&str>,
    word: &str,
    number: u16,
) -> Result<(), OutOfMemory>
    ensures { OnOk result (string_bytes out.new ≡ string_bytes out.old
        ++ name_line key.now word.now number (given_name given.entry)) }
{
    match given {
        Some(name) => Ok(write!(out, "        {key} = \"{name}\";\n")?),
        None => Ok(write!(out, "        {key} = \"{word} {number}\";\n")?),
    }
}

/// Appends the line of the name of a device type.
#[tactic(auto, unfolding(crate::specs::Device::type_line))]
fn push_type_line(out: &mut String, device_type: u16) -> Result<(), OutOfMemory>
    ensures { OnOk result (string_bytes out.new ≡ string_bytes out.old ++ type_line device_type) }
{
    match device_type {
        COMMUNICATIONS_ADAPTER => push_text(
            out,
            "        ProdTypeStr = \"Communications Adapter\";\n",
        ),
        GENERIC_DEVICE => push_text(out, "        ProdTypeStr = \"Generic Device (keyable)\";\n"),
        _ => Ok(write!(
            out,
            "        ProdTypeStr = \"Device type {device_type}\";\n"
        )?),
    }
}

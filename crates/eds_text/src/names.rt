//! The names in a data sheet.

ghost use Rattle.std.specs.Prelude.{◌≡◌};
ghost use Rattle.std.specs.List.{list_all};
ghost use Rattle.eds_text.specs.Names.{described_name, given_name, is_name, is_name_byte, is_name_len, sheet_names, shown_names};

use adapter_table::Description;
use std::str;

/// A name has at most so many bytes.
const MOST_NAME_BYTES: usize = 32;

/// The names of a data sheet, which a profile has not. A name that is left out is made of a number of the profile.
#[derive(Clone, Copy)]
pub struct SheetNames<'a> {
    /// The name of the vendor.
    pub vendor: Option<&'a str>,
    /// The name of the product.
    pub product: Option<&'a str>,
    /// The catalog number.
    pub catalog: Option<&'a str>,
}

/// Whether a text can be a name in a data sheet: 1 to 32 printable characters of ASCII, without quote and backslash.
///
/// Volume 1, chapter 7, electronic data sheets: character strings.
#[tactic(auto, unfolding(crate::specs::Names::is_name))]
pub fn is_name(text: &str) -> bool
    ensures { result ≡ is_name text.now }
{
    are_name(text.as_bytes())
}

/// Whether bytes can be a name.
#[tactic(auto, unfolding(crate::specs::Names::is_name))]
fn are_name(bytes: &[u8]) -> bool
    ensures { result ≡ is_name bytes.now }
{
    is_name_len(bytes.len()) && are_name_bytes(bytes)
}

/// The name of a device's description, if it can be one in a data sheet.
fn described_name(description: &Option<Description>) -> Option<&str>
    ensures { given_name result ≡ described_name description.now }
{
    let Some(description) = description else {
        return None;
    };
    let name = description.name.as_slice();
    if !are_name(name) {
        return None;
    }
    Some(unsafe { str::from_utf8_unchecked(name) })
}

/// The names in the data sheet of a device with this description: it names the product if no other name is given.
pub(crate) fn sheet_names<'a>(
    names: &SheetNames<'a>,
    description: &'a Option<Description>,
) -> SheetNames<'a>
    ensures { shown_names result ≡ sheet_names (shown_names names.now) description.now }
{
    let product = match names.product {
        Some(given) => Some(given),
        None => described_name(description),
    };
    SheetNames {
        vendor: names.vendor,
        product,
        catalog: names.catalog,
    }
}

/// Whether all bytes can be in a name.
fn are_name_bytes(bytes: &[u8]) -> bool
    ensures { result ≡ list_all is_name_byte bytes.now }
{
    bytes.iter().all(|byte| is_name_byte(*byte))
}

/// Whether a name can have so many bytes.
fn is_name_len(len: usize) -> bool
    ensures { result ≡ is_name_len len }
{
    1 <= len && len <= MOST_NAME_BYTES
}

/// Whether a byte can be in a name.
#[tactic(auto, unfolding(crate::specs::Names::is_name_byte))]
fn is_name_byte(byte: u8) -> bool
    ensures { result ≡ is_name_byte byte }
{
    byte >= b' ' && byte <= b'~' && byte != b'"' && byte != b'\\'
}

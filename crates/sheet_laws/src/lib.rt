//! Laws of data sheets: what a sheet says of an adapter is what the adapter does. A law is a function whose contract states it.
#![tactic(auto)]

mod offers;

pub use offers::fresh_devices_admit_what_a_sheet_offers;

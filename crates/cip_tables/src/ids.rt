//! The connection ids of a device of either kind, and of its next life.

ghost use Rattle.std.specs.Prelude.{◌≡◌, true};
ghost use Rattle.cip_types.specs.Ids.{is_block};
ghost use Rattle.cip_tables.specs.Ids.{next_ids, stated_ids, with_ids};
ghost use Rattle.cip_tables.specs.Whole.{IsWholeDevice, ids_of, next_id_of};

use crate::table::{Config, DeviceTable};
use cip_types::{IdBlock, ids_behind, ids_left};

impl Config {
    /// The block of connection ids that the configuration states. Takes no memory.
    pub fn stated_ids(&self) -> Option<IdBlock>
        ensures { result ≡ stated_ids self.now }
    {
        match self {
            Config::Adapter(profile) => profile.ids,
            Config::Scanner(profile) => profile.ids,
        }
    }

    /// The configuration with this block of connection ids in place of its own. Takes no memory.
    pub fn with_ids(self, ids: Option<IdBlock>) -> Config
        ensures { result ≡ with_ids ids self }
    {
        match self {
            Config::Adapter(mut profile) => {
                profile.ids = ids;
                Config::Adapter(profile)
            }
            Config::Scanner(mut profile) => {
                profile.ids = ids;
                Config::Scanner(profile)
            }
        }
    }
}

impl DeviceTable {
    /// The blocks of connection ids. Takes no memory.
    pub fn ids(&self) -> &[IdBlock]
        ensures { result.now ≡ ids_of self.now }
    {
        match self {
            DeviceTable::Adapter(table) => table.ids.as_slice(),
            DeviceTable::Scanner(table) => table.ids.as_slice(),
        }
    }

    /// The number of the next connection id. Takes no memory.
    pub fn next_id(&self) -> u32
        ensures { result ≡ next_id_of self.now }
    {
        match self {
            DeviceTable::Adapter(table) => table.next_id,
            DeviceTable::Scanner(table) => table.next_id,
        }
    }

    /// The connection ids of the next life of the device, which has none in common with this one: what is left of the last block.
    /// Takes no memory.
    pub fn next_ids(&self) -> IdBlock
        requires { IsWholeDevice self.now }
        ensures value { result ≡ next_ids self.now }
        ensures block { is_block result ≡ true }
    {
        let left = ids_left(self.ids(), self.next_id());
        match self.ids().last() {
            Some(block) => ids_behind(*block, left),
            None => IdBlock { first: 1, count: 0 },
        }
    }
}

//! The configurations of lives.

ghost use Rattle.std.specs.Prelude.{◌≡◌, ◌&&◌, IfOk, is_none};
ghost use Rattle.cip_tables.specs.Ids.{stated_ids};
ghost use Rattle.segment_world.specs.Lives.Plants.{first_lives};
ghost use Rattle.segment_world.specs.Lives.Restarts.{is_used, with_incarnation};

use crate::{DeviceKey, has_key};
use cip_tables::Config;
use cip_types::OutOfMemory;
use std::alloc::Global;

/// Returns whether a life has the incarnation of the next life of this configuration, which states no connection ids. Takes no
/// memory.
pub fn is_taken(incarnation: u8, config: &Config, configs: &[Config]) -> bool
    ensures { result ≡ (is_none (stated_ids config.now) && is_used incarnation configs.now) }
{
    config.stated_ids().is_none() && is_used(incarnation, configs)
}

/// Returns whether a life has an incarnation. Takes no memory.
fn is_used(incarnation: u8, configs: &[Config]) -> bool
    ensures { result ≡ is_used incarnation configs.now }
{
    has_key(DeviceKey::Incarnation, configs, u32::from(incarnation))
}

/// Returns the configuration with this incarnation in place of its own. Takes no memory.
pub fn with_incarnation(incarnation: u8, config: Config) -> Config
    ensures { result ≡ with_incarnation incarnation config }
{
    match config {
        Config::Adapter(mut profile) => {
            profile.incarnation = incarnation;
            Config::Adapter(profile)
        }
        Config::Scanner(mut profile) => {
            profile.incarnation = incarnation;
            Config::Scanner(profile)
        }
    }
}

/// Copies configurations, in order. `OutOfMemory` is the only error.
pub fn copies(alloc: Global, configs: &[Config]) -> Result<Vec<Config>, OutOfMemory>
    ensures { IfOk result (λ copies. copies.items ≡ configs.now) }
{
    let mut copies = Vec::new(alloc);
    for config in configs {
        copies.push(config.copy(alloc)?)?;
    }
    Ok(copies)
}

/// Returns the first life of each device, in order. `OutOfMemory` is the only error.
pub fn first_lives(alloc: Global, configs: &[Config]) -> Result<Vec<u32>, OutOfMemory>
    ensures { IfOk result (λ lives. lives.items ≡ first_lives 0 configs.now) }
{
    let mut lives = Vec::new(alloc);
    for (life, _) in configs.iter().enumerate() {
        lives.push(number_of(life)?)?;
    }
    Ok(lives)
}

/// Returns the number of a life in 32 bits. `OutOfMemory` is the only error: there are never so many lives.
pub fn number_of(life: usize) -> Result<u32, OutOfMemory>
    ensures { IfOk result (λ number. number ≡ life) }
{
    match u32::try_from(life) {
        Ok(number) => Ok(number),
        Err(_) => Err(OutOfMemory),
    }
}

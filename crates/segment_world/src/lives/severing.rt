//! The streams of a life that ends.

ghost use Rattle.std.specs.Prelude.{◌≡◌, ◌≤◌, ◌==◌, ◌&&◌, ◌||◌, not, length};
ghost use Rattle.segment_world.specs.Transit.Streams.{with_stream};
ghost use Rattle.segment_world.specs.World.{most_stream_numbers};
ghost use Rattle.segment_world.specs.Lives.Restarts.{severed, severed_world};

use crate::{Act, Endpoints, World};
use cip_tables::Device;

/// Cuts each open stream that has an end at the life. Takes no memory.
pub fn sever<D: Device>(world: &mut World<D>, life: u32)
    requires { length world.old.streams ≤ most_stream_numbers }
    ensures { world.new ≡ severed_world life world.old }
{
    for number in 0..world.stream_count() {
        sever_at(world, life, number as u16);
    }
}

fn is_open_at(life: u32, ends: Endpoints) -> bool
    ensures { result ≡ (not ends.ended && (ends.from == life || ends.to == life)) }
{
    !ends.ended && (ends.from == life || ends.to == life)
}

/// Cuts the stream of this number, if it is open at the life.
fn sever_at<D: Device>(world: &mut World<D>, life: u32, number: u16)
    ensures { world.new ≡ record world.old { streams = with_stream (severed life) number world.old.streams } }
{
    let Some(ends) = world.endpoints(number) else {
        return;
    };
    if !is_open_at(life, ends) {
        return;
    }
    let _cut = world.act(&Act::CutStream { stream: number });
}

//! An adapter and a scanner on 127.0.0.1 that talk over sockets.

mod fault;
mod line;
mod loop_device;
mod profiles;

pub use fault::LoopFault;
pub use line::{LoopLine, SocketLine, run_loop};
pub use loop_device::LoopDevice;
pub use profiles::{adapter, scanner};

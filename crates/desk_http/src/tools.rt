//! What connections are served with.

use base_words::NoMemory;
use desk_routes::DeskRouter;
use http_wire::Wire;
use std::alloc::Global;

/// What serves one connection after another: the buffers of a wire, and the router of the desk's paths.
#[derive(Drop)]
pub struct Tools {
    pub(crate) wire: Wire,
    pub(crate) router: DeskRouter,
}

impl Tools {
    /// The tools. They take all their memory here.
    pub fn new(alloc: Global) -> Result<Tools, NoMemory> {
        Ok(Tools {
            wire: Wire::new(alloc)?,
            router: DeskRouter::new(alloc)?,
        })
    }
}

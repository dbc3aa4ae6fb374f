//! Folders: what is kept of each.

ghost use Rattle.std.specs.Prelude.{◌≡◌};

use crate::path_map::PathMap;
use containers::Bytes;
use shelves::Shelf;
use std::alloc::AllocError;

/// Where a folder stands: its name in the one above, and how many are above that.
#[derive(Drop)]
pub struct Standing {
    pub above: u32,
    pub depth: u32,
    pub name: Bytes,
}

/// Folders by number. Each name leads on from the folder that it is in; below `full_below` no number is vacant.
#[derive(Drop)]
pub struct Folders {
    pub children: Shelf<PathMap>,
    pub standings: Shelf<Standing>,
    pub full_below: u32,
}

impl Clone for Standing {
    ghost is_clone = { λ a b. b ≡ a };

    fn clone(&self) -> Result<Self, AllocError> {
        Ok(Standing {
            above: self.above,
            depth: self.depth,
            name: self.name.clone()?,
        })
    }
}

impl Clone for Folders {
    ghost is_clone = { λ a b. b ≡ a };

    fn clone(&self) -> Result<Self, AllocError> {
        Ok(Folders {
            children: self.children.clone()?,
            standings: self.standings.clone()?,
            full_below: self.full_below,
        })
    }
}

//! Worlds by their words.

ghost use Rattle.std.specs.Prelude.{◌≡◌, Some};
ghost use Rattle.sweep_words.specs.Worlds.{world_in as named_world};

use sweep_rows::World;

/// A world by its word.
#[tactic(auto, unfolding(crate::specs::Worlds::world_in))]
pub fn world_in(text: &str) -> Option<World>
    ensures { result ≡ named_world text.now }
{
    if text == "full" {
        return Some(World::Full);
    }
    if text == "broken" {
        return Some(World::Broken);
    }
    if text == "read-only" {
        return Some(World::ReadOnly);
    }
    if text == "no-files" {
        return Some(World::NoFiles);
    }
    if text == "no-memory" {
        return Some(World::NoMemory);
    }
    None
}

/// A world's word.
#[tactic(auto, unfolding(crate::specs::Worlds::world_in))]
pub fn world_word(world: World) -> &'static str
    ensures { named_world result.now ≡ Some world }
{
    match world {
        World::Full => "full",
        World::Broken => "broken",
        World::ReadOnly => "read-only",
        World::NoFiles => "no-files",
        World::NoMemory => "no-memory",
    }
}

/// What a reader is told of a world.
pub fn world_text(world: World) -> &'static str {
    match world {
        World::Full => "the disk is full",
        World::Broken => "the disk is broken",
        World::ReadOnly => "the disk can only be read",
        World::NoFiles => "there are no more descriptors",
        World::NoMemory => "there is no more memory",
    }
}

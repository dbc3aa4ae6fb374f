//! The file tree: what stands at each path, and what a text of a path names.
#![tactic(auto)]

pub mod boots;
pub mod cache;
pub mod counts;
mod flat;
pub mod folder;
pub mod folders;
pub mod known;
mod listing;
pub mod name_tree;
pub mod names;
pub mod nodes;
pub mod path_map;
pub mod places;
mod pruning;
mod reaching;
pub mod tree;

pub use boots::plant;
pub use counts::Counts;
pub use names::Names;
pub use nodes::Nodes;
pub use path_map::PathMap;
pub use places::Place;
pub use tree::Tree;

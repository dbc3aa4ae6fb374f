//! Folders that are taken away.

ghost use Rattle.std.specs.Prelude.{◌≡◌, ℕ, List, None};
ghost use Rattle.std.specs.FinMap as maps;
ghost use Rattle.lx_files.specs.Folders.{child as child_in, IsTree, HasLess, KeepsBeside, StaysBeside};

use crate::flat::any_child;
use crate::folder::Folders;
use crate::path_map::PathMap;
use shelves::Shelf;

/// A name leads nowhere from now on.
fn take_name(children: &mut Shelf<PathMap>, folder: u32, name: &[u8])
    ensures { HasLess children.old children.new folder name.now }
{
    if let Some(names) = children.get_mut(folder) {
        names.remove(name);
    }
}

/// No names stand in a folder from now on, where none leads on.
fn end(children: &mut Shelf<PathMap>, folder: u32)
    requires { (q : List ℕ) → child_in children.old folder q ≡ None }
    ensures { (a : ℕ) (q : List ℕ) → child_in children.new a q ≡ child_in children.old a q }
{
    children.remove(folder);
}

/// A folder goes from which no name leads on.
fn take_away(folders: &mut Folders, folder: u32)
    requires tree { IsTree folders.old.children folders.old.standings folders.old.full_below }
    requires empty { (q : List ℕ) → child_in folders.old.children folder q ≡ None }
    ensures tree { IsTree folders.new.children folders.new.standings folders.new.full_below }
    ensures keeps { KeepsBeside folder folders.old.standings folders.new.standings }
    ensures stays { StaysBeside folder folders.old.children folders.new.children }
{
    match folders.standings.remove(folder) {
        None => {}
        Some(standing) => {
            end(&mut folders.children, folder);
            take_name(
                &mut folders.children,
                standing.above,
                standing.name.as_slice(),
            );
            folders.full_below = folders.full_below.min(folder);
        }
    }
}

/// A folder goes, if no name leads on from it.
pub fn prune(folders: &mut Folders, folder: u32)
    requires { IsTree folders.old.children folders.old.standings folders.old.full_below }
    ensures tree { IsTree folders.new.children folders.new.standings folders.new.full_below }
    ensures keeps { KeepsBeside folder folders.old.standings folders.new.standings }
    ensures stays { StaysBeside folder folders.old.children folders.new.children }
{
    match any_child(folders, folder) {
        Some(_) => {}
        None => take_away(folders, folder),
    }
}

//! Files and their paths are within the limits.

ghost use Rattle.std.specs.Prelude.{◌≡◌, ◌<◌, ◌≤◌, ◌==◌, ◌&&◌, true, nat_eq, nat_le, nat_lt, fold, length, map, max, slice_index, take, IfSome};
ghost use Rattle.std.specs.List.{list_all, slice_split, sum_by, common_prefix_len};
ghost use Rattle.lx_abi.specs.Limits.{most_contents, most_nodes};
ghost use Rattle.lx_boot.specs.Limits.{name_fits as name_fits_of, path_fits as path_fits_of, file_fits as file_fits_of, content_size, new_directories as new_directories_of, nodes, files_fit as files_fit_of};
ghost use Rattle.lx_boot.specs.Neighbours.{AreOrdered, first_nodes as first_nodes_of};

use lx_abi::GuestFile;
use lx_abi::limits::{LARGEST_FILE, LONGEST_NAME, LONGEST_PATH, MOST_CONTENTS, MOST_NODES};

fn name_fits(name: &[u8]) -> bool
    ensures { result ≡ name_fits_of name.now }
{
    name.len() <= LONGEST_NAME
}

pub fn names_fit(path: &[u8]) -> bool
    ensures { result ≡ list_all name_fits_of (slice_split (λ c. c == 47) path.now) }
{
    path.split(|b| *b == b'/').all(|name| name_fits(name))
}

#[tactic(auto, unfolding(crate::specs::Limits::path_fits))]
fn path_fits(path: &[u8]) -> bool
    ensures { result ≡ path_fits_of path.now }
{
    path.len() <= LONGEST_PATH && names_fit(path)
}

fn file_fits(file: &GuestFile) -> bool
    ensures { result ≡ file_fits_of file.now }
{
    path_fits(file.path.as_slice()) && file.content.len() as u64 <= LARGEST_FILE
}

/// What all files hold is not too much.
fn contents_fit(files: &[GuestFile]) -> bool
    ensures { result ≡ nat_le (sum_by content_size files.now) most_contents }
{
    let mut left = MOST_CONTENTS;
    for file in files {
        match left.checked_sub(file.content.len() as u64) {
            None => return false,
            Some(less) => left = less,
        }
    }
    true
}

/// How many bytes two paths begin with alike.
pub fn common_length(path: &[u8], other: &[u8]) -> usize
    ensures { result ≡ common_prefix_len nat_eq path.now other.now }
{
    for i in 0..path.len().min(other.len()) {
        if path[i] != other[i] {
            return i;
        }
    }
    path.len().min(other.len())
}

/// How many bytes the path and one of the files' begin with alike, at most.
fn longest_common(path: &[u8], files: &[GuestFile]) -> usize
    ensures { result ≡ fold (λ n f. max n (common_prefix_len nat_eq path.now f.path)) 0 files.now }
{
    let mut longest = 0;
    for file in files {
        longest = longest.max(common_length(path, file.path.as_slice()));
    }
    longest
}

/// A directory above the path ends at this place, behind what is known of the path.
fn ends_new_directory(path: &[u8], known: usize, i: usize) -> bool
    requires { i < length path.now }
    ensures { result ≡ (nat_lt 0 i && (slice_index path.now i == 47) && nat_le known i) }
{
    i > 0 && path[i] == b'/' && i >= known
}

/// How many directories above a path none of the files lies in: those that end behind what it has in common with any.
fn new_directories(path: &[u8], files: &[GuestFile]) -> usize
    ensures counted { result ≡ new_directories_of files.now path.now (length path.now) }
    ensures few { result ≤ length path.now }
{
    let known = longest_common(path, files);
    let mut count = 0;
    for i in 0..path.len() {
        count += usize::from(ends_new_directory(path, known, i));
    }
    count
}

/// How many directories above a path the next file, if there is one, doesn't lie in.
fn new_beside(path: &[u8], rest: &[&GuestFile]) -> usize
    ensures counted { result ≡ new_directories_of (take 1 (map (λ f. f.now) rest.now)) path.now (length path.now) }
    ensures few { result ≤ length path.now }
{
    match rest.first() {
        None => new_directories(path, &[]),
        Some(next) => new_directories(path, std::slice::from_ref(*next)),
    }
}

/// How many nodes the first file makes: itself, and the directories above it in which the next doesn't lie.
#[tactic(auto, unfolding(crate::specs::Neighbours::first_nodes))]
fn first_nodes(files: &[&GuestFile]) -> usize
    ensures { result ≡ first_nodes_of (map (λ f. f.now) files.now) }
{
    match files.split_first() {
        None => 0,
        Some((file, rest)) => 1 + new_beside(file.path.as_slice(), rest),
    }
}

/// The files and their directories are not too many. In an order of their paths each is compared with the next alone:
/// no other behind it begins with more of its path.
pub fn ordered_nodes_fit(files: &[&GuestFile]) -> bool
    requires { AreOrdered true (map (λ f. f.now) files.now) }
    ensures { result ≡ nat_le (nodes (map (λ f. f.now) files.now)) most_nodes }
{
    if files.len() >= MOST_NODES {
        return false;
    }
    let mut room = MOST_NODES - 1;
    for i in 0..files.len() {
        match room.checked_sub(first_nodes(&files[i..])) {
            None => return false,
            Some(less) => room = less,
        }
    }
    true
}

/// The same of files in any order, each compared with all behind it: the time goes with the square of their number.
fn nodes_fit(files: &[GuestFile]) -> bool
    ensures { result ≡ nat_le (nodes files.now) most_nodes }
{
    if files.len() >= MOST_NODES {
        return false;
    }
    let mut left = MOST_NODES - 1;
    let mut uncounted = files;
    while let Some((file, rest)) = uncounted.split_first() {
        let new = 1 + new_directories(file.path.as_slice(), rest);
        match left.checked_sub(new) {
            None => return false,
            Some(less) => left = less,
        }
        uncounted = rest;
    }
    true
}

/// The files and their directories are not too many. Where nothing is told, each is compared with each.
fn are_few(files: &[GuestFile], told: Option<bool>) -> bool
    requires { IfSome told (λ b. b ≡ nat_le (nodes files.now) most_nodes) }
    ensures { result ≡ nat_le (nodes files.now) most_nodes }
{
    match told {
        Some(answer) => answer,
        None => nodes_fit(files),
    }
}

fn each_fits(files: &[GuestFile]) -> bool
    ensures { result ≡ list_all file_fits_of files.now }
{
    files.iter().all(|file| file_fits(file))
}

/// Each file, what all of them hold, and how many nodes they make, of which something may be told.
pub fn files_fit(files: &[GuestFile], few: Option<bool>) -> bool
    requires { IfSome few (λ b. b ≡ nat_le (nodes files.now) most_nodes) }
    ensures { result ≡ files_fit_of files.now }
{
    each_fits(files) && contents_fit(files) && are_few(files, few)
}

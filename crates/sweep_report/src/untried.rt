//! What of a sweep isn't made: how many calls its sites have, and how many runs are left.

use crate::told::Told;
use std::alloc::{AllocError, Global};

/// How many calls a site has.
#[derive(Drop)]
pub struct SiteCalls {
    pub site: String,
    pub calls: usize,
}

/// What a sweep would have made.
#[derive(Drop)]
pub struct Untried {
    pub sites: Vec<SiteCalls>,
    /// So many runs aren't made.
    pub runs: usize,
}

impl Untried {
    /// The text behind the occurrences of a site's calls, of which so many are tried.
    pub(crate) fn text(
        &self,
        alloc: Global,
        told: &Told,
        tried: usize,
    ) -> Result<String, AllocError> {
        let site = told.site.as_str();
        match self.sites.iter().find(|one| one.site.as_str() == site) {
            Some(one) if one.calls > tried => format!(in alloc; " of {}", one.calls),
            Some(_) | None => Ok(String::new(alloc)),
        }
    }
}

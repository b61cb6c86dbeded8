//! Where the locks on each name stand.

use crate::bucket::Bucket;
use crate::place::Place;
use std::collections::HashMap;

/// Where the locks on each name stand: those on keys by the digest of the key, and those on the name past the last key. A digest
/// stands in the map only while somebody holds a key of it. No name stands here: it is read where its lock stands.
#[derive(Drop)]
pub struct NameIndex {
    pub keys: HashMap<u64, Bucket>,
    pub end: Vec<Place>,
}

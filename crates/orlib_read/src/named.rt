//! An instance, as it is read.

use shop_base::{Shop, Step};

/// An instance of a job shop, with the bytes of its description line as they are in the text.
#[derive(Debug, Drop)]
pub struct Named {
    pub description: Vec<u8>,
    pub shop: Shop,
}

/// What a size line says: how many jobs and machines there are, and whether a job may visit a machine again.
#[derive(Clone, Copy)]
pub(crate) struct Sizes {
    pub jobs: u32,
    pub machines: u32,
    pub recirculates: bool,
}

/// What comes before the job lines.
#[derive(Clone, Copy)]
pub(crate) struct Head<'a> {
    pub description: &'a [u8],
    pub sizes: Sizes,
}

/// What an instance says, before its numbers are known to make a shop.
#[derive(Drop)]
pub(crate) struct Draft<'a> {
    pub description: &'a [u8],
    pub machines: u32,
    pub recirculates: bool,
    pub routes: Vec<Vec<Step>>,
}

//! Where things stand in a list, found by their fingerprints.
use std::alloc::{AllocError, Allocator};

/// How many classes of fingerprints there are at first.
const FIRST_CLASSES: usize = 64;

/// Where things stand in a list, found by their fingerprints. A class of fingerprints is a chain from its last thing to its first.
#[derive(Drop)]
pub(crate) struct Places<A: Allocator> {
    lasts: Vec<Option<usize>, A>,
    links: Vec<ChainLink, A>,
}

/// What is noted of a thing.
#[derive(Clone, Copy)]
pub(crate) struct ChainLink {
    /// Its fingerprint.
    pub(crate) fingerprint: u64,
    /// The place of the one before it in its class.
    pub(crate) before: Option<usize>,
}

impl<A: Allocator + Copy> Places<A> {
    /// Those of an empty list.
    pub(crate) fn new(alloc: A) -> Result<Self, AllocError> {
        Ok(Places {
            lasts: no_lasts(alloc, FIRST_CLASSES)?,
            links: Vec::new(alloc),
        })
    }

    /// Notes the fingerprint of the thing that stands behind all others.
    pub(crate) fn add(&mut self, alloc: A, fingerprint: u64) -> Result<(), AllocError> {
        if self.links.len() >= self.lasts.len() {
            self.spread(alloc)?;
        }
        let place = self.links.len();
        let before = chain(&mut self.lasts, fingerprint, place);
        self.links.push(ChainLink {
            fingerprint,
            before,
        })?;
        Ok(())
    }

    // Makes twice as many classes.
    fn spread(&mut self, alloc: A) -> Result<(), AllocError> {
        let count = self.lasts.len().saturating_mul(2);
        let mut lasts = no_lasts(alloc, count)?;
        for (place, link) in self.links.iter_mut().enumerate() {
            link.before = chain(&mut lasts, link.fingerprint, place);
        }
        self.lasts = lasts;
        Ok(())
    }
}

impl<A: Allocator> Places<A> {
    /// What is noted of the thing at this place.
    pub(crate) fn link(&self, place: usize) -> Option<ChainLink> {
        self.links.get(place).copied()
    }

    /// The place of the last thing in the class of the fingerprint.
    pub(crate) fn last(&self, fingerprint: u64) -> Option<usize> {
        let class = class_of(fingerprint, self.lasts.len())?;
        match self.lasts.get(class) {
            Some(last) => *last,
            None => None,
        }
    }
}

// So many classes with nothing in them.
fn no_lasts<A: Allocator>(alloc: A, count: usize) -> Result<Vec<Option<usize>, A>, AllocError> {
    vec![in alloc; None; count]
}

// The class of a fingerprint, of so many.
fn class_of(fingerprint: u64, count: usize) -> Option<usize> {
    if count == 0 {
        return None;
    }
    Some((fingerprint % count as u64) as usize)
}

// Puts the thing at this place before the last of its class, whose place is handed out.
fn chain(lasts: &mut [Option<usize>], fingerprint: u64, place: usize) -> Option<usize> {
    let class = class_of(fingerprint, lasts.len())?;
    let last = lasts.get_mut(class)?;
    let before = *last;
    *last = Some(place);
    before
}

//! The workers of a service before their threads are started.

use crate::lookout::Lookout;
use crate::post::Post;
use crate::terms::Terms;
use crate::worker::Worker;
use mio::Poll;
use std::alloc::{AllocError, Global};
use std::net::Net;
use std::sync::Arc;

/// Workers that are not yet started, and at the same places what the accepting thread has of each.
#[derive(Drop)]
pub(crate) struct Staff {
    pub(crate) workers: Vec<Worker>,
    pub(crate) posts: Vec<Post>,
}

impl Staff {
    fn with_room(alloc: Global, count: usize) -> Result<Staff, AllocError> {
        Ok(Staff {
            workers: Vec::with_capacity(alloc, count)?,
            posts: Vec::with_capacity(alloc, count)?,
        })
    }

    // One worker more, if there is memory for it, and descriptors.
    fn add<R: Net, W>(
        &mut self,
        rt: &R,
        terms: &Terms<W>,
        lookout: &Arc<Lookout>,
    ) -> Result<bool, AllocError> {
        match Worker::new(rt, terms, lookout) {
            Some((worker, post)) => {
                self.workers.push(worker)?;
                self.posts.push(post)?;
                Ok(true)
            }
            None => Ok(false),
        }
    }

    /// This many, or as many as there is memory for, and descriptors. For each worker a descriptor more is held until all are
    /// hired, so that connections find as many.
    pub(crate) fn hire<R: Net, W>(
        rt: &R,
        terms: &Terms<W>,
        count: usize,
    ) -> Result<Staff, AllocError> {
        let mut staff = Staff::with_room(terms.alloc, count)?;
        let lookout = Arc::new(terms.alloc, Lookout::new())?;
        let mut held = Vec::with_capacity(terms.alloc, count)?;
        for _ in 0..count {
            let Ok(one) = Poll::new(rt) else {
                break;
            };
            held.push(one)?;
            if !staff.add(rt, terms, &lookout)? {
                break;
            }
        }
        Ok(staff)
    }
}

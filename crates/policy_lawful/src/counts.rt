//! How often indexes were met.
ghost use Rattle.std.specs.Prelude.{◌≡◌, ◌==◌, length, slice_index, if◌then◌else◌, replicate, IfOk};
ghost use Rattle.policy_lawful.specs.Counts.{Adds, times_among};

use std::alloc::{AllocError, Global};
use std::marker::Model;

/// How often each of so many indexes was met; counts of 2 and more are alike. Contracts see the list
/// of them.
#[derive(Drop)]
pub struct Counts {
    times: Vec<u8>,
}

impl Model for Counts {
    ghost use Rattle.std.specs.Prelude.{List, ℕ};

    ghost Value = { List ℕ };

    ghost view = { λ c. c.times.items };
}

// Counts this index on, if it is one of these.
fn count_index(index: usize, times: &mut [u8])
    ensures { Adds times.old times.new (λ k. if index == k then 1 else 0) }
{
    if index < times.len() {
        times[index] = times[index].saturating_add(1);
    }
}

// Counts each index on by how often it stands here.
fn count_indexes(indexes: &[usize], times: &mut [u8])
    ensures { Adds times.old times.new (times_among indexes.now) }
{
    for index in indexes {
        count_index(*index, times);
    }
}

impl Counts {
    /// So many indexes, none of which was met.
    ///
    /// Answers an error where memory was refused.
    pub fn zeros(alloc: Global, count: usize) -> Result<Counts, AllocError>
        ensures { IfOk result (λ c. c ≡ replicate count 0) }
    {
        let times = vec![in alloc; 0u8; count]?;
        Ok(Counts { times })
    }

    /// Counts each index on by how often it stands here.
    pub fn count(&mut self, indexes: &[usize])
        ensures room { length self.new ≡ length self.old }
        ensures adds { Adds self.old self.new (times_among indexes.now) }
    {
        count_indexes(indexes, &mut self.times);
    }

    /// How often an index was met; 0 where it is none of these.
    pub fn times(&self, index: usize) -> u8
        ensures { result ≡ slice_index self.now index }
    {
        self.times.get(index).copied().unwrap_or(0)
    }
}

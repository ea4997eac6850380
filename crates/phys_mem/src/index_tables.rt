//! Indexes by numbers, through two tables.
ghost use Rattle.std.specs.Prelude.{◌≡◌, ◌^◌, ◌<◌, ◌==◌, if◌then◌else◌, ℕ, None, Some, length, slice_index_or, OnOk, IfOk};
ghost use Rattle.std.specs.List.{All};
ghost use Rattle.phys_mem.specs.IndexTables.{AreTables, IsTableAdded, Tells, index_told};

use muen_num::NoMemory;
use std::alloc::Global;

/// How many entries a lower table has.
const LOWER: u64 = 16384;

/// How many entries the upper table has.
const UPPER: usize = 16384;

/// For each upper part of a number where its lower table begins, and there for each lower part the
/// index of the number. All lower tables are parts of one.
#[derive(Debug, Drop)]
pub struct IndexTables {
    upper: Vec<Option<usize>>,
    lower: Vec<Option<usize>>,
    ghost tables: { AreTables upper.items lower.items },
}

// So many entries with no index.
fn no_indexes(alloc: Global, count: usize) -> Result<Vec<Option<usize>>, NoMemory>
    ensures long { IfOk result (λ v. length v.items ≡ count) }
    ensures none { IfOk result (λ v. (i : ℕ) → slice_index_or v.items i None ≡ None) }
{
    let mut indexes = Vec::new(alloc);
    indexes.resize(count, None)?;
    Ok(indexes)
}

impl IndexTables {
    // The index of a number.
    pub(crate) fn find(&self, number: u64) -> Option<usize>
        ensures { result ≡ index_told self.now.upper.items self.now.lower.items number }
    {
        let high = number / LOWER;
        if high >= UPPER as u64 {
            return None;
        }
        match self.upper[high as usize] {
            None => None,
            Some(base) => self.lower[base + (number % LOWER) as usize],
        }
    }

    // No number has an index.
    fn new(alloc: Global) -> Result<IndexTables, NoMemory>
        ensures { IfOk result (λ t. (k : ℕ) → index_told t.upper.items t.lower.items k ≡ None) }
    {
        let upper = no_indexes(alloc, UPPER)?;
        let lower = Vec::new(alloc);
        Ok(IndexTables { upper, lower })
    }

    // Where the lower table of an upper part begins, made where there is none yet.
    fn table_for(&mut self, high: usize) -> Result<usize, NoMemory>
        requires { high < 16384 }
        ensures { IfOk result (λ base. IsTableAdded self.old.upper.items self.old.lower.items self.new.upper.items self.new.lower.items high base) }
    {
        if let Some(base) = self.upper[high] {
            return Ok(base);
        }
        let base = self.lower.len();
        self.lower.resize(base + LOWER as usize, None)?;
        self.upper[high] = Some(base);
        Ok(base)
    }

    // Puts in the index of a number.
    fn enter(&mut self, number: u64, index: usize) -> Result<(), NoMemory>
        requires { number < 2 ^ 28 }
        ensures { OnOk result ((k : ℕ) → index_told self.new.upper.items self.new.lower.items k
            ≡ (if k == number then Some index else index_told self.old.upper.items self.old.lower.items k)) }
    {
        let base = self.table_for((number / LOWER) as usize)?;
        self.lower[base + (number % LOWER) as usize] = Some(index);
        Ok(())
    }

    // The first index of each of these numbers.
    pub(crate) fn of(alloc: Global, numbers: &[u64]) -> Result<IndexTables, NoMemory>
        requires { All (λ n. n < 2 ^ 28) numbers.now }
        ensures { IfOk result (λ t. Tells t.upper.items t.lower.items numbers.now) }
    {
        let mut tables = IndexTables::new(alloc)?;
        for (i, number) in numbers.iter().enumerate() {
            if tables.find(*number).is_none() {
                tables.enter(*number, i)?;
            }
        }
        Ok(tables)
    }
}

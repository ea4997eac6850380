//! Which tables were entered.
ghost use Rattle.std.specs.Prelude.{◌≡◌};
ghost use Rattle.phys_mem.specs.Frames.{IsRising};
ghost use Rattle.muen_num.specs.Numbers.{is_among};

use muen_num::NoMemory;
use phys_mem::index_of;
use std::alloc::Global;

/// What came of entering a table.
#[derive(Clone, Copy)]
pub(crate) enum Entering {
    /// The page isn't declared to be a table.
    Outside,
    /// It was entered before.
    Again,
    /// It is entered now.
    Now,
}

/// Which of the tables were entered.
#[derive(Drop)]
pub(crate) struct Looked {
    /// Of each table, by its index.
    pub(crate) entered: Vec<bool>,
}

/// Whether the page is declared to be a table.
pub(crate) fn is_table(pages: &[u64], page: u64) -> bool
    requires { IsRising pages.now }
    ensures { result ≡ is_among pages.now page }
{
    index_of(pages, page).is_some()
}

impl Looked {
    ghost use Rattle.std.specs.Prelude.{◌≡◌, ℕ, List, false, length, vec_len, IfOk};
    ghost use Rattle.phys_mem.specs.Frames.{IsRising};
    ghost use Rattle.ept_check.specs.Looked.{Enters, is_entered, left};

    /// None of so many tables was entered.
    ///
    /// # Errors
    /// Memory is refused.
    pub(crate) fn none(alloc: Global, tables: usize) -> Result<Looked, NoMemory>
        ensures long { IfOk result (λ l. vec_len l.entered ≡ tables) }
        ensures none { IfOk result (λ l. (pages : List ℕ) (t : ℕ) → is_entered pages l t ≡ false) }
        ensures left { IfOk result (λ l. left l ≡ tables) }
    {
        let entered = vec![in alloc; false; tables]?;
        Ok(Looked { entered })
    }

    /// Enters the table in a page, where it is one of these and wasn't entered before.
    pub(crate) fn enter(&mut self, pages: &[u64], page: u64) -> Entering
        requires rising { IsRising pages.now }
        requires long { vec_len self.old.entered ≡ length pages.now }
        ensures enters { Enters pages.now self.old self.new page result }
        ensures long { vec_len self.new.entered ≡ length pages.now }
    {
        let Some(i) = index_of(pages, page) else {
            return Entering::Outside;
        };
        if self.entered[i] {
            return Entering::Again;
        }
        self.entered[i] = true;
        Entering::Now
    }
}

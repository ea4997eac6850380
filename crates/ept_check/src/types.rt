//! Tables with what they are held against, and their faults.
use ept_emit::Window;
use muen_num::Seq;

/// The tables of a subject, and where they have to lead.
#[derive(Debug, Drop)]
pub struct SubjectTables {
    /// Its extended-page-table pointer.
    pub eptp: u64,
    /// Its windows, by guest address.
    pub windows: Seq<Window>,
}

/// What is wrong with tables at a guest page, in the order of the tests.
#[derive(Clone, Copy, Debug)]
pub enum FaultKind {
    /// The walk reads an entry outside the pages that are declared to be tables.
    Outside,
    /// The walk reads a table that it, or the walk for an earlier page, reads on another path: for
    /// another subject, on another level, or with other address bits above it.
    Twice,
    /// Some kind of access comes to an address to which no window leads it.
    Leak,
    /// Some kind of access comes to no address, and not as the windows say.
    Lacks,
}

/// The first fault of tables.
#[derive(Clone, Copy, Debug)]
pub struct TableFault {
    pub kind: FaultKind,
    /// The index of the subject.
    pub subject: usize,
    /// The guest address of the page.
    pub addr: u64,
}

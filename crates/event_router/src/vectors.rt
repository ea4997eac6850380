//! Sets of interrupt vectors.
ghost use Rattle.std.specs.Prelude.{◌≡◌, ◌≤◌, ◌&&◌, ◌||◌, ℕ, false};
ghost use Rattle.event_router.specs.Vectors.{NoneFrom, no_vectors, has, with_vector, without_vector, greatest, delivered};

/// How many vectors there are (Intel SDM volume 3, interrupt vectors).
const VECTORS: usize = 256;

/// A set of interrupt vectors.
#[derive(Clone, Copy, Debug)]
pub(crate) struct VectorSet {
    marks: [bool; VECTORS],
    // No vector from this one on is in the set.
    end: u16,
    ghost in_range: { end ≤ 256 },
    ghost none_from_end: { NoneFrom end marks },
}

// The end of a set: one past its greatest vector.
fn end_of(marks: &[bool; VECTORS], end: u16) -> u16
    requires end { end ≤ 256 }
    requires none { NoneFrom end marks.now }
    ensures end { result ≤ 256 }
    ensures none { NoneFrom result marks.now }
{
    if end == 0 || marks[(end - 1) as usize] {
        return end;
    }
    end_of(marks, end - 1)
}

impl VectorSet {
    /// No vector.
    #[tactic(auto, unfolding(crate::specs::Vectors::no_marks))]
    pub(crate) fn new() -> VectorSet
        ensures { result.marks ≡ no_vectors }
    {
        VectorSet {
            marks: [false; VECTORS],
            end: 0,
        }
    }

    /// Whether a vector is in the set.
    pub(crate) fn has(&self, vector: u8) -> bool
        ensures { result ≡ has self.now.marks vector }
    {
        self.marks[vector as usize]
    }

    /// This set with a vector.
    pub(crate) fn with(&self, vector: u8) -> VectorSet
        ensures { result.marks ≡ with_vector vector self.now.marks }
    {
        let mut marks = self.marks;
        marks[vector as usize] = true;
        let end = self.end.max(vector as u16 + 1);
        VectorSet { marks, end }
    }

    /// This set without a vector.
    pub(crate) fn without(&self, vector: u8) -> VectorSet
        ensures { result.marks ≡ without_vector vector self.now.marks }
    {
        let mut marks = self.marks;
        marks[vector as usize] = false;
        let end = end_of(&marks, self.end);
        VectorSet { marks, end }
    }
}

// The greatest vector below `end` that is deliverable.
fn greatest_below(now: &VectorSet, later: &VectorSet, entry: bool, end: u16) -> Option<u8>
    requires { end ≤ 256 }
    ensures { result ≡ greatest end (λ v. has now.now.marks v || (entry && has later.now.marks v)) }
{
    if end == 0 {
        return None;
    }
    let vector = (end - 1) as u8;
    if now.has(vector) || entry && later.has(vector) {
        return Some(vector);
    }
    greatest_below(now, later, entry, end - 1)
}

// From which vector on none is deliverable.
fn end_for(now: &VectorSet, later: &VectorSet, entry: bool) -> u16
    ensures end { result ≤ 256 }
    ensures none { (v : ℕ) → result ≤ v → (has now.now.marks v || (entry && has later.now.marks v)) ≡ false }
{
    if entry {
        now.end.max(later.end)
    } else {
        now.end
    }
}

/// The vector that is delivered: the greatest of those that are deliverable at any turn, and where
/// `entry` holds of those that wait.
pub(crate) fn delivered(now: &VectorSet, later: &VectorSet, entry: bool) -> Option<u8>
    ensures { result ≡ delivered now.now.marks later.now.marks entry }
{
    greatest_below(now, later, entry, end_for(now, later, entry))
}

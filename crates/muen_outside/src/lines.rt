ghost use Rattle.std.specs.Prelude.{◌≡◌, ◌≤◌, ℕ, List, take};

/// What is printed as a line of at most 256 bytes.
pub trait PrintedLine {
    /// The bytes of the line.
    ghost text: { Self → List ℕ };

    /// Writes the line to the front of the space, and answers how many bytes it has.
    fn write(&self, space: &mut [u8; 256]) -> usize
        ensures within { result ≤ 256 }
        ensures text { take result space.new ≡ text self.now };
}

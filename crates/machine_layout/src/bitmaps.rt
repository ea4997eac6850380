//! Bitmaps: bit n is bit n mod 8 of byte n / 8.
ghost use Rattle.std.specs.Prelude.{◌≡◌, ◌==◌, ◌&&◌, ℕ, ◌*◌, ◌<◌, ◌≤◌, not, true, length};
ghost use Rattle.machine_layout.specs.Exits.{is_set};
ghost use Rattle.machine_layout.specs.Bitmaps.{is_between};

/// Sets each bit of a bitmap, whatever stood there before.
pub fn set_all(bitmap: &mut [u8])
    ensures { (n : ℕ) → n < 8 * length bitmap.old → is_set bitmap.new n ≡ true }
{
    bitmap.fill(u8::MAX);
}

// Clears one bit, and leaves the others.
fn clear_bit(bitmap: &mut [u8], bit: usize)
    requires { bit < 8 * length bitmap.old }
    ensures { (n : ℕ) → is_set bitmap.new n ≡ (is_set bitmap.old n && not (n == bit)) }
{
    bitmap[bit / 8] &= !(1 << (bit % 8));
}

/// Clears the bits from `first` on that come before `end`, and leaves the others.
pub fn clear_bits(bitmap: &mut [u8], first: usize, end: usize)
    requires { end ≤ 8 * length bitmap.old }
    ensures { (n : ℕ) → is_set bitmap.new n ≡ (is_set bitmap.old n && not (is_between first end n)) }
{
    for bit in first..end {
        clear_bit(bitmap, bit);
    }
}

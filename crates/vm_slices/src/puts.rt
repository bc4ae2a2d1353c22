//! Clocks that are put into a row, each under a number.

ghost use Rattle.std.specs.Prelude.{◌≡◌, ◌≤◌, length};
ghost use Rattle.vm_slices.specs.Puts.{AreApartIn, Puts};

use logic_cells::Clock;

/// Puts clocks into a row of them, each under a number; there may be more clocks than numbers.
pub fn put_clocks(numbers: &[u32], items: &[Clock], row: &mut [Clock])
    requires apart { AreApartIn (length row.old) numbers.now }
    requires many { length numbers.now ≤ length items.now }
    ensures { Puts numbers.now items.now row.old row.new }
{
    for i in 0..numbers.len() {
        row[numbers[i] as usize] = items[i];
    }
}

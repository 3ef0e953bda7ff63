// The entries of two whole long tables, compared.
ghost use Rattle.std.specs.Prelude.{◌≡◌, ◌<◌};
ghost use Rattle.nametable_format.specs.Format.{count_of, entry_at};
ghost use Rattle.nametable_differences.specs.Differences.{same_text, compared};

use crate::Difference;
use crate::table::Pair;
use nametable::TEXT_CAPACITY;

// Whether two texts are the same.
fn same_text(left: &[u32], right: &[u32]) -> bool
    ensures { result ≡ same_text left.now right.now }
{
    left == right
}

impl Pair<'_> {
    // Compares the next entry of the left table with that of the right one.
    pub(crate) fn compare(&self) -> Difference
        requires i_bound { self.now.i < count_of self.now.left.bytes.now }
        requires j_bound { self.now.j < count_of self.now.right.bytes.now }
        ensures { result ≡ compared (entry_at self.now.left.bytes.now self.now.i) (entry_at self.now.right.bytes.now self.now.j) }
    {
        // Fixed memory, so a buffer for the longest text, and its count.
        let mut left_text = [0u32; TEXT_CAPACITY];
        let left_entry = self.left.read_entry(self.i, &mut left_text);
        let mut right_text = [0u32; TEXT_CAPACITY];
        let right_entry = self.right.read_entry(self.j, &mut right_text);
        let m = left_entry.count.0;
        let n = right_entry.count.0;
        if !same_text(&left_text[..m], &right_text[..n]) {
            return Difference::OtherText;
        }
        if scheme::number(left_entry.scheme) == scheme::number(right_entry.scheme) {
            return Difference::Same;
        }
        Difference::Respelled
    }
}

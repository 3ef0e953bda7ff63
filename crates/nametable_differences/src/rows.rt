// The rows of two whole long tables, one after the other: the next reader number that either has, and
// what differs there.
ghost use Rattle.std.specs.Prelude.{◌≡◌, ◌+◌, ◌<◌};
ghost use Rattle.nametable_format.specs.Format.{count_of};
ghost use Rattle.nametable_differences.specs.Internal.{IsNext, left_taken, right_taken, Few, OneMore};

use crate::Difference;
use crate::table::Pair;
use report::Counts;

// A reader number, and what differs there.
#[derive(Drop)]
pub(crate) struct Found {
    pub reader: u16,
    pub difference: Difference,
}

impl Pair<'_> {
    // Finds the next row, where there is one: the lower of the next reader numbers of both tables.
    pub(crate) fn find_row(&self) -> Found
        requires { self.now.i + self.now.j < count_of self.now.left.bytes.now + count_of self.now.right.bytes.now }
        ensures { IsNext self.now.left.bytes.now self.now.i self.now.right.bytes.now self.now.j result }
    {
        let left_reader = self.left.next_reader(self.i);
        let right_reader = self.right.next_reader(self.j);
        if left_reader < right_reader {
            return Found {
                reader: left_reader as u16,
                difference: Difference::OnlyLeft,
            };
        }
        if right_reader < left_reader {
            return Found {
                reader: right_reader as u16,
                difference: Difference::OnlyRight,
            };
        }
        Found {
            reader: left_reader as u16,
            difference: self.compare(),
        }
    }
}

// How many entries of the left table a row with this difference takes.
pub(crate) fn left_taken(difference: Difference) -> usize
    ensures { result ≡ left_taken difference }
{
    match difference {
        Difference::Same => 1,
        Difference::OtherText => 1,
        Difference::Respelled => 1,
        Difference::OnlyLeft => 1,
        Difference::OnlyRight => 0,
    }
}

// How many entries of the right table a row with this difference takes.
pub(crate) fn right_taken(difference: Difference) -> usize
    ensures { result ≡ right_taken difference }
{
    match difference {
        Difference::Same => 1,
        Difference::OtherText => 1,
        Difference::Respelled => 1,
        Difference::OnlyLeft => 0,
        Difference::OnlyRight => 1,
    }
}

// Counts one row more, with this difference.
pub(crate) fn counted(counts: Counts, difference: Difference) -> Counts
    requires { Few counts }
    ensures { OneMore counts difference result }
{
    let mut more = counts;
    match difference {
        Difference::Same => {
            more.same += 1;
        }
        Difference::OtherText => {
            more.other += 1;
        }
        Difference::Respelled => {
            more.respelled += 1;
        }
        Difference::OnlyLeft => {
            more.left += 1;
        }
        Difference::OnlyRight => {
            more.right += 1;
        }
    }
    more
}

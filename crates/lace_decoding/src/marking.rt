// Marks, which are all 0 under LACE.
ghost use Rattle.std.specs.Prelude.{◌≤◌, ◌≡◌, ◌++◌, length, drop};
ghost use Rattle.labels.specs.Marks.{no_marks};

// Stores so many marks of 0.
pub(crate) fn put_no_marks(count: usize, marks: &mut [u8])
    requires { count ≤ length marks.old }
    ensures { marks.new ≡ no_marks count ++ drop count marks.old }
{
    marks[..count].fill(0);
}

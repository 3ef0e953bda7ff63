// Prints what differs between the name tables in two files. The program's first argument names the
// left table's file, its second the right one's.
#![tactic(auto)]

mod differences;

// One byte more than the longest table of either form has, to know a longer one.
const READ_MOST: usize = 34004;

fn main(rt: HostRuntime) {
    let mut stdout = rt.stdout();
    let mut stderr = rt.stderr();
    let mut left = [0u8; READ_MOST];
    let left_read = streams::read_argument(&rt, &mut stderr, 1, &mut left);
    let mut right = [0u8; READ_MOST];
    let right_read = streams::read_argument(&rt, &mut stderr, 2, &mut right);
    let left_ending = left_read.ending;
    let m = left_read.count;
    let right_ending = right_read.ending;
    let n = right_read.count;
    let mut out = [0u8; nametable_differences::REPORT_CAPACITY];
    let written = differences::put_believed(
        left_ending,
        &left[..m],
        right_ending,
        &right[..n],
        &mut out,
    );
    streams::print(&mut stdout, &mut stderr, &out[..written]);
}

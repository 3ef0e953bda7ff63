// Lists a name table from standard input: a line for each entry, or one line with the refusal.
#![tactic(auto)]

mod listing;

fn main(rt: HostRuntime) {
    let mut stdin = rt.stdin();
    let mut stdout = rt.stdout();
    let mut stderr = rt.stderr();
    // one byte more than the longest table of the long form, to know a longer one
    let mut table = [0u8; 33504];
    let read = streams::read_full(&mut stdin, &mut stderr, &mut table);
    let ending = read.ending;
    let n = read.count;
    // 600 bytes for the line of each of 500 entries
    let mut out = [0u8; 300000];
    let written = listing::put_believed(ending, &table[..n], &mut out);
    streams::print(&mut stdout, &mut stderr, &out[..written]);
}

// A list that is to be written. It has a file of its own since the definitions on its tests name it.
ghost use Rattle.nametable_write.specs.Internal.{Rows, Rows-prop};

// A list of entries to be written: reader numbers, schemes as numbers, and the texts, each as long as
// its length says, one after the other in the points.
#[derive(Clone, Copy)]
pub(crate) struct EntryList<'a> {
    pub(crate) readers: &'a [u16],
    pub(crate) schemes: &'a [u32],
    pub(crate) lengths: &'a [usize],
    pub(crate) points: &'a [u32],
    ghost rows: { Rows readers.now schemes.now lengths.now points.now } by { Rows-prop },
}

// A table lent as five slices (01, "Calls").

// Widths, locks, masks and values of the rows, and the words of the records. A call that reads no records lends no words.
#[derive(Clone, Copy)]
pub struct Table<'a> {
    pub width: &'a [u8],
    pub lock: &'a [u8],
    pub mask: &'a [u32],
    pub value: &'a [u32],
    pub words: &'a [u32],
}

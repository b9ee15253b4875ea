// What a call is lent beside the control record: the two halves and the grey list. The record is no field of these: lent by
// `&mut` it would ask of each walk that it is the same one afterwards (`Same`), which now only the changes show.
// Two of them, as open and a list of members are lent words that stay; and of this crate, as those of the store are inside the store.
ghost use Rattle.std.specs.Prelude.{◌≡◌};
ghost use Rattle.directory.specs.View.{words_of, words_of_mut};

// Lent to be read.
#[derive(Clone, Copy)]
pub(crate) struct Lent<'a> {
    pub h0: &'a [u32],
    pub h1: &'a [u32],
    pub list: &'a [u32],
}

// Lent to be changed.
#[derive(Drop)]
pub(crate) struct LentMut<'a> {
    pub h0: &'a mut [u32],
    pub h1: &'a mut [u32],
    pub list: &'a mut [u32],
}

impl LentMut<'_> {
    // To be read.
    pub(crate) fn read(&self) -> Lent<'_>
        ensures { words_of result ≡ words_of_mut self.now }
    {
        Lent {
            h0: self.h0,
            h1: self.h1,
            list: self.list,
        }
    }
}

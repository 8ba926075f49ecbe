// A run over a file.
ghost use Rattle.std.specs.Prelude.{◌≡◌};

use fields::Reader;
use inspection::Inspection;

// What is read, and the inspection that its fields are put to. Tried: a run that holds its inspection; at its end the lent table isn't known.
#[derive(Drop)]
pub(crate) struct Run<'r, 'f, 'l> {
    pub(crate) reader: Reader<'f>,
    pub(crate) inspection: &'r mut Inspection<'l>,
}

impl<'r, 'f, 'l> Run<'r, 'f, 'l> {
    // Where the next field begins; `self.reader.place()` in a method that changes the run has no proof rule yet.
    pub(crate) fn place(&self) -> usize
        ensures { result ≡ self.now.reader.place }
    {
        self.reader.place()
    }
}

// The walk over a file.
ghost use Rattle.std.specs.Prelude.{◌≡◌, ℕ, ◌+◌, true, List, ◌++◌, length};
ghost use Rattle.fields.specs.Shown.{Shown, Short, bytes_of, Fitting};
ghost use Rattle.fields.specs.Layouts.{stands};
ghost use Rattle.fields.specs.Parse.{shows, told, place_after, Refuses, Shows};
ghost use Rattle.fields.specs.Walk.{parsed, ahead, Moves};

use crate::flaws::{Flaw, ReaderFault};
use crate::layouts;
use crate::shapes::{Field, Source};

// The bytes of a file, and the place where the next field begins.
#[derive(Drop)]
pub struct Reader<'a> {
    bytes: &'a [u8],
    place: usize,
    source: Source,
}

impl<'a> Reader<'a> {
    // A reader at the start of a file.
    pub fn new(source: Source, bytes: &'a [u8]) -> Reader<'a>
        ensures lent { result.bytes.now ≡ bytes.now }
        ensures start { result.place ≡ 0 }
        ensures file { result.source ≡ source }
    {
        Reader {
            bytes,
            place: 0,
            source,
        }
    }

    // Where the next field begins.
    pub fn place(&self) -> usize
        ensures { result ≡ self.now.place }
    {
        self.place
    }

    // The next field, or none at the end; a refused field is passed over, and one that isn't whole takes what is left.
    pub fn next_field(&mut self) -> Result<Option<Field<'a>>, ReaderFault>
        ensures value { told result self.new.place ≡ parsed self.old }
        ensures offset { Refuses result (λ e. e.offset ≡ self.old.place) }
        ensures after { self.new.place ≡ place_after self.old.place (parsed self.old) }
        ensures same { (self.new.bytes.now ≡ self.old.bytes.now) × (self.new.source ≡ self.old.source) }
        ensures moves { Moves self.old.source result (length self.old.bytes.now) self.old.place self.new.place }
        ensures short { Shows result Short }
        ensures whole { Shows result Fitting }
        ensures stands { Shows result (λ f. stands self.old.source self.old.place f ≡ true) }
        ensures sound { Shows result (λ f. ahead self.old ≡ bytes_of f ++ ahead self.new) }
        ensures complete { (f : Shown) (rest : List ℕ) → ahead self.old ≡ bytes_of f ++ rest → Fitting f → stands self.old.source self.old.place f ≡ true → told result self.new.place ≡ shows f (self.old.place + length (bytes_of f)) }
    {
        let offset = self.place;
        if offset >= self.bytes.len() {
            return match self.source {
                Source::Book if offset == 0 => Err(Flaw::MisplacedBegin.at(offset)),
                _ => Ok(None),
            };
        }
        // The place moves too where there is none, so this is no `ok_or`.
        let Some((tag, value)) = layouts::split_field(&self.bytes[offset..]) else {
            self.place = self.bytes.len();
            return Err(Flaw::PastEnd.at(offset));
        };
        self.place = offset + 3 + value.len();
        layouts::field_of(self.source, offset, tag, value)
            .map(Some)
            .map_err(|flaw| flaw.at(offset))
    }
}

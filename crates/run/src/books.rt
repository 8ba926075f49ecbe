// How a book is taken in.
ghost use Rattle.std.specs.Prelude.{◌≡◌, ◌≤◌, length, IfErr};
ghost use Rattle.fields.specs.declared.shapes.Source.TheVariants as source;
ghost use Rattle.inspection.specs.Told.{Does, told_line};
ghost use Rattle.run.specs.declared.faults.File.TheVariants as file;
ghost use Rattle.run.specs.Runs.{rule_call};
ghost use Rattle.run.specs.Steps.{AllRules, Begun, Continues, InBook, OneRule, Onward};

use crate::faults::{Fault, File, Refused};
use crate::parts::read_elements;
use crate::runs::Run;
use arrayvec::ArrayVec;
use clauses::{Line, Literal, Refusal};
use fields::{Field, Reader};
use inspection::{Inspection, Opening};

// Takes in a rule whose sides are parts of the input; its parts come one by one, as the field shows them and the call takes them.
fn take_rule(
    inspection: &mut Inspection,
    kind: u8,
    index: u8,
    left: &[u8],
    right: &[u8],
) -> Result<usize, Refusal>
    requires short { (length left.now ≤ 510) × (length right.now ≤ 510) }
    ensures { Does (told_line result) (rule_call kind index left.now right.now) inspection.old inspection.new }
{
    let mut on_left: ArrayVec<Literal, 255> = ArrayVec::new();
    let mut on_right: ArrayVec<Literal, 255> = ArrayVec::new();
    read_elements(left, &mut on_left);
    read_elements(right, &mut on_right);
    // The kind stays a number: the call refuses one that names no kind.
    inspection.rule(kind, index, &on_left, &on_right)
}

// Reads the begin of a book, and checks what it opens.
pub(crate) fn begin(reader: &mut Reader, lines: &[Line]) -> Result<Opening, Refused>
    requires book { reader.old.source ≡ source.Book }
    requires start { reader.old.place ≡ 0 }
    ensures same { (reader.new.bytes.now ≡ reader.old.bytes.now) × (reader.new.source ≡ reader.old.source) }
    ensures begun { Begun result (length lines.now) reader.old reader.new }
{
    let Some(Field::Begin { indices }) = reader.next_field()? else {
        unreachable()
    };
    Ok(Opening::check(indices, lines)?)
}

impl<'r, 'f, 'l> Run<'r, 'f, 'l> {
    // Takes in the next rule of the book, and answers its line; none at the end.
    fn next_rule(&mut self) -> Result<Option<usize>, Refused>
        requires { InBook self.old.reader }
        ensures on { Continues self.old self.new }
        ensures moves { Onward result (length self.old.reader.bytes.now) self.old.reader.place self.new.reader.place }
        ensures step { OneRule result self.old self.new }
    {
        let Some(field) = self.reader.next_field()? else {
            return Ok(None);
        };
        let Field::Rule {
            kind,
            index,
            left,
            right,
        } = field
        else {
            unreachable()
        };
        let line = take_rule(self.inspection, kind, index, left, right)?;
        Ok(Some(line))
    }

    // Takes in the rules after the begin of a book, and answers how many there are.
    pub(crate) fn take_rules(&mut self) -> Result<usize, Fault>
        requires { InBook self.old.reader }
        ensures file { IfErr result (λ fault. fault.file ≡ file.Book) }
        ensures rules { AllRules result self.old self.new }
        ensures on { Continues self.old self.new }
    {
        let mut count = 0;
        loop {
            let offset = self.place();
            let taken = self
                .next_rule()
                .map_err(|refused| refused.at(File::Book, offset))?;
            let Some(_) = taken else {
                return Ok(count);
            };
            // Counted by hand: how many rules there are is known only at their end.
            count += 1;
        }
    }
}

// How a work is gone through.
ghost use Rattle.std.specs.Prelude.{◌≡◌, ℕ, ◌≤◌, true, ◌++◌, length, is_some, IfOk, string_bytes, OnOk};
ghost use Rattle.fields.specs.Shown.{shown_of};
ghost use Rattle.fields.specs.declared.shapes.Source.TheVariants as source;
ghost use Rattle.calls.specs.Models.{overlay};
ghost use Rattle.inspection.specs.Held.{model_of};
ghost use Rattle.run.specs.Files.{items_of};
ghost use Rattle.run.specs.Runs.{after_work, work_call};
ghost use Rattle.run.specs.Steps.{Continues, Did, IsWork, LinesGrow, OneLine, Onward, Written, outcome};
ghost use Rattle.run.specs.Text.{Appends, answer_text, work_text};

use crate::faults::{File, Refused};
use crate::outcomes::Outcome;
use crate::runs::Run;
use clauses::{Literal, Refusal};
use fields::{Field, Reader, Source};
use inspection::Inspection;
use std::alloc::AllocError;

// Makes the call of a field of a work.
fn perform(inspection: &mut Inspection, field: Field) -> Result<usize, Refusal>
    requires { is_some (work_call (shown_of field)) ≡ true }
    ensures did { Did (work_call (shown_of field.entry)) result (model_of inspection.old) (model_of inspection.new) }
    ensures table { inspection.new.lines.now ≡ overlay (model_of inspection.new).lines inspection.old.lines.now }
    ensures lent { inspection.new.lines.ghost_name ≡ inspection.old.lines.ghost_name }
{
    match field {
        Field::Resolve { a, b, literal } => inspection.resolve(
            usize::from(a),
            usize::from(b),
            Literal(literal),
        ),
        Field::Rewrite { line } => inspection.rewrite(usize::from(line)),
        Field::Enter { line } => inspection.enter(usize::from(line)),
        Field::Stay { line } => inspection.stay(usize::from(line)),
        Field::TablePlan { .. } | Field::Ring { .. } | Field::Begin { .. } | Field::Rule { .. } => {
            unreachable()
        }
    }
}

// Writes what the field of this number came to, at any offset.
fn write_outcome(text: &mut String, field: usize, came: Outcome) -> Result<(), AllocError>
    ensures { OnOk result ((offset : ℕ) → string_bytes text.new ≡ string_bytes text.old ++ answer_text field offset (outcome came)) }
{
    writeln!(text, "{field} {came}")
}

impl<'r, 'f, 'l> Run<'r, 'f, 'l> {
    // Makes the call of the next field of the work, and answers the line that it made; none at the end.
    fn next_line(&mut self) -> Result<Option<usize>, Refused>
        requires { IsWork self.old.reader.source }
        ensures on { Continues self.old self.new }
        ensures moves { Onward result (length self.old.reader.bytes.now) self.old.reader.place self.new.reader.place }
        ensures step { OneLine result self.old self.new }
    {
        let Some(field) = self.reader.next_field()? else {
            return Ok(None);
        };
        let line = perform(self.inspection, field)?;
        Ok(Some(line))
    }

    // Writes a line for the next field of the work; false where there is none.
    fn write_next(&mut self, text: &mut String, number: usize) -> Result<bool, AllocError>
        requires { IsWork self.old.reader.source }
        ensures on { Continues self.old self.new }
        ensures step { IfOk result (λ more. Written more number (string_bytes text.old) (string_bytes text.new) self.old self.new) }
    {
        let offset = self.place();
        match self.next_line() {
            Ok(None) => return Ok(false),
            Ok(Some(line)) => write_outcome(text, number, Outcome::Line(line))?,
            Err(refused) => {
                let fault = refused.at(File::Work, offset);
                writeln!(text, "{number} {fault}")?
            }
        }
        Ok(true)
    }

    // Goes through a work: writes a line for each of its fields, and the verdict.
    pub(crate) fn write_work(&mut self, text: &mut String, work: &'f [u8]) -> Result<(), AllocError>
        ensures text { Appends result text.old text.new (work_text (model_of self.old.inspection.now) 0 (items_of (source.Work (model_of self.old.inspection.now).indices) work.now)) }
        ensures left { OnOk result ((model_of self.new.inspection.now).lines ≡ (after_work (model_of self.old.inspection.now) (items_of (source.Work (model_of self.old.inspection.now).indices) work.now)).lines) }
        ensures lines { LinesGrow self.old.inspection.now self.new.inspection.now }
        ensures borrowed { self.new.inspection.ghost_name ≡ self.old.inspection.ghost_name }
    {
        let indices = self.inspection.indices();
        self.reader = Reader::new(Source::Work { indices }, work);
        let mut number = 0;
        while self.write_next(text, number)? {
            // Counted by hand: how many fields there are is known only at their end.
            number += 1;
        }
        let verdict = self.inspection.verdict();
        writeln!(text, "{verdict}")
    }
}

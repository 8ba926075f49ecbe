// The report of a book and a work.
ghost use Rattle.std.specs.Prelude.{◌≡◌, length, IfOk, string_bytes, OnOk};
ghost use Rattle.std.specs.Option.{option_map};
ghost use Rattle.fields.specs.declared.shapes.Source.TheVariants as source;
ghost use Rattle.calls.specs.Models.{overlay};
ghost use Rattle.run.specs.Files.{items_of};
ghost use Rattle.run.specs.Runs.{book_of, made_by};
ghost use Rattle.inspection.specs.Held.{model_of};
ghost use Rattle.run.specs.Steps.{InBook, LinesGrow, rest_of};
ghost use Rattle.run.specs.Text.{Appends, readable, report, run_text, table_of};

use crate::books::begin;
use crate::faults::File;
use crate::runs::Run;
use clauses::Line;
use fields::{Reader, Source};
use inspection::Inspection;
use std::alloc::{AllocError, Global};
use std::fmt;

// The longest file that is read.
const LONGEST: usize = 65536;

fn readable(file: Option<&[u8]>) -> Option<&[u8]>
    ensures { option_map (λ x. x.now) result ≡ readable (option_map (λ x. x.now) file.entry) }
{
    file.filter(|bytes| bytes.len() <= LONGEST)
}

// Takes in the rules of a book that is begun, goes through the work, and writes what came of it.
fn write_opened<'f>(
    text: &mut String,
    reader: Reader<'f>,
    inspection: &mut Inspection,
    work: &'f [u8],
) -> Result<(), AllocError>
    requires { InBook reader }
    ensures lines { LinesGrow inspection.old inspection.new }
    ensures text { Appends result text.old text.new (run_text work.now (rest_of reader.entry (model_of inspection.old))) }
    ensures left { OnOk result ((model_of inspection.new).lines ≡ made_by work.now (rest_of reader.entry (model_of inspection.old))) }
{
    let mut run = Run { reader, inspection };
    match run.take_rules() {
        Ok(rules) => {
            let indices = run.inspection.indices();
            writeln!(text, "book {indices} {rules}")?;
            run.write_work(text, work)
        }
        Err(fault) => writeln!(text, "book {fault}"),
    }
}

// Takes in the book, goes through the work, and writes what came of it.
fn write_run(
    text: &mut String,
    book: &[u8],
    work: &[u8],
    lines: &mut [Line],
) -> Result<(), AllocError>
    ensures text { Appends result text.old text.new (run_text work.now (book_of (length lines.old) (items_of source.Book book.now))) }
    ensures table { OnOk result (lines.new ≡ overlay (made_by work.now (book_of (length lines.old) (items_of source.Book book.now))) lines.old) }
{
    let mut reader = Reader::new(Source::Book, book);
    // A match, since a refused begin writes the report's only line.
    let opening = match begin(&mut reader, lines) {
        Ok(opening) => opening,
        Err(refused) => {
            let fault = refused.at(File::Book, 0);
            return writeln!(text, "book {fault}");
        }
    };
    let mut inspection = opening.open(lines);
    write_opened(text, reader, &mut inspection, work)
}

// The report of two files, none where a file is missing, with a table for the lines. Fails only for want of memory.
pub fn report(
    heap: Global,
    book: Option<&[u8]>,
    work: Option<&[u8]>,
    lines: &mut [Line],
) -> Result<String, fmt::Error>
    ensures text { IfOk result (λ text. string_bytes text ≡ report (length lines.old) (option_map (λ x. x.now) book.entry) (option_map (λ x. x.now) work.entry)) }
    ensures table { OnOk result (lines.new ≡ table_of (option_map (λ x. x.now) book.entry) (option_map (λ x. x.now) work.entry) lines.old) }
{
    let mut text = String::new(heap);
    // An unread file, the book or the work, ends the report, and is no failure.
    let Some(book) = readable(book) else {
        writeln!(text, "unread {}", File::Book)?;
        return Ok(text);
    };
    let Some(work) = readable(work) else {
        writeln!(text, "unread {}", File::Work)?;
        return Ok(text);
    };
    write_run(&mut text, book, work, lines)?;
    Ok(text)
}

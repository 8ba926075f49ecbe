// The judge: reads book.bin and work.bin in its folder, and prints the report.
#![tactic(auto)]

use clauses::Line;
use run::report;
use std::fs::File;
use std::io::Read;

// One byte more than the longest file that is read.
const ENOUGH: u64 = 65537;

// The lines that the table has place for.
const LINES: usize = 512;

// The bytes of a file, as far as they matter; none where it can't be read.
fn contents(rt: &HostRuntime, path: &str) -> Option<Vec<u8>> {
    let file = File::open(rt, path).ok()?;
    let mut bytes = Vec::new(rt.alloc());
    file.take(ENOUGH).read_to_end(&mut bytes).ok()?;
    Some(bytes)
}

fn main(rt: HostRuntime) -> anyhow::Result<()> {
    let book = contents(&rt, "book.bin");
    let work = contents(&rt, "work.bin");
    let mut lines = vec![in rt.alloc(); Line::BLANK; LINES]?;
    let text = report(
        rt.alloc(),
        book.as_ref().map(|bytes| bytes.as_slice()),
        work.as_ref().map(|bytes| bytes.as_slice()),
        lines.as_mut_slice(),
    )?;
    rt.print(text)?;
    Ok(())
}

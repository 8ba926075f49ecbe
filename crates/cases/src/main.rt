// Books whose report is known by hand: each is named, and its report printed.
#![tactic(auto)]

use clauses::{Line, Side};
use run::report;
use std::alloc::{AllocError, Global};

// A name, a book and a work.
type Case = (&'static str, &'static [u8], &'static [u8]);

const BEGIN: [u8; 4] = [1, 0, 1, 1];

// A start rule of the literal 0.
const START: [u8; 9] = [2, 0, 6, 1, 0, 0, 1, 0, 0];

// A begin and so many rules.
fn rules(heap: Global, count: usize) -> Result<Vec<u8>, AllocError> {
    let mut book = Vec::new(heap);
    book.extend_from_slice(&BEGIN)?;
    for _ in 0..count {
        book.extend_from_slice(&START)?;
    }
    Ok(book)
}

// Global rules on the atoms 0, 16, 32 and on to 128.
fn nine(heap: Global) -> Result<Vec<u8>, AllocError> {
    let mut book = Vec::new(heap);
    book.extend_from_slice(&BEGIN)?;
    for i in 0..9u16 {
        let [high, low] = (i * 32).to_be_bytes();
        book.extend_from_slice(&[2, 0, 6, 2, 0, 0, 1, high, low])?;
    }
    Ok(book)
}

fn show_side(rt: &HostRuntime, name: &str, side: &Side) -> anyhow::Result<()> {
    print!(rt; " {name}")?;
    for literal in side.literals() {
        print!(rt; " {}", literal.0)?;
    }
    Ok(())
}

// The report of a book and a work, and both sides of the first lines of the table.
fn show(
    rt: &HostRuntime,
    name: &str,
    book: &[u8],
    work: &[u8],
    count: usize,
) -> anyhow::Result<()> {
    let mut lines = vec![in rt.alloc(); Line::BLANK; 512]?;
    let text = report(rt.alloc(), Some(book), Some(work), lines.as_mut_slice())?;
    println!(rt; "{name}:")?;
    rt.print(text)?;
    for line in lines.iter().take(count) {
        show_side(rt, "left", &line.left)?;
        show_side(rt, "right", &line.right)?;
        rt.println("")?;
    }
    Ok(())
}

// What the layouts of the fields and the begin of a book ask.
const FIELDS: [Case; 15] = [
    ("no rule", &[1, 0, 1, 1], &[]),
    ("no bytes", &[], &[]),
    ("half a head", &[1, 0], &[]),
    ("a value past the end", &[1, 0, 2, 1], &[]),
    ("an unknown tag", &[1, 0, 1, 1, 3, 0, 0], &[]),
    ("an unknown tag first", &[3, 0, 0], &[]),
    ("a begin of two bytes", &[1, 0, 2, 1, 1], &[]),
    ("a rule first", &[2, 0, 6, 1, 0, 0, 1, 0, 0], &[]),
    ("a rule of a bad length first", &[2, 0, 2, 1, 0], &[]),
    (
        "two begins, the second with no index",
        &[1, 0, 1, 1, 1, 0, 1, 0],
        &[],
    ),
    ("no index", &[1, 0, 1, 0], &[]),
    ("seventeen indices", &[1, 0, 1, 17], &[]),
    ("sixteen indices", &[1, 0, 1, 16], &[]),
    (
        "a work of unknown tags",
        &[1, 0, 1, 1],
        &[1, 0, 1, 1, 9, 0, 0, 200, 0, 1, 0],
    ),
    (
        "a work that breaks off",
        &[1, 0, 1, 1],
        &[9, 0, 0, 9, 1, 0, 5],
    ),
];

// A rule after a begin of one index.
const RULES: [Case; 12] = [
    ("kind 0", &[1, 0, 1, 1, 2, 0, 4, 0, 0, 0, 0], &[]),
    ("kind 7", &[1, 0, 1, 1, 2, 0, 4, 7, 0, 0, 0], &[]),
    ("index 1 of one", &[1, 0, 1, 1, 2, 0, 4, 4, 1, 0, 0], &[]),
    (
        "a literal past the atoms",
        &[1, 0, 1, 1, 2, 0, 6, 2, 0, 0, 1, 8, 0],
        &[],
    ),
    (
        "the highest literal",
        &[1, 0, 1, 1, 2, 0, 6, 2, 0, 0, 1, 7, 255],
        &[],
    ),
    (
        "a literal twice",
        &[1, 0, 1, 1, 2, 0, 8, 2, 0, 0, 2, 0, 4, 0, 4],
        &[],
    ),
    (
        "a left that descends",
        &[1, 0, 1, 1, 2, 0, 8, 3, 0, 2, 0, 4, 0, 2, 0],
        &[],
    ),
    (
        "a start rule with a left",
        &[1, 0, 1, 1, 2, 0, 8, 1, 0, 1, 0, 0, 1, 0, 2],
        &[],
    ),
    (
        "a sometime rule without a goal",
        &[1, 0, 1, 1, 2, 0, 4, 5, 0, 0, 0],
        &[],
    ),
    ("an empty start", &[1, 0, 1, 1, 2, 0, 4, 1, 0, 0, 0], &[]),
    ("an empty global", &[1, 0, 1, 1, 2, 0, 4, 2, 0, 0, 0], &[]),
    ("an empty step", &[1, 0, 1, 1, 2, 0, 4, 3, 0, 0, 0], &[]),
];

// What the steps ask.
const STEPS: [Case; 8] = [
    (
        "a contradiction",
        &[
            1, 0, 1, 1, 2, 0, 6, 1, 0, 0, 1, 0, 0, 2, 0, 8, 3, 0, 1, 0, 0, 1, 0, 2, 2, 0, 8, 4, 0,
            1, 0, 0, 1, 0, 3,
        ],
        &[
            3, 0, 6, 0, 1, 0, 2, 0, 2, 4, 0, 2, 0, 3, 3, 0, 6, 0, 0, 0, 4, 0, 0,
        ],
    ),
    (
        "a line that isn't there",
        &[
            1, 0, 1, 1, 2, 0, 6, 1, 0, 0, 1, 0, 0, 2, 0, 8, 3, 0, 1, 0, 0, 1, 0, 2, 2, 0, 8, 4, 0,
            1, 0, 0, 1, 0, 3,
        ],
        &[
            3, 0, 6, 0, 0, 0, 3, 0, 0, 4, 0, 2, 0, 3, 5, 0, 2, 0, 9, 6, 0, 2, 255, 255,
        ],
    ),
    (
        "steps of two indices",
        &[
            1, 0, 1, 4, 2, 0, 6, 4, 2, 0, 1, 0, 0, 2, 0, 6, 4, 3, 0, 1, 0, 1,
        ],
        &[3, 0, 6, 0, 0, 0, 1, 0, 0],
    ),
    (
        "kinds that misfit",
        &[
            1, 0, 1, 1, 2, 0, 6, 1, 0, 0, 1, 0, 0, 2, 0, 8, 3, 0, 1, 0, 0, 1, 0, 2, 2, 0, 8, 4, 0,
            1, 0, 0, 1, 0, 3,
        ],
        &[
            3, 0, 6, 0, 0, 0, 1, 0, 0, 4, 0, 2, 0, 0, 5, 0, 2, 0, 1, 6, 0, 2, 0, 0,
        ],
    ),
    (
        "a literal that isn't there",
        &[
            1, 0, 1, 1, 2, 0, 6, 1, 0, 0, 1, 0, 0, 2, 0, 8, 3, 0, 1, 0, 0, 1, 0, 2, 2, 0, 8, 4, 0,
            1, 0, 0, 1, 0, 3,
        ],
        &[3, 0, 6, 0, 1, 0, 2, 0, 0, 3, 0, 6, 0, 1, 0, 2, 0, 3],
    ),
    (
        "a right side that isn't empty",
        &[
            1, 0, 1, 1, 2, 0, 8, 3, 0, 2, 0, 2, 0, 5, 0, 2, 0, 8, 3, 0, 1, 0, 2, 1, 0, 0,
        ],
        &[4, 0, 2, 0, 1],
    ),
    (
        "sides of 16 and 17",
        &[
            1, 0, 1, 1, 2, 0, 22, 2, 0, 0, 9, 0, 0, 0, 10, 0, 12, 0, 14, 0, 16, 0, 18, 0, 20, 0,
            22, 0, 24, 2, 0, 22, 2, 0, 0, 9, 0, 1, 0, 100, 0, 102, 0, 104, 0, 106, 0, 108, 0, 110,
            0, 112, 0, 114, 2, 0, 24, 2, 0, 0, 10, 0, 1, 0, 100, 0, 102, 0, 104, 0, 106, 0, 108, 0,
            110, 0, 112, 0, 114, 0, 116,
        ],
        &[3, 0, 6, 0, 0, 0, 1, 0, 0, 3, 0, 6, 0, 0, 0, 2, 0, 0],
    ),
    (
        "a length that isn't the layout's",
        &[
            1, 0, 1, 1, 2, 0, 6, 1, 0, 0, 1, 0, 0, 2, 0, 8, 3, 0, 1, 0, 0, 1, 0, 2, 2, 0, 8, 4, 0,
            1, 0, 0, 1, 0, 3,
        ],
        &[3, 0, 4, 0, 1, 0, 2, 4, 0, 0, 7, 0, 2, 0, 1],
    ),
];

fn show_all(rt: &HostRuntime, cases: &[Case]) -> anyhow::Result<()> {
    for (name, book, work) in cases {
        show(rt, name, book, work, 0)?;
    }
    Ok(())
}

// A table that is full: every step is refused, by 18 where nothing else stands against it.
fn show_full(rt: &HostRuntime) -> anyhow::Result<()> {
    let mut book = rules(rt.alloc(), 511)?;
    book.extend_from_slice(&[2, 0, 6, 1, 0, 0, 1, 0, 1])?;
    show(
        rt,
        "512 rules, and one line more",
        book.as_slice(),
        &[3, 0, 6, 0, 0, 1, 255, 0, 0, 4, 0, 2, 0, 0],
        0,
    )?;
    let over = rules(rt.alloc(), 513)?;
    show(rt, "513 rules", over.as_slice(), &[], 0)
}

// A sometime rule with the left 2 and the goal 0.
const SOMETIME: [u8; 15] = [1, 0, 1, 1, 2, 0, 8, 5, 0, 1, 0, 2, 1, 0, 0];

// Steps with the lefts 2, 5 and 2, and nothing on the right.
const EMPTY_STEPS: [u8; 24] = [
    1, 0, 1, 1, 2, 0, 8, 3, 0, 2, 0, 2, 0, 5, 0, 2, 0, 6, 3, 0, 1, 0, 2, 0,
];

fn main(rt: HostRuntime) -> anyhow::Result<()> {
    show_all(&rt, &FIELDS)?;
    show_all(&rt, &RULES)?;
    show_all(&rt, &STEPS)?;
    show_full(&rt)?;
    let book = nine(rt.alloc())?;
    show(&rt, "nine rules", book.as_slice(), &[], 10)?;
    show(
        &rt,
        "enter and stay",
        &SOMETIME,
        &[5, 0, 2, 0, 0, 6, 0, 2, 0, 0],
        4,
    )?;
    show(
        &rt,
        "rewritten lefts",
        &EMPTY_STEPS,
        &[4, 0, 2, 0, 0, 4, 0, 2, 0, 1],
        5,
    )
}

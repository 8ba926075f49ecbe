// The files, and the fields that they hold.

// Which file is read; a work's layouts may depend on the count of indices.
// Not an Option of a count, since a book is a kind of file, and no count that is missing.
#[derive(Debug, Clone, Copy, PartialEq, Eq)]
pub enum Source {
    Book,
    Work { indices: u8 },
}

// A field as it lies in the input: a literal and a target have two bytes, a truth and a free move four, and a line is told by its number.
#[derive(Debug, Clone, Copy, PartialEq, Eq)]
pub enum Field<'a> {
    Begin {
        indices: u8,
    },
    // The kind is a byte of the file: the reader knows no kinds.
    Rule {
        kind: u8,
        index: u8,
        left: &'a [u8],
        right: &'a [u8],
    },
    Resolve {
        a: u16,
        b: u16,
        literal: u16,
    },
    Rewrite {
        line: u16,
    },
    Enter {
        line: u16,
    },
    Stay {
        line: u16,
    },
    TablePlan {
        states: u16,
        targets: &'a [u8],
        truths: &'a [u8],
        moves: &'a [u8],
    },
    Ring {
        states: u16,
        back: u16,
        truths: &'a [u8],
    },
}

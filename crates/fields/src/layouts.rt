// From the bytes of one field to what they show.
ghost use Rattle.std.specs.Prelude.{◌≡◌, ℕ, ◌+◌, ◌≤◌, true, ◌++◌, length, drop, IfSome, IfOk};
ghost use Rattle.std.specs.Option.{option_map};
ghost use Rattle.fields.specs.Shown.{shown_of, resolve, written, Fitting, FittingIn, Reads};
ghost use Rattle.fields.specs.declared.shapes.Source.TheVariants.{Book, Work};
ghost use Rattle.fields.specs.Layouts.{stands, split, counted, begin_of, rule_of, line_of, resolve_of, numbered, pairs, last_pairs, table_plan_of, ring_of, layout, work_layout, placed, told_flaw};

use crate::flaws::Flaw;
use crate::shapes::{Field, Source};

// The tag and the value of the field that the bytes begin with, where it is whole. A length is two bytes; its bound is said by itself where
// it is asked, since a name for it would say no more.
pub(crate) fn split_field(bytes: &[u8]) -> Option<(u8, &[u8])>
    ensures value { option_map (λ p. (p.0, p.1.now)) result ≡ split bytes.now }
    ensures front { IfSome result (λ p. bytes.now ≡ written p.0 p.1.now ++ drop (3 + length p.1.now) bytes.now) }
    ensures short { IfSome result (λ p. length p.1.now ≤ 65535) }
{
    let (tag, rest) = bytes.split_first()?;
    let (length, rest) = numbered(rest)?;
    let (value, _) = rest.split_at_checked(usize::from(length))?;
    Some((*tag, value))
}

// The number that the bytes begin with, high byte first, and what follows it.
fn numbered(bytes: &[u8]) -> Option<(u16, &[u8])>
    ensures { option_map (λ p. (p.0, p.1.now)) result ≡ numbered bytes.now }
{
    let (number, rest) = bytes.split_first_chunk()?;
    Some((u16::from_be_bytes(*number), rest))
}

// A number, and nothing after.
fn last_number(bytes: &[u8]) -> Option<u16>
    ensures { result ≡ line_of bytes.now }
{
    let number = bytes.as_array()?;
    Some(u16::from_be_bytes(*number))
}

// The side that the bytes begin with, two bytes for each counted literal, and what follows it.
fn counted(bytes: &[u8]) -> Option<(&[u8], &[u8])>
    ensures { option_map (λ p. (p.0.now, p.1.now)) result ≡ counted bytes.now }
{
    let (count, rest) = bytes.split_first()?;
    rest.split_at_checked(2 * usize::from(*count))
}

// The pairs that the bytes begin with, four bytes for each counted pair, and what follows them.
fn pairs(bytes: &[u8]) -> Option<(&[u8], &[u8])>
    ensures { option_map (λ p. (p.0.now, p.1.now)) result ≡ pairs bytes.now }
{
    let (count, rest) = numbered(bytes)?;
    rest.split_at_checked(4 * usize::from(count))
}

// Pairs, and nothing after.
fn last_pairs(bytes: &[u8]) -> Option<&[u8]>
    ensures { option_map (λ p. p.now) result ≡ last_pairs bytes.now }
{
    let (listed, rest) = pairs(bytes)?;
    rest.is_empty().then_some(listed)
}

// A begin: one byte, the count of indices.
fn begin_field(value: &[u8]) -> Option<Field<'_>>
    ensures { option_map shown_of result ≡ begin_of value.now }
{
    let &[indices] = value.as_array::<1>()?;
    Some(Field::Begin { indices })
}

// A rule: kind, index, left and right, and nothing after.
fn rule_field(value: &[u8]) -> Option<Field<'_>>
    ensures { option_map shown_of result ≡ rule_of value.now }
{
    let (&[kind, index], sides) = value.split_first_chunk::<2>()?;
    let (left, rest) = counted(sides)?;
    let (right, rest) = counted(rest)?;
    rest.is_empty().then_some(Field::Rule {
        kind,
        index,
        left,
        right,
    })
}

// A resolve: the numbers of two lines and the literal, and nothing after.
fn resolve_field(value: &[u8]) -> Option<Field<'_>>
    ensures { option_map shown_of result ≡ option_map (λ n. resolve n.0 n.1 n.2) (resolve_of value.now) }
{
    let (a, rest) = numbered(value)?;
    let (b, rest) = numbered(rest)?;
    let literal = last_number(rest)?;
    Some(Field::Resolve { a, b, literal })
}

// A table plan: states, a target for each state and index, truths and free moves.
fn table_plan_field(indices: u8, value: &[u8]) -> Option<Field<'_>>
    requires { length value.now ≤ 65535 }
    ensures value { option_map shown_of result ≡ table_plan_of indices value.now }
    ensures read { IfSome result (λ f. Reads (FittingIn (Work indices)) 13 value.now (shown_of f)) }
{
    let (states, rest) = numbered(value)?;
    let (targets, rest) = rest.split_at_checked(2 * usize::from(states) * usize::from(indices))?;
    let (truths, rest) = pairs(rest)?;
    let moves = last_pairs(rest)?;
    Some(Field::TablePlan {
        states,
        targets,
        truths,
        moves,
    })
}

// A ring: states, the return state and truths.
fn ring_field(value: &[u8]) -> Option<Field<'_>>
    requires { length value.now ≤ 65535 }
    ensures value { option_map shown_of result ≡ ring_of value.now }
    ensures read { IfSome result (λ f. (k : ℕ) → Reads (FittingIn (Work k)) 14 value.now (shown_of f)) }
{
    let (states, rest) = numbered(value)?;
    let (back, rest) = numbered(rest)?;
    let truths = last_pairs(rest)?;
    Some(Field::Ring {
        states,
        back,
        truths,
    })
}

// The field of a book by its tag; a begin stands first, and nowhere else.
// A tag is a byte of the file that is matched in one place: an enum of the tags would say each one twice.
fn book_field(offset: usize, tag: u8, value: &[u8]) -> Result<Field<'_>, Flaw>
    ensures { told_flaw result ≡ placed Book offset (layout Book tag value.now) }
{
    let shown = match tag {
        1 => begin_field(value),
        2 => rule_field(value),
        _ => return Err(Flaw::UnknownTag),
    };
    let field = shown.ok_or(Flaw::WrongLength)?;
    if (tag == 1) != (offset == 0) {
        return Err(Flaw::MisplacedBegin);
    }
    Ok(field)
}

// The field of a work by its tag, a byte like a book's; it may stand at any place.
fn work_field(tag: u8, value: &[u8]) -> Result<Field<'_>, Flaw>
    ensures { told_flaw result ≡ work_layout tag value.now }
{
    let shown = match tag {
        3 => resolve_field(value),
        4 => last_number(value).map(|line| Field::Rewrite { line }),
        5 => last_number(value).map(|line| Field::Enter { line }),
        6 => last_number(value).map(|line| Field::Stay { line }),
        _ => return Err(Flaw::UnknownTag),
    };
    shown.ok_or(Flaw::WrongLength)
}

// The field of a tag, which is the byte of the file, and a value at an offset.
pub(crate) fn field_of(
    source: Source,
    offset: usize,
    tag: u8,
    value: &[u8],
) -> Result<Field<'_>, Flaw>
    ensures value { told_flaw result ≡ placed source offset (layout source tag value.now) }
    ensures read { IfOk result (λ f. Reads Fitting tag value.now (shown_of f)) }
    ensures stands { IfOk result (λ f. stands source offset (shown_of f) ≡ true) }
{
    match source {
        Source::Book => book_field(offset, tag, value),
        Source::Work { .. } => work_field(tag, value),
    }
}

#![tactic(auto)]
// Lists in ascending order: what is asked of them, once for every element with a total order.
ghost use Rattle.std.specs.Prelude.{◌≡◌, ◌+◌, ◌<◌, ◌≤◌, true, ◌||◌, [], length, take, drop, IfSome, MatchOption};
ghost use Rattle.std.specs.declared.cmp.Ordering.TheVariants.{Equal};
ghost use Rattle.std.specs.Cmp.{IsTotalOrder};
ghost use Rattle.std.specs.Iterator.{at_most};
ghost use Rattle.std.specs.List.{HoldsAt};
ghost use Rattle.ordered.specs.Lists.{ascending, count_below, holds, place, within, IfAscending};
ghost use Rattle.ordered.specs.Pairs.{pair_rank};
ghost use Rattle.ordered.specs.Unions.{union, IfBothAscend, Walks, fitting};

use std::cmp::Ordering;

// Two numbers, ordered by the first and then by the second.
#[derive(Debug, Clone, Copy, Default, PartialEq, Eq, PartialOrd, Ord)]
pub struct Pair {
    pub first: u16,
    pub second: u16,
}

// Whether each element is below the next.
pub fn ascends<T: Ord>(items: &[T]) -> bool
    ensures { (o : IsTotalOrder T.Ord.cmp) → result ≡ ascending T.Ord.cmp items.now }
{
    items.is_sorted_by(|x, next| x < next)
}

// Whether each pair is below the next, whatever the pairs are: their order is known to be lawful.
#[tactic(auto, using(crate::specs::Pairs::pair_order))]
pub fn pairs_ascend(items: &[Pair]) -> bool
    ensures { result ≡ ascending pair_rank items.now }
{
    ascends(items)
}

// Where an ascending list has the element that ties with `wanted`.
#[tactic(auto, using(crate::proofs::Holding::found_there, crate::proofs::Holding::search_place))]
pub fn find<T: Ord>(items: &[T], wanted: &T) -> Option<usize>
    ensures there { IfSome result (λ i. (i < length items.now) × HoldsAt (λ x. T.Ord.cmp x wanted.now ≡ Equal) items.now i) }
    ensures is { IfAscending T.Ord.cmp items.now (result ≡ place T.Ord.cmp items.now wanted.now) }
{
    items.binary_search(wanted).ok()
}

// How many elements of an ascending list are below `wanted`.
pub fn lower<T: Ord>(items: &[T], wanted: &T) -> usize
    ensures within { result ≤ length items.now }
    ensures is { IfAscending T.Ord.cmp items.now (result ≡ count_below T.Ord.cmp items.now wanted.now) }
{
    items.partition_point(|x| x < wanted)
}

// Whether an ascending list has each element of the other.
pub fn contains_all<T: Ord>(outer: &[T], inner: &[T]) -> bool
    ensures { IfAscending T.Ord.cmp outer.now (result ≡ within T.Ord.cmp inner.now outer.now) }
{
    inner.iter().all(|wanted| find(outer, wanted).is_some())
}

// The union of two ascending lists, in order. Of two that tie, the one of `b` is kept.
#[derive(Drop)]
struct Union<'a, T> {
    a: &'a [T],
    b: &'a [T],
}

impl<'a, T: Ord> Iterator for Union<'a, T> {
    type Item = &'a T;

    ghost next_gives = { λ s r t. Walks T.Ord.cmp s.a.now s.b.now r t.a.now t.b.now };

    ghost remaining = { λ s. at_most (length s.a.now + length s.b.now) };

    fn next(&mut self) -> Option<&'a T> {
        match (self.a.split_first(), self.b.split_first()) {
            (None, None) => None,
            (Some((x, rest)), None) => {
                self.a = rest;
                Some(x)
            }
            (None, Some((y, rest))) => {
                self.b = rest;
                Some(y)
            }
            (Some((x, rest_a)), Some((y, rest_b))) => match x.cmp(y) {
                Ordering::Less => {
                    self.a = rest_a;
                    Some(x)
                }
                Ordering::Equal => {
                    self.a = rest_a;
                    self.b = rest_b;
                    Some(y)
                }
                Ordering::Greater => {
                    self.b = rest_b;
                    Some(y)
                }
            },
        }
    }
}

// Writes the union of two ascending lists at the front of `out` and counts it, or writes nothing where there is no room for it.
#[tactic(auto, using(crate::proofs::Uniting::union_ascends, crate::proofs::Uniting::union_holds))]
pub fn join<T: Ord + Copy>(a: &[T], b: &[T], out: &mut [T]) -> Option<usize>
    ensures rest { MatchOption result (out.new ≡ out.old) (λ n. (n ≤ length out.old) × (drop n out.new ≡ drop n out.old)) }
    ensures counts { IfBothAscend T.Ord.cmp a.now b.now (result ≡ fitting (length (union T.Ord.cmp a.now b.now)) (length out.old)) }
    ensures written { IfBothAscend T.Ord.cmp a.now b.now (IfSome result (λ n. take n out.new ≡ union T.Ord.cmp a.now b.now)) }
    ensures sorted { IfAscending T.Ord.cmp b.now (ascending T.Ord.cmp (union T.Ord.cmp a.now b.now) ≡ true) }
    ensures members { (o : IsTotalOrder T.Ord.cmp) (x : T) → holds T.Ord.cmp (union T.Ord.cmp a.now b.now) x ≡ (holds T.Ord.cmp a.now x || holds T.Ord.cmp b.now x) }
{
    if (Union { a, b }).nth(out.len()).is_some() {
        return None;
    }
    // `enumerate` and `next`, since a zip would not tell how many are written.
    let mut union = Union { a, b };
    for (count, place) in out.iter_mut().enumerate() {
        let Some(first) = union.next() else {
            return Some(count);
        };
        *place = *first;
    }
    Some(out.len())
}

// A pair of list numbers that are to be joined, and how it is taken apart.
ghost use Rattle.std.specs.Prelude.{◌≡◌, ◌<◌, true, false, if◌then◌else◌};
ghost use Rattle.ledger.specs.Diagrams.{Formed};
ghost use Rattle.joining.specs.Rules.{number_of};
ghost use Rattle.joining.specs.Pairs.{Settles, Falls, parted_at, parted, apart, asked, by_heads};

use crate::rule::Rule;
use memory::reading::read_vertex;
use memory::recall::Question;
use memory::shelf::Shelf;
use symbols::Symbol;

#[derive(Clone, Copy)]
pub struct Pair {
    pub first: u32,
    pub second: u32,
}

// A pair taken apart: the earlier head of the two lists, and the pairs of their outer and their inner lists.
#[derive(Drop, Clone, Copy)]
pub struct Split<S> {
    pub label: S,
    pub outer: Pair,
    pub inner: Pair,
}

// What the recall table is asked of a pair.
pub fn question(rule: Rule, pair: Pair) -> Question
    ensures { result ≡ asked (number_of rule) pair }
{
    let Pair { first, second } = pair;
    Question {
        rule: u8::from(rule),
        first,
        second,
    }
}

// List `n` where it is kept, and else list 0. An `if` says it more plainly than `then_some` and `unwrap_or`.
fn kept(keep: bool, n: u32) -> u32
    ensures { result ≡ (if keep then n else 0) }
{
    if keep { n } else { 0 }
}

// The answer that needs no walk: list 0 on either side, equal lists, and the rules for nothing, the first and the
// second list.
pub fn shortcut(rule: Rule, pair: Pair) -> Option<u32>
    ensures { Settles (number_of rule) pair result }
{
    if pair.first == 0 {
        return Some(kept(rule.second, pair.second));
    }
    if pair.second == 0 {
        return Some(kept(rule.first, pair.first));
    }
    if pair.first == pair.second {
        return Some(kept(rule.both, pair.first));
    }
    match (rule.first, rule.second, rule.both) {
        (false, false, false) => Some(0),
        (true, false, true) => Some(pair.first),
        (false, true, true) => Some(pair.second),
        _ => None,
    }
}

// The two lists parted by a label: a list that has it as its head gives its zero and its one link, another gives itself
// and 0.
fn part_at<S: Symbol>(label: S, first: (u32, u32), second: (u32, u32)) -> Split<S>
    ensures { result ≡ parted_at label first second }
{
    Split {
        label,
        outer: Pair {
            first: first.0,
            second: second.0,
        },
        inner: Pair {
            first: first.1,
            second: second.1,
        },
    }
}

// By the head that comes first, or is both lists'.
fn by_heads<S: Symbol>(pair: Pair, first: (S, u32, u32), second: (S, u32, u32)) -> Split<S>
    ensures { result ≡ by_heads S.Symbol.before pair first second }
{
    let (a, first_zero, first_one) = first;
    let (b, second_zero, second_one) = second;
    if a.before(b) {
        return part_at(a, (first_zero, first_one), (pair.second, 0));
    }
    if b.before(a) {
        return part_at(b, (pair.first, 0), (second_zero, second_one));
    }
    part_at(a, (first_zero, first_one), (second_zero, second_one))
}

// Takes a pair apart by the vertices of its numbers; two terminals are not taken apart.
fn part_by<S: Symbol>(
    pair: Pair,
    first: Option<(S, u32, u32)>,
    second: Option<(S, u32, u32)>,
) -> Option<Split<S>>
    ensures { result ≡ parted S.Symbol.before pair first second }
{
    match (first, second) {
        (None, None) => None,
        (None, Some((b, zero, one))) => Some(part_at(b, (pair.first, 0), (zero, one))),
        (Some((a, zero, one)), None) => Some(part_at(a, (zero, one), (pair.second, 0))),
        (Some(v), Some(w)) => Some(by_heads(pair, v, w)),
    }
}

// Takes a pair apart. The two new pairs have lower numbers, whatever lies on the shelf.
pub fn take_apart<S: Symbol, B: Shelf<S>>(shelf: &B, pair: Pair) -> Option<Split<S>>
    ensures below { Falls pair result }
    ensures value { Formed S.Symbol.before (B.Shelf.vertices shelf.now) → result ≡ apart S.Symbol.before (B.Shelf.vertices shelf.now) pair }
{
    let first = read_vertex(shelf, pair.first);
    let second = read_vertex(shelf, pair.second);
    part_by(pair, first, second)
}

// The tables of calls on a store.
use crate::call::Call;
use crate::running::{Memory, run_on_both};
use letters::Letter;
use std::io;
use steps::{Step, Unit};

// A code of 64 letters, and one letter more.
const LONGEST: &str = "AAAAAAAAAAAAAAAAAAAAAAAAAAAAAAAAAAAAAAAAAAAAAAAAAAAAAAAAAAAAAAAA";

const TOO_LONG: &str = "AAAAAAAAAAAAAAAAAAAAAAAAAAAAAAAAAAAAAAAAAAAAAAAAAAAAAAAAAAAAAAAAA";

const WORKED: [Call; 30] = [
    Call::Add("AB", 0),
    Call::Add("B", 3),
    Call::Look(4),
    Call::Remove("AB", 4),
    Call::Add("", 4),
    Call::Join(3, 4, 3),
    Call::Join(7, 2, 3),
    Call::Pick(6, 0, 64),
    Call::Pick(6, 1, 64),
    Call::Pick(6, 2, 64),
    Call::Pick(6, 3, 64),
    Call::Under(6, "A"),
    Call::Under(6, "AB"),
    Call::Under(6, "C"),
    Call::Under(6, ""),
    Call::Vertices(6),
    Call::Count(6),
    Call::Holds("AB", 4),
    Call::Holds("A", 4),
    Call::Holds("", 4),
    Call::Holds("", 6),
    Call::Used,
    // a code gone and back
    Call::Remove("B", 6),
    Call::Look(7),
    Call::Add("B", 7),
    Call::Used,
    Call::Look(0),
    Call::Look(1),
    Call::Look(2),
    Call::Look(8),
];

// A list that finds no place leaves nothing behind; one that has a number needs no place.
const FULL: [Call; 10] = [
    Call::Add("AB", 0),
    Call::Add("B", 3),
    Call::Used,
    Call::Add("B", 0),
    Call::Add("AB", 3),
    Call::Remove("B", 3),
    Call::Remove("AB", 3),
    Call::Look(3),
    Call::Look(4),
    Call::Used,
];

// C is laid down before the list finds no place, and is taken back.
const HALF_LAID: [Call; 7] = [
    Call::Add("AB", 0),
    Call::Add("C", 3),
    Call::Used,
    Call::Look(4),
    Call::Add("C", 0),
    Call::Add("C", 0),
    Call::Used,
];

// {B, C} is joined before the whole join finds no place, and must not be recalled.
const JOINED_IN_VAIN: [Call; 10] = [
    Call::Add("C", 0),
    Call::Add("AC", 0),
    Call::Add("B", 0),
    Call::Add("B", 3),
    Call::Join(7, 5, 2),
    Call::Used,
    Call::Join(7, 4, 2),
    Call::Look(6),
    Call::Join(7, 5, 2),
    Call::Used,
];

// 6 is {A, AB, B}, 8 is {AB, B}, 11 is {AB, B, C}, 2 is {A}, and 9 is {C}.
const JOINED: [Call; 43] = [
    Call::Add("A", 0),
    Call::Add("AB", 2),
    Call::Add("B", 4),
    Call::Add("AB", 0),
    Call::Add("B", 7),
    Call::Add("C", 8),
    // they share
    Call::Join(0, 6, 11),
    Call::Join(1, 6, 11),
    Call::Join(2, 6, 11),
    Call::Join(3, 6, 11),
    Call::Join(4, 6, 11),
    Call::Join(5, 6, 11),
    Call::Join(6, 6, 11),
    Call::Join(7, 6, 11),
    // the second is within the first
    Call::Join(0, 6, 8),
    Call::Join(1, 6, 8),
    Call::Join(2, 6, 8),
    Call::Join(3, 6, 8),
    Call::Join(4, 6, 8),
    Call::Join(5, 6, 8),
    Call::Join(6, 6, 8),
    Call::Join(7, 6, 8),
    // they miss each other
    Call::Join(0, 2, 9),
    Call::Join(1, 2, 9),
    Call::Join(2, 2, 9),
    Call::Join(3, 2, 9),
    Call::Join(4, 2, 9),
    Call::Join(5, 2, 9),
    Call::Join(6, 2, 9),
    Call::Join(7, 2, 9),
    // a list and itself
    Call::Join(1, 6, 6),
    Call::Join(3, 6, 6),
    Call::Join(4, 6, 6),
    // the last place, and then none
    Call::Join(7, 6, 1),
    Call::Used,
    Call::Join(7, 2, 1),
    Call::Used,
    Call::Look(15),
    Call::Join(3, 6, 11),
    Call::Join(7, 11, 6),
    Call::Join(1, 14, 1),
    Call::Join(4, 14, 1),
    Call::Join(7, 6, 1),
];

// Each refusal of an argument, and the last argument that is taken.
const REFUSED: [Call; 31] = [
    Call::Add("A", 2),
    Call::Add("A", 0),
    Call::Join(7, 3, 0),
    Call::Join(7, 0, 3),
    Call::Join(7, 3, 3),
    Call::Join(8, 2, 0),
    Call::Join(256, 2, 0),
    Call::Add(LONGEST, 0),
    Call::Add(TOO_LONG, 0),
    Call::Remove(LONGEST, 65),
    Call::Remove(TOO_LONG, 65),
    Call::Holds(LONGEST, 65),
    Call::Holds(TOO_LONG, 65),
    Call::Under(65, LONGEST),
    Call::Under(65, TOO_LONG),
    Call::Count(65),
    Call::Vertices(65),
    Call::Pick(65, 0, 64),
    Call::Pick(65, 0, 63),
    Call::Pick(65, 1, 64),
    Call::Pick(0, 0, 64),
    Call::Pick(1, 0, 64),
    Call::Remove("A", 66),
    Call::Holds("A", 66),
    Call::Under(66, "A"),
    Call::Count(66),
    Call::Vertices(66),
    Call::Pick(66, 0, 64),
    Call::Count(4294967295),
    Call::Look(4294967295),
    Call::Used,
];

// One place of work space too few: which refusal comes first. Three calls need no work space.
const ONE_PLACE_SHORT: [Call; 21] = [
    Call::Add(TOO_LONG, 2),
    Call::Add(TOO_LONG, 0),
    Call::Add("A", 0),
    Call::Remove(TOO_LONG, 2),
    Call::Remove(TOO_LONG, 0),
    Call::Remove("A", 0),
    Call::Join(8, 2, 2),
    Call::Join(8, 0, 2),
    Call::Join(8, 0, 0),
    Call::Join(7, 0, 0),
    Call::Pick(2, 0, 63),
    Call::Pick(0, 0, 63),
    Call::Pick(0, 0, 64),
    Call::Count(2),
    Call::Count(0),
    Call::Vertices(2),
    Call::Vertices(0),
    Call::Holds("A", 0),
    Call::Under(0, "A"),
    Call::Look(2),
    Call::Used,
];

// T9 comes before T10.
const TRENCHES: [Call; 11] = [
    Call::Add("T10", 0),
    Call::Add("T9", 2),
    Call::Look(3),
    Call::Pick(3, 0, 64),
    Call::Pick(3, 1, 64),
    Call::Add("T9/C2", 3),
    Call::Look(5),
    Call::Count(5),
    Call::Under(5, "T9"),
    Call::Holds("T9/C2", 5),
    Call::Holds("C2", 5),
];

// What memory for symbols holds before it is used.
const OLD_STEP: Step = Step {
    unit: Unit::Photo,
    number: 9,
};

pub fn run_all(rt: &HostRuntime) -> io::Result<()> {
    let on_letters = |title: &str, memory: Memory, table: &[Call]| {
        run_on_both(rt, title, Letter::Tilde, memory, table)
    };
    let short = Memory {
        capacity: 10,
        places: 275,
    };
    on_letters("worked calls", Memory::enough(10), &WORKED)?;
    on_letters("full", Memory::enough(2), &FULL)?;
    on_letters("half laid", Memory::enough(3), &HALF_LAID)?;
    on_letters("joined in vain", Memory::enough(5), &JOINED_IN_VAIN)?;
    on_letters("joined", Memory::enough(13), &JOINED)?;
    on_letters("refused", Memory::enough(100), &REFUSED)?;
    on_letters("one place short", short, &ONE_PLACE_SHORT)?;
    run_on_both(rt, "trenches", OLD_STEP, Memory::enough(10), &TRENCHES)
}

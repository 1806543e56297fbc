// Steps: a unit of the excavation and a number, in order by unit and then by number.
//
// By its cases and a number of full range, no value of the type is no step. A code of steps has a text such as T3/B20/P7: the
// letter of each unit and the number in decimal, with slashes between. Reading looks at each byte twice, and writing at each
// step twice: first to see that the call can succeed, since one that is refused changes nothing.
#![tactic(auto)]

ghost use Rattle.std.specs.Prelude.{◌≡◌, ◌+◌, ◌*◌, ◌%◌, ◌^◌};
ghost use Rattle.texts.specs.Texts.{ReadTo};
ghost use Rattle.steps.specs.Paths.{text_of, Exact};
ghost use Rattle.steps.specs.Spelling.{own_text};
ghost use Rattle.steps.specs.Stages.{spelled};
ghost use Rattle.steps.specs.Units.{unit_byte, unit_of, earlier, step_travel, unit_letter, unit_of_letter};
ghost use Rattle.steps.specs.UnitsLemmas.{step_order, step_laws};

use crate::reading::read_steps;
use crate::writing::write_steps;
use symbols::{ShortOutput, Symbol, SymbolFault, WireSymbol};
use texts::{TextFault, TextSymbol};

mod reading;
mod writing;

// The number of this kind.
const KIND: u8 = 2;

// The bytes that a step takes: one for its unit, and two for its number.
const WIDTH: usize = 3;

#[derive(Clone, Copy, Debug, PartialEq, Eq, PartialOrd, Ord)]
pub enum Unit {
    Site = 1,
    Trench = 2,
    Context = 3,
    Bag = 4,
    Sherd = 5,
    SoilSample = 6,
    Photo = 7,
}

#[derive(Clone, Copy, Debug, PartialEq, Eq, PartialOrd, Ord)]
pub struct Step {
    pub unit: Unit,
    pub number: u16,
}

// The unit of a byte.
impl TryFrom<u8> for Unit {
    type Error = SymbolFault;

    ghost try_from_gives = { λ b r. r ≡ unit_of b };

    fn try_from(b: u8) -> Result<Unit, SymbolFault> {
        let unit = match b {
            1 => Unit::Site,
            2 => Unit::Trench,
            3 => Unit::Context,
            4 => Unit::Bag,
            5 => Unit::Sherd,
            6 => Unit::SoilSample,
            7 => Unit::Photo,
            _ => return Err(SymbolFault { byte: b }),
        };
        Ok(unit)
    }
}

// The byte of a unit.
impl From<Unit> for u8 {
    ghost from_gives = { λ unit r. r ≡ unit_byte unit };

    fn from(unit: Unit) -> u8 {
        unit as u8
    }
}

// Its letter, by methods: `u8::from` gives a unit's byte.
impl Unit {
    // The unit that a letter stands for in a text.
    pub fn from_letter(c: char) -> Option<Unit>
        ensures { result ≡ unit_of_letter c }
    {
        match c {
            'S' => Some(Unit::Site),
            'T' => Some(Unit::Trench),
            'C' => Some(Unit::Context),
            'B' => Some(Unit::Bag),
            'P' => Some(Unit::Sherd),
            'M' => Some(Unit::SoilSample),
            'F' => Some(Unit::Photo),
            _ => None,
        }
    }

    // The letter of a unit in a text.
    pub fn to_letter(self) -> u8
        ensures { result ≡ unit_letter self }
    {
        match self {
            Unit::Site => b'S',
            Unit::Trench => b'T',
            Unit::Context => b'C',
            Unit::Bag => b'B',
            Unit::Sherd => b'P',
            Unit::SoilSample => b'M',
            Unit::Photo => b'F',
        }
    }
}

impl Symbol for Step {
    ghost before = { earlier };

    ghost scatter = { λ s. (unit_byte s.unit * 65536 + s.number) * 2654435761 % 2 ^ 32 };

    ghost ordered = { step_order };

    fn before(self, other: Step) -> bool {
        // By the unit's byte: the derived `<` looks both units up in a table.
        (u8::from(self.unit), self.number) < (u8::from(other.unit), other.number)
    }

    fn scatter(self) -> u32 {
        (u32::from(u8::from(self.unit)) * 65536 + u32::from(self.number)).wrapping_mul(2654435761)
    }
}

impl WireSymbol for Step {
    ghost travel = { step_travel };

    ghost wired = { step_laws };

    fn kind() -> u8 {
        KIND
    }

    fn width() -> usize {
        WIDTH
    }

    fn write(self, out: &mut [u8]) {
        let [high, low] = self.number.to_be_bytes();
        out[0] = u8::from(self.unit);
        out[1] = high;
        out[2] = low;
    }

    fn read(from: &[u8]) -> Result<Step, SymbolFault> {
        let unit = Unit::try_from(from[0])?;
        let number = u16::from_be_bytes([from[1], from[2]]);
        Ok(Step { unit, number })
    }
}

impl TextSymbol for Step {
    ghost spells = { spelled };

    ghost text = { text_of };

    ghost own = { own_text };

    // Reads twice: first with no room at all, to see that the text can be read.
    fn read_code(from: &[u8], out: &mut [Step]) -> Result<usize, TextFault>
        ensures answer { ReadTo (spelled from.now) out.old result out.new }
        ensures exact { Exact from.now (spelled from.now) }
    {
        read_steps(from, &mut [])?;
        read_steps(from, out)
    }

    fn write_code(code: &[Step], out: &mut [u8]) -> Result<usize, ShortOutput> {
        write_steps(code, out)
    }
}

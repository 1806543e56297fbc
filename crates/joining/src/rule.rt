// The rule of a join: which codes stay.
ghost use Rattle.std.specs.Prelude.{◌≡◌};
ghost use Rattle.joining.specs.Rules.{number_of, IsRule};

// Whether codes stay that are only in the first list, only in the second, in both.
#[derive(Clone, Copy, Debug, PartialEq, Eq)]
pub struct Rule {
    pub first: bool,
    pub second: bool,
    pub both: bool,
}

// A number that names no rule.
#[derive(Clone, Copy, Debug, PartialEq, Eq)]
pub struct NoSuchRule;

// The rule with a number from 0 to 7, a sum: 1 for the first, 2 for the second, 4 for both.
impl TryFrom<u32> for Rule {
    type Error = NoSuchRule;

    ghost try_from_gives = { IsRule };

    fn try_from(n: u32) -> Result<Rule, NoSuchRule> {
        if n > 7 {
            return Err(NoSuchRule);
        }
        Ok(Rule {
            first: n % 2 == 1,
            second: n / 2 % 2 == 1,
            both: n / 4 == 1,
        })
    }
}

impl From<Rule> for u8 {
    ghost from_gives = { λ rule n. n ≡ number_of rule };

    fn from(rule: Rule) -> u8 {
        u8::from(rule.first) + 2 * u8::from(rule.second) + 4 * u8::from(rule.both)
    }
}

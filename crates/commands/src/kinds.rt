// The first line of input: which kind of symbol the codes are made of.
ghost use Rattle.std.specs.Prelude.{◌≡◌, ◌↔◌, Some};
ghost use Rattle.commands.specs.declared.kinds.Kind.{Kind};
ghost use Rattle.commands.specs.Grammar.{kind_text};

// A kind of symbol.
#[derive(Clone, Copy, Debug, PartialEq, Eq)]
pub enum Kind {
    Letters,
    Steps,
}

// The kind that a line names: exactly LETTERS or STEPS. A function: there is nothing to tell of a line that names none.
pub fn read_kind(line: &[u8]) -> Option<Kind>
    ensures answer { (k : Kind) → (result ≡ Some k) ↔ (kind_text k ≡ line.now) }
{
    match line {
        b"LETTERS" => Some(Kind::Letters),
        b"STEPS" => Some(Kind::Steps),
        _ => None,
    }
}

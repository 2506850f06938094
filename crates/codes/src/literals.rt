// The literals of binary JSON.
ghost use Rattle.std.specs.Prelude.{◌≡◌};
ghost use Rattle.codes.specs.Literals.{code_of, type_of};

use refusal::Refusal;

// The literals of binary JSON.
#[derive(Clone, Copy, Debug, PartialEq, Eq, Hash)]
pub enum LiteralType {
    Null = 0,
    True = 1,
    False = 2,
}

impl LiteralType {
    // Its number.
    pub fn code(self) -> u8
        ensures { result ≡ code_of self }
    {
        self as u8
    }
}

// The literal of a byte, or 7.
impl TryFrom<u8> for LiteralType {
    type Error = Refusal;

    ghost try_from_gives = { λ code result. result ≡ type_of code };

    #[tactic(auto, unfolding(crate::specs::Literals::type_of, crate::specs::Lists::search))]
    fn try_from(code: u8) -> Result<LiteralType, Refusal> {
        match code {
            0 => Ok(LiteralType::Null),
            1 => Ok(LiteralType::True),
            2 => Ok(LiteralType::False),
            _ => Err(Refusal::Literal),
        }
    }
}

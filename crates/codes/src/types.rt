// The type codes of binary JSON, as json_binary.h numbers them.
ghost use Rattle.std.specs.Prelude.{◌≡◌};
ghost use Rattle.codes.specs.Types.{code_of, type_of};

use refusal::Refusal;

// The type codes of binary JSON, as json_binary.h numbers them.
#[derive(Clone, Copy, Debug, PartialEq, Eq, Hash)]
pub enum JsonbType {
    SmallObject = 0,
    LargeObject = 1,
    SmallArray = 2,
    LargeArray = 3,
    Literal = 4,
    Int16 = 5,
    Uint16 = 6,
    Int32 = 7,
    Uint32 = 8,
    Int64 = 9,
    Uint64 = 10,
    Double = 11,
    String = 12,
    Opaque = 15,
}

impl JsonbType {
    // Its number.
    pub fn code(self) -> u8
        ensures { result ≡ code_of self }
    {
        self as u8
    }
}

// The type of a code, or 2.
impl TryFrom<u8> for JsonbType {
    type Error = Refusal;

    ghost try_from_gives = { λ code result. result ≡ type_of code };

    #[tactic(auto, unfolding(crate::specs::Types::type_of, crate::specs::Lists::search))]
    fn try_from(code: u8) -> Result<JsonbType, Refusal> {
        match code {
            0 => Ok(JsonbType::SmallObject),
            1 => Ok(JsonbType::LargeObject),
            2 => Ok(JsonbType::SmallArray),
            3 => Ok(JsonbType::LargeArray),
            4 => Ok(JsonbType::Literal),
            5 => Ok(JsonbType::Int16),
            6 => Ok(JsonbType::Uint16),
            7 => Ok(JsonbType::Int32),
            8 => Ok(JsonbType::Uint32),
            9 => Ok(JsonbType::Int64),
            10 => Ok(JsonbType::Uint64),
            11 => Ok(JsonbType::Double),
            12 => Ok(JsonbType::String),
            15 => Ok(JsonbType::Opaque),
            _ => Err(Refusal::Type),
        }
    }
}

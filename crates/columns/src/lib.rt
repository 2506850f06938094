// The numbers of MySQL's column types as an enum.
#![tactic(auto)]

ghost use Rattle.std.specs.Prelude.{◌≡◌};
ghost use Rattle.columns.specs.Columns.{code_of, type_of};

use refusal::Refusal;

// MySQL's column types, as constants.rs takes them.
#[derive(Clone, Copy, Debug, PartialEq, Eq, Hash)]
pub enum ColumnType {
    Decimal = 0,
    Tiny = 1,
    Short = 2,
    Long = 3,
    Float = 4,
    Double = 5,
    Null = 6,
    Timestamp = 7,
    Longlong = 8,
    Int24 = 9,
    Date = 10,
    Time = 11,
    Datetime = 12,
    Year = 13,
    Newdate = 14,
    Varchar = 15,
    Bit = 16,
    Timestamp2 = 17,
    Datetime2 = 18,
    Time2 = 19,
    TypedArray = 20,
    Vector = 242,
    Unknown = 243,
    Json = 245,
    Newdecimal = 246,
    Enum = 247,
    Set = 248,
    TinyBlob = 249,
    MediumBlob = 250,
    LongBlob = 251,
    Blob = 252,
    VarString = 253,
    String = 254,
    Geometry = 255,
}

impl ColumnType {
    // Its number.
    pub fn code(self) -> u8
        ensures { result ≡ code_of self }
    {
        self as u8
    }
}

// The column type of a byte, or 10.
impl TryFrom<u8> for ColumnType {
    type Error = Refusal;

    ghost try_from_gives = { λ code result. result ≡ type_of code };

    #[tactic(auto, unfolding(crate::specs::Columns::type_of, codes::specs::Lists::search))]
    fn try_from(code: u8) -> Result<ColumnType, Refusal> {
        match code {
            0 => Ok(ColumnType::Decimal),
            1 => Ok(ColumnType::Tiny),
            2 => Ok(ColumnType::Short),
            3 => Ok(ColumnType::Long),
            4 => Ok(ColumnType::Float),
            5 => Ok(ColumnType::Double),
            6 => Ok(ColumnType::Null),
            7 => Ok(ColumnType::Timestamp),
            8 => Ok(ColumnType::Longlong),
            9 => Ok(ColumnType::Int24),
            10 => Ok(ColumnType::Date),
            11 => Ok(ColumnType::Time),
            12 => Ok(ColumnType::Datetime),
            13 => Ok(ColumnType::Year),
            14 => Ok(ColumnType::Newdate),
            15 => Ok(ColumnType::Varchar),
            16 => Ok(ColumnType::Bit),
            17 => Ok(ColumnType::Timestamp2),
            18 => Ok(ColumnType::Datetime2),
            19 => Ok(ColumnType::Time2),
            20 => Ok(ColumnType::TypedArray),
            242 => Ok(ColumnType::Vector),
            243 => Ok(ColumnType::Unknown),
            245 => Ok(ColumnType::Json),
            246 => Ok(ColumnType::Newdecimal),
            247 => Ok(ColumnType::Enum),
            248 => Ok(ColumnType::Set),
            249 => Ok(ColumnType::TinyBlob),
            250 => Ok(ColumnType::MediumBlob),
            251 => Ok(ColumnType::LongBlob),
            252 => Ok(ColumnType::Blob),
            253 => Ok(ColumnType::VarString),
            254 => Ok(ColumnType::String),
            255 => Ok(ColumnType::Geometry),
            _ => Err(Refusal::Column),
        }
    }
}

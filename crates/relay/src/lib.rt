// The functions for programs in C and Rust: numbers and lent slices alone, and no demand on the caller. Each returns a refusal's number, or 0, and
// stores its answer's numbers at the front of `answer`; an `answer` that is too short is refused by 25 before all else, and then nothing lent changes.
#![tactic(auto)]

ghost use Rattle.std.specs.Prelude.{◌≡◌};
ghost use Rattle.gate.specs.Said.{read_said, said};
ghost use Rattle.jsonb.specs.Views.{root_read, elem_at, key_at, count_at};
ghost use Rattle.decimal.specs.Read.{read_bin, read_packed};
ghost use Rattle.decimal.specs.Text.{parse_text};
ghost use Rattle.lent.specs.Layout.{Relays, beside, flag};
ghost use Rattle.rows.specs.Rows.{value_told};
ghost use Rattle.small_rows.specs.SmallRows.{key_told, count_told};
ghost use Rattle.surface.specs.Documents.{view_by, walk_told, walk_leaves};
ghost use Rattle.refusal.specs.Told.{told_by};
ghost use Rattle.time.specs.Answers.{numbers, written};
ghost use Rattle.surface.specs.Times.{typed_told, time_told, record_told, record_leaves, time_written_told, time_written_leaves};
ghost use Rattle.surface.specs.Decimals.{decimal_told, written_told, written_leaves, printed_told, printed_leaves, order_told};

use decimal::Decimal;
use layout::Kind;
use records::{decimal_in, put_answer};
use refusal::Refusal;
use rows::put_found;
use small_records::{put_compared, put_counted};
use small_rows::{put_count, put_key, put_walked};
use time::{MysqlTime, TimeType};
use time_records::{put_read, written_number};
use value::{Value, View};

// A view by its numbers: the type code says of what kind it is.
fn view_by(code: u32, start: u32, size: u32, count: u32) -> View
    ensures { result ≡ view_by code start size count }
{
    if 3 < code {
        return View {
            start: 4294967295,
            size: 0,
            count: 0,
            kind: Kind {
                object: false,
                large: false,
            },
        };
    }
    View {
        start,
        size,
        count,
        kind: Kind {
            object: code < 2,
            large: code % 2 == 1,
        },
    }
}

fn root(doc: &[u8]) -> Result<Option<Value>, Refusal>
    ensures { said result ≡ read_said (root_read doc.now) }
{
    Ok(Some(jsonb::deserialize(doc)?))
}

// The root value.
#[unsafe(no_mangle)]
pub extern "C" fn bratthelm_root(doc: &[u8], answer: &mut [u32]) -> u32
    ensures { Relays 5 (value_told (read_said (root_read doc.now))) answer.old result answer.new }
{
    put_found(answer, root(doc))
}

// The element, or the member's value, at a position of a container.
#[unsafe(no_mangle)]
pub extern "C" fn bratthelm_elem_at(
    doc: &[u8],
    code: u32,
    start: u32,
    size: u32,
    count: u32,
    pos: u32,
    answer: &mut [u32],
) -> u32
    ensures { Relays 5 (value_told (elem_at doc.now (view_by code start size count) pos)) answer.old result answer.new }
{
    put_found(
        answer,
        jsonb::elem_at(doc, view_by(code, start, size, count), pos),
    )
}

// The key at a position of an object.
#[unsafe(no_mangle)]
pub extern "C" fn bratthelm_key_at(
    doc: &[u8],
    code: u32,
    start: u32,
    size: u32,
    count: u32,
    pos: u32,
    answer: &mut [u32],
) -> u32
    ensures { Relays 3 (key_told (key_at doc.now (view_by code start size count) pos)) answer.old result answer.new }
{
    put_key(
        answer,
        jsonb::key_at(doc, view_by(code, start, size, count), pos),
    )
}

// How many elements or members a container has.
#[unsafe(no_mangle)]
pub extern "C" fn bratthelm_element_count(
    doc: &[u8],
    code: u32,
    start: u32,
    size: u32,
    count: u32,
    answer: &mut [u32],
) -> u32
    ensures { Relays 1 (count_told (count_at doc.now (view_by code start size count))) answer.old result answer.new }
{
    put_count(
        answer,
        jsonb::element_count(doc, view_by(code, start, size, count)),
    )
}

// Every path of the document, as events in a lent slice.
#[unsafe(no_mangle)]
pub extern "C" fn bratthelm_walk(doc: &[u8], events: &mut [u32], answer: &mut [u32]) -> u32
    ensures relays { Relays 2 (walk_told doc.now events.old) answer.old result answer.new }
    ensures events_after { events.new ≡ beside 2 answer.old events.old (walk_leaves doc.now events.old) }
{
    if answer.len() < 2 {
        return u32::from(Refusal::Room.number());
    }
    put_walked(answer, walk::walk(doc, events))
}

// The decimal in digit bytes of a known precision and scale.
#[unsafe(no_mangle)]
pub extern "C" fn bratthelm_decimal_read_bin(
    bytes: &[u8],
    precision: u32,
    scale: u32,
    keep: u32,
    answer: &mut [u32],
) -> u32
    ensures { Relays 12 (decimal_told (read_bin bytes.now precision scale (flag keep))) answer.old result answer.new }
{
    put_answer(
        answer,
        Decimal::read_bin(bytes, precision as usize, scale as usize, keep != 0),
    )
}

// The decimal in its packed form: a precision byte, a scale byte and digit bytes.
#[unsafe(no_mangle)]
pub extern "C" fn bratthelm_decimal_read_packed(bytes: &[u8], keep: u32, answer: &mut [u32]) -> u32
    ensures { Relays 12 (decimal_told (read_packed bytes.now (flag keep))) answer.old result answer.new }
{
    put_answer(answer, Decimal::read_packed(bytes, keep != 0))
}

// The decimal that a text writes.
#[unsafe(no_mangle)]
pub extern "C" fn bratthelm_decimal_parse(text: &[u8], answer: &mut [u32]) -> u32
    ensures { Relays 12 (decimal_told (parse_text text.now)) answer.old result answer.new }
{
    put_answer(answer, Decimal::parse_str_bytes(text))
}

// The digit bytes of a decimal, into a lent slice; the answer is how many they are.
#[unsafe(no_mangle)]
pub extern "C" fn bratthelm_decimal_write_bin(
    decimal: &[u32],
    bytes: &mut [u8],
    answer: &mut [u32],
) -> u32
    ensures relays { Relays 1 (written_told decimal.now bytes.old) answer.old result answer.new }
    ensures bytes_after { bytes.new ≡ written_leaves decimal.now bytes.old answer.old }
{
    if answer.len() < 1 {
        return u32::from(Refusal::Room.number());
    }
    put_counted(answer, decimal_in(decimal).write_bin(bytes))
}

// The text of a decimal, into a lent slice; the answer is how many characters it has.
#[unsafe(no_mangle)]
pub extern "C" fn bratthelm_decimal_print(
    decimal: &[u32],
    text: &mut [u8],
    answer: &mut [u32],
) -> u32
    ensures relays { Relays 1 (printed_told decimal.now text.old) answer.old result answer.new }
    ensures text_after { text.new ≡ printed_leaves decimal.now text.old answer.old }
{
    if answer.len() < 1 {
        return u32::from(Refusal::Room.number());
    }
    put_counted(answer, decimal_in(decimal).print(text))
}

// The order of two decimals by value: 0 less, 1 equal, 2 greater.
#[unsafe(no_mangle)]
pub extern "C" fn bratthelm_decimal_compare(left: &[u32], right: &[u32], answer: &mut [u32]) -> u32
    ensures { Relays 1 (order_told left.now right.now) answer.old result answer.new }
{
    put_compared(answer, decimal_in(left).compare(decimal_in(right)))
}

// A date or time of a type, or 30 where a number names none.
fn read_typed(bytes: &[u8], kind: Option<TimeType>) -> Result<MysqlTime, Refusal>
    ensures { told_by numbers result ≡ typed_told kind bytes.now }
{
    match kind {
        Some(kind) => MysqlTime::read_packed(bytes, kind),
        None => Err(Refusal::TimeField),
    }
}

// The date or time in its packed form, of the column type with this number.
#[tactic(auto, unfolding(surface::specs::Times::time_told))]
#[unsafe(no_mangle)]
pub extern "C" fn bratthelm_time_read_packed(
    bytes: &[u8],
    time_type: u32,
    answer: &mut [u32],
) -> u32
    ensures { Relays 9 (time_told time_type bytes.now) answer.old result answer.new }
{
    put_read(answer, read_typed(bytes, TimeType::of(time_type)))
}

fn write_record(time: Option<MysqlTime>, bytes: &mut [u8]) -> Result<(), Refusal>
    ensures value { told_by written result ≡ record_told time bytes.old }
    ensures bytes_after { bytes.new ≡ record_leaves time bytes.old }
{
    time.ok_or(Refusal::TimeField)?.write_packed(bytes)
}

// The packed form of a date or time, into the first eight bytes of a lent slice. There is no answer but the number that is returned.
#[tactic(auto, unfolding(surface::specs::Times::time_written_told, surface::specs::Times::time_written_leaves))]
#[unsafe(no_mangle)]
pub extern "C" fn bratthelm_time_write_packed(time: &[u32], bytes: &mut [u8]) -> u32
    ensures value { result ≡ (time_written_told time.now bytes.old).number }
    ensures bytes_after { bytes.new ≡ time_written_leaves time.now bytes.old }
{
    written_number(write_record(time_records::time_by(time), bytes))
}

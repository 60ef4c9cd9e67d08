//! What a number and a place say: a refusal's name and its sentence; and the library's version.
ghost use Rattle.std.specs.Prelude.{◌≡◌, ◌⊎◌, ◌<◌, ◌%◌, [], IfOk, IfSome, IfNone, codes};
ghost use Rattle.table_model.specs.RefusalText.{number_of};
ghost use Rattle.lanes_c.specs.Names.{IsNameOf, IsSentenceOf, SaysAgain, batch_of, command_refusal_at, own_name, own_refusal_at, own_sentence, refusal_at, refusal_of_bytes, refusal_of_calls, refusal_of_texts};
ghost use Rattle.lanes_c.specs.Rooms.{IsFilled};

use crate::fault::{BUSY, DAMAGED, NOT_OPEN, Place, SYSTEM};
use crate::room::fill;
use refusal_sentences::{CommandRefusal, Knowledge, Sentence};
use std::alloc::{AllocError, Global};
use table_model::{BatchName, Number, Origin, Refusal};

/// The library's version, which is the program's.
const VERSION: &str = "0.12.1";

/// What is said of a separator that can't be one.
const NO_SEPARATOR: &str =
    "the separator is one ASCII character; no letter, no digit, and none of \" - _ \\ and a line's end";

/// What is said of a null's word that is no text.
const NO_NULL_WORD: &str = "the word that is a null too is not UTF-8";

/// A number's low 32 bits.
fn low(number: u64) -> u32
    ensures { result ≡ number % 4294967296 }
{
    (number % 4_294_967_296) as u32
}

/// The batch that a place is.
fn batch_at(place: Place) -> BatchName
    ensures { result ≡ batch_of place }
{
    BatchName {
        origin: Origin(low(place.first)),
        number: Number(low(place.second)),
    }
}

/// The refusal of a number from 1 to 12, at a place.
fn refusal_of_calls(number: u8, place: Place) -> Option<Refusal>
    ensures some { IfSome result (λ refusal. number_of refusal ≡ number) }
    ensures none { IfNone result ((number ≡ 0) ⊎ (12 < number)) }
    ensures same { result ≡ refusal_of_calls number place }
{
    match number {
        1 => Some(Refusal::Memory),
        2 => Some(Refusal::Conflict(batch_at(place))),
        3 => Some(Refusal::Full),
        4 => Some(Refusal::EmptyBatch),
        5 => Some(Refusal::BatchTooLong),
        6 => Some(Refusal::WrongArity(place.first as usize)),
        7 => Some(Refusal::OutOfType {
            row: place.first as usize,
            column: place.second as usize,
        }),
        8 => Some(Refusal::SchemaDiffers),
        9 => Some(Refusal::NumbersSpent),
        10 => Some(Refusal::NoSuchVector),
        11 => Some(Refusal::BadName),
        12 => Some(Refusal::BadSchema),
        _ => None,
    }
}

/// The refusal of a number from 13 to 25, at a place, which is a byte.
fn refusal_of_bytes(number: u8, place: Place) -> Option<Refusal>
    ensures some { IfSome result (λ refusal. number_of refusal ≡ number) }
    ensures none { IfNone result ((number < 13) ⊎ (25 < number)) }
    ensures same { result ≡ refusal_of_bytes number place }
{
    let at = place.first;
    match number {
        13 => Some(Refusal::Truncated(at)),
        14 => Some(Refusal::BadMagic),
        15 => Some(Refusal::BadVersion),
        16 => Some(Refusal::BadOrder(at)),
        17 => Some(Refusal::BadCount(at)),
        18 => Some(Refusal::BadWidth(at)),
        19 => Some(Refusal::BadTag(at)),
        20 => Some(Refusal::BadMask(at)),
        21 => Some(Refusal::BadDictionary(at)),
        22 => Some(Refusal::BadCode(at)),
        23 => Some(Refusal::BadRange(at)),
        24 => Some(Refusal::TrailingBytes(at)),
        25 => Some(Refusal::NotCanonical(at)),
        _ => None,
    }
}

/// The refusal of a number from 26 to 37, at a place, which is a byte.
fn refusal_of_texts(number: u8, place: Place) -> Option<Refusal>
    ensures some { IfSome result (λ refusal. number_of refusal ≡ number) }
    ensures none { IfNone result ((number < 26) ⊎ (37 < number)) }
    ensures same { result ≡ refusal_of_texts number place }
{
    let at = place.first;
    match number {
        26 => Some(Refusal::Syntax(at)),
        27 => Some(Refusal::NoSuchTable),
        28 => Some(Refusal::NoSuchColumn(at)),
        29 => Some(Refusal::NotGrouped(at)),
        30 => Some(Refusal::NumberTooLarge(at)),
        31 => Some(Refusal::TooDeep),
        32 => Some(Refusal::LineTooLong),
        33 => Some(Refusal::ReadFault),
        34 => Some(Refusal::WriteFault),
        35 => Some(Refusal::BadLine),
        36 => Some(Refusal::NoSuchReplica),
        37 => Some(Refusal::NoSuchMessage),
        _ => None,
    }
}

/// The refusal of a number from 1 to 37, at a place.
fn refusal_of(number: u8, place: Place) -> Option<Refusal>
    ensures some { IfSome result (λ refusal. number_of refusal ≡ number) }
    ensures none { IfNone result ((number ≡ 0) ⊎ (37 < number)) }
    ensures same { result ≡ refusal_at number place }
{
    if number < 13 {
        refusal_of_calls(number, place)
    } else if number < 26 {
        refusal_of_bytes(number, place)
    } else {
        refusal_of_texts(number, place)
    }
}

/// The name of a number that is not that of a refusal of the table's own calls; empty if it has none.
fn own_name(number: u8) -> &'static str
    ensures { result.now ≡ own_name number }
{
    match number {
        38 => "BadCsv",
        39 => "NotOpen",
        40 => "NotApart",
        41 => "QueryDiffers",
        42 => "TooMany",
        43 => "Missing",
        44 => "Busy",
        45 => "Damaged",
        46 => "System",
        _ => "",
    }
}

/// The name of a number; empty if it has none.
fn name_of(number: u8) -> &'static str
    ensures { IsNameOf number result.now }
{
    match refusal_of(number, Place::nowhere()) {
        Some(refusal) => refusal.name(),
        None => own_name(number),
    }
}

/// Gives the name of a refusal's number, and its length; 0 if the number has none.
#[unsafe(no_mangle)]
pub extern "C" fn lanes_refusal(number: u8, room: &mut [u8]) -> usize
    ensures { IsFilled (λ name. IsNameOf number name) result room.old room.new }
{
    let name = name_of(number);
    fill(name.as_bytes(), room);
    name.len()
}

/// The refusal of a number that is not one of the table's own calls, at a place.
fn own_refusal(number: u8, place: Place) -> Option<CommandRefusal>
    ensures { result ≡ own_refusal_at number place }
{
    match number {
        38 => Some(CommandRefusal::BadCsv {
            line: place.first,
            column: place.second,
        }),
        40 => Some(CommandRefusal::NotApart(batch_at(place))),
        41 => Some(CommandRefusal::QueryDiffers),
        42 => Some(CommandRefusal::TooMany),
        43 => Some(CommandRefusal::Missing(batch_at(place))),
        _ => None,
    }
}

/// The refusal that a number and a place are: that of the fault of which they were told. None if the number has none, and of a
/// closed handle.
pub(crate) fn command_refusal(number: u8, place: Place) -> Option<CommandRefusal>
    ensures same { result ≡ command_refusal_at number place }
    ensures again { SaysAgain number place result }
    ensures none { (number ≡ 0) ⊎ (43 < number) → result ≡ None }
{
    match refusal_of(number, place) {
        Some(refusal) => Some(CommandRefusal::Named(refusal)),
        None => own_refusal(number, place),
    }
}

/// What is known of a refusal in addition: the line of one that is too long, and what is wrong with a dialect.
pub(crate) fn known_of<'a>(refusal: CommandRefusal, place: Place) -> Knowledge<'a> {
    match refusal {
        CommandRefusal::Named(Refusal::LineTooLong) if place.first != 0 => {
            Knowledge::Line(place.first)
        }
        CommandRefusal::BadCsv { line: 0, column: 1 } => Knowledge::Advice(NO_SEPARATOR),
        CommandRefusal::BadCsv { line: 0, column: 2 } => Knowledge::Advice(NO_NULL_WORD),
        _ => Knowledge::Nothing,
    }
}

/// The sentence of a closed handle and of each fault of a folder.
pub(crate) fn own_sentence(number: u8) -> Option<&'static str>
    ensures some { IfSome result (λ sentence. (sentence.now ≡ own_sentence number) × ((number ≡ 39) ⊎ ((43 < number) × (number < 47)))) }
    ensures none { IfNone result ((number ≡ 39 → ⊥) × ((43 < number) × (number < 47) → ⊥)) }
{
    match number {
        NOT_OPEN => Some("no file is open in this handle"),
        BUSY => Some("others have had the folder for ten seconds"),
        DAMAGED => Some("its bytes are not those of its name: copy it again, or remove it"),
        SYSTEM => Some("the system refused a call on the folder"),
        _ => None,
    }
}

/// The sentence of a refusal at a place; none if the number has none.
fn sentence_of(alloc: Global, number: u8, place: Place) -> Result<String, AllocError>
    ensures { IfOk result (λ text. IsSentenceOf number text.bytes.items) }
{
    if let Some(sentence) = own_sentence(number) {
        return String::from_str(alloc, sentence);
    }
    let Some(refusal) = command_refusal(number, place) else {
        return Ok(String::new(alloc));
    };
    let sentence = Sentence {
        knowledge: known_of(refusal, place),
        ..Sentence::new(refusal)
    };
    format!(in alloc; "{sentence}")
}

/// Gives the sentence of a refusal's number and place, and its length; 0 if the number has none, or memory runs out.
#[unsafe(no_mangle)]
pub extern "C" fn lanes_sentence(alloc: Global, number: u8, place: &Place, room: &mut [u8]) -> usize
    ensures { IsFilled (λ sentence. IsSentenceOf number sentence) result room.old room.new }
{
    match sentence_of(alloc, number, *place) {
        Ok(sentence) => {
            fill(sentence.as_bytes(), room);
            sentence.len()
        }
        Err(_) => 0,
    }
}

/// Gives the library's version, as `0.12.1`, and its length.
#[unsafe(no_mangle)]
pub extern "C" fn lanes_version(room: &mut [u8]) -> usize
    ensures { IsFilled (λ text. text ≡ codes "0.12.1") result room.old room.new }
{
    fill(VERSION.as_bytes(), room);
    VERSION.len()
}

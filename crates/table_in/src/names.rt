// Where the first record of a text ends: the names may stand in quotes, so it is found as `csv` reads.
ghost use Rattle.csv.specs.Machine.{in_field, start_field, start_record, step};
ghost use Rattle.csv.specs.Reading.{default_config};
ghost use Rattle.csv.specs.declared.parser.State.TheVariants as st;
ghost use Rattle.table_in.specs.Plain.{Follows, FirstEnds, state_at};

use crate::plain::ends_line;

/// Where a byte stands.
#[derive(Clone, Copy)]
pub enum Place {
    /// Before a record.
    Record,
    /// At the start of a field.
    Field,
    /// In a field with no quote at its start.
    Plain,
    /// Between quotes.
    Quoted,
    /// After a quote that may have ended them.
    Closed,
}

fn follow_plain(byte: u8) -> Option<Place>
    ensures { Follows byte (in_field default_config byte) result }
{
    if byte == b',' {
        Some(Place::Field)
    } else if ends_line(byte) {
        None
    } else {
        Some(Place::Plain)
    }
}

fn follow_field(byte: u8) -> Option<Place>
    ensures { Follows byte (start_field default_config byte) result }
{
    if byte == b'"' {
        Some(Place::Quoted)
    } else {
        follow_plain(byte)
    }
}

fn follow_record(byte: u8) -> Option<Place>
    ensures { Follows byte (start_record default_config byte) result }
{
    if ends_line(byte) {
        Some(Place::Record)
    } else {
        follow_field(byte)
    }
}

fn follow_quoted(byte: u8) -> Option<Place>
    ensures { Follows byte (step default_config st.InQuoted byte) result }
{
    if byte == b'"' {
        Some(Place::Closed)
    } else {
        Some(Place::Quoted)
    }
}

fn follow_closed(byte: u8) -> Option<Place>
    ensures { Follows byte (step default_config st.AfterQuote byte) result }
{
    if byte == b'"' {
        Some(Place::Quoted)
    } else {
        follow_plain(byte)
    }
}

// The place after a byte, and `None` where the byte ends the record.
fn follow(place: Place, byte: u8) -> Option<Place>
    ensures { Follows byte (step default_config (state_at place) byte) result }
{
    match place {
        Place::Record => follow_record(byte),
        Place::Field => follow_field(byte),
        Place::Plain => follow_plain(byte),
        Place::Quoted => follow_quoted(byte),
        Place::Closed => follow_closed(byte),
    }
}

/// The place of the byte that ends the first record, or the text's end.
pub fn names_end(text: &[u8]) -> usize
    ensures { FirstEnds text.now result }
{
    let mut place = Place::Record;
    for end in 0..text.len() {
        match follow(place, text[end]) {
            Some(after) => place = after,
            None => return end,
        }
    }
    text.len()
}

// The table of the nine commands (RULES M6, M7): their names, and the rows of fields that their texts are made of.
#![tactic(auto)]

pub mod commands;
pub mod fields;
pub mod rows;

use table_addresses::Area;

// The commands, by their names.
#[derive(Clone, Copy)]
pub enum Command {
    RCS,
    RCP,
    RCC,
    WCS,
    WCP,
    WCC,
    RD,
    WD,
    SD,
}

#[derive(Clone, Copy)]
pub enum Named {
    Is(Command),
    Unknown,
}

// The letters of a command's name; the third is 0 where it has two.
#[derive(Clone, Copy)]
pub struct Name(pub u8, pub u8, pub u8);

// What a command asks for: contacts named once, or counted; or a range of an area.
#[derive(Clone, Copy)]
pub enum Kind {
    ReadContacts(bool),
    WriteContacts(bool),
    ReadRange(Area),
    WriteRange(Area),
    Fill,
}

// A row of the table of commands.
#[derive(Clone, Copy)]
pub struct Entry {
    pub name: Name,
    pub kind: Kind,
}

// What the text after a name is made of.
#[derive(Clone, Copy)]
pub enum Field {
    LetterR,
    LetterD,
    // four decimal digits
    Relay,
    // five decimal digits
    Register,
    // three decimal digits and a hex digit
    Contact,
    // 0 or 1
    Value,
    // four hex digits, low byte first
    Word,
}

// Some fields, one after the other: the first `size` of four.
#[derive(Clone, Copy)]
pub struct Row {
    pub size: usize,
    pub fields: [Field; 4],
}

// The first two numbers of a text, as far as they were met.
#[derive(Clone, Copy)]
pub enum Found {
    Nothing,
    One(u32),
    Two(u32, u32),
}

// What one look at a text tells: whether its letters (step 3), its numbers' characters (4) and its data's (7) are right, and its first two numbers.
// Three flags and no first wrong step: what each says is promised whatever the others say.
#[derive(Clone, Copy)]
pub struct Seen {
    pub letters: bool,
    pub digits: bool,
    pub values: bool,
    pub found: Found,
}

// How a text is laid out: a row; n and the row n times; or the row and a word for each of its range.
#[derive(Clone, Copy)]
pub enum Layout {
    Once(Row),
    Counted(Row),
    WithWords(Row),
}

// The table of the nine commands, and what each kind of them asks for.
ghost use Rattle.std.specs.Prelude.{◌≡◌, length, [], ◌∷◌, ◌++◌};
ghost use Rattle.mewtocol_frame.specs.Text.{starts};
ghost use Rattle.mewtocol_commands.specs.Rows as rs;
ghost use Rattle.mewtocol_commands.specs.Commands as cm;
ghost use Rattle.mewtocol_commands.specs.Code as code;

use crate::{Command, Entry, Field, Kind, Layout, Name, Named, Row};
use mewtocol_frame::Limits;
use mewtocol_frame::text::{starts_2, up_to};
use table_addresses::Area;
use text_slices::byte_at;

// The name and the kind of a command.
pub fn entry(c: Command) -> Entry
    ensures { code.entry_of result ≡ cm.entry c }
{
    match c {
        Command::RCS => Entry {
            name: Name(b'R', b'C', b'S'),
            kind: Kind::ReadContacts(false),
        },
        Command::RCP => Entry {
            name: Name(b'R', b'C', b'P'),
            kind: Kind::ReadContacts(true),
        },
        Command::RCC => Entry {
            name: Name(b'R', b'C', b'C'),
            kind: Kind::ReadRange(Area::Relays),
        },
        Command::WCS => Entry {
            name: Name(b'W', b'C', b'S'),
            kind: Kind::WriteContacts(false),
        },
        Command::WCP => Entry {
            name: Name(b'W', b'C', b'P'),
            kind: Kind::WriteContacts(true),
        },
        Command::WCC => Entry {
            name: Name(b'W', b'C', b'C'),
            kind: Kind::WriteRange(Area::Relays),
        },
        Command::RD => Entry {
            name: Name(b'R', b'D', 0),
            kind: Kind::ReadRange(Area::Registers),
        },
        Command::WD => Entry {
            name: Name(b'W', b'D', 0),
            kind: Kind::WriteRange(Area::Registers),
        },
        Command::SD => Entry {
            name: Name(b'S', b'D', 0),
            kind: Kind::Fill,
        },
    }
}

// How many letters a name has.
pub fn name_len(name: Name) -> usize
    ensures { result ≡ length (code.name_of name) }
{
    if name.2 == 0 { 2 } else { 3 }
}

// Whether a text begins with a name.
fn begins(name: Name, text: &[u8]) -> bool
    ensures { result ≡ starts (code.name_of name) text.now }
{
    if !starts_2(text, name.0, name.1) {
        return false;
    }
    if name.2 == 0 {
        return true;
    }
    byte_at(text, 2) == name.2
}

// The commands, in the order in which their names are looked for.
const COMMANDS: [Command; 9] = [
    Command::RCS,
    Command::RCP,
    Command::RCC,
    Command::WCS,
    Command::WCP,
    Command::WCC,
    Command::RD,
    Command::WD,
    Command::SD,
];

// The command whose name a text begins with.
pub fn named(text: &[u8]) -> Named
    ensures { result ≡ cm.named cm.commands text.now }
{
    for c in &COMMANDS {
        if begins(entry(*c).name, text) {
            return Named::Is(*c);
        }
    }
    Named::Unknown
}

// `R` and a contact.
pub fn contact() -> Row
    ensures { code.row_of result ≡ rs.contact }
{
    Row {
        size: 2,
        fields: [Field::LetterR, Field::Contact, Field::Word, Field::Word],
    }
}

// A contact and its value.
pub fn setting() -> Row
    ensures { code.row_of result ≡ rs.setting }
{
    Row {
        size: 3,
        fields: [Field::LetterR, Field::Contact, Field::Value, Field::Word],
    }
}

// A letter, start and end.
pub fn range_in(area: Area) -> Row
    ensures { code.row_of result ≡ rs.range_in area }
{
    match area {
        Area::Relays => Row {
            size: 3,
            fields: [Field::LetterR, Field::Relay, Field::Relay, Field::Word],
        },
        Area::Registers => Row {
            size: 3,
            fields: [
                Field::LetterD,
                Field::Register,
                Field::Register,
                Field::Word,
            ],
        },
    }
}

// The same with one word.
pub fn filling() -> Row
    ensures { code.row_of result ≡ rs.range_in Area.Registers ++ (Field.Word ∷ []) }
{
    Row {
        size: 4,
        fields: [
            Field::LetterD,
            Field::Register,
            Field::Register,
            Field::Word,
        ],
    }
}

// A word alone.
pub fn word() -> Row
    ensures { code.row_of result ≡ Field.Word ∷ [] }
{
    Row {
        size: 1,
        fields: [Field::Word, Field::Word, Field::Word, Field::Word],
    }
}

// How the text after the name is laid out.
pub fn layout(kind: Kind) -> Layout
    ensures { code.layout_of result ≡ cm.layout kind }
{
    match kind {
        Kind::ReadContacts(many) => if many {
            Layout::Counted(contact())
        } else {
            Layout::Once(contact())
        },
        Kind::WriteContacts(many) => if many {
            Layout::Counted(setting())
        } else {
            Layout::Once(setting())
        },
        Kind::ReadRange(a) => Layout::Once(range_in(a)),
        Kind::WriteRange(a) => Layout::WithWords(range_in(a)),
        Kind::Fill => Layout::Once(filling()),
    }
}

// Step 5: start ≤ end, and how many words there may be.
pub fn good_range(limits: Limits, kind: Kind, start: u32, end: u32) -> bool
    ensures { result ≡ cm.good_range limits kind start end }
{
    match kind {
        Kind::ReadContacts(_) | Kind::WriteContacts(_) => true,
        Kind::ReadRange(_) => up_to(limits.reads, start, end),
        Kind::WriteRange(_) => up_to(limits.writes, start, end),
        Kind::Fill => start <= end,
    }
}

// The host side of MEWTOCOL: what is asked by number, what was written, what was read.
ghost use Rattle.std.specs.Prelude.{◌≡◌, ◌*◌, drop, get_or};
ghost use Rattle.text_hex_words.specs.Words.{low_first_word};
ghost use Rattle.mewtocol_frame.specs.Frame.{limits_of};
ghost use Rattle.mewtocol_frame.specs.Text as tx;
ghost use Rattle.mewtocol_asking.specs.Asking.{asking};
ghost use Rattle.mewtocol_writer.specs.Writing as writing;
ghost use Rattle.mewtocol_reader.specs.Replies as replies;
ghost use Rattle.jeulgopae_codes.specs.Asks.{form_of, command_in, ask_of};
ghost use Rattle.jeulgopae_codes.specs.Codes.{reply_code, data_code};
ghost use Rattle.jeulgopae.specs.Codes.{Writes};

use jeulgopae_codes::asks::{ask_of, command_in, form_of};
use jeulgopae_codes::codes::{data_code, reply_code, request_code};
use mewtocol_reader::{data_contact, data_word, read_reply};
use mewtocol_writer::write_request;

// Writes a request, in a form.
#[unsafe(no_mangle)]
pub extern "C" fn jeulgopae_mewtocol_write(
    station: u32,
    form: u32,
    command: u32,
    first: u32,
    second: u32,
    value: u32,
    contacts: &[u32],
    values: &[u8],
    words: &[u16],
    room: &mut [u8],
) -> i32
    ensures { Writes (writing.write (limits_of (form_of form)) station (asking (ask_of (command_in form command) first second value)
        contacts.now values.now words.now) room.old) result room.new }
{
    request_code(write_request(
        form_of(form),
        station,
        ask_of(command_in(form, command), first, second, value),
        contacts,
        values,
        words,
        room,
    ))
}

// Reads the reply to what was asked, in a form.
#[unsafe(no_mangle)]
pub extern "C" fn jeulgopae_mewtocol_read(
    station: u32,
    form: u32,
    command: u32,
    first: u32,
    second: u32,
    value: u32,
    contacts: &[u32],
    values: &[u8],
    words: &[u16],
    frame: &[u8],
) -> i32
    ensures { result ≡ reply_code (replies.read (limits_of (form_of form)) station (asking (ask_of (command_in form command) first second value)
        contacts.now values.now words.now) frame.now) }
{
    let ask = ask_of(command_in(form, command), first, second, value);
    reply_code(
        read_reply(form_of(form), station, ask, contacts, values, words, frame),
        frame,
    )
}

// Word i of the data of a reply.
#[unsafe(no_mangle)]
pub extern "C" fn jeulgopae_data_word(part: &[u8], i: u32) -> i32
    ensures { result ≡ data_code (low_first_word (drop (4 * i) part.now)) }
{
    data_code(data_word(part, i))
}

// Contact i of the data of a reply.
#[unsafe(no_mangle)]
pub extern "C" fn jeulgopae_data_contact(part: &[u8], i: usize) -> i32
    ensures { result ≡ data_code (tx.bit (get_or (drop i part.now) 0 0)) }
{
    data_code(data_contact(part, i))
}

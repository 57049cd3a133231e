// Replies, written straight into the room.
ghost use Rattle.std.specs.Prelude.{◌≡◌, List, [], ◌∷◌, ◌++◌, map, ℕ, ◌+◌, ◌*◌, ◌≤◌, length};
ghost use Rattle.text_rooms.specs.Room.{overwrite, Put};
ghost use Rattle.rules.specs.Characters.{dollar, letter_c, letter_r};
ghost use Rattle.table_addresses.specs.Areas.{contact_cell};
ghost use Rattle.table_registers.specs.Bits.{cell_at};
ghost use Rattle.table_registers.specs.Operation.{shows};
ghost use Rattle.station.specs.Site.{good, error};
ghost use Rattle.mewtocol_frame.specs.declared.Limits.{Limits};
ghost use Rattle.mewtocol_frame.specs.Frame.{opening, sealed, Roomy};
ghost use Rattle.mewtocol_frame.specs.Text.{words_text};
ghost use Rattle.mewtocol_requests.specs.Requests.{name_letter};
ghost use Rattle.mewtocol_requests.specs.Code.{request_of};
ghost use Rattle.mewtocol_requests.specs.Sound.{Sound};
ghost use Rattle.mewtocol_steps.specs.Steps.{number};
ghost use Rattle.mewtocol_station.specs.Replies as rp;

use crate::Sender;
use checks_xor::put_xor;
use mewtocol_frame::frame::put_opening;
use mewtocol_frame::text::{put_words_text, span};
use mewtocol_requests::Request;
use mewtocol_steps::MewtocolError;
use rules::CR;
use table_addresses::{Area, FrameAddress, contact_cell};
use table_registers::reads::{cell_at, words_from};
use text_rooms::put_byte;

// The second letter of a reply: `C` for the relay words, `D` for data registers.
fn name_letter(area: Area) -> u8
    ensures { result ≡ name_letter area }
{
    match area {
        Area::Relays => b'C',
        Area::Registers => b'D',
    }
}

// The opening of a good reply, and its two letters.
fn put_heading(room: &mut [u8], sender: Sender, a: u8, b: u8)
    requires { 9 ≤ length room.old }
    ensures { room.new ≡ overwrite room.old 0 (opening sender.header sender.own dollar ++ (a ∷ b ∷ [])) }
{
    put_opening(room, sender.header, sender.own, b'$');
    put_byte(room, 4, a);
    put_byte(room, 5, b);
}

// An error reply.
pub(crate) fn refuse(room: &mut [u8], sender: Sender, e: MewtocolError) -> usize
    requires { 9 ≤ length room.old }
    ensures { Put room.old 0 (rp.reply_frame sender.header sender.own (error (number e))) result room.new }
{
    let digits = e.characters();
    put_opening(room, sender.header, sender.own, b'!');
    put_byte(room, 4, digits.0);
    put_byte(room, 5, digits.1);
    put_xor(room, 6, CR)
}

// A good reply without data.
fn acknowledge(room: &mut [u8], sender: Sender, a: u8, b: u8) -> usize
    requires { 9 ≤ length room.old }
    ensures { Put room.old 0 (rp.reply_frame sender.header sender.own (good ((a ∷ b ∷ []) ++ []))) result room.new }
{
    put_heading(room, sender, a, b);
    put_xor(room, 6, CR)
}

// A good reply with words.
fn show_words(room: &mut [u8], sender: Sender, a: u8, b: u8, ws: &[u16]) -> usize
    requires { 9 + 4 * length ws.now ≤ length room.old }
    ensures { Put room.old 0 (rp.reply_frame sender.header sender.own (good ((a ∷ b ∷ []) ++ words_text ws.now)))
        result room.new }
{
    put_heading(room, sender, a, b);
    put_words_text(room, 6, ws);
    put_xor(room, 6 + 4 * ws.len(), CR)
}

fn put_contacts(room: &mut [u8], at: usize, words: &[u16], contacts: &[u32])
    requires { at + length contacts.now ≤ length room.old }
    ensures { room.new ≡ overwrite room.old
        at (rp.contacts_text (map (cell_at words.now) (map contact_cell contacts.now))) }
{
    for (i, contact) in contacts.iter().enumerate() {
        put_byte(room, at + i, b'0' + cell_at(words, contact_cell(*contact)));
    }
}

// A good reply with what some contacts hold.
fn show_contacts(room: &mut [u8], sender: Sender, words: &[u16], contacts: &[u32]) -> usize
    requires { 9 + length contacts.now ≤ length room.old }
    ensures { Put room.old 0 (rp.reply_frame sender.header sender.own
        (good ((letter_r ∷ letter_c ∷ []) ++ rp.contacts_text (map (cell_at words.now) (map contact_cell contacts.now)))))
        result room.new }
{
    put_heading(room, sender, b'R', b'C');
    put_contacts(room, 6, words, contacts);
    put_xor(room, 6 + contacts.len(), CR)
}

// The good reply to a request: the data of a read, from the words as they are.
pub(crate) fn show(
    words: &[u16],
    request: Request,
    contacts: &[u32],
    sender: Sender,
    reply: &mut [u8],
) -> usize
    requires { (8 ≤ length contacts.now) × ((l : Limits) × (vs : List ℕ) × (ws : (ℕ → List ℕ)) ×
        Sound l (request_of request contacts.now vs ws) × Roomy l × (l.longest ≤ length reply.old)) }
    ensures { (vs : List ℕ) (ws : ℕ → List ℕ) → Put reply.old
        0 (rp.reply_frame sender.header sender.own (good (rp.reply_of (request_of request contacts.now vs ws)
        (shows (rp.operation_of (request_of request contacts.now vs ws)) words.now)))) result reply.new }
{
    match request {
        Request::ReadContacts(n) => {
            let k = n as usize;
            show_contacts(reply, sender, words, &contacts[..k])
        }
        Request::WriteContacts(_) => acknowledge(reply, sender, b'W', b'C'),
        Request::ReadRange(area, start, end) => {
            let first = FrameAddress::in_digits(area, start);
            let shown = words_from(words, first, span(start, end));
            show_words(reply, sender, b'R', name_letter(area), shown)
        }
        Request::WriteRange(area, _, _) => acknowledge(reply, sender, b'W', name_letter(area)),
        Request::Fill(_, _, _) => acknowledge(reply, sender, b'S', b'D'),
    }
}

// What a request asks is done, after the address check, or refused whole. No reply is written here.
ghost use Rattle.std.specs.Prelude.{◌≡◌, List, ℕ, ◌≤◌, ltb, length};
ghost use Rattle.mewtocol_frame.specs.declared.Limits.{Limits};
ghost use Rattle.mewtocol_frame.specs.Frame.{text_of};
ghost use Rattle.mewtocol_requests.specs.Code.{request_of, words_in};
ghost use Rattle.mewtocol_requests.specs.Sound.{Sound};
ghost use Rattle.table_registers.specs.Operation.{Carried, need};
ghost use Rattle.table_registers.specs.Profile.{verdict};
ghost use Rattle.mewtocol_station.specs.Replies.{operation_of};

use mewtocol_frame::text::span;
use mewtocol_requests::{Request, data_text};
use table_addresses::{Area, FrameAddress};
use table_bit_writes::write_contacts;
use table_registers::check::{first_lacking, first_lacking_contact};
use table_registers::{Profile, Verdict};
use table_word_writes::{fill_words, write_text};

// Whether a request writes.
pub(crate) fn writes(request: Request) -> bool
    ensures { (cs vs : List ℕ) (ws : ℕ → List ℕ) → result ≡ ltb 1 (need (operation_of (request_of request cs vs ws))) }
{
    match request {
        Request::ReadContacts(_) => false,
        Request::ReadRange(_, _, _) => false,
        Request::WriteContacts(_) => true,
        Request::WriteRange(_, _, _) => true,
        Request::Fill(_, _, _) => true,
    }
}

// Does what a request asks; a read changes no word, and its verdict says whether it may be shown.
pub(crate) fn carry_out(
    words: &mut [u16],
    attributes: &[u8],
    profile: Profile,
    request: Request,
    frame: &[u8],
    contacts: &[u32],
    values: &[u8],
) -> Verdict
    requires { (8 ≤ length contacts.now) × (8 ≤ length values.now) ×
        ((l : Limits) × Sound l (request_of request contacts.now values.now (words_in (text_of frame.now)))) }
    ensures { Carried (operation_of (request_of request contacts.now values.now (words_in (text_of frame.now))))
        words.old (verdict profile attributes.now) result words.new }
{
    match request {
        Request::ReadContacts(n) => {
            let k = n as usize;
            first_lacking_contact(words.len(), attributes, 1, &contacts[..k])
        }
        Request::WriteContacts(n) => {
            let k = n as usize;
            write_contacts(words, attributes, &contacts[..k], &values[..k])
        }
        Request::ReadRange(area, start, end) => {
            let first = FrameAddress::in_digits(area, start);
            first_lacking(words.len(), attributes, area, 1, first, span(start, end))
        }
        Request::WriteRange(area, start, end) => {
            let first = FrameAddress::in_digits(area, start);
            let n = span(start, end);
            write_text(
                words,
                attributes,
                profile,
                area,
                first,
                n,
                data_text(frame, n),
            )
        }
        Request::Fill(start, end, word) => {
            let first = FrameAddress::in_digits(Area::Registers, start);
            fill_words(
                words,
                attributes,
                profile,
                first,
                span(start, end),
                word as u16,
            )
        }
    }
}

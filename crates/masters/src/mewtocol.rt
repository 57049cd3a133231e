// The cells of a MEWTOCOL frame: 1 and 2, its shape, whom it is for, and then what it asks.
ghost use Rattle.std.specs.Prelude.{◌≤◌, length};
ghost use Rattle.table_addresses.specs.Catalogue.{table_limit};
ghost use Rattle.table_addresses.specs.Areas.{word_in};
ghost use Rattle.table_registers.specs.Operation.{write_words, fill_words, words_of_text};
ghost use Rattle.table_registers.specs.Profile.{verdict};
ghost use Rattle.table_cells.specs.Touched.{Touches, operation_cells};
ghost use Rattle.station.specs.Site.{site_of};
ghost use Rattle.mewtocol_frame.specs.Frame.{text_of};
ghost use Rattle.mewtocol_frame.specs.Text as tx;
ghost use Rattle.mewtocol_requests.specs.Hearing.{read_frame};
ghost use Rattle.mewtocol_requests.specs.Code.{request_of, words_in};
ghost use Rattle.mewtocol_requests.specs.Sound.{Sound};
ghost use Rattle.mewtocol_station.specs.Replies.{operation_of};
ghost use Rattle.mewtocol_station.specs.Station as st;
ghost use Rattle.masters.specs.Frames.{frame_cells};
ghost use Rattle.masters.specs.Asking.{own_cells, heard_cells};

use crate::whom::for_whom;
use mewtocol_frame::frame::{good_shape, limits_in};
use mewtocol_frame::text::span;
use mewtocol_frame::{HIGHEST, LONGEST, Limits};
use mewtocol_requests::{Reading, Request, data_text, read_frame};
use mewtocol_station::whom;
use station::Ready;
use station::order::ready;
use table_addresses::{Area, FrameAddress};
use table_cells::Touched;
use table_cells::touch::{contacts_touched, nothing, words_touched};
use table_profiles::{Data, taken};
use table_registers::Profile;

// The words from start to end of an area, given as a text of four hex characters each, low byte first.
fn text_written(
    attributes: &[u8],
    profile: Profile,
    area: Area,
    start: u32,
    count: usize,
    text: &[u8],
) -> Touched
    requires { length attributes.now ≤ table_limit }
    ensures { Touches result (operation_cells (verdict profile attributes.now) (length attributes.now)
        (write_words area (word_in area start) (words_of_text count text.now))) }
{
    let first = FrameAddress::in_digits(area, start);
    let fits = taken(profile, Data::Text, text, first.word(), count);
    words_touched(2, attributes, area, first, count, fits)
}

// The registers from start to end, one word for all.
fn filled(attributes: &[u8], profile: Profile, start: u32, end: u32, word: u16) -> Touched
    requires { length attributes.now ≤ table_limit }
    ensures { Touches result (operation_cells (verdict profile attributes.now) (length attributes.now)
        (fill_words start (tx.span start end) word)) }
{
    let first = FrameAddress::in_digits(Area::Registers, start);
    let count = span(start, end);
    let fits = taken(profile, Data::Same(word), attributes, first.word(), count);
    words_touched(2, attributes, Area::Registers, first, count, fits)
}

// What a request touches where it is for this station.
fn request_touched(
    limits: Limits,
    attributes: &[u8],
    profile: Profile,
    request: Request,
    frame: &[u8],
    contacts: &[u32],
    values: &[u8],
) -> Touched
    requires { (length attributes.now ≤ table_limit) × (8 ≤ length contacts.now) × (8 ≤ length values.now) ×
        Sound limits (request_of request contacts.now values.now (words_in (text_of frame.now))) }
    ensures { Touches result (operation_cells (verdict profile attributes.now) (length attributes.now)
        (operation_of (request_of request contacts.now values.now (words_in (text_of frame.now))))) }
{
    match request {
        Request::ReadContacts(n) => {
            let k = n as usize;
            contacts_touched(1, attributes, &contacts[..k])
        }
        Request::WriteContacts(n) => {
            let k = n as usize;
            contacts_touched(2, attributes, &contacts[..k])
        }
        Request::ReadRange(area, start, end) => {
            let first = FrameAddress::in_digits(area, start);
            words_touched(1, attributes, area, first, span(start, end), true)
        }
        Request::WriteRange(area, start, end) => {
            let n = span(start, end);
            text_written(attributes, profile, area, start, n, data_text(frame, n))
        }
        Request::Fill(start, end, word) => { filled(attributes, profile, start, end, word as u16) }
    }
}

// What a frame of a right shape touches where it is for this station: one that is read as an error touches nothing.
fn asked_touched(limits: Limits, attributes: &[u8], profile: Profile, frame: &[u8]) -> Touched
    requires { length attributes.now ≤ table_limit }
    ensures { Touches result (own_cells attributes.now profile (st.reading_asks (read_frame limits frame.now))) }
{
    let mut contacts = [0u32; 8];
    let mut values = [0u8; 8];
    match read_frame(limits, frame, &mut contacts, &mut values) {
        Reading::Faulty(_) => nothing(),
        Reading::Asks(request) => {
            request_touched(
                limits, attributes, profile, request, frame, &contacts, &values,
            )
        }
    }
}

fn mewtocol_heard(attributes: &[u8], profile: Profile, own: u32, frame: &[u8]) -> Touched
    requires { length attributes.now ≤ table_limit }
    ensures { Touches result (heard_cells st.mewtocol (site_of attributes.now profile own) frame.now) }
{
    let limits = limits_in(frame);
    if !good_shape(limits, 8, frame) {
        return nothing();
    }
    // first, so that less is kept while the frame is read
    let to = whom(own, frame);
    let asked = asked_touched(limits, attributes, profile, frame);
    for_whom(to, asked)
}

// A MEWTOCOL frame, of either form.
pub(crate) fn mewtocol_touched(
    attributes: &[u8],
    profile: Profile,
    own: u32,
    frame: &[u8],
) -> Touched
    ensures { Touches result (frame_cells st.mewtocol (site_of attributes.now profile own) frame.now) }
{
    match ready(attributes.len(), attributes, own, HIGHEST, LONGEST, LONGEST) {
        Ready::Fine => mewtocol_heard(attributes, profile, own, frame),
        Ready::Refused(_) => nothing(),
    }
}

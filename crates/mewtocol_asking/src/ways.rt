// The eight ways of asking, each as a command and its request.
ghost use Rattle.std.specs.Prelude.{◌≡◌, List, ℕ};
ghost use Rattle.mewtocol_asking.specs.Asking as sk;
ghost use Rattle.mewtocol_asking.specs.Code as code;

use crate::{Ask, Asking};
use mewtocol_commands::Command;

// The command that reads a list of contacts: RCS for one, RCP for more.
fn reads_by(contacts: &[u32]) -> Command
    ensures { result ≡ sk.reads_by contacts.now }
{
    if contacts.len() == 1 {
        Command::RCS
    } else {
        Command::RCP
    }
}

// The command and the request of each way of asking, with these lists, which it holds; and with these contacts and any values and words.
pub fn asking<'a>(ask: Ask, contacts: &'a [u32], values: &'a [u8], words: &'a [u16]) -> Asking<'a>
    ensures value { code.asking_of result ≡ sk.asking ask contacts.now values.now words.now }
    ensures any_lists { (vs ws : List ℕ) → code.asking_with result contacts.now vs ws ≡ sk.asking ask contacts.now vs ws }
    ensures own_contacts { result.contacts.now ≡ contacts.now }
    ensures own_values { result.values.now ≡ values.now }
    ensures own_words { result.words.now ≡ words.now }
{
    let (command, first, second, third) = match ask {
        Ask::ReadContacts => (reads_by(contacts), 0, 0, 0),
        Ask::ReadRelays(s, e) => (Command::RCC, s, e, 0),
        Ask::WriteContact(c, v) => (Command::WCS, c, v, 0),
        Ask::WriteContacts => (Command::WCP, 0, 0, 0),
        Ask::WriteRelays(s, e) => (Command::WCC, s, e, 0),
        Ask::ReadWords(s, e) => (Command::RD, s, e, 0),
        Ask::WriteWords(s, e) => (Command::WD, s, e, 0),
        Ask::FillWords(s, e, w) => (Command::SD, s, e, w),
    };
    Asking {
        command,
        first,
        second,
        third,
        contacts,
        values,
        words,
    }
}

// What a number asks: the two profiles, the two forms and the eight ways of asking.
ghost use Rattle.std.specs.Prelude.{◌≡◌};
ghost use Rattle.jeulgopae_codes.specs.Asks.{profile_of, form_of, command_in, ask_of};

use mewtocol_asking::Ask;
use mewtocol_frame::Form;
use table_registers::Profile;

// What a number of a profile chooses.
#[derive(Clone, Copy)]
pub enum Chosen {
    Named(Profile),
    Unknown,
}

// 0 is no profile, 1 the HL-G2, 50 mm type; any other number names none.
pub fn profile_of(profile: u32) -> Chosen
    ensures { result ≡ profile_of profile }
{
    match profile {
        0 => Chosen::Named(Profile::Free),
        1 => Chosen::Named(Profile::HlG2),
        _ => Chosen::Unknown,
    }
}

// The form of a number: 1 is the expanded one.
pub fn form_of(form: u32) -> Form
    ensures { result ≡ form_of form }
{
    if form == 1 {
        return Form::Expanded;
    }
    Form::Ordinary
}

// The command in a form. A form that is none of the two asks for nothing, as command 0 does.
pub fn command_in(form: u32, command: u32) -> u32
    ensures { result ≡ command_in form command }
{
    if form <= 1 {
        return command;
    }
    0
}

// What a command's number asks. A number that is none of the eight asks for the words from 1 to 0, which is no request.
pub fn ask_of(command: u32, first: u32, second: u32, value: u32) -> Ask
    ensures { result ≡ ask_of command first second value }
{
    match command {
        1 => Ask::ReadContacts,
        2 => Ask::ReadRelays(first, second),
        3 => Ask::WriteContact(first, value),
        4 => Ask::WriteContacts,
        5 => Ask::WriteRelays(first, second),
        6 => Ask::ReadWords(first, second),
        7 => Ask::WriteWords(first, second),
        8 => Ask::FillWords(first, second, value),
        _ => Ask::ReadWords(1, 0),
    }
}

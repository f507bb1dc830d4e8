//! The options of a wire.

ghost use Rattle.std.specs.Prelude.{◌≡◌, ◌<◌, ◌≤◌, length, map, option_map, IfSome};
ghost use Rattle.std.specs.Option.{option_copied};
ghost use Rattle.rtlil_tree.specs.Statements.{no_options, with_option, port_said};
ghost use Rattle.rtlil_tree.specs.Said.{plain};
ghost use Rattle.rtlil_tree.specs.Forms.{only_name, place_of, numbered_of, option_at, options_from};

use crate::keyword::Keyword;
use crate::word::Word;
use circuit_types::Port;

/// An option of a wire statement.
#[derive(Clone, Copy)]
pub enum WireOption {
    Width(u32),
    Offset(i32),
    Input(u32),
    Output(u32),
    Inout(i32),
    Upto,
    Signed,
}

/// What the options of a wire say.
#[derive(Clone, Copy)]
pub struct Options {
    pub width: u32,
    pub offset: i32,
    pub input: Option<u32>,
    pub output: Option<u32>,
    pub inout: bool,
    pub upto: bool,
    pub signed: bool,
}

impl Options {
    /// What no options say.
    pub fn none() -> Options
        ensures { result ≡ no_options }
    {
        Options {
            width: 1,
            offset: 0,
            input: None,
            output: None,
            inout: false,
            upto: false,
            signed: false,
        }
    }

    /// With one more option, which replaces an earlier one of its word.
    pub fn with(self, option: WireOption) -> Options
        ensures { result ≡ with_option self option }
    {
        match option {
            WireOption::Width(width) => Options { width, ..self },
            WireOption::Offset(offset) => Options { offset, ..self },
            WireOption::Input(number) => Options {
                input: Some(number),
                ..self
            },
            WireOption::Output(number) => Options {
                output: Some(number),
                ..self
            },
            WireOption::Inout(_) => Options {
                inout: true,
                ..self
            },
            WireOption::Upto => Options { upto: true, ..self },
            WireOption::Signed => Options {
                signed: true,
                ..self
            },
        }
    }

    /// The port that the wire is, unless it would be two.
    pub fn port(self) -> Option<Port>
        ensures { result ≡ port_said self.input self.output }
    {
        match self.input {
            None => match self.output {
                None => Some(Port::Inner),
                Some(number) => Some(Port::Output(number)),
            },
            Some(number) => match self.output {
                None => Some(Port::Input(number)),
                Some(_) => None,
            },
        }
    }
}

/// The number, unless it is below 0.
pub fn place(number: i32) -> Option<u32>
    ensures { result ≡ place_of number }
{
    if number >= 0 {
        Some(number as u32)
    } else {
        None
    }
}

/// The option that a word with a number is.
fn numbered(keyword: Keyword, number: i32) -> Option<WireOption>
    ensures { result ≡ numbered_of keyword number }
{
    match keyword {
        Keyword::Offset => Some(WireOption::Offset(number)),
        Keyword::Inout => Some(WireOption::Inout(number)),
        Keyword::Width => match place(number) {
            Some(number) => Some(WireOption::Width(number)),
            None => None,
        },
        Keyword::Input => match place(number) {
            Some(number) => Some(WireOption::Input(number)),
            None => None,
        },
        Keyword::Output => match place(number) {
            Some(number) => Some(WireOption::Output(number)),
            None => None,
        },
        _ => None,
    }
}

/// The option that stands first, and how many words it takes.
fn option_at(words: &[Word<'_>]) -> Option<(WireOption, usize)>
    ensures option { result ≡ option_at (map plain words.now) }
    ensures size { IfSome result (λ x. (0 < x.1) × (x.1 ≤ length words.now)) }
{
    match words {
        [Word::Key(Keyword::Upto), ..] => Some((WireOption::Upto, 1)),
        [Word::Key(Keyword::Signed), ..] => Some((WireOption::Signed, 1)),
        [Word::Key(keyword), Word::Int(number), ..] => match numbered(*keyword, *number) {
            Some(option) => Some((option, 2)),
            None => None,
        },
        _ => None,
    }
}

/// The name, where it is the only word.
fn only_name<'a>(words: &[Word<'a>]) -> Option<&'a [u8]>
    ensures { option_copied result ≡ only_name (map plain words.now) }
{
    match words {
        [Word::Id(name)] => Some(name),
        _ => None,
    }
}

/// The options of a wire, and its name, which is the last word.
pub fn wire_options<'a>(words: &[Word<'a>]) -> Option<(Options, &'a [u8])>
    ensures { option_map (λ x. (x.0, x.1.now)) result ≡ options_from no_options 0 (map plain words.now) }
{
    let mut options = Options::none();
    let mut place = 0;
    while let Some((option, size)) = option_at(&words[place..]) {
        options = options.with(option);
        place += size;
    }
    match only_name(&words[place..]) {
        Some(name) => Some((options, name)),
        None => None,
    }
}

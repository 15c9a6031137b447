// The words of the command line.
ghost use Rattle.std.specs.Prelude.{◌≡◌, ◌≤◌, map, IfSome, Some};
ghost use Rattle.std.specs.Option.{option_map};
ghost use Rattle.std.specs.String.{string_bytes};
ghost use Rattle.text_parts.specs.Decimal.{whole_of};
ghost use Rattle.roadopt_program.specs.CommandWords.{Carry, two_files, a_number, to_new, forms, form_in, is_empty, clashes, over_files, trial_of, command_by, command_of, trial, name_written};
ghost use Rattle.roadopt_program.specs.inside.Called.{verb_called, form_called, road_called, called, number_called, IsCallable};

use std::alloc::Global;
use text_parts::whole;
use trial_roads::GREATEST_NUMBER;

/// What is to be done with a road.
#[derive(Clone, Copy)]
pub(crate) enum Verb<'a> {
    Judge,
    Check,
    Replay,
    Solve,
    Mass,
    /// What is carried is written to the file of this name.
    Carry { new: &'a str },
}

/// Which names follow a word.
#[derive(Clone, Copy)]
enum Form<'a> {
    /// Those of a road's file and of a further one.
    TwoFiles { verb: Verb<'a> },
    /// The number of a trial road.
    Number,
    /// Those of a road's file, of a certificate's and of one to write.
    ToNew,
}

/// What is to be done with a road, the name of its file, and that of the further one.
#[derive(Clone, Copy)]
pub(crate) struct RoadCommand<'a> {
    pub(crate) verb: Verb<'a>,
    pub(crate) road: &'a str,
    pub(crate) other: &'a str,
}

/// What is to be done.
#[derive(Clone, Copy)]
pub(crate) enum Command<'a> {
    OnRoad { command: RoadCommand<'a> },
    Trial { number: u64 },
}

fn is_empty(text: &str) -> bool
    ensures { result ≡ is_empty text.now }
{
    text.is_empty()
}

/// The form that begins with this word.
fn form_of<'a>(word: &str) -> Option<Form<'a>>
    ensures { option_map form_called result ≡ form_in forms word.now }
{
    if word == "judge" {
        Some(Form::TwoFiles { verb: Verb::Judge })
    } else if word == "check" {
        Some(Form::TwoFiles { verb: Verb::Check })
    } else if word == "replay" {
        Some(Form::TwoFiles { verb: Verb::Replay })
    } else if word == "solve" {
        Some(Form::TwoFiles { verb: Verb::Solve })
    } else if word == "trial" {
        Some(Form::Number)
    } else if word == "carry" {
        Some(Form::ToNew)
    } else if word == "mass" {
        Some(Form::TwoFiles { verb: Verb::Mass })
    } else {
        None
    }
}

impl Verb<'_> {
    /// Whether the command doesn't take these names together: it would write over a file that it reads, or to a name that is empty.
    fn clashes(&self, road: &str, other: &str) -> bool
        ensures { result ≡ clashes (verb_called self.now) road.now other.now }
    {
        match self {
            Verb::Solve => road == other,
            Verb::Carry { new } => clash(road, other, new),
            Verb::Judge | Verb::Check | Verb::Replay | Verb::Mass => false,
        }
    }
}

/// Whether the name of a new file is empty or one of the other two, or these are one.
fn clash(road: &str, cert: &str, new: &str) -> bool
    ensures { result ≡ clashes (Carry new.now) road.now cert.now }
{
    is_empty(new) || (road == cert || (road == new || cert == new))
}

impl<'a> RoadCommand<'a> {
    /// The name of the file that the command writes, where it writes one.
    pub(crate) fn name_written(&self) -> &'a str
        ensures { result.now ≡ name_written (road_called self.now) }
    {
        match self.verb {
            Verb::Carry { new } => new,
            _ => self.other,
        }
    }
}

/// The command over two files, neither of whose names is empty.
fn over_files<'a>(verb: Verb<'a>, road: &'a str, other: &'a str) -> Option<Command<'a>>
    ensures value { option_map called result ≡ over_files (verb_called verb.entry) road.now other.now }
    ensures callable { IfSome result IsCallable }
{
    if is_empty(road) || (is_empty(other) || verb.clashes(road, other)) {
        None
    } else {
        Some(Command::OnRoad {
            command: RoadCommand { verb, road, other },
        })
    }
}

/// The number of a trial road, where the word is the canonical decimal of one.
fn trial_number(word: &str) -> Option<u64>
    ensures value { option_map trial result ≡ trial_of (whole_of word.now) }
    ensures within { IfSome result (λ number. number ≤ 999999999) }
{
    let number = whole(word.as_bytes())?;
    number_within(number)
}

/// The number, where a trial road has it.
fn number_within(number: i128) -> Option<u64>
    ensures value { option_map trial result ≡ number_called number }
    ensures within { IfSome result (λ n. n ≤ 999999999) }
{
    if number < 0 || number > GREATEST_NUMBER as i128 {
        None
    } else {
        Some(number as u64)
    }
}

/// The trial of a number.
fn trial_command<'a>(number: &'a str) -> Option<Command<'a>>
    ensures value { option_map called result ≡ trial_of (whole_of number.now) }
    ensures callable { IfSome result IsCallable }
{
    match trial_number(number) {
        Some(number) => Some(Command::Trial { number }),
        None => None,
    }
}

/// The command for the names of a road's file and of a further one.
#[tactic(auto, using(crate::proofs::FormsLemmas::two_of, crate::proofs::FormsLemmas::not_two))]
fn with_two<'a>(verb: Verb<'a>, names: &'a [String]) -> Option<Command<'a>>
    ensures value { option_map called result ≡ command_by (Some (two_files (verb_called verb.entry))) (map string_bytes names.now) }
    ensures callable { IfSome result IsCallable }
{
    if names.len() != 2 {
        return None;
    }
    over_files(verb, names[0].as_str(), names[1].as_str())
}

/// The command for the names of a road's file, of a certificate's and of one to write.
#[tactic(auto, using(crate::proofs::FormsLemmas::three_of, crate::proofs::FormsLemmas::not_three))]
fn with_new(names: &[String]) -> Option<Command<'_>>
    ensures value { option_map called result ≡ command_by (Some to_new) (map string_bytes names.now) }
    ensures callable { IfSome result IsCallable }
{
    if names.len() != 3 {
        return None;
    }
    let new = names[2].as_str();
    over_files(Verb::Carry { new }, names[0].as_str(), names[1].as_str())
}

/// The command for a number.
#[tactic(auto, using(crate::proofs::FormsLemmas::one_of, crate::proofs::FormsLemmas::not_one))]
fn with_number(names: &[String]) -> Option<Command<'_>>
    ensures value { option_map called result ≡ command_by (Some a_number) (map string_bytes names.now) }
    ensures callable { IfSome result IsCallable }
{
    if names.len() != 1 {
        return None;
    }
    trial_command(names[0].as_str())
}

/// The command for the names behind a word.
#[tactic(auto, using(crate::proofs::FormsLemmas::by_no_form))]
fn command_by<'a>(form: Option<Form<'a>>, names: &'a [String]) -> Option<Command<'a>>
    ensures value { option_map called result ≡ command_by (option_map form_called form.entry) (map string_bytes names.now) }
    ensures callable { IfSome result IsCallable }
{
    match form {
        Some(Form::TwoFiles { verb }) => with_two(verb, names),
        Some(Form::Number) => with_number(names),
        Some(Form::ToNew) => with_new(names),
        None => None,
    }
}

/// The command, where the words are one of the table's forms.
#[tactic(auto, using(crate::proofs::FormsLemmas::no_words, crate::proofs::FormsLemmas::behind_the_word))]
pub(crate) fn command_of(words: &[String]) -> Option<Command<'_>>
    ensures value { option_map called result ≡ command_of (map string_bytes words.now) }
    ensures callable { IfSome result IsCallable }
{
    if words.is_empty() {
        return None;
    }
    command_by(form_of(words[0].as_str()), &words[1..])
}

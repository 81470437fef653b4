//! The words of a command.
ghost use Rattle.std.specs.Prelude.{◌≡◌, [], ◌∷◌, Some, None, MatchOption, map, string_bytes};
ghost use Rattle.gallium_cli.specs.Words.{request_of, asked_by, pcap_in, pcap_out};
ghost use Rattle.gallium_cli.specs.Words.{count_of, made_by, port_of, order_of, unit_of};

use gal_io::number_up_to;
use traffic_generator::Count;

/// Whose split a replay goes by.
#[derive(Clone, Copy)]
pub enum SplitForm<'a> {
    /// Every instruction is left to the server, and so every packet is sent there.
    ServerAlone,
    /// The split that `Compile` would print, within these limits, and whether it may shrink.
    Within(&'a str, bool),
    /// The split that a file spells, behind the limits that it has to keep.
    Spelled(&'a str, &'a str),
}

/// What a command asks for. Each text is the name of a file, in the order in which the words name them.
#[derive(Clone, Copy)]
pub enum Form<'a> {
    /// Runs the middlebox of a source on the packets of a trace, one after the other.
    Run(&'a str, &'a str),
    /// Prints the flat program of a source and its split within limits. The greatest split has to keep them, or else
    /// may shrink until it does, where the last is true.
    Compile(&'a str, &'a str, bool),
    /// Replays the middlebox of a source on a trace by a schedule, with this split.
    Replay(&'a str, &'a str, &'a str, SplitForm<'a>),
    /// Replays the middlebox of a source on a trace by a schedule over links that lose, repeat and reorder, with the
    /// split that `Compile` would print within limits.
    Lossy(&'a str, &'a str, &'a str, &'a str),
    /// Prints what a split of a source takes that the last file spells, where it is legal and keeps the limits of the
    /// second.
    Check(&'a str, &'a str, &'a str),
    /// Says whether a report is true of the middlebox of a source and the packets of a trace.
    Audit(&'a str, &'a str, &'a str),
    /// Prints a chain of middleboxes as one source.
    Chain(&'a str),
    /// Replays packets that are made from a seed, so many, and prints a summary.
    Gen(u64, Count),
    /// Prints the packets of a capture as a trace. Each arrives by this port.
    PcapIn(&'a str, u8),
    /// Prints the packets of a trace as a capture: whether its numbers have the highest byte first, and whether its
    /// fractions of seconds are nanoseconds.
    PcapOut(&'a str, bool, bool),
}

// The port that a word is.
fn port_of(word: &str) -> Option<u8>
    ensures { result ≡ port_of word.now }
{
    match number_up_to(word.as_bytes(), 255) {
        None => None,
        Some(port) => Some(port as u8),
    }
}

// Whether a word asks for the highest byte first.
fn order_of(word: &str) -> Option<bool>
    ensures { result ≡ order_of word.now }
{
    if word == "big" {
        return Some(true);
    }
    if word == "little" {
        return Some(false);
    }
    None
}

// Whether a word asks for nanoseconds.
fn unit_of(word: &str) -> Option<bool>
    ensures { result ≡ unit_of word.now }
{
    if word == "nano" {
        return Some(true);
    }
    if word == "micro" {
        return Some(false);
    }
    None
}

// The form of these words behind `pcap`, if they have one.
fn pcap_in<'a>(way: &str, capture: &'a str, port: &str) -> Option<Form<'a>>
    ensures { MatchOption result (pcap_in way.now capture.now port.now ≡ None)
        (λ form. pcap_in way.now capture.now port.now ≡ Some (asked_by form)) }
{
    if way != "in" {
        return None;
    }
    let port = port_of(port)?;
    Some(Form::PcapIn(capture, port))
}

fn pcap_out<'a>(way: &str, trace: &'a str, order: &str, unit: &str) -> Option<Form<'a>>
    ensures { MatchOption result (pcap_out way.now trace.now order.now unit.now ≡ None)
        (λ form. pcap_out way.now trace.now order.now unit.now ≡ Some (asked_by form)) }
{
    if way != "out" {
        return None;
    }
    let big = order_of(order)?;
    let nano = unit_of(unit)?;
    Some(Form::PcapOut(trace, big, nano))
}

// The number of packets that a word is.
fn count_of(word: &str) -> Option<Count>
    ensures { MatchOption result (count_of word.now ≡ None) (λ count. count_of word.now ≡ Some count.packets) }
{
    let number = number_up_to(word.as_bytes(), 16_384)?;
    Count::of(number)
}

// The form of these words behind `gen`, if they have one.
fn made_by<'a>(seed: &str, count: &str) -> Option<Form<'a>>
    ensures { MatchOption result (made_by seed.now count.now ≡ None)
        (λ form. made_by seed.now count.now ≡ Some (asked_by form)) }
{
    let seed = number_up_to(seed.as_bytes(), u64::MAX)?;
    let count = count_of(count)?;
    Some(Form::Gen(seed, count))
}

// The form of a command of two words, if it has one.
fn form_of_two<'a>(word: &str, wiring: &'a str) -> Option<Form<'a>>
    ensures { MatchOption result (request_of (word.now ∷ wiring.now ∷ []) ≡ None)
        (λ form. request_of (word.now ∷ wiring.now ∷ []) ≡ Some (asked_by form)) }
{
    if word == "chain" {
        return Some(Form::Chain(wiring));
    }
    None
}

// The same of three words.
fn form_of_three<'a>(word: &str, source: &'a str, second: &'a str) -> Option<Form<'a>>
    ensures { MatchOption result (request_of (word.now ∷ source.now ∷ second.now ∷ []) ≡ None)
        (λ form. request_of (word.now ∷ source.now ∷ second.now ∷ []) ≡ Some (asked_by form)) }
{
    if word == "run" {
        return Some(Form::Run(source, second));
    }
    if word == "compile" {
        return Some(Form::Compile(source, second, false));
    }
    if word == "gen" {
        return made_by(source, second);
    }
    None
}

// The same of four words.
fn form_of_four<'a>(
    word: &str,
    source: &'a str,
    second: &'a str,
    third: &'a str,
) -> Option<Form<'a>>
    ensures { MatchOption result (request_of (word.now ∷ source.now ∷ second.now ∷ third.now ∷ []) ≡ None)
        (λ form. request_of (word.now ∷ source.now ∷ second.now ∷ third.now ∷ []) ≡ Some (asked_by form)) }
{
    if word == "pcap" {
        return pcap_in(source, second, third);
    }
    if word == "replay" {
        return Some(Form::Replay(source, second, third, SplitForm::ServerAlone));
    }
    if word == "check" {
        return Some(Form::Check(source, second, third));
    }
    if word == "audit" {
        return Some(Form::Audit(source, second, third));
    }
    if word == "compile" && third == "shrink" {
        return Some(Form::Compile(source, second, true));
    }
    None
}

// The same of five words.
fn form_of_five<'a>(
    word: &str,
    source: &'a str,
    trace: &'a str,
    schedule: &'a str,
    limits: &'a str,
) -> Option<Form<'a>>
    ensures { MatchOption result (request_of (word.now ∷ source.now ∷ trace.now ∷ schedule.now ∷ limits.now ∷ []) ≡ None)
        (λ form. request_of (word.now ∷ source.now ∷ trace.now ∷ schedule.now ∷ limits.now ∷ []) ≡ Some (asked_by form)) }
{
    if word == "pcap" {
        return pcap_out(source, trace, schedule, limits);
    }
    if word == "replay" {
        let within = SplitForm::Within(limits, false);
        return Some(Form::Replay(source, trace, schedule, within));
    }
    if word == "lossy" {
        return Some(Form::Lossy(source, trace, schedule, limits));
    }
    None
}

// The same of six words.
fn form_of_six<'a>(
    word: &str,
    source: &'a str,
    trace: &'a str,
    schedule: &'a str,
    limits: &'a str,
    last: &str,
) -> Option<Form<'a>>
    ensures { MatchOption result (request_of (word.now ∷ source.now ∷ trace.now ∷ schedule.now ∷ limits.now ∷ last.now ∷ []) ≡ None)
        (λ form. request_of (word.now ∷ source.now ∷ trace.now ∷ schedule.now ∷ limits.now ∷ last.now ∷ []) ≡ Some (asked_by form)) }
{
    if word == "replay" && last == "shrink" {
        let within = SplitForm::Within(limits, true);
        return Some(Form::Replay(source, trace, schedule, within));
    }
    None
}

// The same of seven words.
fn form_of_seven<'a>(
    word: &str,
    source: &'a str,
    trace: &'a str,
    schedule: &'a str,
    limits: &'a str,
    by: &str,
    split: &'a str,
) -> Option<Form<'a>>
    ensures { MatchOption result (request_of (word.now ∷ source.now ∷ trace.now ∷ schedule.now ∷ limits.now ∷ by.now ∷ split.now ∷ []) ≡ None)
        (λ form. request_of (word.now ∷ source.now ∷ trace.now ∷ schedule.now ∷ limits.now ∷ by.now ∷ split.now ∷ []) ≡ Some (asked_by form)) }
{
    if word == "replay" && by == "split" {
        let spelled = SplitForm::Spelled(limits, split);
        return Some(Form::Replay(source, trace, schedule, spelled));
    }
    None
}

/// The form of the words after the program's name, if they have one.
pub fn form_of<'a>(words: &'a [String]) -> Option<Form<'a>>
    ensures { MatchOption result (request_of (map string_bytes words.now) ≡ None)
        (λ form. request_of (map string_bytes words.now) ≡ Some (asked_by form)) }
{
    match words {
        [word, wiring] => form_of_two(word.as_str(), wiring.as_str()),
        [word, source, second] => form_of_three(word.as_str(), source.as_str(), second.as_str()),
        [word, source, second, third] => form_of_four(
            word.as_str(),
            source.as_str(),
            second.as_str(),
            third.as_str(),
        ),
        [word, source, trace, schedule, limits] => form_of_five(
            word.as_str(),
            source.as_str(),
            trace.as_str(),
            schedule.as_str(),
            limits.as_str(),
        ),
        [word, source, trace, schedule, limits, last] => form_of_six(
            word.as_str(),
            source.as_str(),
            trace.as_str(),
            schedule.as_str(),
            limits.as_str(),
            last.as_str(),
        ),
        [word, source, trace, schedule, limits, by, split] => form_of_seven(
            word.as_str(),
            source.as_str(),
            trace.as_str(),
            schedule.as_str(),
            limits.as_str(),
            by.as_str(),
            split.as_str(),
        ),
        _ => None,
    }
}

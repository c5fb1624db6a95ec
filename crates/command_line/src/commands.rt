ghost use Rattle.std.specs.Prelude.{◌≡◌, ◌≢◌, Some, map, option_map, string_bytes, IfOk, IfErr};
ghost use Rattle.std.specs.Option.{option_copied};
ghost use Rattle.command_line.specs.Commands.{command_of, command_told, forms, spelled_by, usage_line};
ghost use Rattle.command_line.specs.inner.Forms.{forms_from_isolate, forms_from_responses, forms_from_rtds, forms_from_steal};
ghost use Rattle.command_line.specs.Forms.{four_words, no_word, one_word, three_words, two_words};
ghost use Rattle.command_line.specs.Numbers.{guest_number};
ghost use Rattle.command_line.specs.Reading.{NamesNoFile};
ghost use Rattle.command_line.specs.Steps.{IsSaidTo, CommandTakes};
ghost use Rattle.outside.specs.Counts.{counts_of};
ghost use Rattle.command_frame.specs.Steps.{IfAnswered, Explains};

use crate::numbers::number_from_one;
use crate::period_words::{period_of, range_of};
use crate::slot_words::{pattern_of, slot_count};
use crate::version::version;
use admit_commands::{Admit, Certify, Check};
use command_frame::{Answer, Ending, Status, ended, over_one, over_pieces, over_two};
use guest_commands::{Choose, Interface, Period, Periods, Responses, Slack};
use host_commands::{Editor, Guests, Placer, bulk};
use outside::Store;
use server_sched::Pattern;
use std::alloc::Global;
use trace_commands::{Isolate, Rtds, Simulate, Slots, TraceCommand};

/// The most guests of `bulk N`.
const MOST_GUESTS: u64 = 256;

/// A form of words, with the names of its files in the order of the words.
#[derive(Clone, Copy)]
pub enum Command<'a> {
    /// `admit FILE`
    Admit(&'a str),
    /// `certify FILE`
    Certify(&'a str),
    /// `check FILE CERT`
    Check(&'a str, &'a str),
    /// `rtds FILE WORKLOAD SLOTS`
    Rtds(&'a str, &'a str, Slots),
    /// `audit FILE TRACE`
    Audit(&'a str, &'a str),
    /// `simulate FILE RELEASES PATTERN SLOTS`
    Simulate(&'a str, &'a str, Pattern, Slots),
    /// `bulk N`
    Bulk(Guests),
    /// `responses FILE`
    Responses(&'a str),
    /// `interface FILE PART DEADLINE`
    Interface(&'a str, &'a str, Period),
    /// `choose FILE PART LOW HIGH`
    Choose(&'a str, &'a str, Periods),
    /// `session FILE SCRIPT`
    Session(&'a str, &'a str),
    /// `place FILE GUESTS`
    Place(&'a str, &'a str),
    /// `isolate FILE`
    Isolate(&'a str),
    /// `slack FILE PART`
    Slack(&'a str, &'a str),
    /// `tally FILE TRACE`
    Tally(&'a str, &'a str),
    /// `version`
    Version,
    /// `steal FILE TRACE`
    Steal(&'a str, &'a str),
}

/// The command that the words spell: its own word, its files, and what else it takes.
pub fn parse(words: &[String]) -> Option<Command<'_>>
    ensures { option_map command_told result ≡ command_of (map string_bytes words.now) }
{
    let (word, rest) = words.split_first()?;
    spelled(word.as_str(), rest)
}

/// The command of this word, with the words behind it: an arm a form, in their order, four by a
/// function.
fn spelled<'a>(word: &str, rest: &'a [String]) -> Option<Command<'a>>
    ensures { option_map command_told result
        ≡ spelled_by forms word.now (map string_bytes rest.now) }
{
    Some(match word {
        "admit" => Command::Admit(one_word(rest)?),
        "certify" => Command::Certify(one_word(rest)?),
        "check" => {
            let (file, cert) = two_words(rest)?;
            Command::Check(file, cert)
        }
        "simulate" => {
            let (file, releases, pattern, slots) = four_words(rest)?;
            Command::Simulate(file, releases, pattern_of(pattern)?, slot_count(slots)?)
        }
        _ => return spelled_from_rtds(word, rest),
    })
}

fn spelled_from_rtds<'a>(word: &str, rest: &'a [String]) -> Option<Command<'a>>
    ensures { option_map command_told result
        ≡ spelled_by forms_from_rtds word.now (map string_bytes rest.now) }
{
    Some(match word {
        "rtds" => {
            let (file, workload, slots) = three_words(rest)?;
            Command::Rtds(file, workload, slot_count(slots)?)
        }
        "audit" => {
            let (file, trace) = two_words(rest)?;
            Command::Audit(file, trace)
        }
        "bulk" => Command::Bulk(guest_number(one_word(rest)?)?),
        "interface" => {
            let (file, part, deadline) = three_words(rest)?;
            Command::Interface(file, part, period_of(deadline)?)
        }
        _ => return spelled_from_responses(word, rest),
    })
}

fn spelled_from_responses<'a>(word: &str, rest: &'a [String]) -> Option<Command<'a>>
    ensures { option_map command_told result
        ≡ spelled_by forms_from_responses word.now (map string_bytes rest.now) }
{
    Some(match word {
        "responses" => Command::Responses(one_word(rest)?),
        "choose" => {
            let (file, part, low, high) = four_words(rest)?;
            Command::Choose(file, part, range_of(low, high)?)
        }
        "session" => {
            let (file, script) = two_words(rest)?;
            Command::Session(file, script)
        }
        "place" => {
            let (file, guests) = two_words(rest)?;
            Command::Place(file, guests)
        }
        _ => return spelled_from_isolate(word, rest),
    })
}

fn spelled_from_isolate<'a>(word: &str, rest: &'a [String]) -> Option<Command<'a>>
    ensures { option_map command_told result
        ≡ spelled_by forms_from_isolate word.now (map string_bytes rest.now) }
{
    Some(match word {
        "isolate" => Command::Isolate(one_word(rest)?),
        "slack" => {
            let (file, part) = two_words(rest)?;
            Command::Slack(file, part)
        }
        "tally" => {
            let (file, trace) = two_words(rest)?;
            Command::Tally(file, trace)
        }
        "version" => {
            no_word(rest)?;
            Command::Version
        }
        _ => return spelled_from_steal(word, rest),
    })
}

fn spelled_from_steal<'a>(word: &str, rest: &'a [String]) -> Option<Command<'a>>
    ensures { option_map command_told result
        ≡ spelled_by forms_from_steal word.now (map string_bytes rest.now) }
{
    Some(match word {
        "steal" => {
            let (file, trace) = two_words(rest)?;
            Command::Steal(file, trace)
        }
        _ => return None,
    })
}

/// The answer to words that spell no command.
fn usage_text() -> &'static str
    ensures { result.now ≡ usage_line }
{
    "usage: rtadmit admit FILE | certify FILE | check FILE CERT | \
     simulate FILE RELEASES PATTERN SLOTS | rtds FILE WORKLOAD SLOTS | audit FILE TRACE | bulk N | \
     interface FILE PART DEADLINE | responses FILE | choose FILE PART LOW HIGH | \
     session FILE SCRIPT | place FILE GUESTS | isolate FILE | slack FILE PART | tally FILE TRACE | \
     version | steal FILE TRACE\n"
}

/// The answer to a command, or to words that spell none.
#[tactic(auto, using(crate::proofs::Taking::nothing_taken))]
pub fn answer<S: Store>(alloc: Global, command: Option<Command<'_>>, store: &mut S) -> Ending
    ensures answer { IfAnswered result (λ a. IsSaidTo (option_map command_told command.entry)
        (S.files store.old) a.status a.text.items) }
    ensures explained { let counts = counts_of S.faults S.absences S.taken in
        Explains result (counts store.old) (counts store.new) }
    ensures same_files { S.files store.new ≡ S.files store.old }
    ensures untouched { NamesNoFile (option_map command_told command.entry)
        → store.new ≡ store.old }
    ensures read { NamesNoFile (option_map command_told command.entry)
        → result ≢ Ending.Unread }
    ensures taken { CommandTakes (option_map command_told command.entry) (S.files store.old)
        result (S.taken store.old) (S.taken store.new) }
{
    match command {
        Some(Command::Admit(file)) => ended(over_one(alloc, store, file, &Admit)),
        Some(Command::Certify(file)) => ended(over_one(alloc, store, file, &Certify)),
        Some(Command::Check(file, cert)) => ended(over_two(alloc, store, file, cert, &Check)),
        Some(Command::Rtds(file, workload, slots)) => {
            ended(over_two(alloc, store, file, workload, &Rtds { slots }))
        }
        Some(Command::Audit(file, trace)) => {
            let judge = TraceCommand::Audit;
            ended(over_pieces(alloc, store, file, trace, &judge, &mut None))
        }
        Some(Command::Simulate(file, releases, pattern, slots)) => {
            let judge = Simulate { pattern, slots };
            ended(over_two(alloc, store, file, releases, &judge))
        }
        Some(Command::Bulk(guests)) => ended(bulk(alloc, guests)),
        Some(Command::Responses(file)) => ended(over_one(alloc, store, file, &Responses)),
        Some(Command::Interface(file, part, deadline)) => {
            ended(over_one(alloc, store, file, &Interface { part, deadline }))
        }
        Some(Command::Choose(file, part, periods)) => {
            ended(over_one(alloc, store, file, &Choose { part, periods }))
        }
        Some(Command::Session(file, script)) => {
            ended(over_two(alloc, store, file, script, &Editor))
        }
        Some(Command::Place(file, guests)) => ended(over_two(alloc, store, file, guests, &Placer)),
        Some(Command::Isolate(file)) => ended(over_one(alloc, store, file, &Isolate)),
        Some(Command::Slack(file, part)) => ended(over_one(alloc, store, file, &Slack { part })),
        Some(Command::Tally(file, trace)) => {
            let judge = TraceCommand::Tally;
            ended(over_pieces(alloc, store, file, trace, &judge, &mut None))
        }
        Some(Command::Version) => ended(version(alloc)),
        Some(Command::Steal(file, trace)) => {
            let judge = TraceCommand::Steal;
            ended(over_pieces(alloc, store, file, trace, &judge, &mut None))
        }
        None => ended(usage(alloc)),
    }
}

// The usage line.
fn usage(alloc: Global) -> Result<Answer, Ending>
    ensures status { IfOk result (λ a. a.status ≡ Status.Usage) }
    ensures text { IfOk result (λ a. a.text.items ≡ usage_line) }
    ensures memory { IfErr result (λ ending. ending ≡ Ending.NoMemory) }
{
    Ok(Answer {
        status: Status::Usage,
        text: usage_text().as_bytes().to_vec(alloc)?,
    })
}

fn no_word(words: &[String]) -> Option<()>
    ensures { result ≡ no_word (map string_bytes words.now) }
{
    match words {
        [] => Some(()),
        _ => None,
    }
}

fn one_word(words: &[String]) -> Option<&str>
    ensures { option_copied result ≡ one_word (map string_bytes words.now) }
{
    match words {
        [word] => Some(word.as_str()),
        _ => None,
    }
}

fn two_words(words: &[String]) -> Option<(&str, &str)>
    ensures { option_map (λ found. (found.0.now, found.1.now)) result
        ≡ two_words (map string_bytes words.now) }
{
    match words {
        [first, second] => Some((first.as_str(), second.as_str())),
        _ => None,
    }
}

fn three_words(words: &[String]) -> Option<(&str, &str, &str)>
    ensures { option_map (λ found. (found.0.now, found.1.now, found.2.now)) result
        ≡ three_words (map string_bytes words.now) }
{
    match words {
        [first, second, third] => Some((first.as_str(), second.as_str(), third.as_str())),
        _ => None,
    }
}

fn four_words(words: &[String]) -> Option<(&str, &str, &str, &str)>
    ensures { option_map (λ found. (found.0.now, found.1.now, found.2.now, found.3.now)) result
        ≡ four_words (map string_bytes words.now) }
{
    match words {
        [first, second, third, fourth] => Some((
            first.as_str(),
            second.as_str(),
            third.as_str(),
            fourth.as_str(),
        )),
        _ => None,
    }
}

/// The number of guests that a word tells: a plain decimal from 1 to 256.
fn guest_number(word: &str) -> Option<Guests>
    ensures { option_map (λ guests. guests.number) result ≡ guest_number word.now }
{
    Some(Guests {
        number: number_from_one(word, MOST_GUESTS)?,
    })
}

use crate::turn::{ToldJudge, Turn};
use case_rules::{
    Appeal, Case, Change, Command, Content, Decision, OutcomeWord, Ruling, RulingWord,
};
use desk_serving::Desk;
use serving_lines::bytes_of as bytes_written;
use std::alloc::{AllocError, Global};
use store_office::{Office, Party, Role};
use vet_base::{Memory, Name, Shared};

/// The bytes of a word: `#N` stands for N letters, and in any other word `\xNN` for the byte of this number.
fn bytes_of(alloc: Global, word: &str) -> Result<Vec<u8>, Memory> {
    match word.strip_prefix("#") {
        None => Ok(bytes_written(alloc, word)?),
        Some(count) => {
            let count = count.parse::<u16>().unwrap_or(0);
            Ok(vec![in alloc; b'a'; usize::from(count)]?)
        }
    }
}

fn name_of(alloc: Global, word: &str) -> Result<Name, Memory> {
    Name::new(alloc, bytes_of(alloc, word)?)
}

fn text_of(alloc: Global, word: &str) -> Result<Shared<u8>, Memory> {
    Shared::from_vec(alloc, bytes_of(alloc, word)?)
}

/// A file, and behind it one with each of the words.
fn files_of(alloc: Global, words: &[&str]) -> Result<Shared<Shared<u8>>, Memory> {
    let mut files = Vec::new(alloc);
    files.push(text_of(alloc, "dex")?)?;
    for word in words {
        files.push(text_of(alloc, word)?)?;
    }
    Shared::from_vec(alloc, files)
}

/// Files of which each word is in one.
fn content_of(alloc: Global, words: &[&str]) -> Result<Content, Memory> {
    let manifest = text_of(alloc, "manifest")?;
    let declaration = text_of(alloc, "declaration")?;
    let dex = files_of(alloc, words)?;
    Ok(Content {
        manifest,
        layouts: Shared::new(),
        declaration,
        dex,
    })
}

/// Whether `rex` and `sue`, the reviewers, or a developer.
fn role_of(word: &str) -> Role {
    match word {
        "rex" | "sue" => Role::Reviewer,
        _ => Role::Developer,
    }
}

/// The outcome with whose word a report begins.
fn outcome_of(report: &str) -> OutcomeWord {
    if report.starts_with("clear") {
        OutcomeWord::Clear
    } else if report.starts_with("undecided") {
        OutcomeWord::Undecided
    } else if report.starts_with("refused") {
        OutcomeWord::Refused
    } else {
        OutcomeWord::Flagged
    }
}

fn ruling_of(word: &str) -> RulingWord {
    match word {
        "overturn" => RulingWord::Overturn,
        _ => RulingWord::Uphold,
    }
}

/// The edition of this number.
fn edition_of(word: &str) -> [u8; 32] {
    let number = word.parse::<u16>().unwrap_or(0).to_le_bytes();
    let mut edition = [0; 32];
    edition[0] = number[0];
    edition[1] = number[1];
    edition
}

/// The word at a place, or an empty one.
fn word<'a>(words: &[&'a str], place: usize) -> &'a str {
    words.get(place).copied().unwrap_or("")
}

/// The name at place 4.
fn first_name(alloc: Global, words: &[&str]) -> Result<Name, Memory> {
    name_of(alloc, word(words, 4))
}

/// The names at places 4 and 5.
fn both_names(alloc: Global, words: &[&str]) -> Result<(Name, Name), Memory> {
    let first = first_name(alloc, words)?;
    Ok((first, name_of(alloc, word(words, 5))?))
}

fn submit_of(alloc: Global, words: &[&str]) -> Result<Command, Memory> {
    let reference = first_name(alloc, words)?;
    let content = content_of(alloc, words.get(5..).unwrap_or(&[]))?;
    Ok(Command::Submit(reference, content))
}

fn appeal_of(alloc: Global, words: &[&str]) -> Result<Command, Memory> {
    let reference = first_name(alloc, words)?;
    let text = text_of(alloc, word(words, 5))?;
    Ok(Command::Appeal(reference, text))
}

fn review_of(alloc: Global, words: &[&str]) -> Result<Command, Memory> {
    let (developer, reference) = both_names(alloc, words)?;
    Ok(Command::Review(developer, reference))
}

fn rule_of(alloc: Global, words: &[&str]) -> Result<Command, Memory> {
    let (developer, reference) = both_names(alloc, words)?;
    Ok(Command::Rule(developer, reference, ruling_of(word(words, 6))))
}

fn command_of(alloc: Global, words: &[&str]) -> Result<Command, Memory> {
    match word(words, 3) {
        "submit" => submit_of(alloc, words),
        "decide" => Ok(Command::Decide),
        "show" => Ok(Command::Show(first_name(alloc, words)?)),
        "report" => Ok(Command::Report(first_name(alloc, words)?)),
        "appeal" => appeal_of(alloc, words),
        "review" => review_of(alloc, words),
        "rule" => rule_of(alloc, words),
        _ => Ok(Command::List),
    }
}

fn party_of(alloc: Global, word: &str) -> Result<Party, Memory> {
    let name = name_of(alloc, word)?;
    let token = name_of(alloc, "token")?;
    Ok(Party {
        name,
        role: role_of(word),
        token,
    })
}

/// A desk that takes appeals for 30 days, without parties: who asks stands in the turn.
fn desk_of(edition: [u8; 32], outcome: OutcomeWord, report: Shared<u8>) -> Desk<ToldJudge> {
    Desk {
        office: Office {
            port: 8080,
            workers: 1,
            appeal_days: 30,
            parties: Shared::new(),
        },
        judge: ToldJudge {
            edition,
            outcome,
            report,
        },
    }
}

fn turn_in(alloc: Global, words: &[&str]) -> Result<Turn, Memory> {
    let last = words.last().copied().unwrap_or("");
    let report = text_of(alloc, last)?;
    let party = party_of(alloc, word(words, 2))?;
    let command = command_of(alloc, words)?;
    Ok(Turn {
        party,
        day: word(words, 0).parse::<u32>().unwrap_or(0),
        desk: desk_of(edition_of(word(words, 1)), outcome_of(last), report),
        command,
    })
}

/// The turn that a line says: the day, the number of the edition, the party, the command and its words. The last word
/// of a decision or review is the report, which begins with the word of the outcome.
pub fn turn_of(alloc: Global, line: &str) -> Result<Turn, Memory> {
    let words: Vec<&str> = line.split_whitespace().collect(alloc)?;
    turn_in(alloc, words.as_slice())
}

/// The decision of a reviewer by what judging gives.
fn decision_of(judge: ToldJudge, reviewer: Name, day: u32) -> Decision {
    let lists = judge.edition;
    Decision {
        outcome: judge.outcome,
        report: judge.report,
        lists,
        reviewer,
        day,
    }
}

/// The change that a turn makes where it fits; none of a command that names no case.
fn change_in(turn: Turn) -> Option<Change> {
    let Turn {
        party,
        day,
        desk,
        command,
    } = turn;
    let name = party.name;
    let judge = desk.judge;
    match command {
        Command::Submit(reference, content) => Some(Change::Add(Case {
            party: name,
            reference,
            content,
            entries: Shared::new(),
        })),
        Command::Appeal(reference, text) => {
            Some(Change::Appeal(name, reference, Appeal { day, text }))
        }
        Command::Review(developer, reference) => {
            let decision = decision_of(judge, name, day);
            Some(Change::Decide(developer, reference, decision))
        }
        Command::Rule(developer, reference, word) => {
            let ruling = Ruling {
                reviewer: name,
                day,
                word,
            };
            Some(Change::Rule(developer, reference, ruling))
        }
        _ => None,
    }
}

/// The change that the command of a line makes where it fits; none of a command that names no case.
pub fn change_of(alloc: Global, line: &str) -> Result<Option<Change>, Memory> {
    Ok(change_in(turn_of(alloc, line)?))
}

/// The numbers in a text.
pub fn numbers_of(alloc: Global, text: &str) -> Result<Vec<u64>, AllocError> {
    let mut numbers = Vec::new(alloc);
    for word in text.split_whitespace() {
        numbers.push(word.parse::<u64>().unwrap_or(0))?;
    }
    Ok(numbers)
}

//! The words of a command line.
ghost use Rattle.std.specs.Prelude.{◌≡◌, ◌≤◌, map, string_bytes, option_map, IfSome, IfOk};
ghost use Rattle.clap.specs.Words.{app_of, first_of, found_of, rows_of};
ghost use Rattle.optra_text.specs.CommandForms.{IsSimple, rows_given};
ghost use Rattle.optra_text.specs.Ranges.{HasRanges};
ghost use Rattle.optra_text.specs.Words.{IsErrorOf, Reads, auction_words, audit_words, check_words, compress_words, house_words, is_path, needed_path, number_or, number_within, optional_path, pay_words, plan_words, tables_given, words_of, demo_words, needed_number};
ghost use Rattle.optra_text.specs.declared.words.WordsError.TheVariants.{NoMemory};

use crate::command_forms::{
    auction_command, audit_command, check_command, compress_command, demo_command, house_command,
    pay_command, plan_command,
};
use crate::path_text::PathText;
use clap::error::ErrorKind;
use clap::{ArgMatches, Command};
use optra_records::number;
use std::alloc::{AllocError, Global};

/// The most bytes of a path.
const LONGEST_PATH: usize = 4096;
/// How many price steps are made at a node where `--steps` isn't given, and the most that can be asked for.
const DEFAULT_STEPS: u64 = 40;

pub(crate) const MOST_STEPS: u64 = 1000;
/// How many nodes are taken where `--budget` isn't given, and the most that can be asked for.
const DEFAULT_BUDGET: u64 = 200;

const MOST_BUDGET: u64 = 10_000;

/// The greatest seed of a demo.
const MOST_SEED: u64 = 4_294_967_295;
/// The greatest size of a demo.
const MOST_SIZE: u64 = 9;

/// What words ask for.
#[derive(Debug, Drop)]
pub enum Words {
    /// plan --net DIR --bids FILE --stops FILE [--steps K] [--budget B] [--cert FILE]
    Plan {
        /// The folder of the network's tables.
        net: PathText,
        /// The table of bids.
        bids: PathText,
        /// The table of stops.
        stops: PathText,
        /// The most price steps at a node: 0 to 1,000, and 40 where they aren't given.
        steps: u32,
        /// The most nodes of the search: 1 to 10,000, and 200 where it isn't given.
        budget: u64,
        /// Where the certificate is to be put, if it is.
        cert: Option<PathText>,
    },
    /// check --net DIR --bids FILE --stops FILE --cert FILE
    Check {
        /// The folder of the network's tables.
        net: PathText,
        /// The table of bids.
        bids: PathText,
        /// The table of stops.
        stops: PathText,
        /// The certificate that is to be checked.
        cert: PathText,
    },
    /// auction --net DIR --bids FILE --stops FILE --rules FILE --actions FILE [--certs PREFIX]
    Auction {
        /// The folder of the network's tables.
        net: PathText,
        /// The table of specifications.
        bids: PathText,
        /// The table of their stops.
        stops: PathText,
        /// The table of rules.
        rules: PathText,
        /// The table of actions.
        actions: PathText,
        /// What the names of each round's files begin with, if they are to be put.
        certs: Option<PathText>,
    },
    /// demo SEED SIZE
    Demo {
        /// What the tables are drawn from: 0 to 4,294,967,295.
        seed: u32,
        /// How large they are: 1 to 9.
        size: u8,
    },
    /// audit --net DIR --bids FILE --stops FILE --times FILE
    Audit {
        /// The folder of the network's tables.
        net: PathText,
        /// The table of bids.
        bids: PathText,
        /// The table of stops.
        stops: PathText,
        /// The timetable that is to be audited.
        times: PathText,
    },
    /// pay --net DIR --bids FILE --stops FILE [--steps K] [--budget B]
    Pay {
        /// The folder of the network's tables.
        net: PathText,
        /// The table of bids.
        bids: PathText,
        /// The table of stops.
        stops: PathText,
        /// The most price steps at a node: 0 to 1,000, and 40 where they aren't given.
        steps: u32,
        /// The most nodes of each search: 1 to 10,000, and 200 where it isn't given.
        budget: u64,
    },
    /// house --net DIR --bids FILE --stops FILE --rules FILE --actions FILE --journal FILE
    House {
        /// The folder of the network's tables.
        net: PathText,
        /// The table of specifications.
        bids: PathText,
        /// The table of their stops.
        stops: PathText,
        /// The table of rules.
        rules: PathText,
        /// The table of actions.
        actions: PathText,
        /// The journal of the auction, which is made where there is none.
        journal: PathText,
    },
    /// compress --net DIR --bids FILE --stops FILE --times FILE
    Compress {
        /// The folder of the network's tables.
        net: PathText,
        /// The table of bids.
        bids: PathText,
        /// The table of stops.
        stops: PathText,
        /// The timetable whose trains are to be moved.
        times: PathText,
    },
}

/// Why words were not read.
#[derive(Clone, Copy, Debug, PartialEq, Eq)]
pub enum WordsError {
    /// They are no command form.
    Usage,
    /// Memory ran out.
    NoMemory,
}

impl From<AllocError> for WordsError {
    ghost from_gives = { λ _ e. e ≡ NoMemory };

    fn from(_: AllocError) -> WordsError {
        WordsError::NoMemory
    }
}

/// Reads the words after the program's name. The first is the command, and the others are its options, which `clap`
/// reads in any order, as `--net DIR` or `--net=DIR`.
///
/// `Usage` comes exactly where the words are no command form: where the first is no command, `clap` refuses the
/// others, or a value isn't in its range.
pub fn read_words(alloc: Global, words: &[String]) -> Result<Words, WordsError>
    ensures read { Reads (λ read. read) result (words_of (map string_bytes words.now)) }
    ensures budget { IfOk result HasRanges }
{
    let Some((command, options)) = words.split_first() else {
        return Err(WordsError::Usage);
    };
    match command.as_str() {
        "plan" => read_plan(alloc, options),
        "check" => read_check(alloc, options),
        "auction" => read_auction(alloc, options),
        "demo" => read_demo(alloc, options),
        "audit" => read_audit(alloc, options),
        "pay" => read_pay(alloc, options),
        "house" => read_house(alloc, options),
        "compress" => read_compress(alloc, options),
        _ => Err(WordsError::Usage),
    }
}

/// What the words behind `plan` ask for.
#[tactic(auto, unfolding(crate::specs::Words::plan_words))]
fn read_plan(alloc: Global, words: &[String]) -> Result<Words, WordsError>
    ensures read { Reads (λ read. read) result (plan_words (map string_bytes words.now)) }
    ensures budget { IfOk result HasRanges }
{
    let matches = matches_of(plan_command(alloc)?, words)?;
    let TablePaths { net, bids, stops } = tables_given(alloc, &matches)?;
    let steps = number_or(DEFAULT_STEPS, 0, MOST_STEPS, given(&matches, "steps"))?;
    let budget = number_or(DEFAULT_BUDGET, 1, MOST_BUDGET, given(&matches, "budget"))?;
    let cert = path_or_none(alloc, given(&matches, "cert"))?;
    Ok(Words::Plan {
        net,
        bids,
        stops,
        steps: steps as u32,
        budget,
        cert,
    })
}

/// What the words behind `check` ask for.
#[tactic(auto, unfolding(crate::specs::Words::check_words))]
fn read_check(alloc: Global, words: &[String]) -> Result<Words, WordsError>
    ensures read { Reads (λ read. read) result (check_words (map string_bytes words.now)) }
    ensures budget { IfOk result HasRanges }
{
    let matches = matches_of(check_command(alloc)?, words)?;
    let TablePaths { net, bids, stops } = tables_given(alloc, &matches)?;
    let cert = path_of(alloc, given(&matches, "cert"))?;
    Ok(Words::Check {
        net,
        bids,
        stops,
        cert,
    })
}

/// What the words behind `audit` ask for.
#[tactic(auto, unfolding(crate::specs::Words::audit_words))]
fn read_audit(alloc: Global, words: &[String]) -> Result<Words, WordsError>
    ensures read { Reads (λ read. read) result (audit_words (map string_bytes words.now)) }
    ensures budget { IfOk result HasRanges }
{
    let matches = matches_of(audit_command(alloc)?, words)?;
    let TablePaths { net, bids, stops } = tables_given(alloc, &matches)?;
    let times = path_of(alloc, given(&matches, "times"))?;
    Ok(Words::Audit {
        net,
        bids,
        stops,
        times,
    })
}

/// What the words behind `compress` ask for.
#[tactic(auto, unfolding(crate::specs::Words::compress_words))]
fn read_compress(alloc: Global, words: &[String]) -> Result<Words, WordsError>
    ensures read { Reads (λ read. read) result (compress_words (map string_bytes words.now)) }
    ensures budget { IfOk result HasRanges }
{
    let matches = matches_of(compress_command(alloc)?, words)?;
    let TablePaths { net, bids, stops } = tables_given(alloc, &matches)?;
    let times = path_of(alloc, given(&matches, "times"))?;
    Ok(Words::Compress {
        net,
        bids,
        stops,
        times,
    })
}

/// What the words behind `pay` ask for.
#[tactic(auto, unfolding(crate::specs::Words::pay_words))]
fn read_pay(alloc: Global, words: &[String]) -> Result<Words, WordsError>
    ensures read { Reads (λ read. read) result (pay_words (map string_bytes words.now)) }
    ensures budget { IfOk result HasRanges }
{
    let matches = matches_of(pay_command(alloc)?, words)?;
    let TablePaths { net, bids, stops } = tables_given(alloc, &matches)?;
    let steps = number_or(DEFAULT_STEPS, 0, MOST_STEPS, given(&matches, "steps"))?;
    let budget = number_or(DEFAULT_BUDGET, 1, MOST_BUDGET, given(&matches, "budget"))?;
    Ok(Words::Pay {
        net,
        bids,
        stops,
        steps: steps as u32,
        budget,
    })
}

/// What the words behind `auction` ask for.
#[tactic(auto, unfolding(crate::specs::Words::auction_words))]
fn read_auction(alloc: Global, words: &[String]) -> Result<Words, WordsError>
    ensures read { Reads (λ read. read) result (auction_words (map string_bytes words.now)) }
    ensures budget { IfOk result HasRanges }
{
    let matches = matches_of(auction_command(alloc)?, words)?;
    let TablePaths { net, bids, stops } = tables_given(alloc, &matches)?;
    let rules = path_of(alloc, given(&matches, "rules"))?;
    let actions = path_of(alloc, given(&matches, "actions"))?;
    let certs = path_or_none(alloc, given(&matches, "certs"))?;
    Ok(Words::Auction {
        net,
        bids,
        stops,
        rules,
        actions,
        certs,
    })
}

/// What the words behind `house` ask for.
#[tactic(auto, unfolding(crate::specs::Words::house_words))]
fn read_house(alloc: Global, words: &[String]) -> Result<Words, WordsError>
    ensures read { Reads (λ read. read) result (house_words (map string_bytes words.now)) }
    ensures budget { IfOk result HasRanges }
{
    let matches = matches_of(house_command(alloc)?, words)?;
    let TablePaths { net, bids, stops } = tables_given(alloc, &matches)?;
    let rules = path_of(alloc, given(&matches, "rules"))?;
    let actions = path_of(alloc, given(&matches, "actions"))?;
    let journal = path_of(alloc, given(&matches, "journal"))?;
    Ok(Words::House {
        net,
        bids,
        stops,
        rules,
        actions,
        journal,
    })
}

/// What the words behind `demo` ask for.
#[tactic(auto, unfolding(crate::specs::Words::demo_words))]
fn read_demo(alloc: Global, words: &[String]) -> Result<Words, WordsError>
    ensures read { Reads (λ read. read) result (demo_words (map string_bytes words.now)) }
    ensures budget { IfOk result HasRanges }
{
    let matches = matches_of(demo_command(alloc)?, words)?;
    let seed = number_of(0, MOST_SEED, given(&matches, "seed"))?;
    let size = number_of(1, MOST_SIZE, given(&matches, "size"))?;
    Ok(Words::Demo {
        seed: seed as u32,
        size: size as u8,
    })
}

/// The paths of the tables, which every command over tables requires.
#[derive(Drop)]
pub(crate) struct TablePaths {
    pub(crate) net: PathText,
    pub(crate) bids: PathText,
    pub(crate) stops: PathText,
}

/// The network's folder, the bids and the stops.
pub(crate) fn tables_given(
    alloc: Global,
    matches: &ArgMatches<'_>,
) -> Result<TablePaths, WordsError>
    ensures { Reads (λ tables. tables) result (tables_given (rows_of (found_of matches.now))) }
{
    let net = path_of(alloc, given(matches, "net"))?;
    let bids = path_of(alloc, given(matches, "bids"))?;
    let stops = path_of(alloc, given(matches, "stops"))?;
    Ok(TablePaths { net, bids, stops })
}

/// What `clap` finds in the words of a command.
pub(crate) fn matches_of<'a>(
    command: Command<'a>,
    words: &'a [String],
) -> Result<ArgMatches<'a>, WordsError>
    requires { IsSimple (app_of command) }
    ensures { Reads (λ m. rows_of (found_of m)) result (rows_given (app_of command.entry)
        (map string_bytes words.entry.now)) }
{
    match command.try_get_matches_from(words) {
        Ok(matches) => Ok(matches),
        Err(error) => Err(refusal(error.kind())),
    }
}

/// Why the words weren't read, where `clap` gives this kind of fault.
fn refusal(kind: ErrorKind) -> WordsError
    ensures { IsErrorOf kind result }
{
    match kind {
        ErrorKind::OutOfMemory => WordsError::NoMemory,
        _ => WordsError::Usage,
    }
}

/// The value of an option.
pub(crate) fn given<'a>(matches: &ArgMatches<'a>, name: &str) -> Option<&'a str>
    ensures { option_map (λ text. text.now) result
        ≡ first_of name.now (rows_of (found_of matches.now)) }
{
    matches.get_str(name)
}

/// The path of an option that is required.
pub(crate) fn path_of(alloc: Global, given: Option<&str>) -> Result<PathText, WordsError>
    ensures { Reads (λ path. path) result
        (needed_path (option_map (λ text. text.now) given.entry)) }
{
    match given {
        Some(text) if is_path(text) => Ok(PathText::new(alloc, text)?),
        _ => Err(WordsError::Usage),
    }
}

/// The path of an option that may be absent.
fn path_or_none(alloc: Global, given: Option<&str>) -> Result<Option<PathText>, WordsError>
    ensures { Reads (λ path. path) result
        (optional_path (option_map (λ text. text.now) given.entry)) }
{
    match given {
        None => Ok(None),
        Some(text) if is_path(text) => Ok(Some(PathText::new(alloc, text)?)),
        Some(_) => Err(WordsError::Usage),
    }
}

/// Whether a text has 1 to 4,096 bytes.
fn is_path(text: &str) -> bool
    ensures { result ≡ is_path text.now }
{
    1 <= text.len() && text.len() <= LONGEST_PATH
}

/// The number of an option that has a default.
pub(crate) fn number_or(
    default: u64,
    least: u64,
    most: u64,
    given: Option<&str>,
) -> Result<u64, WordsError>
    requires low { least ≤ default }
    requires high { default ≤ most }
    ensures read { Reads (λ n. n) result (number_or default least most
        (option_map (λ text. text.now) given.entry)) }
    ensures least { IfOk result (λ n. least ≤ n) }
    ensures most { IfOk result (λ n. n ≤ most) }
{
    match given {
        None => Ok(default),
        Some(text) => number_within(least, most, text).ok_or(WordsError::Usage),
    }
}

/// The number of a value that is required.
fn number_of(least: u64, most: u64, given: Option<&str>) -> Result<u64, WordsError>
    ensures read { Reads (λ n. n) result (needed_number least most (option_map (λ text. text.now)
        given.entry)) }
    ensures least { IfOk result (λ n. least ≤ n) }
    ensures most { IfOk result (λ n. n ≤ most) }
{
    match given {
        None => Err(WordsError::Usage),
        Some(text) => number_within(least, most, text).ok_or(WordsError::Usage),
    }
}

/// The number of a word of 1 to 10 digits, with or without zeros in front, that is in the range.
fn number_within(least: u64, most: u64, text: &str) -> Option<u64>
    ensures number { result ≡ number_within least most text.now }
    ensures least { IfSome result (λ n. least ≤ n) }
    ensures most { IfSome result (λ n. n ≤ most) }
{
    let n = number(text.as_bytes())?;
    if least <= n && n <= most {
        Some(n)
    } else {
        None
    }
}

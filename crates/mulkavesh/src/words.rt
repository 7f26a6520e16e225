//! The arguments of the command line, told apart by hand: what they ask for, or what is wrong with them.

ghost use Rattle.std.specs.Prelude.{◌≡◌, ◌∷◌, codes, map, string_bytes};
ghost use Rattle.std.specs.Vec.Iter.{into_iter_items};
ghost use Rattle.mulkavesh.specs.Mistakes.{IsOrdered, IsTold};
ghost use Rattle.mulkavesh.specs.Order.{said, work_word};
ghost use Rattle.mulkavesh.specs.Steps.{ArePut, IsAlone, IsFirst, IsPut, IsPutOrMemory, asks_help, by_said, equals_by, equals_in, lacking, look, look_at, missing, number_said};
ghost use Rattle.mulkavesh.specs.Steps.{or_plain, put_joined, put_spelled, put_value, put_word, put_words, spelled_as, spelled_by, spelled_otherwise, spelled_plain, spelling_of};
ghost use Rattle.mulkavesh.specs.Steps.{then_at, waiting, with_by, with_count, with_flag, with_named, with_output, with_plain};
ghost use Rattle.mulkavesh.specs.Words.{IsNoWork, IsUnhelped};

use crate::mistakes::{Mistake, Wrong};
use crate::order::{
    Asked, Flag, Named, Naming, Order, Value, Work, are_apart, flag_of, naming_of, needs, takes,
    takes_operand, takes_value, work_of,
};
use std::alloc::Global;
use std::vec::IntoIter;

/// What is asked for by the arguments behind the program's name, or what is wrong with them.
pub(crate) fn asked_by(alloc: Global, words: Vec<String>) -> Result<Asked, Mistake>
    ensures { IsTold (map string_bytes words.items) result }
{
    let is_help = asks_help(&words);
    let mut rest = words.into_iter();
    let first = match rest.next() {
        Some(first) => first,
        None => return Err(Mistake::NoArguments),
    };
    match work_of(first.as_str()) {
        Some(work) if is_help => Ok(Asked::HelpOf(work)),
        Some(work) => asked_of(alloc, work, rest),
        None if is_help => Ok(Asked::Help),
        None => asked_itself(first, rest),
    }
}

// What is asked of a subcommand by the arguments behind it, where they don't ask for help.
fn asked_of(alloc: Global, work: Work, rest: IntoIter<String>) -> Result<Asked, Mistake>
    ensures { IsUnhelped (work_word work ∷ map string_bytes (into_iter_items rest)) →
        IsTold (work_word work ∷ map string_bytes (into_iter_items rest)) result }
{
    match ordered(alloc, work, rest) {
        Ok(order) => Ok(Asked::Run(order)),
        Err(wrong) => Err(Mistake::Behind(work, wrong)),
    }
}

// What is asked of the program itself, where the first argument is no subcommand, and they don't ask for help by an option.
fn asked_itself(first: String, rest: IntoIter<String>) -> Result<Asked, Mistake>
    requires { IsNoWork (string_bytes first) }
    ensures { IsUnhelped (string_bytes first ∷ map string_bytes (into_iter_items rest)) →
        IsTold (string_bytes first ∷ map string_bytes (into_iter_items rest)) result }
{
    match first.as_str() {
        "help" => help_asked(rest),
        "-V" | "--version" => alone(Asked::Version, rest),
        _ => Err(Mistake::UnknownSubcommand(first)),
    }
}

// What is asked for behind `help`.
fn help_asked(rest: IntoIter<String>) -> Result<Asked, Mistake>
    ensures { IsUnhelped (codes "help" ∷ map string_bytes (into_iter_items rest)) →
        IsTold (codes "help" ∷ map string_bytes (into_iter_items rest)) result }
{
    match first_of(rest) {
        None => Ok(Asked::Help),
        Some((name, left)) => match work_of(name.as_str()) {
            Some(work) => alone(Asked::HelpOf(work), left),
            None => Err(Mistake::UnknownSubcommand(name)),
        },
    }
}

// The first argument and the others, if there is one.
fn first_of(rest: IntoIter<String>) -> Option<(String, IntoIter<String>)>
    ensures { IsFirst (map string_bytes (into_iter_items rest)) result }
{
    let mut left = rest;
    match left.next() {
        None => None,
        Some(first) => Some((first, left)),
    }
}

// This, where no argument is left.
fn alone(asked: Asked, rest: IntoIter<String>) -> Result<Asked, Mistake>
    ensures { IsAlone asked (map string_bytes (into_iter_items rest)) result }
{
    let mut left = rest;
    match left.next() {
        None => Ok(asked),
        Some(extra) => Err(Mistake::Extra(extra)),
    }
}

// ---- help

// What is seen of the arguments up to one.
#[derive(Clone, Copy, PartialEq, Eq)]
enum Seen {
    // None that asks for help, and any may stand next.
    Nothing,
    // As before, but the next one is the value of an option.
    Option,
    // One that asks for help.
    Help,
    // `--`, behind which none does.
    Ending,
}

// Whether an argument asks for help.
fn asks_help(words: &[String]) -> bool
    ensures { result ≡ asks_help (map string_bytes words.now) }
{
    let mut seen = Seen::Nothing;
    'words: for word in words {
        seen = look(seen, word.as_str());
    }
    seen == Seen::Help
}

// What is seen with one argument more.
fn look(seen: Seen, word: &str) -> Seen
    ensures { result ≡ look seen word.now }
{
    match seen {
        Seen::Nothing => look_at(word),
        Seen::Option => Seen::Nothing,
        _ => seen,
    }
}

// What an argument is, where any may stand.
fn look_at(word: &str) -> Seen
    ensures { result ≡ look_at word.now }
{
    match word {
        "-h" | "--help" => Seen::Help,
        "--" => Seen::Ending,
        _ if naming_of(word).is_some() => Seen::Option,
        _ => Seen::Nothing,
    }
}

// ---- orders

// The order that the arguments behind a subcommand say.
fn ordered(alloc: Global, work: Work, words: IntoIter<String>) -> Result<Order, Wrong>
    ensures { IsOrdered work (map string_bytes (into_iter_items words)) result }
{
    let (order, place) = put_all(Order::new(alloc, work), words)?;
    match lacking(&order, place) {
        Some(wrong) => Err(wrong),
        None => Ok(order),
    }
}

// What is missing behind the last argument.
fn lacking(order: &Order, place: Place) -> Option<Wrong>
    ensures { result ≡ lacking (said order.now) place }
{
    match place {
        Place::Value(naming) => Some(Wrong::NoValue(naming)),
        _ => missing(order),
    }
}

// What is missing of the order, or doesn't go together in it.
fn missing(order: &Order) -> Option<Wrong>
    ensures { result ≡ missing (said order.now) }
{
    if takes_operand(order.work) && order.operand.is_none() {
        return Some(Wrong::OperandMissing);
    }
    if order.work == Work::Strip && !order.asks_gone() {
        return Some(Wrong::NoSection);
    }
    if needs(order.work) && !order.names_some() {
        return Some(Wrong::NothingMeant);
    }
    if are_apart(order.listing) {
        return Some(Wrong::Apart);
    }
    None
}

// Puts each of the arguments where it belongs, and answers where a next one would stand.
fn put_all(order: Order, words: IntoIter<String>) -> Result<(Order, Place), Wrong>
    ensures { ArePut (put_words (said order) Place.Anywhere (into_iter_items words)) result }
{
    let mut left = order;
    let mut place = Place::Anywhere;
    'words: for word in words {
        place = put(&mut left, place, word)?;
    }
    Ok((left, place))
}

// Where an argument stands.
#[derive(Clone, Copy, PartialEq, Eq)]
enum Place {
    // Where any may.
    Anywhere,
    // Behind an option that has a value.
    Value(Naming),
    // Behind `--`.
    Behind,
}

// Puts the argument where it belongs, and answers where the next one stands, or why there is no place for it.
fn put(order: &mut Order, place: Place, word: String) -> Result<Place, Wrong>
    ensures { IsPutOrMemory (put_word (said order.old) place word) order.new result }
{
    match place {
        Place::Value(naming) => put_value(order, naming, word, None),
        Place::Behind => put_plain(order, word, place),
        Place::Anywhere => put_spelled(order, spelling_of(word.as_str()), word),
    }
}

// What an argument is by its spelling, where any may stand.
#[derive(Clone, Copy, PartialEq, Eq)]
enum Spelling {
    // An option without a value.
    Flag(Flag),
    // One that has a value.
    Valued,
    // An option whose value is the next argument.
    Naming(Naming),
    // Such an option and its value.
    Joined(Naming),
    // `--`.
    Ending,
    // Begun as an option, and none.
    Unknown,
    // No option.
    Plain,
}

// Puts an argument that is spelled so.
fn put_spelled(order: &mut Order, spelling: Spelling, word: String) -> Result<Place, Wrong>
    ensures { IsPutOrMemory (put_spelled (said order.old) spelling word) order.new result }
{
    match spelling {
        Spelling::Flag(flag) => put_flag(order, flag, word),
        Spelling::Valued => Err(Wrong::TakesNoValue(word)),
        Spelling::Naming(naming) => wait_for(order, naming, word),
        Spelling::Joined(naming) => put_joined(order, naming, word),
        Spelling::Ending => Ok(Place::Behind),
        Spelling::Unknown => Err(Wrong::UnknownOption(word)),
        Spelling::Plain => put_plain(order, word, Place::Anywhere),
    }
}

// What this argument is.
fn spelling_of(word: &str) -> Spelling
    ensures { result ≡ spelling_of word.now }
{
    match word {
        "-" => Spelling::Plain,
        "--" => Spelling::Ending,
        _ => spelled_by(naming_of(word), word),
    }
}

// This option with a value, if it is one, and else what the argument is.
fn spelled_by(naming: Option<Naming>, word: &str) -> Spelling
    ensures { result ≡ spelled_by naming word.now }
{
    match naming {
        Some(naming) => Spelling::Naming(naming),
        None => spelled_as(flag_of(word), word),
    }
}

// This option without a value, if it is one, and else what the argument is.
fn spelled_as(flag: Option<Flag>, word: &str) -> Spelling
    ensures { result ≡ spelled_as flag word.now }
{
    match flag {
        Some(flag) => Spelling::Flag(flag),
        None => spelled_otherwise(word),
    }
}

// What an argument is that is none of the whole words.
fn spelled_otherwise(word: &str) -> Spelling
    ensures { result ≡ spelled_otherwise word.now }
{
    let bytes = word.as_bytes();
    if bytes.starts_with(b"-o") {
        return Spelling::Joined(Naming::Short);
    }
    if bytes.starts_with(b"-n") {
        return Spelling::Joined(Naming::Count);
    }
    or_plain(equals_in(word), bytes)
}

// This, or else an option that isn't known, or none.
fn or_plain(spelling: Option<Spelling>, word: &[u8]) -> Spelling
    ensures { result ≡ or_plain spelling word.now }
{
    match spelling {
        Some(spelling) => spelling,
        None => spelled_plain(word),
    }
}

// An option that isn't known, or none.
fn spelled_plain(word: &[u8]) -> Spelling
    ensures { result ≡ spelled_plain word.now }
{
    if word.starts_with(b"-") {
        return Spelling::Unknown;
    }
    Spelling::Plain
}

// An option, a sign of equality and a value, if that is what the argument is.
fn equals_in(word: &str) -> Option<Spelling>
    ensures { result ≡ equals_in word.now }
{
    match word.split_once('=') {
        Some((front, _)) => equals_by(naming_of(front), flag_of(front)),
        None => None,
    }
}

// What the argument is where this option stands in front of a sign of equality.
fn equals_by(naming: Option<Naming>, flag: Option<Flag>) -> Option<Spelling>
    ensures { result ≡ equals_by naming flag }
{
    match naming {
        Some(naming) => Some(Spelling::Joined(naming)),
        None if flag.is_some() => Some(Spelling::Valued),
        None => None,
    }
}

// The next argument is the value of the option, where the subcommand has that.
fn wait_for(order: &Order, naming: Naming, word: String) -> Result<Place, Wrong>
    ensures { IsPut (waiting (said order.now) naming word) order.now result }
{
    if !takes_value(order.work, naming) {
        return Err(Wrong::NotTaken(word));
    }
    Ok(Place::Value(naming))
}

// The value that stands behind the option in one argument, where the subcommand has that.
fn put_joined(order: &mut Order, naming: Naming, word: String) -> Result<Place, Wrong>
    ensures { IsPutOrMemory (put_joined (said order.old) naming word) order.new result }
{
    if !takes_value(order.work, naming) {
        return Err(Wrong::NotTaken(word));
    }
    put_value(order, naming, word, Some(naming))
}

// The value of the option.
fn put_value(
    order: &mut Order,
    naming: Naming,
    word: String,
    joined: Option<Naming>,
) -> Result<Place, Wrong>
    ensures { IsPutOrMemory (put_value (said order.old) naming word joined) order.new result }
{
    let value = Value {
        argument: word,
        joined,
    };
    match naming {
        Naming::Short | Naming::Long => put_output(order, value),
        Naming::By => put_by(order, value),
        Naming::Count => put_count(order, value),
        _ => put_named(order, naming, value),
    }
}

// One value more of an option that may stand several times.
fn put_named(order: &mut Order, naming: Naming, value: Value) -> Result<Place, Wrong>
    ensures { IsPutOrMemory (then_at Place.Anywhere (with_named (said order.old) naming value))
        order.new result }
{
    match order.values.push(Named { naming, value }) {
        Ok(()) => Ok(Place::Anywhere),
        Err(_) => Err(Wrong::OutOfMemory),
    }
}

// In which order the lines stand.
fn put_by(order: &mut Order, value: Value) -> Result<Place, Wrong>
    ensures { IsPut (then_at Place.Anywhere (with_by (said order.old) value)) order.new result }
{
    match by_of(value.text()) {
        Some(by_size) => {
            order.listing.by_size = by_size;
            Ok(Place::Anywhere)
        }
        None => Err(Wrong::BadValue(Naming::By, value)),
    }
}

// Whether the largest stands first, if the word says that or the contrary.
fn by_of(word: &str) -> Option<bool>
    ensures { result ≡ by_said word.now }
{
    match word {
        "size" => Some(true),
        "index" => Some(false),
        _ => None,
    }
}

// How many lines there are at most.
fn put_count(order: &mut Order, value: Value) -> Result<Place, Wrong>
    ensures { IsPut (then_at Place.Anywhere (with_count (said order.old) value)) order.new result }
{
    match count_of(value.text()) {
        Some(count) => {
            order.listing.count = Some(count);
            Ok(Place::Anywhere)
        }
        None => Err(Wrong::BadValue(Naming::Count, value)),
    }
}

// The number that the word says.
fn count_of(word: &str) -> Option<u32>
    ensures { result ≡ number_said word.now }
{
    match word.parse::<u32>() {
        Ok(count) => Some(count),
        Err(_) => None,
    }
}

// The file that is to be written, where none was named.
fn put_output(order: &mut Order, value: Value) -> Result<Place, Wrong>
    ensures { IsPut (then_at Place.Anywhere (with_output (said order.old) value)) order.new result }
{
    if order.output.is_some() {
        return Err(Wrong::SecondOutput(value));
    }
    order.output = Some(value);
    Ok(Place::Anywhere)
}

// What the subcommand is told to work on, and then the file that is to be read, where none was named.
fn put_plain(order: &mut Order, word: String, place: Place) -> Result<Place, Wrong>
    ensures { IsPut (then_at place (with_plain (said order.old) word)) order.new result }
{
    if takes_operand(order.work) && order.operand.is_none() {
        order.operand = Some(word);
    } else if order.input.is_none() {
        order.input = Some(word);
    } else {
        return Err(Wrong::SecondInput(word));
    }
    Ok(place)
}

// What the option asks for, where the subcommand has it.
fn put_flag(order: &mut Order, flag: Flag, word: String) -> Result<Place, Wrong>
    ensures { IsPut (then_at Place.Anywhere (with_flag (said order.old) flag word)) order.new result }
{
    if !takes(order.work, flag) {
        return Err(Wrong::NotTaken(word));
    }
    match flag {
        Flag::NoNames => order.wanted.names = false,
        Flag::NoProducers => order.wanted.producers = false,
        Flag::NoLegacy => order.wanted.legacy = false,
        Flag::Quiet => order.is_quiet = true,
        Flag::Json => order.is_json = true,
        Flag::Names => order.gone.names = true,
        Flag::Producers => order.gone.producers = true,
        Flag::Debug => order.gone.debug = true,
        Flag::All => order.is_all = true,
        Flag::Exports => order.listing.exports = true,
        Flag::Imports => order.listing.imports = true,
        Flag::Dropped => order.listing.dropped = true,
        Flag::Callers => order.listing.callers = true,
    }
    Ok(Place::Anywhere)
}

//! What can be asked for on the command line.

ghost use Rattle.std.specs.Prelude.{◌≡◌};
ghost use Rattle.mulkavesh.specs.Order.{IsWorkOf, are_apart, asks_gone, flag_named, has_flag, has_naming, has_operand, joined_front, makes_module, names_some, naming_named};
ghost use Rattle.mulkavesh.specs.Order.{needs, new_listing, new_said, new_wanted, said, takes_names, value_bytes};

use std::alloc::Global;
use walrus_tools::Wanted;

/// What is done with a module.
#[derive(Clone, Copy, PartialEq, Eq)]
pub(crate) enum Work {
    Gc,
    Report,
    List,
    Check,
    Sections,
    Strip,
    Snip,
    Stub,
    Why,
}

/// An option without a value.
#[derive(Clone, Copy, PartialEq, Eq)]
pub(crate) enum Flag {
    NoNames,
    NoProducers,
    NoLegacy,
    Quiet,
    Json,
    Names,
    Producers,
    Debug,
    All,
    Exports,
    Imports,
    Dropped,
    Callers,
}

/// An option that has a value, as it is spelled: `-o` or `--output`, which name the file that is written, `-n` (a count), or a word behind two dashes.
#[derive(Clone, Copy, PartialEq, Eq)]
pub(crate) enum Naming {
    Short,
    Long,
    Section,
    Keep,
    Drop,
    Function,
    Module,
    Import,
    By,
    Count,
}

/// The value of an option: an argument of its own, or what stands behind the option in one argument, as in `-oFILE` and `--section=NAME`.
#[derive(Drop)]
pub(crate) struct Value {
    /// The argument that it stands in.
    pub(crate) argument: String,
    /// The option that stands in front of it there; none where the argument is the value.
    pub(crate) joined: Option<Naming>,
}

// What stands in front of the value in its argument.
fn joined_front(joined: Option<Naming>) -> &'static str
    ensures { result.now ≡ joined_front joined }
{
    match joined {
        None => "",
        Some(Naming::Short) => "-o",
        Some(Naming::Long) => "--output=",
        Some(Naming::Section) => "--section=",
        Some(Naming::Keep) => "--keep=",
        Some(Naming::Drop) => "--drop=",
        Some(Naming::Function) => "--function=",
        Some(Naming::Module) => "--module=",
        Some(Naming::Import) => "--import=",
        Some(Naming::By) => "--by=",
        Some(Naming::Count) => "-n",
    }
}

impl Value {
    /// The value itself.
    pub(crate) fn text(&self) -> &str
        ensures { result.now ≡ value_bytes self.now }
    {
        let argument = self.argument.as_str();
        match argument.strip_prefix(joined_front(self.joined)) {
            Some(value) => value,
            None => argument,
        }
    }
}

/// A value, with the option that it stands behind.
#[derive(Drop)]
pub(crate) struct Named {
    pub(crate) naming: Naming,
    pub(crate) value: Value,
}

/// Which custom sections go, beside those that are named one by one.
#[derive(Clone, Copy)]
pub(crate) struct Gone {
    pub(crate) names: bool,
    pub(crate) producers: bool,
    pub(crate) debug: bool,
}

/// What is listed, and in what order. With none of the first three these are the functions that stay.
#[derive(Clone, Copy)]
pub(crate) struct Listing {
    /// The exports that stay.
    pub(crate) exports: bool,
    /// The imports that stay.
    pub(crate) imports: bool,
    /// The functions that go.
    pub(crate) dropped: bool,
    /// What refers to an item, and not the chain that leads to it.
    pub(crate) callers: bool,
    /// Whether the largest stands first; else they stand by index.
    pub(crate) by_size: bool,
    /// How many there are at most.
    pub(crate) count: Option<u32>,
}

/// A subcommand, with what is said to it.
#[derive(Drop)]
pub(crate) struct Order {
    pub(crate) work: Work,
    /// What is read and written of names, producers and legacy exceptions.
    pub(crate) wanted: Wanted,
    pub(crate) gone: Gone,
    /// Whether nothing is said of what was dropped.
    pub(crate) is_quiet: bool,
    /// Whether the answer is for programs.
    pub(crate) is_json: bool,
    /// Whether all is meant: of the custom sections those that can go, and of the sections also what they hold.
    pub(crate) is_all: bool,
    pub(crate) listing: Listing,
    /// The values of the options that may stand several times: all but `-o`, `--output`, `--by` and `-n`.
    pub(crate) values: Vec<Named>,
    /// The function or the export that it is about.
    pub(crate) operand: Option<String>,
    /// The file that is read; none for standard input.
    pub(crate) input: Option<String>,
    /// The file that is written; none for standard output.
    pub(crate) output: Option<Value>,
}

/// What the arguments of the command line ask for.
#[derive(Drop)]
pub(crate) enum Asked {
    Help,
    HelpOf(Work),
    Version,
    Run(Order),
}

/// What is read and written where nothing is said of that.
pub(crate) fn new_wanted() -> Wanted
    ensures { result ≡ new_wanted }
{
    Wanted {
        names: true,
        producers: true,
        legacy: true,
    }
}

/// What is listed where nothing is said of that.
pub(crate) fn new_listing() -> Listing
    ensures { result ≡ new_listing }
{
    Listing {
        exports: false,
        imports: false,
        dropped: false,
        callers: false,
        by_size: false,
        count: None,
    }
}

impl Order {
    /// The subcommand, with nothing said to it yet.
    pub(crate) fn new(alloc: Global, work: Work) -> Order
        ensures { said result ≡ new_said work }
    {
        let gone = Gone {
            names: false,
            producers: false,
            debug: false,
        };
        Order {
            work,
            wanted: new_wanted(),
            gone,
            is_quiet: false,
            is_json: false,
            is_all: false,
            listing: new_listing(),
            values: Vec::new(alloc),
            operand: None,
            input: None,
            output: None,
        }
    }

    /// Whether an option names what the subcommand takes away or changes.
    pub(crate) fn names_some(&self) -> bool
        ensures { result ≡ names_some (said self.now) }
    {
        'values: for named in &self.values {
            if takes_names(self.work, named.naming) {
                return true;
            }
        }
        false
    }

    /// Whether it says of some sections that they go.
    pub(crate) fn asks_gone(&self) -> bool
        ensures { result ≡ asks_gone (said self.now) }
    {
        let gone = self.gone;
        self.names_some() || gone.names || gone.producers || gone.debug || self.is_all
    }
}

/// Whether two things are asked for that don't go together.
pub(crate) fn are_apart(listing: Listing) -> bool
    ensures { result ≡ are_apart listing }
{
    let of_one = listing.exports || listing.imports;
    (listing.exports && listing.imports) || (of_one && (listing.dropped || listing.by_size))
}

/// The subcommand of this word.
pub(crate) fn work_of(word: &str) -> Option<Work>
    ensures { IsWorkOf word.now result }
{
    match word {
        "gc" => Some(Work::Gc),
        "report" => Some(Work::Report),
        "list" => Some(Work::List),
        "check" => Some(Work::Check),
        "sections" => Some(Work::Sections),
        "strip" => Some(Work::Strip),
        "snip" => Some(Work::Snip),
        "stub" => Some(Work::Stub),
        "why" => Some(Work::Why),
        _ => None,
    }
}

/// The option without a value that is spelled so.
pub(crate) fn flag_of(word: &str) -> Option<Flag>
    ensures { result ≡ flag_named word.now }
{
    match word {
        "--no-names" => Some(Flag::NoNames),
        "--no-producers" => Some(Flag::NoProducers),
        "--no-legacy" => Some(Flag::NoLegacy),
        "-q" | "--quiet" => Some(Flag::Quiet),
        "--json" => Some(Flag::Json),
        "--names" => Some(Flag::Names),
        "--producers" => Some(Flag::Producers),
        "--debug" => Some(Flag::Debug),
        "--all" => Some(Flag::All),
        "--exports" => Some(Flag::Exports),
        "--imports" => Some(Flag::Imports),
        "--dropped" => Some(Flag::Dropped),
        "--callers" => Some(Flag::Callers),
        _ => None,
    }
}

/// The option with a value that is spelled so.
pub(crate) fn naming_of(word: &str) -> Option<Naming>
    ensures { result ≡ naming_named word.now }
{
    match word {
        "-o" => Some(Naming::Short),
        "--output" => Some(Naming::Long),
        "--section" => Some(Naming::Section),
        "--keep" => Some(Naming::Keep),
        "--drop" => Some(Naming::Drop),
        "--function" => Some(Naming::Function),
        "--module" => Some(Naming::Module),
        "--import" => Some(Naming::Import),
        "--by" => Some(Naming::By),
        "-n" => Some(Naming::Count),
        _ => None,
    }
}

/// Whether the subcommand is about a function or an export.
pub(crate) fn takes_operand(work: Work) -> bool
    ensures { result ≡ has_operand work }
{
    work == Work::Why
}

// Whether the option names what the subcommand takes away or changes.
fn takes_names(work: Work, naming: Naming) -> bool
    ensures { result ≡ takes_names work naming }
{
    match naming {
        Naming::Section => work == Work::Strip,
        Naming::Function => work == Work::Snip,
        Naming::Module => work == Work::Stub,
        _ => false,
    }
}

/// Whether one of these options has to stand there: `--function` or `--module`.
pub(crate) fn needs(work: Work) -> bool
    ensures { result ≡ needs work }
{
    matches!(work, Work::Snip | Work::Stub)
}

/// Whether the subcommand has the option.
pub(crate) fn takes(work: Work, flag: Flag) -> bool
    ensures { result ≡ has_flag work flag }
{
    match flag {
        Flag::Quiet => matches!(work, Work::Gc | Work::Snip | Work::Stub),
        Flag::Json => matches!(
            work,
            Work::Report | Work::List | Work::Check | Work::Sections | Work::Why
        ),
        Flag::Names | Flag::Producers | Flag::Debug => work == Work::Strip,
        Flag::All => matches!(work, Work::Strip | Work::Sections),
        Flag::Exports | Flag::Imports | Flag::Dropped => work == Work::List,
        Flag::Callers => work == Work::Why,
        Flag::NoNames | Flag::NoProducers | Flag::NoLegacy => {
            !matches!(work, Work::Strip | Work::Sections)
        }
    }
}

/// Whether the subcommand has the option with a value.
pub(crate) fn takes_value(work: Work, naming: Naming) -> bool
    ensures { result ≡ has_naming work naming }
{
    match naming {
        Naming::Section => work == Work::Strip,
        Naming::Keep | Naming::Drop => {
            matches!(work, Work::Gc | Work::Report | Work::List | Work::Why)
        }
        Naming::Function => work == Work::Snip,
        Naming::Module | Naming::Import => work == Work::Stub,
        Naming::By | Naming::Count => work == Work::List,
        Naming::Short | Naming::Long => true,
    }
}

/// Whether what the subcommand writes is a module.
pub(crate) fn writes_module(work: Work) -> bool
    ensures { result ≡ makes_module work }
{
    matches!(work, Work::Gc | Work::Strip | Work::Snip | Work::Stub)
}

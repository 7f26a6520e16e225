//! What the program says of itself.

use crate::order::Work;

/// The program's name and version.
pub(crate) const VERSION: &str = "mulkavesh 0.1.0\n";

/// What is told where an argument is no text.
pub(crate) const UNREADABLE: &str = "mulkavesh: an argument isn't UTF-8\n";

/// What is told where memory runs out before the arguments are told apart.
pub(crate) const OUT_OF_MEMORY: &str = "mulkavesh: out of memory\n";

/// All subcommands, the options that several have, and the statuses.
pub(crate) const USAGE: &str =
    "usage: mulkavesh gc | report | list | check | sections | strip | snip | stub [options] [IN] [-o OUT]
       mulkavesh why FUNCTION [options] [IN] [-o OUT]
       mulkavesh help [SUBCOMMAND] | SUBCOMMAND --help | --help | --version

  gc              drops what nothing reaches
  report          counts the items and the bytes that gc would keep and drop
  list            lists the functions that gc would keep, with the bytes of each; or those that it would drop, or exports or imports
  check           says whether a module is accepted (well made), and else what is wrong with it
  sections        lists the sections as they stand, with the place and the size of each
  strip           removes custom sections: names, producers, debug information or others; all else stays, byte for byte
  snip            makes functions trap, and drops what nothing reaches then
  stub            makes functions trap that are imported, and drops what nothing reaches then
  why FUNCTION    says by which references a function or an export stays, and what stays for it alone

IN and OUT are files, or standard input and output where left out or -. A plain file OUT is written whole or not at all.
From a terminal a module is read, and to a terminal one is written, only where - says so.
Options stand anywhere behind the subcommand; behind -- each argument is a name or a file.
In a NAME of an option a star stands for any bytes, also none, and a backslash and a star for a star.
A value stands behind its option as a further argument, or in one argument with it: --keep NAME, --keep=NAME, -o OUT, -oOUT.

  -o OUT, --output OUT    where the answer goes
  -h, --help              the help, of the subcommand or of the program
  -V, --version           the version, without a subcommand

Status 0: done. 1: refused, with one line on standard error; with none where nobody reads the output any more.
2: the arguments say nothing, or a terminal stands where a module is read or written; one line on standard error says so, and nothing is read.
";

const GC: &str = "usage: mulkavesh gc [options] [IN] [-o OUT]

Drops what nothing reaches, and writes the smaller module. On standard error stands in one line what was dropped.

  --keep NAME     of the exports those stay that have this name, and the others go; several such options may stand there
  --drop NAME     the exports of this name go; several such options may stand there
  --no-names      write no names
  --no-producers  write no producers; without this option walrus 0.28.0 comes to be among them
  --no-legacy     refuse bodies with legacy exceptions (try, catch, catch_all, rethrow, delegate)
  -q, --quiet     say nothing on standard error, unless gc refuses

Where a NAME fits no export, gc refuses, and nothing is written.
";

const REPORT: &str = "usage: mulkavesh report [options] [IN] [-o OUT]

Counts what gc would keep and drop. Seven lines count items: functions, tables, memories, tags, globals, elements, data. Then come the bytes of
IN and of what gc writes, those of the functions that go, and those of debug information. The last number is what all else comes to.

  --keep NAME, --drop NAME      as to gc: which exports stay
  --json          an object with a member for each, as {\"functions\":{\"kept\":1,\"dropped\":2},..,\"bytes\":{\"read\":..}}
  --no-names, --no-producers, --no-legacy     as to gc
";

const LIST: &str = "usage: mulkavesh list [options] [IN] [-o OUT]

Lists the functions with a body that gc would keep, a line each: the bytes of its body in the smaller module, its index in IN, and its name.
In a name a character that moves a terminal's cursor, or turns the order of what it shows, is a question mark; with --json it is escaped.

  --dropped       lists those that gc would drop; the bytes are those of the body in IN
  --exports       lists the exports that stay, a line each: kind, index and name
  --imports       lists the imports that stay, a line each: kind, index, and the names of the module and of the item
  --by size       the largest first, with its share of the bytes behind its size, and a total; --by index is as without this option
  -n N            the first N lines, and no more
  --keep NAME, --drop NAME      as to gc: which exports stay
  --json          an array of objects, as {\"index\":1,\"size\":20,\"name\":\"main\"}; the name is null where there is none.
                  An export is {\"kind\":\"function\",\"index\":1,\"name\":\"main\"}, and an import has the member module too
  --no-names, --no-producers, --no-legacy     as to gc
";

const CHECK: &str = "usage: mulkavesh check [options] [IN] [-o OUT]

Says whether the module is accepted: then 'accepted' is written and the status is 0, and else what is wrong with it, and the
status is 1. Accepted means well made. That is less than valid: the types of operands aren't checked.

  --json          an object, as {\"accepted\":true}, or with the members reason, kind, and place or index; the reason then stands on
                  standard error too
  --no-legacy     refuse bodies with legacy exceptions
  --no-names, --no-producers    known, as to gc; they change nothing here
";

const SECTIONS: &str = "usage: mulkavesh sections [options] [IN] [-o OUT]

Lists the sections as they stand, whatever they hold, a line each: its place in bytes from the start, its bytes, and what it is: custom and its
name, or the standard's word and the count of its entries where one stands there, or unknown and its id. Where bytes are left in which no
section stands, standard error says where, and the status is 1.

  --all           lists behind a section also what stands in it; a module whose contents can't be read is refused then
  --json          an array of objects, as {\"id\":10,\"kind\":\"code\",\"name\":null,\"start\":30,\"size\":12,\"entries\":2};
                  with --all also {\"kind\":\"function\",\"index\":3,\"start\":33,\"size\":4}
";

const STRIP: &str =
    "usage: mulkavesh strip --section NAME .. [--names] [--producers] [--debug] [--all] [IN] [-o OUT]

Removes custom sections. All else stays, byte for byte, and no section is looked into. At least one of these options stands there:

  --section NAME  the sections of this name; several such options may stand there
  --names         as --section name
  --producers     as --section producers
  --debug         as --section '.debug*'
  --all           all custom sections but dylink, dylink.0 and target_features: a linker and an engine read those, and so they stay then,
                  also where --section names them

Where an option fits no custom section, strip refuses, and nothing is written. So it does under --all where there is no custom section;
where there are only those that stay, the module is written as it is.
";

const SNIP: &str = "usage: mulkavesh snip --function F .. [options] [IN] [-o OUT]

Makes functions trap, whoever calls them, and drops what nothing reaches then. On standard error stands in one line what was dropped.

  --function F    the function of the index F; or else the first of the name F, or else the first that is exported under it. With a star, each
                  function with a body that has such a name, or is exported under one. Several such options may stand there
  --no-names, --no-producers, --no-legacy, -q, --quiet     as to gc

Where F means no function, or an imported one, snip refuses, and nothing is written.
";

const STUB: &str = "usage: mulkavesh stub --module M .. [--import NAME ..] [options] [IN] [-o OUT]

Makes functions trap that are imported: they are the module's own then. What nothing reaches then is dropped, and standard error says in one line
what that was.

  --module M      the functions that are imported from modules of this name; several such options may stand there
  --import NAME   of those the ones that are imported under this name; several such options may stand there
  --no-names, --no-producers, --no-legacy, -q, --quiet     as to gc

Where no function is imported so, stub refuses, and nothing is written.
";

const WHY: &str = "usage: mulkavesh why FUNCTION [options] [IN] [-o OUT]

Says by which references a function stays, a line for each item of a chain that leads to it, a root first; and behind that how many functions
stay for it alone, and their bytes. FUNCTION is the index of a function, or else the name of one, or else that of an export, of whatever kind;
of several the first.

  --callers       lists what refers to it directly instead, a line each
  --keep NAME, --drop NAME      as to gc: which exports stay
  --json          an object with the members reached, root, chain and alone; with --callers an array of links, as those of the chain
  --no-names, --no-producers, --no-legacy     as to gc
";

/// The help of a subcommand.
pub(crate) fn help_of(work: Work) -> &'static str {
    match work {
        Work::Gc => GC,
        Work::Report => REPORT,
        Work::List => LIST,
        Work::Check => CHECK,
        Work::Sections => SECTIONS,
        Work::Strip => STRIP,
        Work::Snip => SNIP,
        Work::Stub => STUB,
        Work::Why => WHY,
    }
}

/// The subcommand's word.
pub(crate) fn name_of(work: Work) -> &'static str {
    match work {
        Work::Gc => "gc",
        Work::Report => "report",
        Work::List => "list",
        Work::Check => "check",
        Work::Sections => "sections",
        Work::Strip => "strip",
        Work::Snip => "snip",
        Work::Stub => "stub",
        Work::Why => "why",
    }
}

//! Whether a NAME fits a text. In a NAME a star stands for any bytes, also none, and a backslash and a star for a star.

ghost use Rattle.std.specs.Prelude.{◌≡◌, ◌↔◌, true};
ghost use Rattle.walrus_sections.specs.Fits.{Fits, FitsBehind};
ghost use Rattle.walrus_sections.specs.FitSteps.{Begins, Answered, Compared};

/// What a part of a name stands for: any bytes, or this one.
#[derive(Clone, Copy)]
enum Part {
    Any,
    Byte(u8),
}

/// Where comparing a name with a text part by part leads.
#[derive(Clone, Copy)]
enum Comparison<'a> {
    /// Both end together.
    Same,
    /// A byte differs, or the name ends before the text.
    Differs,
    /// The text ends before the name.
    RunsOut,
    /// The name behind its first star, and the text that is left there.
    Star { name: &'a [u8], text: &'a [u8] },
}

/// What a look at a text behind a star leads to: the answer, or a smaller question.
#[derive(Clone, Copy)]
enum Answer<'a> {
    Known(bool),
    On { name: &'a [u8], text: &'a [u8] },
}

// The first part of a name, and the name behind it.
fn first_part(name: &[u8]) -> Option<(Part, &[u8])>
    ensures { Begins name.now result }
{
    match name {
        [] => None,
        [b'*', rest @ ..] => Some((Part::Any, rest)),
        [b'\\', b'*', rest @ ..] => Some((Part::Byte(b'*'), rest)),
        [byte, rest @ ..] => Some((Part::Byte(*byte), rest)),
    }
}

// Compares a name with the front of a text, up to the first star of the name.
fn compare<'a>(name: &'a [u8], text: &'a [u8]) -> Comparison<'a>
    ensures { Compared name.now text.now result }
{
    let mut behind = name;
    let mut left = text;
    'parts: while let Some((part, rest)) = first_part(behind) {
        let Part::Byte(wanted) = part else {
            return Comparison::Star {
                name: rest,
                text: left,
            };
        };
        let Some((byte, others)) = left.split_first() else {
            return Comparison::RunsOut;
        };
        if *byte != wanted {
            return Comparison::Differs;
        }
        behind = rest;
        left = others;
    }
    if left.is_empty() {
        Comparison::Same
    } else {
        Comparison::Differs
    }
}

// Whether the text fits a star and the name, or which smaller question has the same answer.
fn look<'a>(name: &'a [u8], text: &'a [u8]) -> Answer<'a>
    ensures { Answered name.now text.now result }
{
    if let [] = name {
        return Answer::Known(true);
    }
    match compare(name, text) {
        Comparison::Same => Answer::Known(true),
        Comparison::RunsOut => Answer::Known(false),
        Comparison::Star { name, text } => Answer::On { name, text },
        Comparison::Differs => match text.split_first() {
            None => Answer::Known(false),
            Some((_, rest)) => Answer::On { name, text: rest },
        },
    }
}

// Whether a star and this name fit the text. A later star takes the place of the one before it, since what the earlier one could take
// more, the later one can take too.
fn fits_behind_star(name: &[u8], text: &[u8]) -> bool
    ensures { (result ≡ true) ↔ FitsBehind name.now text.now }
{
    let mut behind = name;
    let mut left = text;
    'turns: loop {
        match look(behind, left) {
            Answer::Known(answer) => return answer,
            Answer::On { name, text } => {
                behind = name;
                left = text;
            }
        }
    }
}

/// Whether a NAME fits a text. In the NAME a star stands for any bytes, also none, a backslash and a star for a star, and each other byte for
/// itself. Takes no memory, and no more steps than the product of both lengths, but for a constant factor.
pub fn fits(name: &[u8], text: &[u8]) -> bool
    ensures { (result ≡ true) ↔ Fits name.now text.now }
{
    match compare(name, text) {
        Comparison::Same => true,
        Comparison::Differs | Comparison::RunsOut => false,
        Comparison::Star { name, text } => fits_behind_star(name, text),
    }
}

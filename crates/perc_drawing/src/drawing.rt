// Rows, drawn.

use super::canvas::Canvas;
use super::layout::{BELOW, GUTTER, OUTSIDE, ROW, SPACING, place_of};
use super::markup::{Word, width};
use super::row::{Outcome, Row, Saying, Shown, Way, What};
use super::shapes::{arrow, boxed, text};
use perc_word::Name;

// No word.
const NONE: Word<'static> = Word::Octets(b"");

/// The name of a column.
pub(super) fn name_of(names: &[Name], column: usize) -> &[u8] {
    if column == 0 {
        return b"distributor";
    }
    match names.get(column - 1) {
        Some(name) => name.as_bytes(),
        None => b"",
    }
}

/// Draws a row at this height.
pub(super) fn draw_row(out: &mut Canvas, names: &[Name], row: &Row, y: u64) {
    let mut base = y.saturating_add(16);
    draw_number(out, row.line, base);
    draw_what(out, names, row, base);
    base = y.saturating_add(ROW).saturating_add(6);
    for outcome in &row.outcomes {
        draw_number(out, outcome.line, base);
        draw_outcome(out, names, outcome, row.head(), base);
        base = base.saturating_add(BELOW);
    }
    draw_rest(out, row, base);
}

// Draws the number of a line of the report.
fn draw_number(out: &mut Canvas, line: u64, base: u64) {
    text(out, b"quiet", b"start", GUTTER, base, &[Word::Number(line)]);
}

// Draws what a row shows.
fn draw_what(out: &mut Canvas, names: &[Name], row: &Row, base: u64) {
    let x = place_of(row.column);
    match &row.what {
        What::Wire {
            way,
            datagram,
            shown,
        } => draw_wire(out, *way, *datagram, shown, row.class(), x, base),
        What::Mark(saying) => draw_mark(out, names, saying, [NONE, NONE, NONE], x, base),
        What::Late { datagram, saying } => {
            let number = Word::Number(u64::from(*datagram));
            draw_mark(
                out,
                names,
                saying,
                [number, Word::Octets(b" "), NONE],
                x,
                base,
            );
        }
    }
}

// Draws a datagram's label and its arrow.
fn draw_wire(
    out: &mut Canvas,
    way: Way,
    datagram: u32,
    shown: &Shown,
    class: &'static [u8],
    x: u64,
    base: u64,
) {
    let middle = SPACING.saturating_add(x) / 2;
    let (anchor, at, how, dashes, from, to) = match way {
        Way::Up => (
            b"middle".as_slice(),
            middle,
            b"".as_slice(),
            b"none".as_slice(),
            x,
            SPACING,
        ),
        Way::Down => (
            b"middle".as_slice(),
            middle,
            b"".as_slice(),
            b"none".as_slice(),
            SPACING,
            x,
        ),
        Way::Reseal => (
            b"middle".as_slice(),
            middle,
            b"resealed ".as_slice(),
            b"6 4".as_slice(),
            SPACING,
            x,
        ),
        Way::Made => (
            b"start".as_slice(),
            OUTSIDE,
            b"made ".as_slice(),
            b"6 4".as_slice(),
            OUTSIDE,
            SPACING,
        ),
    };
    draw_label(out, anchor, at, base, how, datagram, shown);
    arrow(out, class, dashes, from, to, base.saturating_add(6));
}

// Draws the number of a datagram, and what is shown of it.
fn draw_label(
    out: &mut Canvas,
    anchor: &'static [u8],
    x: u64,
    y: u64,
    how: &[u8],
    datagram: u32,
    shown: &Shown,
) {
    let how = Word::Octets(how);
    let datagram = Word::Number(u64::from(datagram));
    let words = match shown {
        Shown::Rtp { pt, seq } => [
            how,
            datagram,
            Word::Octets(b": PT "),
            Word::Number(u64::from(*pt)),
            Word::Octets(b", seq "),
            Word::Number(u64::from(*seq)),
        ],
        Shown::Sized { kind, len } => [
            how,
            datagram,
            Word::Octets(b": "),
            Word::Octets(kind),
            Word::Octets(b", length "),
            Word::Number(*len as u64),
        ],
    };
    text(out, b"plain", anchor, x, y, &words);
}

// Octets and a number, where there is one.
fn number_words(before: &'static [u8], number: Option<u64>) -> (Word<'static>, Word<'static>) {
    match number {
        Some(number) => (Word::Octets(before), Word::Number(number)),
        None => (NONE, NONE),
    }
}

// What happened, behind these words.
fn words_of<'a>(names: &'a [Name], saying: &Saying, first: [Word<'a>; 3]) -> [Word<'a>; 10] {
    let sender = match saying.sender {
        Some(sender) => Word::Octets(name_of(names, sender)),
        None => NONE,
    };
    let number = number_words(b" ", saying.number);
    let epoch = number_words(b", epoch ", saying.epoch);
    [
        first[0],
        first[1],
        first[2],
        Word::Octets(saying.verb),
        sender,
        Word::Octets(saying.reason),
        number.0,
        number.1,
        epoch.0,
        epoch.1,
    ]
}

// Draws what happened, in a box on a column, behind these words.
fn draw_mark<'a>(
    out: &mut Canvas,
    names: &'a [Name],
    saying: &Saying,
    first: [Word<'a>; 3],
    x: u64,
    base: u64,
) {
    let words = words_of(names, saying, first);
    let room = width(&words).saturating_mul(7).saturating_add(14);
    boxed(out, saying.class, x, base.saturating_sub(14), room, 20);
    text(out, saying.class, b"middle", x, base, &words);
}

// Draws one outcome, beside the head of its arrow, with the name of another column where it was there.
fn draw_outcome(out: &mut Canvas, names: &[Name], outcome: &Outcome, head: usize, base: u64) {
    let saying = &outcome.saying;
    let first = if outcome.at == head {
        [NONE, NONE, NONE]
    } else {
        let name = Word::Octets(name_of(names, outcome.at));
        [Word::Octets(saying.lead), name, Word::Octets(b", ")]
    };
    beside(
        out,
        saying.class,
        head,
        base,
        &words_of(names, saying, first),
    );
}

// Draws words beside a column: to its left where there is room.
fn beside(out: &mut Canvas, class: &'static [u8], column: usize, base: u64, words: &[Word<'_>]) {
    let x = place_of(column);
    if column < 2 {
        text(out, class, b"start", x.saturating_add(10), base, words);
    } else {
        text(out, class, b"end", x.saturating_sub(10), base, words);
    }
}

// Draws how many outcomes more there are, or that there are none where one is due.
fn draw_rest(out: &mut Canvas, row: &Row, base: u64) {
    if row.is_lost() {
        let words = [Word::Octets(b"not delivered")];
        beside(out, b"quiet", row.head(), base, &words);
    } else if row.more > 0 {
        let words = [
            Word::Octets(b"and "),
            Word::Number(row.more),
            Word::Octets(b" more"),
        ];
        beside(out, b"quiet", row.head(), base, &words);
    }
}

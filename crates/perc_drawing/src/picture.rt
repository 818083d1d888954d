// A picture of a report: columns and rows, noted line by line and drawn at the end.
ghost use Rattle.std.specs.Prelude.{IfOk};
ghost use Rattle.perc_drawing.specs.Element.{IsPicture};

use super::canvas::Canvas;
use super::drawing::{draw_row, name_of};
use super::element::Tag;
use super::layout::{TOP, place_of};
use super::markup::Word;
use super::row::{Outcome, Row, Saying, Way, What, shown_of};
use super::shapes::{RULES, boxed, line, text};
use perc_report_line::{Denial, Loss, Refusal, ReportLine};
use perc_word::{Name, Octets};
use std::alloc::{AllocError, Global};
use std::collections::BTreeMap;

/// How many rows are drawn at most.
const MOST_ROWS: usize = 1000;

/// How many outcomes are drawn of a datagram at most.
const MOST_OUTCOMES: usize = 20;

/// How many members have columns at most: as many as can join a conference.
const MOST_NAMES: usize = 256;

/// What is drawn of a report: the first thousand rows, and what later lines tell of their datagrams.
#[derive(Drop)]
pub struct Picture {
    alloc: Global,
    /// The names of members in the order in which they came. The distributor has column 0, and the first member column 1.
    names: Vec<Name>,
    rows: Vec<Row>,
    /// The row of a datagram, by its number.
    places: BTreeMap<u32, usize>,
    /// How many lines aren't drawn.
    more: u64,
    /// Whether something found no memory.
    full: bool,
}

impl Picture {
    /// A picture of nothing.
    pub(super) fn new(alloc: Global) -> Picture {
        Picture {
            alloc,
            names: Vec::new(alloc),
            rows: Vec::new(alloc),
            places: BTreeMap::new(alloc),
            more: 0,
            full: false,
        }
    }

    /// Notes a line of the report, by its number. Where no memory is found for it, that is told when the picture is drawn.
    pub(super) fn note(&mut self, line: u64, report: ReportLine<'_>) {
        match report {
            ReportLine::Ekt { spi } => self.row(line, None, mark(b"EKT key: SPI", Some(spi), None)),
            ReportLine::Joined {
                name,
                association: _,
            } => self.row(line, Some(name), mark(b"joined", None, None)),
            ReportLine::Left { name } => self.row(line, Some(name), mark(b"left", None, None)),
            ReportLine::Granted { name, spi } => {
                self.row(line, Some(name), mark(b"granted: SPI", Some(spi), None))
            }
            ReportLine::Denied { name, reason } => self.row(line, Some(name), denied(reason)),
            ReportLine::Rekeyed { name, spi, epoch } => {
                self.row(
                    line,
                    Some(name),
                    mark(b"rekeyed: SPI", Some(spi), Some(epoch)),
                )
            }
            ReportLine::WireUp {
                datagram,
                name,
                octets,
            } => self.wire(line, Way::Up, datagram, Some(name), octets),
            ReportLine::WireMade { datagram, octets } => {
                self.wire(line, Way::Made, datagram, None, octets)
            }
            ReportLine::WireReseal {
                datagram,
                name,
                octets,
            } => self.wire(line, Way::Reseal, datagram, Some(name), octets),
            ReportLine::WireDown {
                datagram,
                name,
                octets,
            } => self.wire(line, Way::Down, datagram, Some(name), octets),
            ReportLine::Dropped {
                datagram,
                name,
                reason,
            } => self.outcome(line, datagram, Some(name), None, dropped(reason)),
            ReportLine::RefuseMedia { datagram, reason } => {
                self.outcome(line, datagram, None, None, refused(reason))
            }
            ReportLine::Accept {
                datagram,
                name,
                sender,
                sent,
                pt: _,
                seq: _,
                marker: _,
                timestamp: _,
                payload: _,
            } => {
                self.outcome(
                    line,
                    datagram,
                    Some(name),
                    Some(sender),
                    accepted(b"", u64::from(sent)),
                )
            },
            ReportLine::Rtcp {
                datagram,
                name,
                octets,
            } => self.outcome(
                line,
                datagram,
                Some(name),
                None,
                accepted(b"RTCP of length", octets.len() as u64),
            ),
            ReportLine::Refuse {
                datagram,
                name,
                reason,
            } => self.outcome(line, datagram, Some(name), None, refused(reason)),
        }
    }

    // The column of a name, a new one where it has none yet, or the distributor's. None where there is no room for another.
    fn column(&mut self, name: Option<Name>) -> Option<usize> {
        let Some(name) = name else {
            return Some(0);
        };
        for place in 0..self.names.len() {
            if self.names[place].same(&name) {
                return Some(place.saturating_add(1));
            }
        }
        if self.names.len() == MOST_NAMES {
            return None;
        }
        if self.names.push(name).is_err() {
            self.full = true;
        }
        Some(self.names.len())
    }

    // Adds a row at a name, or at the distributor, where there is room, and counts the line where there is none.
    fn row(&mut self, line: u64, name: Option<Name>, what: What) {
        if self.rows.len() < MOST_ROWS {
            if let Some(column) = self.column(name) {
                let row = Row {
                    line,
                    column,
                    what,
                    outcomes: Vec::new(self.alloc),
                    more: 0,
                };
                if self.rows.push(row).is_err() {
                    self.full = true;
                }
                return;
            }
        }
        self.pass_over();
    }

    // Adds a datagram from or to a name.
    fn wire(&mut self, line: u64, way: Way, datagram: u32, name: Option<Name>, octets: Octets<'_>) {
        let place = self.rows.len();
        let what = What::Wire {
            way,
            datagram,
            shown: shown_of(&octets),
        };
        self.row(line, name, what);
        if place < self.rows.len() && self.places.insert(datagram, place).is_err() {
            self.full = true;
        }
    }

    // Adds what became of a datagram at a name, or at the distributor, with the name of the sender of what was accepted: below its
    // arrow, or in a row of its own where it has none.
    fn outcome(
        &mut self,
        line: u64,
        datagram: u32,
        name: Option<Name>,
        sender: Option<Name>,
        mut saying: Saying,
    ) {
        let place = self.places.get(&datagram).copied();
        if place.is_none() && self.rows.len() >= MOST_ROWS {
            self.pass_over();
            return;
        }
        if sender.is_some() {
            saying.sender = self.column(sender);
        }
        match place {
            Some(place) => self.below(place, line, name, saying),
            None => self.row(line, name, What::Late { datagram, saying }),
        }
    }

    // Adds an outcome to the row at a place.
    fn below(&mut self, place: usize, line: u64, name: Option<Name>, saying: Saying) {
        let at = self.column(name);
        match (at, self.rows.get_mut(place)) {
            (Some(at), Some(row)) => {
                if row.outcomes.len() == MOST_OUTCOMES {
                    row.more = row.more.saturating_add(1);
                } else if row.outcomes.push(Outcome { line, at, saying }).is_err() {
                    self.full = true;
                }
            }
            _ => self.pass_over(),
        }
    }

    // Counts a line that isn't drawn.
    fn pass_over(&mut self) {
        self.more = self.more.saturating_add(1);
    }

    // Where the rows end.
    fn bottom(&self) -> u64 {
        let mut y = TOP;
        for row in self.rows.as_slice() {
            y = y.saturating_add(row.height());
        }
        y
    }

    /// The picture, where each line found memory.
    pub(super) fn drawn(&self) -> Result<Vec<u8>, AllocError>
        ensures { IfOk result (λ picture. IsPicture picture.items) }
    {
        if self.full {
            return Err(AllocError);
        }
        let bottom = self.bottom().saturating_add(10);
        let width = place_of(self.names.len().saturating_add(1).max(4));
        let height = bottom.saturating_add(60);
        let mut out = Canvas::new(self.alloc, width, height)?;
        out.draw(Tag::Title, &[], &[Word::Octets(b"Report of a conference")]);
        out.draw(Tag::Style, &[], &[Word::Octets(RULES)]);
        boxed(&mut out, b"page", width / 2, 0, width, height);
        draw_columns(&mut out, &self.names, bottom);
        draw_rows(&mut out, &self.names, &self.rows);
        draw_more(&mut out, self.more, bottom);
        out.finish()
    }
}

// Something that happened, in words.
fn told(
    class: &'static [u8],
    verb: &'static [u8],
    reason: &'static [u8],
    number: Option<u64>,
) -> Saying {
    Saying {
        class,
        lead: b"at ",
        verb,
        sender: None,
        reason,
        number,
        epoch: None,
    }
}

// Something that happened at a column, with an SPI and an epoch where there are any.
fn mark(verb: &'static [u8], spi: Option<u16>, epoch: Option<u16>) -> What {
    let mut saying = told(b"mark", verb, b"", spi.map(u64::from));
    saying.epoch = epoch.map(u64::from);
    What::Mark(saying)
}

// A key was denied to a member.
fn denied(denial: Denial) -> What {
    What::Mark(told(b"refused", b"denied: ", denial.text(), denial.number()))
}

// A datagram was refused.
fn refused(refusal: Refusal) -> Saying {
    told(b"refused", b"refused: ", refusal.text(), refusal.number())
}

// A datagram wasn't sent on to a member.
fn dropped(loss: Loss) -> Saying {
    let mut saying = told(b"dropped", b"dropped: ", loss.text(), loss.number());
    saying.lead = b"for ";
    saying
}

// A datagram was accepted, with a number.
fn accepted(what: &'static [u8], number: u64) -> Saying {
    told(b"accepted", b"accepted: ", what, Some(number))
}

// Draws the columns with their names at both ends.
fn draw_columns(out: &mut Canvas, names: &[Name], bottom: u64) {
    for column in 0..=names.len() {
        let x = place_of(column);
        let words = [Word::Octets(name_of(names, column))];
        line(out, b"column", b"none", (x, 40), (x, bottom));
        for top in [16, bottom] {
            boxed(out, b"name", x, top, 136, 26);
            text(out, b"name", b"middle", x, top.saturating_add(18), &words);
        }
    }
}

// Draws rows, one below another.
fn draw_rows(out: &mut Canvas, names: &[Name], rows: &[Row]) {
    let mut y = TOP;
    for row in rows {
        draw_row(out, names, row, y);
        y = y.saturating_add(row.height());
    }
}

// Draws how many lines aren't drawn, where there are any.
fn draw_more(out: &mut Canvas, more: u64, bottom: u64) {
    if more == 0 {
        return;
    }
    let words = [
        Word::Octets(b"Cut after 1000 rows: "),
        Word::Number(more),
        Word::Octets(b" more lines of the report aren't drawn."),
    ];
    let y = bottom.saturating_add(46);
    text(out, b"refused", b"start", place_of(0), y, &words);
}

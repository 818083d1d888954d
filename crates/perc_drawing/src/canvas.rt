// A picture while it is drawn: its start, and elements.
ghost use Rattle.std.specs.Prelude.{ℕ, List, IfOk};
ghost use Rattle.perc_drawing.specs.Element.{IsBegun, IsPicture};

use super::element::{Attribute, Tag, append_element, start};
use super::markup::{Word, plain};
use std::alloc::{AllocError, Global};
use std::marker::Model;

/// The start of a picture and elements, each of them whole. Where no memory is found for one, that is told at the end.
#[derive(Drop)]
pub struct Canvas {
    alloc: Global,
    octets: Vec<u8>,
    /// Whether an element found no memory.
    full: bool,
}

impl Model for Canvas {
    ghost Value = { List ℕ };

    ghost view = { λ c. c.octets.items };

    ghost invariant = { λ c. IsBegun c.octets.items };
}

impl Canvas {
    /// A canvas of this size with nothing on it.
    pub(super) fn new(alloc: Global, width: u64, height: u64) -> Result<Canvas, AllocError> {
        let mut octets = Vec::new(alloc);
        start(&mut octets, width, height)?;
        Ok(Canvas {
            alloc,
            octets,
            full: false,
        })
    }

    /// Draws an element with these attributes, around this text.
    pub(super) fn draw(&mut self, tag: Tag, attributes: &[Attribute<'_>], text: &[Word<'_>]) {
        if self.append(tag, attributes, text).is_err() {
            self.full = true;
        }
    }

    // Appends an element. One for which no memory is found leaves the picture as it was.
    fn append(
        &mut self,
        tag: Tag,
        attributes: &[Attribute<'_>],
        text: &[Word<'_>],
    ) -> Result<(), AllocError> {
        let mut element = Vec::new(self.alloc);
        append_element(&mut element, tag, attributes, text)?;
        self.octets.extend_from_slice(element.as_slice())
    }

    /// The picture, with its end, where each element found memory.
    #[tactic(auto, using(crate::proofs::Drawn::finished))]
    pub(super) fn finish(self) -> Result<Vec<u8>, AllocError>
        ensures { IfOk result (λ picture. IsPicture picture.items) }
    {
        if self.full {
            return Err(AllocError);
        }
        let mut picture = self.octets;
        plain(&mut picture, b"</svg>\n")?;
        Ok(picture)
    }
}

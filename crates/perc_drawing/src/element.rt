// Elements of a picture, and the picture around them (SVG 1.1 chapter 5).
ghost use Rattle.std.specs.Prelude.{◌≡◌, ◌++◌, OnOk, codes};
ghost use Rattle.std.specs.Fmt.{decimal};
ghost use Rattle.perc_drawing.specs.Element as spec;
ghost use Rattle.perc_drawing.specs.Element.{attribute_text, attributes_text, element_text, start_text};

use super::markup::{Word, append_word, append_words, number, plain};
use std::alloc::AllocError;

/// What an element is.
#[derive(Clone, Copy)]
pub enum Tag {
    Line,
    Rect,
    Style,
    Text,
    Title,
}

/// What an attribute is of.
#[derive(Clone, Copy)]
pub enum Key {
    Anchor,
    Class,
    Dashes,
    Height,
    Width,
    X,
    X1,
    X2,
    Y,
    Y1,
    Y2,
}

/// An attribute of an element, and its value.
#[derive(Clone, Copy)]
pub struct Attribute<'a>(pub Key, pub Word<'a>);

// `<NAME`, of an element.
fn opening(tag: Tag) -> &'static [u8]
    ensures { result.now ≡ codes "<" ++ spec.tag_text tag }
{
    match tag {
        Tag::Line => b"<line",
        Tag::Rect => b"<rect",
        Tag::Style => b"<style",
        Tag::Text => b"<text",
        Tag::Title => b"<title",
    }
}

// `</NAME>` and a line feed, of an element.
fn closing(tag: Tag) -> &'static [u8]
    ensures { result.now ≡ codes "</" ++ spec.tag_text tag ++ codes ">\n" }
{
    match tag {
        Tag::Line => b"</line>\n",
        Tag::Rect => b"</rect>\n",
        Tag::Style => b"</style>\n",
        Tag::Text => b"</text>\n",
        Tag::Title => b"</title>\n",
    }
}

// ` NAME="`, of an attribute.
fn beginning(key: Key) -> &'static [u8]
    ensures { result.now ≡ codes " " ++ spec.key_text key ++ codes "=\"" }
{
    match key {
        Key::Anchor => b" text-anchor=\"",
        Key::Class => b" class=\"",
        Key::Dashes => b" stroke-dasharray=\"",
        Key::Height => b" height=\"",
        Key::Width => b" width=\"",
        Key::X => b" x=\"",
        Key::X1 => b" x1=\"",
        Key::X2 => b" x2=\"",
        Key::Y => b" y=\"",
        Key::Y1 => b" y1=\"",
        Key::Y2 => b" y2=\"",
    }
}

/// Appends an element with these attributes, around this text.
pub(super) fn append_element(
    out: &mut Vec<u8>,
    tag: Tag,
    attributes: &[Attribute<'_>],
    text: &[Word<'_>],
) -> Result<(), AllocError>
    ensures { OnOk result (out.new.items ≡ out.old.items
        ++ element_text (record { tag = tag; attributes = attributes.now; text = text.now })) }
{
    plain(out, opening(tag))?;
    append_attributes(out, attributes)?;
    plain(out, b">")?;
    append_words(out, text)?;
    plain(out, closing(tag))
}

// Appends attributes, one after another.
fn append_attributes(out: &mut Vec<u8>, attributes: &[Attribute<'_>]) -> Result<(), AllocError>
    ensures { OnOk result (out.new.items ≡ out.old.items ++ attributes_text attributes.now) }
{
    for each in attributes {
        append_attribute(out, each)?;
    }
    Ok(())
}

// Appends ` NAME="VALUE"`.
fn append_attribute(out: &mut Vec<u8>, given: &Attribute<'_>) -> Result<(), AllocError>
    ensures { OnOk result (out.new.items ≡ out.old.items ++ attribute_text given.now) }
{
    plain(out, beginning(given.0))?;
    append_word(out, &given.1)?;
    plain(out, b"\"")
}

/// Appends the start of a picture of this size.
pub(super) fn start(out: &mut Vec<u8>, width: u64, height: u64) -> Result<(), AllocError>
    ensures { OnOk result (out.new.items ≡ out.old.items ++ start_text width height) }
{
    let front = b"<svg xmlns=\"http://www.w3.org/2000/svg\" width=\"";
    pair(out, front, width, b"\" height=\"", height, b"\"")?;
    pair(out, b" viewBox=\"0 0 ", width, b" ", height, b"\">\n")
}

// Appends two numbers, with octets before, between and behind them.
fn pair(
    out: &mut Vec<u8>,
    before: &[u8],
    first: u64,
    between: &[u8],
    second: u64,
    behind: &[u8],
) -> Result<(), AllocError>
    ensures { OnOk result (out.new.items ≡ out.old.items
        ++ (before.now ++ decimal first ++ between.now ++ decimal second ++ behind.now)) }
{
    plain(out, before)?;
    number(out, first)?;
    plain(out, between)?;
    number(out, second)?;
    plain(out, behind)
}

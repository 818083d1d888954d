// Texts, lines and boxes. Their classes give the colours.
use super::canvas::Canvas;
use super::element::{Attribute, Key, Tag};
use super::markup::Word;

/// The rules for the classes. Texts have a white edge, so that they can be read over a column.
pub(super) const RULES: &[u8] =
    b"text{font:12px Helvetica,Arial,sans-serif;fill:#1f2328;stroke:#fff;stroke-width:4px;paint-order:stroke;stroke-linejoin:round} \
    line{stroke:#1f2328;stroke-width:1.4px} rect{fill:#fff;stroke:#57606a} rect.page{stroke:none} \
    text.quiet{fill:#6e7781;font-size:11px} text.name{font:bold 13px Menlo,Consolas,monospace} rect+text{stroke:none} \
    line.column{stroke:#d0d7de} rect.name{fill:#eaeef2} rect.mark{fill:#f6f8fa;stroke:#afb8c1} text.accepted{fill:#116329} \
    line.accepted{stroke:#1a7f37} rect.accepted{fill:#dafbe1;stroke:#1a7f37} text.refused{fill:#a40e26} \
    line.refused{stroke:#cf222e} rect.refused{fill:#ffebe9;stroke:#cf222e} text.dropped{fill:#953800} \
    line.dropped{stroke:#bc4c00} rect.dropped{fill:#fff1e5;stroke:#bc4c00}";

/// Draws a text, of which the `anchor`, `start`, `middle` or `end`, stands at a place.
pub(super) fn text(
    out: &mut Canvas,
    class: &'static [u8],
    anchor: &'static [u8],
    x: u64,
    y: u64,
    words: &[Word<'_>],
) {
    let attributes = [
        Attribute(Key::Class, Word::Octets(class)),
        Attribute(Key::Anchor, Word::Octets(anchor)),
        Attribute(Key::X, Word::Number(x)),
        Attribute(Key::Y, Word::Number(y)),
    ];
    out.draw(Tag::Text, &attributes, words);
}

/// Draws a line between two places, with dashes of these lengths.
pub(super) fn line(
    out: &mut Canvas,
    class: &'static [u8],
    dashes: &'static [u8],
    from: (u64, u64),
    to: (u64, u64),
) {
    let attributes = [
        Attribute(Key::Class, Word::Octets(class)),
        Attribute(Key::Dashes, Word::Octets(dashes)),
        Attribute(Key::X1, Word::Number(from.0)),
        Attribute(Key::Y1, Word::Number(from.1)),
        Attribute(Key::X2, Word::Number(to.0)),
        Attribute(Key::Y2, Word::Number(to.1)),
    ];
    out.draw(Tag::Line, &attributes, &[]);
}

/// Draws a box of this width and height, around a middle.
pub(super) fn boxed(
    out: &mut Canvas,
    class: &'static [u8],
    middle: u64,
    top: u64,
    width: u64,
    height: u64,
) {
    let attributes = [
        Attribute(Key::Class, Word::Octets(class)),
        Attribute(Key::X, Word::Number(middle.saturating_sub(width / 2))),
        Attribute(Key::Y, Word::Number(top)),
        Attribute(Key::Width, Word::Number(width)),
        Attribute(Key::Height, Word::Number(height)),
    ];
    out.draw(Tag::Rect, &attributes, &[]);
}

/// Draws a level arrow from one place to another.
pub(super) fn arrow(
    out: &mut Canvas,
    class: &'static [u8],
    dashes: &'static [u8],
    from: u64,
    to: u64,
    y: u64,
) {
    let behind = if from < to {
        to.saturating_sub(8)
    } else {
        to.saturating_add(8)
    };
    line(out, class, dashes, (from, y), (to, y));
    line(out, class, b"none", (behind, y.saturating_sub(4)), (to, y));
    line(out, class, b"none", (behind, y.saturating_add(4)), (to, y));
}
